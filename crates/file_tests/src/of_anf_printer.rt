ghost use Rattle.std.specs.Prelude.{◌≡◌, ◌≤◌, ◌<◌, ◌^◌, IsTrue, IfOk, All, length, map, reverse};
ghost use Rattle.std.specs.Prelude.{vec_len};
ghost use Rattle.std.specs.List.Sorted.{IsStrictlyIncreasing};
ghost use Rattle.lattice.specs.Family.{IsFamily};
ghost use Rattle.anf_printer.specs.Text.{shown_answer, IsAnswerOver};

use anf_printer::{Shown, answer_text, poly_text};
use lattice::{Kind, Mode, Mono, MonoLists, Monos, Name, Names};
use pla_reader::{Pla, Rows};
use std::alloc::{AllocError, Global};
use std::process::Abort;
use std::test::Fail;

// An output: the monomials of its polynomial and of its basis elements, ascending, and what is
// printed.
struct Output {
    monomials: &'static [u64],
    basis: &'static [&'static [u64]],
    polynomial: &'static [u8],
    line: &'static [u8],
    basis_lines: &'static [u8],
}

struct Case {
    inputs: u32,
    in_names: &'static [&'static [u8]],
    out_names: &'static [&'static [u8]],
    outputs: &'static [Output],
}

fn names_of(alloc: Global, texts: &[&[u8]]) -> Result<Names, AllocError>
    ensures { IfOk result (λ names. length names ≡ length texts.now) }
{
    let mut names = Vec::new(alloc);
    for text in texts {
        names.push(Name::from_vec(Vec::from_slice(alloc, text)?))?;
    }
    Ok(Names::from_vec(names))
}

// A description without rows.
fn described(alloc: Global, case: &Case, outputs: usize) -> Result<Pla, Fail>
    ensures inputs { IfOk result (λ p. p.inputs ≤ 62) }
    ensures outputs { IfOk result (λ p. p.outputs ≡ outputs) }
{
    let inputs = case.inputs;
    let in_names = names_of(alloc, case.in_names)?;
    let out_names = names_of(alloc, case.out_names)?;
    if inputs == 0
        || inputs > 62
        || outputs == 0
        || outputs > 64
        || (!in_names.is_empty() && in_names.len() != inputs as usize)
        || (!out_names.is_empty() && out_names.len() != outputs)
    {
        return Err(Fail::new("sizes"));
    }
    Ok(Pla {
        inputs,
        outputs: outputs as u32,
        kind: Kind::Fr,
        rows: Rows::new(alloc),
        in_names,
        out_names,
    })
}

// Whether the numbers ascend strictly and lie below `limit`.
fn ascends_below(numbers: &[u64], limit: u64) -> bool
    ensures ascends { IsTrue result → IsStrictlyIncreasing numbers.now }
    ensures below { IsTrue result → All (λ m. m < limit) numbers.now }
{
    for (i, m) in numbers.iter().enumerate() {
        if *m >= limit || (i > 0 && numbers[i - 1] >= *m) {
            return false;
        }
    }
    true
}

fn polynomial(alloc: Global, inputs: u32, ascending: &[u64]) -> Result<Monos, Fail>
    requires { inputs ≤ 62 }
    ensures { IfOk result (λ p. IsFamily inputs (reverse p)) }
{
    if !ascends_below(ascending, 1 << inputs) {
        return Err(Fail::new("monomials"));
    }
    let mut terms = Monos::new(alloc);
    for m in ascending.iter().rev() {
        terms.push(Mono(*m))?;
    }
    Ok(terms)
}

fn shown(alloc: Global, inputs: u32, output: &Output) -> Result<Shown, Fail>
    requires { inputs ≤ 62 }
    ensures { IfOk result (λ s. IsAnswerOver inputs (shown_answer s)) }
{
    let mut basis = MonoLists::new(alloc);
    for element in output.basis {
        basis.push(polynomial(alloc, inputs, element)?)?;
    }
    Ok(Shown {
        poly: polynomial(alloc, inputs, output.monomials)?,
        basis,
    })
}

fn all_shown(alloc: Global, inputs: u32, outputs: &[Output]) -> Result<Vec<Shown>, Fail>
    requires { inputs ≤ 62 }
    ensures count { IfOk result (λ all. vec_len all ≡ length outputs.now) }
    ensures answers { IfOk result
        (λ all. All (λ s. IsAnswerOver inputs (shown_answer s)) all.items) }
{
    let mut all = Vec::new(alloc);
    for output in outputs {
        all.push(shown(alloc, inputs, output)?)?;
    }
    Ok(all)
}

static CASES: [Case; 5] = [
    Case {
        inputs: 2,
        in_names: &[],
        out_names: &[],
        outputs: &[Output {
            monomials: &[1, 2],
            basis: &[],
            polynomial: b"x1 + x2",
            line: b"f1 = x1 + x2\n",
            basis_lines: b"",
        }],
    },
    Case {
        inputs: 2,
        in_names: &[],
        out_names: &[],
        outputs: &[Output {
            monomials: &[1, 2, 3],
            basis: &[],
            polynomial: b"x1*x2 + x1 + x2",
            line: b"f1 = x1*x2 + x1 + x2\n",
            basis_lines: b"",
        }],
    },
    Case {
        inputs: 2,
        in_names: &[],
        out_names: &[],
        outputs: &[Output {
            monomials: &[1, 2],
            basis: &[&[1, 3]],
            polynomial: b"x1 + x2",
            line: b"f1 = x1 + x2\n",
            basis_lines: b"0 = x1*x2 + x2\n",
        }],
    },
    Case {
        inputs: 3,
        in_names: &[b"a", b"b", b"cin"],
        out_names: &[b"s", b"c"],
        outputs: &[
            Output {
                monomials: &[1, 2, 4],
                basis: &[],
                polynomial: b"a + b + cin",
                line: b"s = a + b + cin\n",
                basis_lines: b"",
            },
            Output {
                monomials: &[3, 5, 6],
                basis: &[],
                polynomial: b"a*b + a*cin + b*cin",
                line: b"c = a*b + a*cin + b*cin\n",
                basis_lines: b"",
            },
        ],
    },
    // The names of the inputs are not plain, and those of the outputs not distinct.
    Case {
        inputs: 3,
        in_names: &[b"0", b"1", b"2"],
        out_names: &[b"y", b"y"],
        outputs: &[
            Output {
                monomials: &[0],
                basis: &[&[0, 1], &[2], &[0, 4]],
                polynomial: b"1",
                line: b"f1 = 1\n",
                basis_lines: b"0 = x3 + 1\n0 = x2\n0 = x1 + 1\n",
            },
            Output {
                monomials: &[],
                basis: &[&[0]],
                polynomial: b"0",
                line: b"f2 = 0\n",
                basis_lines: b"0 = 1\n",
            },
        ],
    },
];

fn expect_text(rt: &impl Abort, found: &[u8], wanted: &[u8]) {
    assert_eq!(rt; found, wanted);
}

#[test]
fn cases(rt: HostRuntime) -> Result<(), Fail> {
    let alloc = rt.alloc();
    for case in &CASES {
        let outputs = case.outputs;
        let p = described(alloc, case, outputs.len())?;
        let all = all_shown(alloc, p.inputs, outputs)?;
        let anf = answer_text(alloc, &p, Mode::Anf, &all)?;
        let basis = answer_text(alloc, &p, Mode::Basis, &all)?;
        for (j, output) in outputs.iter().enumerate() {
            let terms = polynomial(alloc, p.inputs, output.monomials)?;
            let text = poly_text(alloc, &p, terms.as_slice())?;
            expect_text(&rt, text.as_slice(), output.polynomial);
            expect_text(
                &rt,
                anf.as_slice().get(j).ok_or("page")?.as_slice(),
                output.line,
            );
            let mut lines = Vec::from_slice(alloc, output.line)?;
            lines.extend_from_slice(output.basis_lines)?;
            expect_text(
                &rt,
                basis.as_slice().get(j).ok_or("page")?.as_slice(),
                &lines,
            );
        }
    }
    Ok(())
}
