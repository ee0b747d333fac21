ghost use Rattle.std.specs.Prelude.{◌≡◌, ◌≤◌, ◌<◌, ◌^◌, IfOk, length};
ghost use Rattle.aig_reader.specs.Reading.{circuit};
ghost use Rattle.gate_build.specs.Steps.{circuit_list, circuit_needs};
ghost use Rattle.lattice.proofs.Diagrams.{working_set_is_node_list};

use crate::of_cube_build::store_for;
use aig_reader::{Aig, Gate, read};
use bool_poly::Serial;
use gate_build::{Choice, Pair, Step, output_polynomials, plan_steps};
use lattice::{Mono, MonoLists, Planned, value_at};
use node_store::SolveRefusal;
use set_algebra::lists_upto;
use std::alloc::Global;
use std::test::Fail;

// x1 + .. + x8, by seven times three gates.
const PARITY: &[u8] =
    b"aig 29 8 0 1 21\n59\n\x0d\x03\x10\x01\x01\x02\x01\x10\x04\x10\x01\x02\x01\x14\x04\x14\x01\x02\x01\x18\x04\x18\x01\x02\x01\x1c\x04\x1c\x01\x02\x01 \x04 \x01\x02\x01$\x04$\x01\x02";

// The sum of x1 x2 x3 and x4 x5 x6 as binary numbers: four digits, the greatest first.
const ADDER: &[u8] =
    b"aig 28 6 0 4 22\n57\n51\n33\n19\n\x01\x07\x04\x05\x01\x02\x08\x06\x0b\x07\x0e\x05\x01\x02\x01\x06\x04\x06\x01\x02\x18\x06\x09\x07\x01\x02\x1f\x07\"\x05\x01\x02\x01\x07\x04\x05\x01\x02,\x06\x09\x06\x01\x02";

// x2 where x1 is 1, and x3 where it is 0; and the complement.
const MULTIPLEXER: &[u8] = b"aig 6 3 0 2 3\n13\n12\n\x04\x02\x04\x03\x01\x02";

// Two gates with a common operand that is complemented in neither, and one that is 1 where neither
// of them is.
const NO_MULTIPLEXER: &[u8] = b"aig 6 3 0 1 3\n12\n\x04\x02\x04\x04\x01\x02";

// The gate of a multiplexer, and one of the gates within it.
const SHARED: &[u8] = b"aig 6 3 0 2 3\n12\n8\n\x04\x02\x04\x03\x01\x02";

// The constants, an input, and the complement of the other one.
const NO_GATES: &[u8] = b"aig 2 2 0 4 0\n0\n1\n2\n5\n";

// What the outputs of a circuit need.
#[derive(Drop)]
struct NeedsOf<'a>(&'a Aig);

impl Planned for NeedsOf<'_> {
    ghost families = { λ c. circuit_needs (circuit c.0.now) };

    ghost node_list = { λ c. working_set_is_node_list c.0.now.inputs
        (circuit_list (circuit c.0.now)) };
}

// The circuit that the bytes say.
fn circuit_of(alloc: Global, bytes: &[u8]) -> Result<Aig, Fail> {
    Ok(read(alloc, bytes).map_err(|_| "a circuit")?)
}

// The terms of each output's polynomial, in a store of 2^bits slots.
fn terms_of_outputs(alloc: Global, aig: &Aig, bits: u32) -> Result<MonoLists, Fail>
    requires inputs { 1 ≤ aig.now.inputs }
    requires bits { (4 ≤ bits) × (bits ≤ 23) }
{
    let steps = plan_steps(alloc, aig)?;
    let mut store = store_for(alloc, bits, aig.inputs, &NeedsOf(aig))?;
    let outputs = output_polynomials(alloc, &mut store, &mut Serial, aig, &steps)?;
    Ok(lists_upto(alloc, &mut store, &outputs, 1000)?)
}

// The sum of eight inputs has eight terms.
#[test]
fn parity(rt: HostRuntime) -> Result<(), Fail> {
    let aig = circuit_of(rt.alloc(), PARITY)?;
    assert!(rt; 1 <= aig.inputs);
    let lists = terms_of_outputs(rt.alloc(), &aig, 8)?;
    assert_eq!(rt; lists.len(), 1);
    let terms = [128, 64, 32, 16, 8, 4, 2, 1].map(|m| Mono(m));
    assert_eq!(rt; lists.as_slice()[0].as_slice(), terms.as_slice());
    Ok(())
}

// Each digit of the sum at each point, as the sum of the numbers says.
#[test]
fn sums_of_numbers(rt: HostRuntime) -> Result<(), Fail> {
    let aig = circuit_of(rt.alloc(), ADDER)?;
    assert!(rt; 1 <= aig.inputs);
    let lists = terms_of_outputs(rt.alloc(), &aig, 10)?;
    assert_eq!(rt; lists.len(), 4);
    for point in 0..64u64 {
        let sum = point / 8 + point % 8;
        for (k, terms) in lists.as_slice().iter().enumerate() {
            let digit = [sum / 8 % 2, sum / 4 % 2, sum / 2 % 2, sum % 2][k];
            assert_eq!(rt; value_at(terms.as_slice(), point), digit == 1);
        }
    }
    Ok(())
}

// Small circuits, an output of each by its place, and its polynomial.
#[test]
fn small_circuits(rt: HostRuntime) -> Result<(), Fail> {
    let cases: [(&[u8], usize, &[Mono]); 9] = [
        (MULTIPLEXER, 0, &[Mono(6), Mono(5), Mono(1)]),
        (MULTIPLEXER, 1, &[Mono(6), Mono(5), Mono(1), Mono(0)]),
        (NO_MULTIPLEXER, 0, &[Mono(7), Mono(6), Mono(5), Mono(0)]),
        (SHARED, 0, &[Mono(6), Mono(5), Mono(1), Mono(0)]),
        (SHARED, 1, &[Mono(6)]),
        (NO_GATES, 0, &[]),
        (NO_GATES, 1, &[Mono(0)]),
        (NO_GATES, 2, &[Mono(2)]),
        (NO_GATES, 3, &[Mono(1), Mono(0)]),
    ];
    for (bytes, output, polynomial) in cases {
        let aig = circuit_of(rt.alloc(), bytes)?;
        assert!(rt; 1 <= aig.inputs);
        let lists = terms_of_outputs(rt.alloc(), &aig, 4)?;
        assert!(rt; output < lists.len());
        assert_eq!(rt; lists.as_slice()[output].as_slice(), polynomial);
    }
    Ok(())
}

// The steps of small circuits: what is recognised, and what is skipped.
#[test]
fn steps_of_circuits(rt: HostRuntime) -> Result<(), Fail> {
    let mux = Step::Mux(Choice {
        select: 3,
        one: 7,
        zero: 5,
    });
    let cases: [(&[u8], &[Step]); 5] = [
        (MULTIPLEXER, &[Step::Skip, Step::Skip, mux]),
        (
            SHARED,
            &[Step::And(Gate { left: 4, right: 2 }), Step::Skip, mux],
        ),
        (
            NO_MULTIPLEXER,
            &[
                Step::And(Gate { left: 4, right: 2 }),
                Step::And(Gate { left: 6, right: 2 }),
                Step::And(Gate { left: 11, right: 9 }),
            ],
        ),
        // An exclusive or.
        (
            b"aig 5 2 0 1 3\n11\n\x01\x03\x04\x01\x01\x02",
            &[
                Step::Skip,
                Step::Skip,
                Step::Xor(Pair { left: 4, right: 3 }),
            ],
        ),
        // A choice between one and the same, and a gate that no output needs.
        (
            b"aig 6 2 0 1 4\n10\n\x01\x03\x03\x02\x01\x02\x08\x02",
            &[
                Step::Skip,
                Step::Skip,
                Step::Mux(Choice {
                    select: 3,
                    one: 4,
                    zero: 4,
                }),
                Step::Skip,
            ],
        ),
    ];
    for (bytes, wanted) in cases {
        let aig = circuit_of(rt.alloc(), bytes)?;
        let steps = plan_steps(rt.alloc(), &aig)?;
        assert_eq!(rt; steps.as_slice(), wanted);
    }
    Ok(())
}
