//! The text of a solution.
ghost use Rattle.std.specs.Prelude.{◌≡◌, ◌≤◌, ◌<◌, ◌++◌, IfOk, OnOk, All, length, map};
ghost use Rattle.std.specs.Prelude.{reverse, zip};
ghost use Rattle.std.specs.Option.{ForSome};
ghost use Rattle.lattice.specs.Family.{IsFamily};
ghost use Rattle.aig_reader.specs.declared.circuit.TheConstants.{MAX_OUTPUTS};
ghost use Rattle.anf_printer.specs.Text.{shown_line};
ghost use Rattle.anf_printer.specs.declared.lines.Left.TheVariants.{Output, Zero};
ghost use Rattle.circuit_run.specs.Due.{solution_text};
ghost use Rattle.circuit_run.specs.Parts.{IsWhole, view};
ghost use Rattle.circuit_run.specs.Texts.{answered, polynomials_text};

use crate::view::Seen;
use anf_printer::{Left, Line, lines_with};
use lattice::{Memory, Monos, Name, Text};
use pla_reader::{names_in_place, printed};
use std::alloc::{AllocError, Global};

/// The numbers, from 1 on, of the outputs that are answered: all but that of the one that says
/// which points are cared for, whose position is given.
#[tactic(auto, using(crate::proofs::PrintedLines::number_rules))]
pub(crate) fn answered(
    alloc: Global,
    outputs: u32,
    care: Option<usize>,
) -> Result<Vec<u32>, AllocError>
    requires few { outputs ≤ MAX_OUTPUTS }
    requires care { ForSome care (λ output. output < outputs) }
    ensures { IfOk result (λ numbers. numbers.items ≡ answered outputs care) }
{
    let mut numbers = Vec::new(alloc);
    for output in 0..outputs {
        numbers.push(output + 1)?;
    }
    if let Some(output) = care {
        numbers.remove(output);
    }
    Ok(numbers)
}

// A line for the answer of each output, which is on the left by its number.
fn answer_lines<'a>(
    alloc: Global,
    numbers: &[u32],
    answers: &'a [Monos],
) -> Result<Vec<Line<'a>>, AllocError>
    requires { length answers.now ≡ length numbers.now }
    ensures { IfOk result (λ lines. map shown_line lines.items
        ≡ zip (map (λ number. Output number) numbers.now) (map reverse answers.now)) }
{
    let mut lines = Vec::new(alloc);
    for (number, terms) in numbers.iter().zip(answers) {
        lines.push(Line {
            left: Left::Output(*number),
            terms: terms.as_slice(),
        })?;
    }
    Ok(lines)
}

// Puts a line for each element of the basis, with 0 on its left, at the end of the lines.
fn push_basis_lines<'a>(lines: &mut Vec<Line<'a>>, basis: &'a [Monos]) -> Result<(), AllocError>
    ensures { OnOk result (map shown_line lines.new.items ≡ map shown_line lines.old.items
        ++ map (λ element. (Zero, element)) (map reverse basis.now)) }
{
    for terms in basis {
        lines.push(Line {
            left: Left::Zero,
            terms: terms.as_slice(),
        })?;
    }
    Ok(())
}

// The lines of the answers to the outputs of these numbers, and of the elements of a basis, whose
// terms are given from the greatest to the least.
fn polynomials_text(
    alloc: Global,
    names: &[Name],
    outputs: &[Name],
    numbers: &[u32],
    answers: &[Monos],
    basis: &[Monos],
) -> Result<Text, Memory>
    requires count { length answers.now ≡ length numbers.now }
    requires numbers { All (λ number. (1 ≤ number) × (number ≤ length outputs.now)) numbers.now }
    requires answers { All (IsFamily (length names.now)) (map reverse answers.now) }
    requires basis { All (IsFamily (length names.now)) (map reverse basis.now) }
    ensures { IfOk result (λ text. text ≡ polynomials_text names.now outputs.now numbers.now
        (map reverse answers.now) (map reverse basis.now)) }
{
    let mut lines = answer_lines(alloc, numbers, answers)?;
    push_basis_lines(&mut lines, basis)?;
    lines_with(alloc, names, outputs, &lines)
}

/// The lines of the least polynomials, and of the elements of a basis, of the view that is seen.
/// The terms are given from the greatest to the least.
#[tactic(auto, using(crate::proofs::Seeing::count_names))]
pub(crate) fn solution_text(
    alloc: Global,
    seen: &Seen,
    polynomials: &[Monos],
    basis: &[Monos],
) -> Result<Text, Memory>
    requires whole { IsWhole (view seen.now) }
    requires count { length polynomials.now
        ≡ length (answered (length seen.now.aig.outputs) seen.now.care) }
    requires polynomials { All (IsFamily seen.now.aig.inputs) (map reverse polynomials.now) }
    requires basis { All (IsFamily seen.now.aig.inputs) (map reverse basis.now) }
    ensures { IfOk result (λ text. text ≡ solution_text (view seen.now)
        (record { polynomials = map reverse polynomials.now; basis = map reverse basis.now })) }
{
    let count = seen.aig.outputs.len() as u32;
    let in_place = names_in_place(alloc, "f", count, &seen.aig.out_names)?;
    let outputs = printed(&in_place, &seen.aig.out_names);
    let numbers = answered(alloc, count, seen.care)?;
    let names = seen.in_names.as_slice();
    polynomials_text(alloc, names, outputs, &numbers, polynomials, basis)
}
