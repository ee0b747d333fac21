//! The texts that a run writes.
ghost use Rattle.std.specs.Prelude.{◌≡◌, IfOk, length, map, reverse, zip};
ghost use Rattle.std.specs.List.{All};
ghost use Rattle.lattice.specs.Family.{IsFamily};
ghost use Rattle.pla_reader.specs.Reading.{description};
ghost use Rattle.anf_printer.specs.Text.{shown_line};
ghost use Rattle.anf_printer.specs.declared.lines.Left.TheVariants.{Output, Zero};
ghost use Rattle.nf_run.specs.Due.{answers_text, basis_text};
ghost use Rattle.nf_run.specs.Queries.{IsQueryOver};

use crate::queries::Query;
use anf_printer::{Left, Line, lines_text};
use lattice::{Memory, Monos, Text};
use pla_reader::Pla;
use std::alloc::{AllocError, Global};

// A line for each answer, with the output of its query on the left.
fn answer_lines<'a>(
    alloc: Global,
    queries: &[Query],
    answers: &'a [Monos],
) -> Result<Vec<Line<'a>>, AllocError>
    requires { length answers.now ≡ length queries.now }
    ensures { IfOk result (λ lines. map shown_line lines.items
        ≡ zip (map (λ q. Output q.output) queries.now) (map reverse answers.now)) }
{
    let mut lines = Vec::new(alloc);
    for (query, terms) in queries.iter().zip(answers) {
        lines.push(Line {
            left: Left::Output(query.output),
            terms: terms.as_slice(),
        })?;
    }
    Ok(lines)
}

// A line for each element, with 0 on the left.
fn basis_lines<'a>(alloc: Global, basis: &'a [Monos]) -> Result<Vec<Line<'a>>, AllocError>
    ensures { IfOk result (λ lines. map shown_line lines.items
        ≡ map (λ e. (Zero, e)) (map reverse basis.now)) }
{
    let mut lines = Vec::new(alloc);
    for terms in basis {
        lines.push(Line {
            left: Left::Zero,
            terms: terms.as_slice(),
        })?;
    }
    Ok(lines)
}

/// The lines of the answers, whose terms are given from the greatest to the least, to the queries.
pub(crate) fn answers_text(
    alloc: Global,
    p: &Pla,
    queries: &[Query],
    answers: &[Monos],
) -> Result<Text, Memory>
    requires count { length answers.now ≡ length queries.now }
    requires over { All (IsQueryOver p.now.inputs p.now.outputs) queries.now }
    requires families { All (IsFamily p.now.inputs) (map reverse answers.now) }
    ensures { IfOk result (λ text. text
        ≡ answers_text (description p.now) queries.now (map reverse answers.now)) }
{
    let lines = answer_lines(alloc, queries, answers)?;
    lines_text(alloc, p, &lines)
}

/// The lines of the elements of a basis, whose terms are given from the greatest to the least.
pub(crate) fn basis_text(alloc: Global, p: &Pla, basis: &[Monos]) -> Result<Text, Memory>
    requires { All (IsFamily p.now.inputs) (map reverse basis.now) }
    ensures { IfOk result (λ text. text ≡ basis_text (description p.now) (map reverse basis.now)) }
{
    let lines = basis_lines(alloc, basis)?;
    lines_text(alloc, p, &lines)
}
