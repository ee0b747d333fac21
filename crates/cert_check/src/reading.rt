//! Reading an answer from bytes.
ghost use Rattle.std.specs.Prelude.{◌≡◌, ◌<◌, ◌≤◌, ◌^◌, [], length, IfOk, MatchResult, Some, None};
ghost use Rattle.pla_reader.specs.Reading.{description};
ghost use Rattle.cert_check.specs.Reading.{words, is_next, left_fault, line_fault, with_element};
ghost use Rattle.cert_check.specs.Reading.{with_line, read_on, answer_reading, GivesAnswer};
ghost use Rattle.pla_reader.specs.Lines.{lines_of};
ghost use Rattle.cert_check.specs.Right.{IsAnswerFor};
ghost use Rattle.pla_reader.specs.Parts.{Stops};
ghost use Rattle.lattice.specs.declared.limits.TheConstants.{MAX_VARS};

use crate::answer::{Given, GivenAnswer, GivenOutput};
use crate::form::{is_element, sides};
use crate::lines::bare;
use crate::refusal::{AnswerRefusal, AnswerWhy};
use crate::terms::read_right;
use lattice::{Memory, Name, Seq};
use pla_reader::{LineRefusal, Pla, includes, names_in_place, printed, split_line};
use std::alloc::Global;

/// Whether the name is that of the output behind so many.
fn is_next(outs: &[Name], before: usize, name: &[u8]) -> bool
    ensures { result ≡ is_next outs.now before name.now }
{
    match outs.get(before) {
        Some(next) => next.as_slice() == name,
        None => false,
    }
}

/// Checks the left side of a line that follows those of so many outputs.
#[tactic(auto, unfolding(crate::specs::Reading::left_fault))]
fn check_left(outs: &[Name], before: usize, left: &[u8]) -> Result<(), AnswerWhy>
    ensures { MatchResult result (λ _. left_fault outs.now before left.now ≡ None)
        (λ why. left_fault outs.now before left.now ≡ Some why) }
{
    if is_element(left) {
        if before == 0 {
            return Err(AnswerWhy::MissingOutput);
        }
        return Ok(());
    }
    if !includes(outs, left) {
        return Err(AnswerWhy::UnknownName);
    }
    if !is_next(outs, before, left) {
        return Err(AnswerWhy::MissingOutput);
    }
    Ok(())
}

/// Puts an element at the end of the basis of the last output.
fn add_element(outputs: &mut Vec<GivenOutput>, element: Given) -> Result<(), Memory>
    ensures { IfOk result (λ _. outputs.new.items ≡ with_element outputs.old.items element) }
{
    if let Some(mut last) = outputs.pop() {
        last.basis.push(element)?;
        outputs.push(last)?;
    }
    Ok(())
}

/// Adds what a line says to what was read. After an `Err` nothing is said of the outputs.
fn add_line(
    alloc: Global,
    ins: &[Name],
    outs: &[Name],
    outputs: &mut Vec<GivenOutput>,
    number: u32,
    line: &[u8],
) -> Result<(), LineRefusal<AnswerWhy>>
    requires { length ins.now ≤ MAX_VARS }
    ensures { MatchResult result
        (λ _. (line_fault ins.now outs.now (length outputs.old.items) (words line.now) ≡ None)
        × (outputs.new.items ≡ with_line ins.now outputs.old.items number (words line.now)))
        (λ e. Stops e (line_fault ins.now outs.now (length outputs.old.items) (words line.now))) }
{
    let Some((left, right)) = sides(line) else {
        return Err(LineRefusal::Bad(AnswerWhy::BadLine));
    };
    check_left(outs, outputs.len(), left)?;
    let given = Given {
        terms: read_right(alloc, ins, right)?,
        line: number,
    };
    if is_element(left) {
        add_element(outputs, given)?;
    } else {
        outputs.push(GivenOutput {
            poly: given,
            basis: Seq::new(alloc),
        })?;
    }
    Ok(())
}

/// Reads the lines of an answer with these names of inputs and outputs.
fn read_lines(
    alloc: Global,
    ins: &[Name],
    outs: &[Name],
    text: &[u8],
) -> Result<GivenAnswer, AnswerRefusal>
    requires few { length ins.now ≤ MAX_VARS }
    requires short { length text.now < 2 ^ 32 }
    ensures { GivesAnswer result (read_on ins.now outs.now 0 [] (lines_of text.now)) }
{
    let mut outputs = Vec::new(alloc);
    let mut count = 0;
    let mut rest = text;
    while !rest.is_empty() {
        let (line, after) = split_line(rest);
        count += 1;
        rest = after;
        let line = bare(line);
        if !line.is_empty() {
            match add_line(alloc, ins, outs, &mut outputs, count, line) {
                Ok(()) => {}
                Err(refusal) => return Err(AnswerRefusal::of_line(refusal, count)),
            }
        }
    }
    if outputs.len() < outs.len() {
        return Err(AnswerRefusal::Bad {
            line: count,
            why: AnswerWhy::MissingOutput,
        });
    }
    Ok(GivenAnswer::from_vec(outputs))
}

/// Reads an answer for the description: for each output in order its line, and behind it the lines
/// of its basis elements.
///
/// A line is `L = R`, with one space on each side of the first `=`. L is the printed name of the
/// output, or `0` for an element. R is `0`, or terms joined by ` + `, from the greatest to the
/// least. A term is `1`, or printed names of inputs joined by `*`, in the order of the inputs.
/// Empty lines are skipped and counted. `Bad` has the first bad line and the first check that it
/// fails.
pub fn read_answer(alloc: Global, p: &Pla, text: &[u8]) -> Result<GivenAnswer, AnswerRefusal>
    requires { length text.now < 2 ^ 32 }
    ensures reading { GivesAnswer result (answer_reading (description p.now) text.now) }
    ensures polynomials { IfOk result (IsAnswerFor (description p.now)) }
{
    let for_inputs = names_in_place(alloc, "x", p.inputs, &p.in_names)?;
    let ins = printed(&for_inputs, &p.in_names);
    let for_outputs = names_in_place(alloc, "f", p.outputs, &p.out_names)?;
    let outs = printed(&for_outputs, &p.out_names);
    read_lines(alloc, ins, outs, text)
}
