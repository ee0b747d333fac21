//! The text of lines, each of what is on its left and a polynomial.
ghost use Rattle.std.specs.Prelude.{◌≡◌, ◌++◌, IfOk, OnOk, All, length, map, reverse};
ghost use Rattle.lattice.specs.Family.{IsFamily};
ghost use Rattle.pla_reader.specs.PrintedNames.{input_names, output_names};
ghost use Rattle.anf_printer.specs.Text.{IsLeftOf, IsLineOver, left_text, line, lines_text};
ghost use Rattle.anf_printer.specs.Text.{shown_line};

use crate::polynomial::push_polynomial;
use lattice::{Memory, Mono, Name, Text};
use pla_reader::{Pla, names_in_place, printed};
use std::alloc::{AllocError, Global};

/// What stands on the left of a line: 0, or the printed name of an output, by its number from 1 on.
#[derive(Clone, Copy, Debug, PartialEq, Eq)]
pub enum Left {
    Zero,
    Output(u32),
}

/// A line: what stands on its left, and a polynomial, whose terms are given from the greatest to
/// the least.
#[derive(Clone, Copy)]
pub struct Line<'a> {
    pub left: Left,
    pub terms: &'a [Mono],
}

/// Puts a line at the end of the text.
#[tactic(auto, unfolding(crate::specs::Text::line))]
pub(crate) fn push_line(
    text: &mut Vec<u8>,
    names: &[Name],
    left: &[u8],
    terms: &[Mono],
) -> Result<(), AllocError>
    requires { IsFamily (length names.now) (reverse terms.now) }
    ensures { OnOk result (text.new.items
        ≡ text.old.items ++ line names.now left.now (reverse terms.now)) }
{
    text.extend_from_slice(left)?;
    text.extend_from_slice(b" = ")?;
    push_polynomial(text, names, terms)?;
    text.push(b'\n')?;
    Ok(())
}

/// What stands on the left, with these names of outputs.
fn left_text(outputs: &[Name], left: Left) -> &[u8]
    requires { IsLeftOf (length outputs.now) left }
    ensures { result.now ≡ left_text outputs.now left }
{
    match left {
        Left::Zero => b"0",
        Left::Output(number) => outputs[number as usize - 1].as_slice(),
    }
}

/// The text of the lines, with these names of inputs and outputs.
pub fn lines_with(
    alloc: Global,
    names: &[Name],
    outputs: &[Name],
    lines: &[Line],
) -> Result<Text, Memory>
    requires { All (λ l. IsLineOver (length names.now) (length outputs.now) (shown_line l))
        lines.now }
    ensures { IfOk result (λ text. text
        ≡ lines_text names.now outputs.now (map shown_line lines.now)) }
{
    let mut text = Vec::new(alloc);
    for line in lines {
        push_line(&mut text, names, left_text(outputs, line.left), line.terms)?;
    }
    Ok(Text::from_vec(text))
}

/// The text of the lines, with the names of the inputs and outputs of `p` that are printed.
#[tactic(auto, using(pla_reader::proofs::ArrangedInputs::count_printed))]
pub fn lines_text(alloc: Global, p: &Pla, lines: &[Line]) -> Result<Text, Memory>
    requires { All (λ l. IsLineOver p.now.inputs p.now.outputs (shown_line l)) lines.now }
    ensures { IfOk result (λ text. text ≡ lines_text (input_names p.now) (output_names p.now)
        (map shown_line lines.now)) }
{
    let for_inputs = names_in_place(alloc, "x", p.inputs, &p.in_names)?;
    let inputs = printed(&for_inputs, &p.in_names);
    let for_outputs = names_in_place(alloc, "f", p.outputs, &p.out_names)?;
    let outputs = printed(&for_outputs, &p.out_names);
    lines_with(alloc, inputs, outputs, lines)
}
