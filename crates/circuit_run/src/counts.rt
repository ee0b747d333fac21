//! The text of mode count.
ghost use Rattle.std.specs.Prelude.{◌≡◌, ◌≤◌, ◌++◌, IfOk, OnOk, All, decimal, length};
ghost use Rattle.aig_pairs.specs.Matching.{output_names};
ghost use Rattle.circuit_run.specs.Parts.{IsWhole, view};
ghost use Rattle.circuit_run.specs.Texts.{answered, count_line, counts_text};

use crate::texts::answered;
use crate::view::Seen;
use diagram_measures::Measures;
use itoa::Buffer;
use lattice::{Memory, Name, Text};
use pla_reader::{names_in_place, printed};
use std::alloc::{AllocError, Global};

// Puts the number at the end of the text.
fn push_number(text: &mut Vec<u8>, number: u64) -> Result<(), AllocError>
    ensures { OnOk result (text.new.items ≡ text.old.items ++ decimal number) }
{
    let mut digits = Buffer::new();
    text.extend_from_slice(digits.format(number).as_bytes())
}

// Puts the line of an output of this name at the end of the text.
fn push_count_line(text: &mut Vec<u8>, name: &[u8], measures: &Measures) -> Result<(), AllocError>
    ensures { OnOk result (text.new.items ≡ text.old.items ++ count_line name.now measures.now) }
{
    text.extend_from_slice(name)?;
    text.extend_from_slice(b": terms ")?;
    push_number(text, measures.terms)?;
    text.extend_from_slice(b", degree ")?;
    push_number(text, u64::from(measures.degree))?;
    text.extend_from_slice(b", nodes ")?;
    push_number(text, measures.nodes)?;
    text.push(b'\n')?;
    Ok(())
}

// The lines of the outputs of these numbers.
fn count_lines(
    alloc: Global,
    outputs: &[Name],
    numbers: &[u32],
    measures: &[Measures],
) -> Result<Text, Memory>
    requires count { length measures.now ≡ length numbers.now }
    requires numbers { All (λ number. (1 ≤ number) × (number ≤ length outputs.now)) numbers.now }
    ensures { IfOk result (λ text. text ≡ counts_text outputs.now numbers.now measures.now) }
{
    let mut text = Vec::new(alloc);
    for (number, measured) in numbers.iter().zip(measures) {
        let name = outputs[*number as usize - 1].as_slice();
        push_count_line(&mut text, name, measured)?;
    }
    Ok(Text::from_vec(text))
}

/// The lines of the measures of the least polynomials of the view that is seen.
#[tactic(auto, using(crate::proofs::Seeing::count_names))]
pub(crate) fn counts_text(alloc: Global, seen: &Seen, measures: &[Measures]) -> Result<Text, Memory>
    requires whole { IsWhole (view seen.now) }
    requires count { length measures.now
        ≡ length (answered (length seen.now.aig.outputs) seen.now.care) }
    ensures { IfOk result (λ text. text ≡ counts_text (output_names (view seen.now).circuit)
        (answered (length seen.now.aig.outputs) seen.now.care) measures.now) }
{
    let count = seen.aig.outputs.len() as u32;
    let in_place = names_in_place(alloc, "f", count, &seen.aig.out_names)?;
    let outputs = printed(&in_place, &seen.aig.out_names);
    let numbers = answered(alloc, count, seen.care)?;
    count_lines(alloc, outputs, &numbers, measures)
}
