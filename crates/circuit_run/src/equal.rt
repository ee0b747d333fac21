//! The text of mode equal.
ghost use Rattle.std.specs.Prelude.{◌≡◌, ◌≤◌, ◌++◌, IfOk, OnOk, All, length};
ghost use Rattle.lattice.specs.declared.limits.TheConstants.{MAX_VARS};
ghost use Rattle.aig_pairs.specs.Matching.{output_names};
ghost use Rattle.circuit_run.specs.Parts.{IsWhole, view};
ghost use Rattle.circuit_run.specs.Texts.{answered, bit_text, equal_line, equal_text};
ghost use Rattle.circuit_run.specs.Texts.{point_text};

use crate::texts::answered;
use crate::view::Seen;
use lattice::{Memory, Mono, Name, Text};
use pla_reader::{names_in_place, printed};
use std::alloc::{AllocError, Global};

// Whether a point has the variable of a weight.
fn bit_text<'a>(weight: u64, point: Mono) -> &'a [u8]
    ensures { result.now ≡ bit_text weight point }
{
    if Mono(weight).divides(point.0) {
        b"=1"
    } else {
        b"=0"
    }
}

// Puts a point, as the bit of each of the inputs of these names, at the end of the text.
#[tactic(auto, unfolding(crate::specs::Texts::point_text))]
fn push_point(text: &mut Vec<u8>, names: &[Name], point: Mono) -> Result<(), AllocError>
    requires { length names.now ≤ MAX_VARS }
    ensures { OnOk result (text.new.items ≡ text.old.items ++ point_text names.now point) }
{
    let mut weight = 1u64 << names.len();
    for name in names {
        weight /= 2;
        text.push(b' ')?;
        text.extend_from_slice(name.as_slice())?;
        text.extend_from_slice(bit_text(weight, point))?;
    }
    Ok(())
}

// Puts the line of an output of this name at the end of the text.
fn push_equal_line(
    text: &mut Vec<u8>,
    names: &[Name],
    name: &[u8],
    point: Option<Mono>,
) -> Result<(), AllocError>
    requires { length names.now ≤ MAX_VARS }
    ensures { OnOk result (text.new.items
        ≡ text.old.items ++ equal_line names.now name.now point) }
{
    text.extend_from_slice(name)?;
    match point {
        None => text.extend_from_slice(b": equal\n")?,
        Some(point) => {
            text.extend_from_slice(b": different at")?;
            push_point(text, names, point)?;
            text.push(b'\n')?;
        }
    }
    Ok(())
}

// The lines of the outputs of these numbers.
fn equal_lines(
    alloc: Global,
    names: &[Name],
    outputs: &[Name],
    numbers: &[u32],
    points: &[Option<Mono>],
) -> Result<Text, Memory>
    requires names { length names.now ≤ MAX_VARS }
    requires count { length points.now ≡ length numbers.now }
    requires numbers { All (λ number. (1 ≤ number) × (number ≤ length outputs.now)) numbers.now }
    ensures { IfOk result (λ text. text
        ≡ equal_text names.now outputs.now numbers.now points.now) }
{
    let mut text = Vec::new(alloc);
    for (number, point) in numbers.iter().zip(points) {
        let name = outputs[*number as usize - 1].as_slice();
        push_equal_line(&mut text, names, name, *point)?;
    }
    Ok(Text::from_vec(text))
}

/// The lines of the outputs of the view that is seen, by the least point at which each one differs,
/// where there is one.
#[tactic(auto, using(crate::proofs::Seeing::count_names))]
pub(crate) fn equal_text(
    alloc: Global,
    seen: &Seen,
    points: &[Option<Mono>],
) -> Result<Text, Memory>
    requires whole { IsWhole (view seen.now) }
    requires count { length points.now
        ≡ length (answered (length seen.now.aig.outputs) seen.now.care) }
    ensures { IfOk result (λ text. text ≡ equal_text seen.now.in_names
        (output_names (view seen.now).circuit)
        (answered (length seen.now.aig.outputs) seen.now.care) points.now) }
{
    let count = seen.aig.outputs.len() as u32;
    let in_place = names_in_place(alloc, "f", count, &seen.aig.out_names)?;
    let outputs = printed(&in_place, &seen.aig.out_names);
    let numbers = answered(alloc, count, seen.care)?;
    equal_lines(alloc, seen.in_names.as_slice(), outputs, &numbers, points)
}
