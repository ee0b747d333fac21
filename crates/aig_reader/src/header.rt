//! The header of a file.
ghost use Rattle.std.specs.Prelude.{◌≡◌, ◌+◌, ◌<◌, ◌≤◌, IfOk};
ghost use Rattle.aig_reader.specs.Fields.{Gives};
ghost use Rattle.aig_reader.specs.Reading.{AreFew, size_at, header_end_at, sizes_at};

use crate::circuit::{MAX_GATES, MAX_OUTPUTS, MAX_VARIABLES};
use crate::fields::{behind, fault_at, number_at};
use crate::refusal::{Stop, Why};
use lattice::MAX_VARS;

/// The greatest variable, and the numbers of inputs, outputs and gates.
#[derive(Clone, Copy)]
pub struct Sizes {
    pub variables: u32,
    pub inputs: u32,
    pub outputs: u32,
    pub gates: u32,
}

/// The number behind a space, which is at most `most`, and what follows it.
#[tactic(auto, unfolding(crate::specs::Reading::size_at))]
fn size_at(most: u32, why: Why, bytes: &[u8]) -> Result<(u32, &[u8]), Stop>
    ensures size { Gives (λ x. (x.0, x.1.now)) result (size_at most why bytes.now) }
    ensures few { IfOk result (λ x. x.0 ≤ most) }
{
    let front = behind(b' ', bytes)?;
    let (size, rest) = number_at(front)?;
    if size > most {
        return Err(fault_at(front, why));
    }
    Ok((size, rest))
}

/// What follows the line feed that ends the header.
#[tactic(auto, unfolding(crate::specs::Reading::header_end_at))]
fn header_end_at(bytes: &[u8]) -> Result<&[u8], Stop>
    ensures { Gives (λ rest. rest.now) result (header_end_at bytes.now) }
{
    match bytes {
        [b' ', ..] => Err(fault_at(bytes, Why::Property)),
        _ => behind(b'\n', bytes),
    }
}

/// The sizes behind the word that begins a file, and what follows the header.
#[tactic(auto, unfolding(crate::specs::Reading::sizes_at))]
pub fn sizes_at(bytes: &[u8]) -> Result<(Sizes, &[u8]), Stop>
    ensures sizes { Gives (λ x. (x.0, x.1.now)) result (sizes_at bytes.now) }
    ensures few { IfOk result (λ x. AreFew x.0) }
{
    let (variables, rest) = size_at(MAX_VARIABLES, Why::VariableCount, bytes)?;
    let (inputs, rest) = size_at(MAX_VARS, Why::TooManyInputs, rest)?;
    let (_, rest) = size_at(0, Why::Latch, rest)?;
    let (outputs, rest) = size_at(MAX_OUTPUTS, Why::TooManyOutputs, rest)?;
    let (gates, rest) = size_at(MAX_GATES, Why::TooManyGates, rest)?;
    let rest = header_end_at(rest)?;
    let sizes = Sizes {
        variables,
        inputs,
        outputs,
        gates,
    };
    Ok((sizes, rest))
}
