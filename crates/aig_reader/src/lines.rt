//! Outputs and gates, one behind the other.
ghost use Rattle.std.specs.Prelude.{◌≡◌, ◌+◌, ◌*◌, ◌<◌, ◌≤◌, ◌^◌};
ghost use Rattle.lattice.specs.declared.limits.TheConstants.{MAX_VARS};
ghost use Rattle.aig_reader.specs.Fields.{Gives, output_at, gate_at, many};

use crate::circuit::{Gate, MAX_GATES};
use crate::fields::{gate_at, output_at};
use crate::refusal::Stop;
use std::alloc::Global;

/// The literals of so many outputs, of so many variables, and what follows them.
pub fn outputs_at(
    alloc: Global,
    variables: u32,
    count: u32,
    bytes: &[u8],
) -> Result<(Vec<u32>, &[u8]), Stop>
    requires { variables < 2 ^ 30 }
    ensures { Gives (λ x. (x.0.items, x.1.now)) result
        (many (λ k. output_at variables) 0 count bytes.now) }
{
    let mut literals = Vec::new(alloc);
    let mut rest = bytes;
    for _ in 0..count {
        let (literal, after) = output_at(variables, rest)?;
        literals.push(literal)?;
        rest = after;
    }
    Ok((literals, rest))
}

/// So many gates behind these inputs, and what follows them.
pub fn gates_at(
    alloc: Global,
    inputs: u32,
    count: u32,
    bytes: &[u8],
) -> Result<(Vec<Gate>, &[u8]), Stop>
    requires inputs { inputs ≤ MAX_VARS }
    requires count { count ≤ MAX_GATES }
    ensures { Gives (λ x. (x.0.items, x.1.now)) result
        (many (λ k. gate_at (2 * (inputs + 1 + k))) 0 count bytes.now) }
{
    let mut gates = Vec::new(alloc);
    let mut rest = bytes;
    for k in 0..count {
        let (gate, after) = gate_at(2 * (inputs + 1 + k), rest)?;
        gates.push(gate)?;
        rest = after;
    }
    Ok((gates, rest))
}
