//! Gates that are 1 where two literals differ.
ghost use Rattle.std.specs.Prelude.{◌≡◌, ◌≤◌, ◌<◌, ◌^◌, ◌++◌, OnOk};
ghost use Rattle.aig_miter.specs.Miter.{complement_of, difference};

use aig_reader::{Gate, Gates};
use lattice::Memory;

/// The complement of a literal.
#[tactic(auto, unfolding(crate::specs::Miter::complement_of))]
fn complement_of(literal: u32) -> u32
    ensures { result ≡ complement_of literal }
{
    if literal % 2 == 0 {
        literal + 1
    } else {
        literal - 1
    }
}

/// Puts three gates behind the others, of which the first one is the variable, and the last one is
/// 1 where the two literals differ.
pub fn push_difference(
    gates: &mut Gates,
    variable: u32,
    first: u32,
    second: u32,
) -> Result<(), Memory>
    requires { variable < 2 ^ 30 }
    ensures { OnOk result (gates.new ≡ gates.old ++ difference variable first second) }
{
    gates.push(Gate {
        left: first,
        right: second,
    })?;
    gates.push(Gate {
        left: complement_of(first),
        right: complement_of(second),
    })?;
    gates.push(Gate {
        left: 2 * variable + 1,
        right: 2 * (variable + 1) + 1,
    })
}
