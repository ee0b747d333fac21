//! Gates that stand behind those of another circuit.
ghost use Rattle.std.specs.Prelude.{◌≡◌, ◌≤◌, ◌<◌, ◌+◌, ◌*◌, ◌++◌, OnOk, map};
ghost use Rattle.std.specs.List.{All};
ghost use Rattle.lattice.specs.declared.limits.TheConstants.{MAX_VARS};
ghost use Rattle.aig_reader.specs.declared.circuit.TheConstants.{MAX_GATES};
ghost use Rattle.aig_miter.specs.Miter.{moved_literal, moved_gate};

use aig_reader::{Gate, Gates};
use lattice::Memory;

/// The literal where its circuit's gates stand behind so many others.
#[tactic(auto, unfolding(crate::specs::Miter::moved_literal))]
pub fn moved_literal(inputs: u32, others: u32, literal: u32) -> u32
    requires others { others ≤ MAX_GATES }
    requires small { literal < 2 * (MAX_VARS + 1 + MAX_GATES) }
    ensures { result ≡ moved_literal inputs others literal }
{
    if literal / 2 > inputs {
        literal + 2 * others
    } else {
        literal
    }
}

/// The gate, with its operands moved.
fn moved_gate(inputs: u32, others: u32, gate: Gate) -> Gate
    requires others { others ≤ MAX_GATES }
    requires left { gate.left < 2 * (MAX_VARS + 1 + MAX_GATES) }
    requires right { gate.right < 2 * (MAX_VARS + 1 + MAX_GATES) }
    ensures { result ≡ moved_gate inputs others gate }
{
    Gate {
        left: moved_literal(inputs, others, gate.left),
        right: moved_literal(inputs, others, gate.right),
    }
}

/// Puts the gates behind the others.
pub fn push_gates(gates: &mut Gates, more: &[Gate]) -> Result<(), Memory>
    ensures { OnOk result (gates.new ≡ gates.old ++ more.now) }
{
    for gate in more {
        gates.push(*gate)?;
    }
    Ok(())
}

/// Puts the gates behind the others, of which there are so many, with their operands moved.
pub fn push_moved(gates: &mut Gates, inputs: u32, others: u32, moved: &[Gate]) -> Result<(), Memory>
    requires others { others ≤ MAX_GATES }
    requires left { All (λ gate. gate.left < 2 * (MAX_VARS + 1 + MAX_GATES)) moved.now }
    requires right { All (λ gate. gate.right < 2 * (MAX_VARS + 1 + MAX_GATES)) moved.now }
    ensures { OnOk result (gates.new ≡ gates.old ++ map (moved_gate inputs others) moved.now) }
{
    for gate in moved {
        gates.push(moved_gate(inputs, others, *gate))?;
    }
    Ok(())
}
