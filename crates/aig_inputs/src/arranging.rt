//! Circuits whose inputs are arranged by an order, some of them inverted.
ghost use Rattle.std.specs.Prelude.{◌≡◌, ◌≤◌, ◌+◌, IfOk, length, map};
ghost use Rattle.lattice.specs.declared.limits.TheConstants.{MAX_VARS};
ghost use Rattle.pla_reader.specs.Orders.{IsOrder};
ghost use Rattle.aig_reader.specs.Reading.{circuit};
ghost use Rattle.aig_inputs.specs.Arranged.{variable_of, arranged_literal, arranged_gate, arranged};

use crate::names::copied;
use aig_reader::{Aig, Gate, Gates, Literals};
use lattice::{Memory, Order};
use pla_reader::names_in_order;
use std::alloc::Global;

/// The variable of the input at the position: the place, from 1, at which the order has it.
#[tactic(auto, unfolding(crate::specs::Arranged::variable_of))]
fn variable_of(order: &[u32], position: u32) -> u32
    requires { length order.now ≤ MAX_VARS }
    ensures variable { result ≡ variable_of order.now position }
    ensures most { result ≤ length order.now + 1 }
{
    let place = order
        .iter()
        .position(|other| *other == position)
        .unwrap_or(order.len());
    place as u32 + 1
}

/// The literal over the variables: that of an input is one of its variable, whose low bit is
/// flipped where the input is inverted.
#[tactic(auto, unfolding(crate::specs::Arranged::arranged_literal))]
fn arranged_literal(order: &[u32], inverted: &[bool], literal: u32) -> u32
    requires few { length order.now ≤ MAX_VARS }
    requires inverted { length inverted.now ≡ length order.now }
    ensures { result ≡ arranged_literal order.now inverted.now literal }
{
    let position = literal / 2;
    if position == 0 || position as usize > order.len() {
        return literal;
    }
    let is_complement = inverted[position as usize - 1] != (literal % 2 == 1);
    2 * variable_of(order, position) + u32::from(is_complement)
}

/// The literals over the variables.
fn arranged_literals(
    alloc: Global,
    order: &[u32],
    inverted: &[bool],
    literals: &[u32],
) -> Result<Literals, Memory>
    requires few { length order.now ≤ MAX_VARS }
    requires inverted { length inverted.now ≡ length order.now }
    ensures { IfOk result
        (λ arranged. arranged ≡ map (arranged_literal order.now inverted.now) literals.now) }
{
    let mut arranged = Literals::new(alloc);
    for literal in literals {
        arranged.push(arranged_literal(order, inverted, *literal))?;
    }
    Ok(arranged)
}

/// The gate over the variables.
fn arranged_gate(order: &[u32], inverted: &[bool], gate: Gate) -> Gate
    requires few { length order.now ≤ MAX_VARS }
    requires inverted { length inverted.now ≡ length order.now }
    ensures { result ≡ arranged_gate order.now inverted.now gate }
{
    Gate {
        left: arranged_literal(order, inverted, gate.left),
        right: arranged_literal(order, inverted, gate.right),
    }
}

/// The gates over the variables.
fn arranged_gates(
    alloc: Global,
    order: &[u32],
    inverted: &[bool],
    gates: &[Gate],
) -> Result<Gates, Memory>
    requires few { length order.now ≤ MAX_VARS }
    requires inverted { length inverted.now ≡ length order.now }
    ensures { IfOk result
        (λ arranged. arranged ≡ map (arranged_gate order.now inverted.now) gates.now) }
{
    let mut arranged = Gates::new(alloc);
    for gate in gates {
        arranged.push(arranged_gate(order, inverted, *gate))?;
    }
    Ok(arranged)
}

/// The circuit over the variables: variable i is the input at the order's i-th position, or its
/// complement where the input is inverted.
///
/// `inverted` says for each input, in the order of the file, whether it is. The names of the inputs
/// are the given ones, in the order. All else is as in `aig`.
pub fn arrange_circuit(
    alloc: Global,
    aig: &Aig,
    order: &Order,
    inverted: &[bool],
) -> Result<Aig, Memory>
    requires order { IsOrder aig.now.inputs order.now }
    requires inverted { length inverted.now ≡ aig.now.inputs }
    ensures { IfOk result
        (λ answer. circuit answer ≡ arranged (circuit aig.now) order.now inverted.now) }
{
    let order = order.as_slice();
    Ok(Aig {
        inputs: aig.inputs,
        gates: arranged_gates(alloc, order, inverted, aig.gates.as_slice())?,
        outputs: arranged_literals(alloc, order, inverted, aig.outputs.as_slice())?,
        in_names: names_in_order(alloc, order, aig.in_names.as_slice())?,
        out_names: copied(alloc, aig.out_names.as_slice())?,
    })
}
