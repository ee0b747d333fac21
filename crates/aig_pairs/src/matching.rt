//! A circuit over the names of another one.
ghost use Rattle.std.specs.Prelude.{◌≡◌, ◌-◌, IfOk, length, map};
ghost use Rattle.std.specs.List.{slice_index_or};
ghost use Rattle.pla_reader.specs.Orders.{IsOrder};
ghost use Rattle.aig_reader.specs.Reading.{circuit};
ghost use Rattle.aig_pairs.specs.Matching.{in_output_order, rearranged, GivesMatch, Matches};
ghost use Rattle.aig_pairs.specs.declared.matching.MatchRefusal.TheVariants.{Memory};

use crate::order::printed_order;
use aig_inputs::arrange_circuit;
use aig_reader::{Aig, Literals};
use lattice::Order;
use pla_reader::names_in_order;
use std::alloc::Global;

/// Why a circuit was not put over the names of another one.
#[derive(Clone, Copy, Debug, PartialEq, Eq)]
pub enum MatchRefusal {
    /// The printed names of its inputs are those of the other's in no order.
    Inputs,
    /// The printed names of its outputs are those of the other's in no order, and those of its
    /// inputs are in one.
    Outputs,
    /// There was no memory.
    Memory,
}

impl From<lattice::Memory> for MatchRefusal {
    ghost from_gives = { λ _ e. e ≡ Memory };

    fn from(_e: lattice::Memory) -> MatchRefusal {
        MatchRefusal::Memory
    }
}

/// The literals, in the order.
fn literals_in_order(
    alloc: Global,
    order: &[u32],
    literals: &[u32],
) -> Result<Literals, lattice::Memory>
    requires { IsOrder (length literals.now) order.now }
    ensures { IfOk result (λ arranged. arranged
        ≡ map (λ position. slice_index_or literals.now (position - 1) 0) order.now) }
{
    let mut arranged = Literals::new(alloc);
    for position in order {
        arranged.push(literals[*position as usize - 1])?;
    }
    Ok(arranged)
}

/// The circuit whose outputs stand in the order.
fn in_output_order(alloc: Global, aig: Aig, order: &Order) -> Result<Aig, lattice::Memory>
    requires { IsOrder (length aig.outputs) order.now }
    ensures { IfOk result (λ answer. circuit answer ≡ in_output_order (circuit aig) order.now) }
{
    let order = order.as_slice();
    let outputs = literals_in_order(alloc, order, aig.outputs.as_slice())?;
    let out_names = names_in_order(alloc, order, aig.out_names.as_slice())?;
    Ok(Aig {
        inputs: aig.inputs,
        gates: aig.gates,
        outputs,
        in_names: aig.in_names,
        out_names,
    })
}

/// The circuit whose inputs and outputs stand in these orders.
fn rearranged(
    alloc: Global,
    aig: &Aig,
    inputs: &Order,
    outputs: &Order,
) -> Result<Aig, lattice::Memory>
    requires inputs { IsOrder aig.now.inputs inputs.now }
    requires outputs { IsOrder (length aig.now.outputs) outputs.now }
    ensures { IfOk result
        (λ answer. circuit answer ≡ rearranged (circuit aig.now) inputs.now outputs.now) }
{
    let inverted = vec![in alloc; false; aig.inputs as usize]?;
    let arranged = arrange_circuit(alloc, aig, inputs, &inverted)?;
    in_output_order(alloc, arranged, outputs)
}

/// The second circuit, over the first one's names: each of its input variables and of its outputs
/// stands where the first circuit has the one of this printed name.
///
/// The names in the answer are the given ones of the second circuit, in these orders. `Inputs` says
/// that the printed names of the inputs differ, in whatever order; `Outputs` that those of the
/// inputs do not, and those of the outputs do.
pub fn match_circuit(alloc: Global, first: &Aig, second: &Aig) -> Result<Aig, MatchRefusal>
    ensures matched { GivesMatch result (Matches (circuit first.now) (circuit second.now)) }
    ensures inputs { IfOk result (λ aig. aig.inputs ≡ first.now.inputs) }
    ensures outputs { IfOk result (λ aig. length aig.outputs ≡ length first.now.outputs) }
{
    let inputs = match printed_order(alloc, "x", &first.in_names, &second.in_names)? {
        Some(order) => order,
        None => return Err(MatchRefusal::Inputs),
    };
    let outputs = match printed_order(alloc, "f", &first.out_names, &second.out_names)? {
        Some(order) => order,
        None => return Err(MatchRefusal::Outputs),
    };
    Ok(rearranged(alloc, second, &inputs, &outputs)?)
}
