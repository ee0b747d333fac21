//! The least points at which the outputs of a circuit are 1, on a table of their own.
ghost use Rattle.std.specs.Prelude.{◌≡◌, ◌<◌, ◌≤◌, ◌^◌, IfOk, IsErrOf, OnOk, length, map};
ghost use Rattle.std.specs.Option.{ForSome};
ghost use Rattle.std.specs.List.{All};
ghost use Rattle.lattice.specs.Family.{Covers};
ghost use Rattle.lattice.specs.WorkingLists.{working_set};
ghost use Rattle.lattice.specs.declared.limits.TheConstants.{MIN_BITS, MAX_BITS};
ghost use Rattle.node_store.specs.Stores.{Grows, IsFull, Knows, family};
ghost use Rattle.aig_reader.specs.Reading.{circuit};
ghost use Rattle.gate_build.specs.Steps.{steps_of};
ghost use Rattle.circuit_solve.specs.Ones.{AreLeastOnes, FindsLeastOnes, HoldsAsked};
ghost use Rattle.circuit_solve.specs.Ones.{asked_list, least_ones_by, one_list, one_nodes};
ghost use Rattle.circuit_solve.specs.Ones.{ones_lists};

use crate::plans::{Sought, plan_for};
use crate::points::points_where;
use aig_reader::Aig;
use bool_poly::{Serial, ones_of};
use computed_cache::CachedPass;
use cube_build::{SMALL_BITS, next_bits};
use diagram_measures::least_member;
use gate_build::{Step, output_polynomials, plan_steps};
use lattice::Mono;
use node_store::{Handle, SolveRefusal, Store};
use set_algebra::power;
use std::alloc::Global;
use unique_table::Shared;

/// The polynomials of the outputs that are asked for, and the points that are cared for.
#[derive(Drop)]
pub(crate) struct AskedOutputs {
    pub polynomials: Vec<Handle>,
    pub points: Handle,
}

/// What is asked for, by the steps of the circuit.
fn asked_outputs<S: Store>(
    alloc: Global,
    store: &mut S,
    aig: &Aig,
    steps: &[Step],
    care: Option<usize>,
) -> Result<AskedOutputs, SolveRefusal>
    requires vars { (S.state store.old).vars ≡ aig.now.inputs }
    requires steps { steps.now ≡ steps_of (circuit aig.now) }
    requires care { ForSome care (λ output. output < length aig.now.outputs) }
    requires planned { Covers (S.state store.old).plan
        (working_set aig.now.inputs (asked_list (circuit aig.now) care)) }
    ensures grows { Grows (S.state store.old) (S.state store.new) }
    ensures found { IfOk result (HoldsAsked (S.state store.new) (circuit aig.now) care) }
    ensures full { IsErrOf result SolveRefusal.Full
        → IsFull (S.state store.old) (S.state store.new) }
{
    let mut polynomials = output_polynomials(alloc, store, &mut Serial, aig, steps)?;
    match care {
        None => {
            let points = power(store)?;
            Ok(AskedOutputs {
                polynomials,
                points,
            })
        }
        Some(output) => {
            let own = polynomials.remove(output);
            let points = points_where(store, own)?;
            Ok(AskedOutputs {
                polynomials,
                points,
            })
        }
    }
}

/// Of each polynomial the least of the points at which it is 1.
fn least_ones_at<S: Store>(
    alloc: Global,
    store: &mut S,
    points: Handle,
    polynomials: &[Handle],
) -> Result<Vec<Option<Mono>>, SolveRefusal>
    requires points { Knows (S.state store.old) points }
    requires polynomials { All (Knows (S.state store.old)) polynomials.now }
    requires planned { let s = S.state store.old in
        Covers s.plan (working_set s.vars
        (ones_lists s.vars (family s points) (map (family s) polynomials.now))) }
    ensures grows { Grows (S.state store.old) (S.state store.new) }
    ensures found { let s = S.state store.old in IfOk result (λ found. found.items
        ≡ least_ones_by s.vars (family s points) (map (family s) polynomials.now)) }
    ensures held { let s = S.state store.old in OnOk result
        (Covers (S.state store.new).held (working_set s.vars
        (ones_lists s.vars (family s points) (map (family s) polynomials.now)))) }
    ensures full { IsErrOf result SolveRefusal.Full
        → IsFull (S.state store.old) (S.state store.new) }
{
    let mut found = Vec::new(alloc);
    for polynomial in polynomials {
        let ones = ones_of(store, *polynomial, points)?;
        found.push(least_member(store, ones))?;
    }
    Ok(found)
}

/// The least points, found in a store with their plan.
fn least_ones_in<S: Store>(
    alloc: Global,
    store: &mut S,
    aig: &Aig,
    steps: &[Step],
    care: Option<usize>,
) -> Result<Vec<Option<Mono>>, SolveRefusal>
    requires vars { (S.state store.old).vars ≡ aig.now.inputs }
    requires steps { steps.now ≡ steps_of (circuit aig.now) }
    requires care { ForSome care (λ output. output < length aig.now.outputs) }
    requires plan { (S.state store.old).plan
        ≡ working_set aig.now.inputs (one_list (circuit aig.now) care) }
    ensures { FindsLeastOnes (S.state store.old).capacity (circuit aig.now) care result }
{
    let asked = asked_outputs(alloc, store, aig, steps, care)?;
    least_ones_at(alloc, store, asked.points, &asked.polynomials)
}

/// The same on a table of 2^bits slots.
fn least_ones_on(
    alloc: Global,
    bits: u32,
    aig: &Aig,
    steps: &[Step],
    care: Option<usize>,
) -> Result<Vec<Option<Mono>>, SolveRefusal>
    requires bits { (MIN_BITS ≤ bits) × (bits ≤ MAX_BITS) }
    requires inputs { 1 ≤ aig.now.inputs }
    requires steps { steps.now ≡ steps_of (circuit aig.now) }
    requires care { ForSome care (λ output. output < length aig.now.outputs) }
    ensures { FindsLeastOnes (2 ^ bits) (circuit aig.now) care result }
{
    let plan = plan_for(aig, care, Sought::LeastOnes);
    let (table, token) = Shared::make(alloc, bits, aig.inputs, plan)?;
    let mut pass = CachedPass::new(table.pass(token));
    least_ones_in(alloc, &mut pass, aig, steps, care)
}

/// The same on tables of up to 2^bits slots, the smaller ones first.
fn least_ones_within(
    alloc: Global,
    bits: u32,
    aig: &Aig,
    steps: &[Step],
    care: Option<usize>,
) -> Result<Vec<Option<Mono>>, SolveRefusal>
    requires bits { (MIN_BITS ≤ bits) × (bits ≤ MAX_BITS) }
    requires inputs { 1 ≤ aig.now.inputs }
    requires steps { steps.now ≡ steps_of (circuit aig.now) }
    requires care { ForSome care (λ output. output < length aig.now.outputs) }
    ensures { FindsLeastOnes (2 ^ bits) (circuit aig.now) care result }
{
    let mut tried = bits.min(SMALL_BITS);
    while tried < bits {
        match least_ones_on(alloc, tried, aig, steps, care) {
            Err(SolveRefusal::Full) => tried = next_bits(tried, bits),
            found => return found,
        }
    }
    least_ones_on(alloc, bits, aig, steps, care)
}

/// For each output of a circuit but the one at position `care`, in order: the least of the points
/// that are cared for at which the output is 1, where the first input has the greatest weight; None
/// exactly where it is 0 at all of them. `Full` comes exactly where finding these needs more nodes
/// than 2^bits and memory does not run out. Smaller tables are tried first.
pub fn least_ones(
    alloc: Global,
    bits: u32,
    aig: &Aig,
    care: Option<usize>,
) -> Result<Vec<Option<Mono>>, SolveRefusal>
    requires bits { (MIN_BITS ≤ bits) × (bits ≤ MAX_BITS) }
    requires inputs { 1 ≤ aig.now.inputs }
    requires care { ForSome care (λ output. output < length aig.now.outputs) }
    ensures found { IfOk result (λ found. AreLeastOnes (circuit aig.now) care found.items) }
    ensures fits { OnOk result (one_nodes (circuit aig.now) care ≤ 2 ^ bits) }
    ensures exhausted { IsErrOf result SolveRefusal.Full
        → 2 ^ bits < one_nodes (circuit aig.now) care }
{
    let steps = plan_steps(alloc, aig)?;
    least_ones_within(alloc, bits, aig, &steps, care)
}
