//! The polynomials of a circuit's outputs.
ghost use Rattle.std.specs.Prelude.{◌≡◌, ◌+◌, ◌<◌, length, vec_len, map, IfOk, OnOk, IsErrOf};
ghost use Rattle.lattice.specs.Family.{Covers, numbers_below};
ghost use Rattle.lattice.specs.WorkingLists.{working_set};
ghost use Rattle.node_store.specs.Stores.{Grows, IsFull};
ghost use Rattle.aig_reader.specs.Reading.{circuit};
ghost use Rattle.gate_build.specs.Polynomials.{input_polynomial, polynomial_of};
ghost use Rattle.gate_build.specs.Steps.{circuit_needs, gates_list, steps_of};
ghost use Rattle.gate_build.specs.Built.{AreBuilt, ArePolynomials, Finds};

use crate::literals::{literal_polynomial, step_polynomial};
use crate::steps::Step;
use aig_reader::Aig;
use bool_poly::SetOps;
use lattice::{Memory, Mono};
use node_store::{Full, Handle, SolveRefusal, Store};
use set_algebra::one;
use std::alloc::Global;

/// So many handles of the empty family.
fn empty_handles(alloc: Global, count: usize) -> Result<Vec<Handle>, Memory>
    ensures { IfOk result (λ handles. vec_len handles ≡ count) }
{
    Ok(vec![in alloc; Handle(0); count]?)
}

/// Finds the polynomials of the constant and of the inputs.
fn build_inputs<S: Store>(store: &mut S, aig: &Aig, handles: &mut [Handle]) -> Result<(), Full>
    requires vars { (S.state store.old).vars ≡ aig.now.inputs }
    requires room { aig.now.inputs < length handles.old }
    requires planned { let n = aig.now.inputs in
        Covers (S.state store.old).plan
        (working_set n (map (input_polynomial n) (numbers_below n))) }
    ensures found { let n = aig.now.inputs in
        Finds (S.state store.old) (S.state store.new) result
        (working_set n (map (input_polynomial n) (numbers_below n))) }
    ensures built { OnOk result
        (AreBuilt (S.state store.new) (circuit aig.now) (aig.now.inputs + 1) handles.new) }
{
    let vars = aig.inputs;
    handles[0] = Handle(0);
    for k in 0..vars {
        handles[k as usize + 1] = one(store, Mono(1u64 << (vars - (k + 1))))?;
    }
    Ok(())
}

/// Finds the polynomials of the gates, by their steps.
fn build_gates<S: Store, O: SetOps<S>>(
    store: &mut S,
    ops: &mut O,
    aig: &Aig,
    steps: &[Step],
    handles: &mut [Handle],
) -> Result<(), Full>
    requires vars { (S.state store.old).vars ≡ aig.now.inputs }
    requires steps { steps.now ≡ steps_of (circuit aig.now) }
    requires room { length handles.old ≡ aig.now.inputs + 1 + length steps.now }
    requires planned { Covers (S.state store.old).plan
        (working_set aig.now.inputs (gates_list (circuit aig.now))) }
    requires built { AreBuilt (S.state store.old) (circuit aig.now) (aig.now.inputs + 1)
        handles.old }
    requires ready { O.ready ops.old }
    ensures found { Finds (S.state store.old) (S.state store.new) result
        (working_set aig.now.inputs (gates_list (circuit aig.now))) }
    ensures built { OnOk result
        (AreBuilt (S.state store.new) (circuit aig.now) (length handles.new) handles.new) }
    ensures ready { O.ready ops.new }
{
    let first = aig.inputs as usize + 1;
    for (k, step) in steps.iter().enumerate() {
        handles[first + k] = step_polynomial(store, ops, handles, *step)?;
    }
    Ok(())
}

/// Finds the polynomials of the outputs, by those of the variables.
fn build_outputs<S: Store, O: SetOps<S>>(
    store: &mut S,
    ops: &mut O,
    aig: &Aig,
    handles: &[Handle],
    outputs: &mut [Handle],
) -> Result<(), Full>
    requires vars { (S.state store.old).vars ≡ aig.now.inputs }
    requires variables { length handles.now ≡ aig.now.inputs + 1 + length aig.now.gates }
    requires room { length outputs.old ≡ length aig.now.outputs }
    requires planned { Covers (S.state store.old).plan
        (working_set aig.now.inputs (map (polynomial_of (circuit aig.now)) aig.now.outputs)) }
    requires built { AreBuilt (S.state store.old) (circuit aig.now) (length handles.now)
        handles.now }
    requires ready { O.ready ops.old }
    ensures found { Finds (S.state store.old) (S.state store.new) result
        (working_set aig.now.inputs (map (polynomial_of (circuit aig.now)) aig.now.outputs)) }
    ensures polynomials { OnOk result
        (ArePolynomials (S.state store.new) (circuit aig.now) outputs.new) }
    ensures ready { O.ready ops.new }
{
    for (j, literal) in aig.outputs.as_slice().iter().enumerate() {
        outputs[j] = literal_polynomial(store, ops, handles, *literal)?;
    }
    Ok(())
}

/// The polynomials of the circuit's outputs, in order, in a store with a variable for each input,
/// by the steps that `plan_steps` gives. `Full` comes only where the plan has more families than
/// the store has slots, and `Memory` only before the store is touched.
pub fn output_polynomials<S: Store, O: SetOps<S>>(
    alloc: Global,
    store: &mut S,
    ops: &mut O,
    aig: &Aig,
    steps: &[Step],
) -> Result<Vec<Handle>, SolveRefusal>
    requires vars { (S.state store.old).vars ≡ aig.now.inputs }
    requires steps { steps.now ≡ steps_of (circuit aig.now) }
    requires planned { Covers (S.state store.old).plan (circuit_needs (circuit aig.now)) }
    requires ready { O.ready ops.old }
    ensures grows { Grows (S.state store.old) (S.state store.new) }
    ensures polynomials { IfOk result
        (λ handles. ArePolynomials (S.state store.new) (circuit aig.now) handles.items) }
    ensures held { OnOk result
        (Covers (S.state store.new).held (circuit_needs (circuit aig.now))) }
    ensures quiet { OnOk result ((S.state store.new).refusals ≡ (S.state store.old).refusals) }
    ensures full { IsErrOf result SolveRefusal.Full
        → IsFull (S.state store.old) (S.state store.new) }
    ensures untouched { IsErrOf result SolveRefusal.Memory
        → S.state store.new ≡ S.state store.old }
    ensures ready { O.ready ops.new }
{
    let variables = aig.inputs as usize + 1 + steps.len();
    let mut handles = empty_handles(alloc, variables)?;
    let mut outputs = empty_handles(alloc, aig.outputs.len())?;
    build_inputs(store, aig, &mut handles)?;
    build_gates(store, ops, aig, steps, &mut handles)?;
    build_outputs(store, ops, aig, &handles, &mut outputs)?;
    Ok(outputs)
}
