//! What is measured of the answers of a circuit, on a table of their own.
ghost use Rattle.std.specs.Prelude.{◌≡◌, ◌<◌, ◌≤◌, ◌^◌, IfOk, IsErrOf, OnOk, length, map};
ghost use Rattle.std.specs.Option.{ForSome};
ghost use Rattle.std.specs.List.{All, AllZip};
ghost use Rattle.lattice.specs.WorkingLists.{working_set};
ghost use Rattle.lattice.specs.declared.limits.TheConstants.{MIN_BITS, MAX_BITS};
ghost use Rattle.node_store.specs.Stores.{Knows, family};
ghost use Rattle.aig_reader.specs.Reading.{circuit};
ghost use Rattle.gate_build.specs.Steps.{steps_of};
ghost use Rattle.circuit_solve.specs.Answers.{answer_nodes, answers_list};
ghost use Rattle.circuit_solve.specs.Measured.{AreMeasured, FindsMeasures, IsMeasured};

use crate::answers::answers;
use crate::plans::{Sought, plan_for};
use aig_reader::Aig;
use computed_cache::CachedPass;
use cube_build::{SMALL_BITS, next_bits};
use diagram_measures::{Measures, measure};
use gate_build::{Step, plan_steps};
use lattice::Memory;
use node_store::{Handle, SolveRefusal, Store};
use std::alloc::Global;
use unique_table::Shared;

/// The measures of each polynomial.
fn measures_of<S: Store>(
    alloc: Global,
    store: &mut S,
    polynomials: &[Handle],
) -> Result<Vec<Measures>, Memory>
    requires { All (Knows (S.state store.old)) polynomials.now }
    ensures { let s = S.state store.old in IfOk result
        (λ found. AllZip (IsMeasured s.vars) (map (family s) polynomials.now) found.items) }
{
    let mut found = Vec::new(alloc);
    for polynomial in polynomials {
        found.push(measure(alloc, store, *polynomial)?)?;
    }
    Ok(found)
}

/// The measures of the answers, found in a store with their plan.
fn measures_in<S: Store>(
    alloc: Global,
    store: &mut S,
    aig: &Aig,
    steps: &[Step],
    care: Option<usize>,
) -> Result<Vec<Measures>, SolveRefusal>
    requires vars { (S.state store.old).vars ≡ aig.now.inputs }
    requires steps { steps.now ≡ steps_of (circuit aig.now) }
    requires care { ForSome care (λ output. output < length aig.now.outputs) }
    requires plan { (S.state store.old).plan
        ≡ working_set aig.now.inputs (answers_list (circuit aig.now) care) }
    ensures { FindsMeasures (S.state store.old).capacity (circuit aig.now) care result }
{
    let found = answers(alloc, store, aig, steps, care)?;
    Ok(measures_of(alloc, store, &found.polynomials)?)
}

/// The same on a table of 2^bits slots.
fn measures_on(
    alloc: Global,
    bits: u32,
    aig: &Aig,
    steps: &[Step],
    care: Option<usize>,
) -> Result<Vec<Measures>, SolveRefusal>
    requires bits { (MIN_BITS ≤ bits) × (bits ≤ MAX_BITS) }
    requires inputs { 1 ≤ aig.now.inputs }
    requires steps { steps.now ≡ steps_of (circuit aig.now) }
    requires care { ForSome care (λ output. output < length aig.now.outputs) }
    ensures { FindsMeasures (2 ^ bits) (circuit aig.now) care result }
{
    let plan = plan_for(aig, care, Sought::Answers);
    let (table, token) = Shared::make(alloc, bits, aig.inputs, plan)?;
    let mut pass = CachedPass::new(table.pass(token));
    measures_in(alloc, &mut pass, aig, steps, care)
}

/// The same on tables of up to 2^bits slots, the smaller ones first.
fn measures_within(
    alloc: Global,
    bits: u32,
    aig: &Aig,
    steps: &[Step],
    care: Option<usize>,
) -> Result<Vec<Measures>, SolveRefusal>
    requires bits { (MIN_BITS ≤ bits) × (bits ≤ MAX_BITS) }
    requires inputs { 1 ≤ aig.now.inputs }
    requires steps { steps.now ≡ steps_of (circuit aig.now) }
    requires care { ForSome care (λ output. output < length aig.now.outputs) }
    ensures { FindsMeasures (2 ^ bits) (circuit aig.now) care result }
{
    let mut tried = bits.min(SMALL_BITS);
    while tried < bits {
        match measures_on(alloc, tried, aig, steps, care) {
            Err(SolveRefusal::Full) => tried = next_bits(tried, bits),
            measures => return measures,
        }
    }
    measures_on(alloc, bits, aig, steps, care)
}

/// The measures of each answer of a circuit, in the order of the outputs: these are as
/// `solve_circuit` has them, but none is listed, and their terms have no limit. `Full` comes where
/// finding the answers needs more nodes than 2^bits. Smaller tables are tried first.
pub fn measure_circuit(
    alloc: Global,
    bits: u32,
    aig: &Aig,
    care: Option<usize>,
) -> Result<Vec<Measures>, SolveRefusal>
    requires bits { (MIN_BITS ≤ bits) × (bits ≤ MAX_BITS) }
    requires inputs { 1 ≤ aig.now.inputs }
    requires care { ForSome care (λ output. output < length aig.now.outputs) }
    ensures measures { IfOk result (λ found. AreMeasured (circuit aig.now) care found.items) }
    ensures fits { OnOk result (answer_nodes (circuit aig.now) care ≤ 2 ^ bits) }
    ensures exhausted { IsErrOf result SolveRefusal.Full
        → 2 ^ bits < answer_nodes (circuit aig.now) care }
{
    let steps = plan_steps(alloc, aig)?;
    measures_within(alloc, bits, aig, &steps, care)
}
