//! The answers of a circuit, with their terms, on a table of their own.
ghost use Rattle.std.specs.Prelude.{◌≡◌, ◌<◌, ◌≤◌, ◌^◌, length};
ghost use Rattle.std.specs.Option.{ForSome};
ghost use Rattle.lattice.specs.WorkingLists.{working_set};
ghost use Rattle.lattice.specs.declared.limits.TheConstants.{MIN_BITS, MAX_BITS};
ghost use Rattle.aig_reader.specs.Reading.{circuit};
ghost use Rattle.gate_build.specs.Steps.{steps_of};
ghost use Rattle.circuit_solve.specs.Answers.{FindsAnswers, answers_list};

use crate::answers::answers;
use crate::plans::{Sought, plan_for};
use aig_reader::Aig;
use computed_cache::CachedPass;
use cube_build::{SMALL_BITS, next_bits};
use gate_build::{Step, plan_steps};
use lattice::MonoLists;
use node_store::Store;
use set_algebra::{TermsRefusal, lists_upto};
use std::alloc::Global;
use unique_table::Shared;

/// The answers' terms, each from the greatest to the least, found in a store with their plan.
fn answers_in<S: Store>(
    alloc: Global,
    store: &mut S,
    aig: &Aig,
    steps: &[Step],
    care: Option<usize>,
    limit: u64,
) -> Result<MonoLists, TermsRefusal>
    requires vars { (S.state store.old).vars ≡ aig.now.inputs }
    requires steps { steps.now ≡ steps_of (circuit aig.now) }
    requires care { ForSome care (λ output. output < length aig.now.outputs) }
    requires plan { (S.state store.old).plan
        ≡ working_set aig.now.inputs (answers_list (circuit aig.now) care) }
    ensures { FindsAnswers (S.state store.old).capacity limit (circuit aig.now) care result }
{
    let found = answers(alloc, store, aig, steps, care)?;
    Ok(lists_upto(alloc, store, &found.polynomials, limit)?)
}

/// The same on a table of 2^bits slots.
fn answers_on(
    alloc: Global,
    bits: u32,
    aig: &Aig,
    steps: &[Step],
    care: Option<usize>,
    limit: u64,
) -> Result<MonoLists, TermsRefusal>
    requires bits { (MIN_BITS ≤ bits) × (bits ≤ MAX_BITS) }
    requires inputs { 1 ≤ aig.now.inputs }
    requires steps { steps.now ≡ steps_of (circuit aig.now) }
    requires care { ForSome care (λ output. output < length aig.now.outputs) }
    ensures { FindsAnswers (2 ^ bits) limit (circuit aig.now) care result }
{
    let plan = plan_for(aig, care, Sought::Answers);
    let (table, token) = Shared::make(alloc, bits, aig.inputs, plan)?;
    let mut pass = CachedPass::new(table.pass(token));
    answers_in(alloc, &mut pass, aig, steps, care, limit)
}

/// The same on tables of up to 2^bits slots, the smaller ones first.
fn answers_within(
    alloc: Global,
    bits: u32,
    aig: &Aig,
    steps: &[Step],
    care: Option<usize>,
    limit: u64,
) -> Result<MonoLists, TermsRefusal>
    requires bits { (MIN_BITS ≤ bits) × (bits ≤ MAX_BITS) }
    requires inputs { 1 ≤ aig.now.inputs }
    requires steps { steps.now ≡ steps_of (circuit aig.now) }
    requires care { ForSome care (λ output. output < length aig.now.outputs) }
    ensures { FindsAnswers (2 ^ bits) limit (circuit aig.now) care result }
{
    let mut tried = bits.min(SMALL_BITS);
    while tried < bits {
        match answers_on(alloc, tried, aig, steps, care, limit) {
            Err(TermsRefusal::Full) => tried = next_bits(tried, bits),
            lists => return lists,
        }
    }
    answers_on(alloc, bits, aig, steps, care, limit)
}

/// The answers of a circuit: for each output but the one at position `care` the terms, from the
/// greatest to the least, of the least polynomial that has the output's value at each care point.
/// `Full` comes where more nodes are needed than 2^bits, and else `Over` where the answers have
/// more terms than the limit.
pub(crate) fn answer_circuit(
    alloc: Global,
    bits: u32,
    aig: &Aig,
    care: Option<usize>,
    limit: u64,
) -> Result<MonoLists, TermsRefusal>
    requires bits { (MIN_BITS ≤ bits) × (bits ≤ MAX_BITS) }
    requires inputs { 1 ≤ aig.now.inputs }
    requires care { ForSome care (λ output. output < length aig.now.outputs) }
    ensures { FindsAnswers (2 ^ bits) limit (circuit aig.now) care result }
{
    let steps = plan_steps(alloc, aig)?;
    answers_within(alloc, bits, aig, &steps, care, limit)
}
