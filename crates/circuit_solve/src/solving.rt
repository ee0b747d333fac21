//! The answers of a circuit and the reduced basis of its care points, with both phases on one
//! table, or each on its own.
ghost use Rattle.std.specs.Prelude.{◌≡◌, ◌≢◌, ◌<◌, ◌≤◌, ◌^◌, true, None, Some, IfErr};
ghost use Rattle.std.specs.Prelude.{IfOk, length, reverse};
ghost use Rattle.std.specs.Option.{ForSome};
ghost use Rattle.lattice.specs.Family.{Covers};
ghost use Rattle.lattice.specs.WorkingLists.{working_set};
ghost use Rattle.lattice.specs.declared.limits.TheConstants.{MIN_BITS, MAX_BITS};
ghost use Rattle.node_store.specs.Stores.{Grows};
ghost use Rattle.aig_reader.specs.Reading.{circuit};
ghost use Rattle.set_algebra.specs.declared.refusal.TermsRefusal.TheVariants as refusals;
ghost use Rattle.gate_build.specs.Steps.{steps_of};
ghost use Rattle.circuit_solve.specs.Phases.{FindsLeads, FindsSolved};
ghost use Rattle.circuit_solve.specs.Solved.{IsSolved, Solved, care_leads, first_nodes};
ghost use Rattle.circuit_solve.specs.Solved.{first_phase_list, first_refused, second_phase_list};
ghost use Rattle.circuit_solve.specs.Solved.{solved};

use crate::phases::{first_phase, second_phase};
use crate::plans::{Sought, plan_for};
use crate::searching::answer_circuit;
use crate::solution::Solution;
use aig_reader::Aig;
use computed_cache::CachedPass;
use cube_build::{SMALL_BITS, next_bits};
use gate_build::{Step, plan_steps};
use lattice::{Mono, MonoLists, Monos};
use node_store::Store;
use set_algebra::{TermsRefusal, count_terms, lists_of, walk_upto};
use std::alloc::Global;
use unique_table::Shared;

/// Phase 1 in a store whose plan has its families: the leads, from the greatest to the least. Their
/// number and the terms of the answers are limited together.
fn leads_in<S: Store>(
    alloc: Global,
    store: &mut S,
    aig: &Aig,
    steps: &[Step],
    care: Option<usize>,
    limit: u64,
) -> Result<Monos, TermsRefusal>
    requires vars { (S.state store.old).vars ≡ aig.now.inputs }
    requires steps { steps.now ≡ steps_of (circuit aig.now) }
    requires care { ForSome care (λ output. output < length aig.now.outputs) }
    requires planned { Covers (S.state store.old).plan
        (working_set aig.now.inputs (first_phase_list (circuit aig.now) care)) }
    ensures grows { Grows (S.state store.old) (S.state store.new) }
    ensures leads { let s = S.state store.old in
        FindsLeads (length s.plan) s.capacity limit (circuit aig.now) care result }
{
    let found = first_phase(alloc, store, aig, steps, care)?;
    let Some(terms) = count_terms(store, &found.polynomials, limit) else {
        return Err(TermsRefusal::Over);
    };
    Ok(walk_upto(alloc, store, found.leads, limit - terms)?)
}

/// Phase 2 in a store with its plan. The leads go from the greatest to the least.
fn solution_in<S: Store>(
    alloc: Global,
    store: &mut S,
    aig: &Aig,
    steps: &[Step],
    care: Option<usize>,
    leads: &[Mono],
    limit: u64,
) -> Result<Solution, TermsRefusal>
    requires vars { (S.state store.old).vars ≡ aig.now.inputs }
    requires steps { steps.now ≡ steps_of (circuit aig.now) }
    requires care { ForSome care (λ output. output < length aig.now.outputs) }
    requires leads { reverse leads.now ≡ care_leads (circuit aig.now) care }
    requires plan { (S.state store.old).plan
        ≡ working_set aig.now.inputs (second_phase_list (circuit aig.now) care) }
    ensures { FindsSolved (S.state store.old).capacity limit (circuit aig.now) care result }
{
    let found = second_phase(alloc, store, aig, steps, care, leads)?;
    let mut left = limit;
    let polynomials = lists_of(alloc, store, &found.polynomials, &mut left)?;
    let basis = lists_of(alloc, store, &found.elements, &mut left)?;
    Ok(Solution { polynomials, basis })
}

/// Phase 1 on a table of its own, which is given up.
fn leads_on(
    alloc: Global,
    bits: u32,
    aig: &Aig,
    steps: &[Step],
    care: Option<usize>,
    limit: u64,
) -> Result<Monos, TermsRefusal>
    requires bits { (MIN_BITS ≤ bits) × (bits ≤ MAX_BITS) }
    requires inputs { 1 ≤ aig.now.inputs }
    requires steps { steps.now ≡ steps_of (circuit aig.now) }
    requires care { ForSome care (λ output. output < length aig.now.outputs) }
    ensures { FindsLeads (first_nodes (circuit aig.now) care true) (2 ^ bits) limit
        (circuit aig.now) care result }
{
    let plan = plan_for(aig, care, Sought::Leads);
    let (table, token) = Shared::make(alloc, bits, aig.inputs, plan)?;
    let mut pass = CachedPass::new(table.pass(token));
    leads_in(alloc, &mut pass, aig, steps, care, limit)
}

/// Phase 2 on a table of its own.
fn solution_on(
    alloc: Global,
    bits: u32,
    aig: &Aig,
    steps: &[Step],
    care: Option<usize>,
    leads: &[Mono],
    limit: u64,
) -> Result<Solution, TermsRefusal>
    requires bits { (MIN_BITS ≤ bits) × (bits ≤ MAX_BITS) }
    requires inputs { 1 ≤ aig.now.inputs }
    requires steps { steps.now ≡ steps_of (circuit aig.now) }
    requires care { ForSome care (λ output. output < length aig.now.outputs) }
    requires leads { reverse leads.now ≡ care_leads (circuit aig.now) care }
    ensures { FindsSolved (2 ^ bits) limit (circuit aig.now) care result }
{
    let plan = plan_for(aig, care, Sought::Elements);
    let (table, token) = Shared::make(alloc, bits, aig.inputs, plan)?;
    let mut pass = CachedPass::new(table.pass(token));
    solution_in(alloc, &mut pass, aig, steps, care, leads, limit)
}

/// Both phases, each on a table of 2^bits slots.
fn solve_apart(
    alloc: Global,
    bits: u32,
    aig: &Aig,
    steps: &[Step],
    care: Option<usize>,
    limit: u64,
) -> Result<Solution, TermsRefusal>
    requires bits { (MIN_BITS ≤ bits) × (bits ≤ MAX_BITS) }
    requires inputs { 1 ≤ aig.now.inputs }
    requires steps { steps.now ≡ steps_of (circuit aig.now) }
    requires care { ForSome care (λ output. output < length aig.now.outputs) }
    ensures solved { IfOk result (λ s. IsSolved (circuit aig.now) care true (solved s)) }
    ensures within { IfOk result
        (λ s. first_refused bits limit (circuit aig.now) care true (solved s) ≡ None) }
    ensures refused { IfErr result (λ e. e ≢ refusals.Memory → (s : Solved)
        → IsSolved (circuit aig.now) care true s
        → first_refused bits limit (circuit aig.now) care true s ≡ Some e) }
{
    let leads = leads_on(alloc, bits, aig, steps, care, limit)?;
    solution_on(alloc, bits, aig, steps, care, leads.as_slice(), limit)
}

/// Both phases on one table of 2^bits slots, where phase 2 finds what phase 1 kept. Where it is
/// full, this says only that both phases together need more.
fn solve_at_once(
    alloc: Global,
    bits: u32,
    aig: &Aig,
    steps: &[Step],
    care: Option<usize>,
    limit: u64,
) -> Result<Solution, TermsRefusal>
    requires bits { (MIN_BITS ≤ bits) × (bits ≤ MAX_BITS) }
    requires inputs { 1 ≤ aig.now.inputs }
    requires steps { steps.now ≡ steps_of (circuit aig.now) }
    requires care { ForSome care (λ output. output < length aig.now.outputs) }
    ensures solved { IfOk result (λ s. IsSolved (circuit aig.now) care true (solved s)) }
    ensures within { IfOk result
        (λ s. first_refused bits limit (circuit aig.now) care true (solved s) ≡ None) }
    ensures refused { IfErr result (λ e. e ≢ refusals.Memory → e ≢ refusals.Full → (s : Solved)
        → IsSolved (circuit aig.now) care true s
        → first_refused bits limit (circuit aig.now) care true s ≡ Some e) }
{
    let plan = plan_for(aig, care, Sought::Elements);
    let (table, token) = Shared::make(alloc, bits, aig.inputs, plan)?;
    let mut pass = CachedPass::new(table.pass(token));
    let leads = leads_in(alloc, &mut pass, aig, steps, care, limit)?;
    solution_in(alloc, &mut pass, aig, steps, care, leads.as_slice(), limit)
}

/// Both phases on tables of up to 2^bits slots, the smaller ones first, each for both.
fn solve_within(
    alloc: Global,
    bits: u32,
    aig: &Aig,
    steps: &[Step],
    care: Option<usize>,
    limit: u64,
) -> Result<Solution, TermsRefusal>
    requires bits { (MIN_BITS ≤ bits) × (bits ≤ MAX_BITS) }
    requires inputs { 1 ≤ aig.now.inputs }
    requires steps { steps.now ≡ steps_of (circuit aig.now) }
    requires care { ForSome care (λ output. output < length aig.now.outputs) }
    ensures solved { IfOk result (λ s. IsSolved (circuit aig.now) care true (solved s)) }
    ensures within { IfOk result
        (λ s. first_refused bits limit (circuit aig.now) care true (solved s) ≡ None) }
    ensures refused { IfErr result (λ e. e ≢ refusals.Memory → (s : Solved)
        → IsSolved (circuit aig.now) care true s
        → first_refused bits limit (circuit aig.now) care true s ≡ Some e) }
{
    let mut tried = bits.min(SMALL_BITS);
    while tried < bits {
        match solve_at_once(alloc, tried, aig, steps, care, limit) {
            Err(TermsRefusal::Full) => tried = next_bits(tried, bits),
            solution => return solution,
        }
    }
    solve_apart(alloc, bits, aig, steps, care, limit)
}

/// The answers and the basis.
fn solve_with_basis(
    alloc: Global,
    bits: u32,
    aig: &Aig,
    care: Option<usize>,
    limit: u64,
) -> Result<Solution, TermsRefusal>
    requires bits { (MIN_BITS ≤ bits) × (bits ≤ MAX_BITS) }
    requires inputs { 1 ≤ aig.now.inputs }
    requires care { ForSome care (λ output. output < length aig.now.outputs) }
    ensures solved { IfOk result (λ s. IsSolved (circuit aig.now) care true (solved s)) }
    ensures within { IfOk result
        (λ s. first_refused bits limit (circuit aig.now) care true (solved s) ≡ None) }
    ensures refused { IfErr result (λ e. e ≢ refusals.Memory → (s : Solved)
        → IsSolved (circuit aig.now) care true s
        → first_refused bits limit (circuit aig.now) care true s ≡ Some e) }
{
    let steps = plan_steps(alloc, aig)?;
    solve_within(alloc, bits, aig, &steps, care, limit)
}

/// What solves a circuit: for each output but the one at position `care`, which counts from 0, the
/// least polynomial that has the output's value at each care point and, `with_basis`, the reduced
/// basis of the polynomials that vanish at all of them. The care points are those at which the
/// output at `care` is 1, or all points where there is none.
///
/// With a basis each of two phases works on a table of 2^bits slots of its own: the first finds the
/// answers and the leads, and the second the elements. Without one there is the first alone. The
/// refusal is that of the first limit that is passed, or want of memory: `Full` for the slots of
/// the first table, `Over` for the answers' terms and the leads, `Full` for the slots of the second
/// table, and `Over` for all terms. Smaller tables are tried first.
pub fn solve_circuit(
    alloc: Global,
    bits: u32,
    aig: &Aig,
    care: Option<usize>,
    with_basis: bool,
    limit: u64,
) -> Result<Solution, TermsRefusal>
    requires bits { (MIN_BITS ≤ bits) × (bits ≤ MAX_BITS) }
    requires inputs { 1 ≤ aig.now.inputs }
    requires care { ForSome care (λ output. output < length aig.now.outputs) }
    ensures solved { IfOk result (λ s. IsSolved (circuit aig.now) care with_basis (solved s)) }
    ensures within { IfOk result
        (λ s. first_refused bits limit (circuit aig.now) care with_basis (solved s) ≡ None) }
    ensures refused { IfErr result (λ e. e ≢ refusals.Memory → (s : Solved)
        → IsSolved (circuit aig.now) care with_basis s
        → first_refused bits limit (circuit aig.now) care with_basis s ≡ Some e) }
{
    if with_basis {
        return solve_with_basis(alloc, bits, aig, care, limit);
    }
    let polynomials = answer_circuit(alloc, bits, aig, care, limit)?;
    let basis = MonoLists::new(alloc);
    Ok(Solution { polynomials, basis })
}
