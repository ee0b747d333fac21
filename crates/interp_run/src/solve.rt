//! A consistent description solved, all phases on one table.
ghost use Rattle.std.specs.Prelude.{◌≡◌, ◌<◌, ◌≤◌, ◌^◌, ◌+◌, ◌*◌, true, IfOk, IfErr, IsErrOf, OnOk};
ghost use Rattle.std.specs.Prelude.{length, map};
ghost use Rattle.lattice.specs.declared.kind.Mode.TheVariants.{Gen};
ghost use Rattle.lattice.specs.declared.limits.TheConstants.{MIN_BITS, MAX_BITS};
ghost use Rattle.lattice.specs.Rows.{IsConsistent};
ghost use Rattle.lattice.specs.Family.{Covers};
ghost use Rattle.lattice.specs.WorkingLists.{first_phase, is_basis, working_set};
ghost use Rattle.node_store.specs.Stores.{Denotes, Grows, Reads};
ghost use Rattle.computed_cache.specs.Cached.{cached_state};
ghost use Rattle.pla_reader.specs.Reading.{description};
ghost use Rattle.anf_printer.specs.Text.{shown_answer};
ghost use Rattle.cli_words.specs.CommandLine.{IsWithin};
ghost use Rattle.interp_run.specs.Answers.{AreAnswers, first_nodes, last_nodes};
ghost use Rattle.program.specs.Duties.{silent};
ghost use Rattle.program.specs.Outcomes.{HasText};
ghost use Rattle.program.specs.Runs.{EndsWithout};
ghost use Rattle.program.specs.declared.outcome.Outcome.TheVariants as outcomes;
ghost use Rattle.interp_run.specs.Due.{IsDueSolving, solved};
ghost use Rattle.interp_run.specs.Ends.{end_way};
ghost use Rattle.interp_run.specs.Parts.{FirstFits, jobs_for, unsolved_outcome};
ghost use Rattle.interp_run.specs.Phases.{AreCares, AreLeads, IsFirst, first_tasks, ones_in};
ghost use Rattle.interp_run.specs.Phases.{zeros_in};

use crate::bases::{list_leads, run_second_phase};
use crate::ends::OwnEnd;
use crate::means::Interp;
use crate::phases::{First, run_first_phase};
use crate::plan::{first_plan, run_plan};
use crate::printed::list_shown;
use crate::workers::Workers;
use anf_printer::Shown;
use cli_words::Job;
use computed_cache::CachedPass;
use cube_build::Demand;
use fork_branches::Pool;
use lattice::{MAX_VARS, Mode, MonoLists};
use node_store::Store;
use pla_reader::Pla;
use program::Outcome;
use set_algebra::{TermsRefusal, ValuedPoints, count_upto};
use std::thread::Threads;
use unique_table::Shared;

/// What is printed of each output, and in mode gen how many care points the first one has.
#[derive(Drop)]
pub(crate) struct Solution {
    pub points: u64,
    pub shown: Vec<Shown>,
}

// What the job asks of its tables.
fn demand_of<'a>(pla: &'a Pla, job: &Job) -> Demand<'a> {
    Demand {
        pla,
        is_basis: job.mode == Mode::Basis,
        besides: 0,
    }
}

// Phase 1 with the leads of each output, which are none but in mode basis, in a store whose plan
// has its families. In mode basis its terms are within the limit.
fn find_first<R: Threads + Sync, P: Pool>(
    interp: &mut Interp<'_, R, P>,
    store: &mut CachedPass,
    pla: &Pla,
    job: &Job,
    bits: u32,
) -> Result<(First, MonoLists), TermsRefusal>
    requires within { IsWithin job.now }
    requires slots { (cached_state store.old).capacity ≤ 2 ^ job.now.nodes }
    requires room { P.done interp.old.pool.now < 2 ^ 29 }
    requires vars { (cached_state store.old).vars ≡ pla.now.inputs }
    requires consistent { IsConsistent pla.now.inputs pla.now.outputs pla.now.rows }
    requires planned { Covers (cached_state store.old).plan
        (working_set pla.now.inputs (first_phase pla.now.inputs pla.now.outputs pla.now.kind
        pla.now.rows job.now.mode)) }
    ensures grows { Grows (cached_state store.old) (cached_state store.new) }
    ensures first { IfOk result
        (λ r. IsFirst (cached_state store.new) (description pla.now) job.now.mode r.0) }
    ensures leads { IfOk result (λ r. AreLeads (description pla.now) job.now.mode r.1) }
    ensures fits { OnOk result (is_basis job.now.mode ≡ true
        → FirstFits job.now (description pla.now)) }
    ensures full { IsErrOf result TermsRefusal.Full
        → (cached_state store.old).capacity < length (cached_state store.old).plan }
    ensures terms { IsErrOf result TermsRefusal.Over
        → IsDueSolving job.now (description pla.now) (silent (outcomes.Terms job.now.terms)) }
    ensures same_pool { interp.new.pool.ghost_name ≡ interp.old.pool.ghost_name }
    ensures jobs { OnOk result (P.done interp.old.pool.now
        + length (first_tasks (description pla.now) job.now.mode) ≤ P.done interp.new.pool.now) }
    ensures least { P.done interp.old.pool.now ≤ P.done interp.new.pool.now }
    ensures most { P.done interp.new.pool.now ≤ P.done interp.old.pool.now + 2 ^ 24 }
{
    let workers = &Workers::on(job, pla, bits);
    let first = run_first_phase(interp, store, workers, pla, job.mode)?;
    let leads = list_leads(interp.alloc, store, pla, job.mode, &first.found, job.terms)?;
    Ok((first, leads))
}

// How many care points there are.
fn count_points<S: Store>(store: &mut S, pla: &Pla, output: u32, care: ValuedPoints) -> u64
    requires zeros { Denotes (S.state store.old) care.zeros
        (zeros_in (description pla.now) output) }
    requires ones { Denotes (S.state store.old) care.ones (ones_in (description pla.now) output) }
    ensures reads { Reads (S.state store.old) (S.state store.new) }
    ensures count { let d = description pla.now in
        result ≡ length (zeros_in d output) + length (ones_in d output) }
{
    let most = 1u64 << MAX_VARS;
    let zeros = count_upto(store, care.zeros, most).unwrap();
    let ones = count_upto(store, care.ones, most).unwrap();
    zeros + ones
}

// In mode gen, how many care points the first output has.
fn count_first_points<S: Store>(store: &mut S, pla: &Pla, mode: Mode, cares: &[ValuedPoints]) -> u64
    requires { AreCares (S.state store.old) (description pla.now) pla.now.outputs cares.now }
    ensures reads { Reads (S.state store.old) (S.state store.new) }
    ensures count { let d = description pla.now in mode ≡ Gen
        → result ≡ length (zeros_in d 1) + length (ones_in d 1) }
{
    match mode {
        Mode::Gen => count_points(store, pla, 1, cares[0]),
        Mode::Anf | Mode::Basis | Mode::Check => 0,
    }
}

// The solution, where all phases fit one table of 2^bits slots and its terms are within the limit.
// In mode basis phase 2 finds what phase 1 kept.
fn try_solution<R: Threads + Sync, P: Pool>(
    interp: &mut Interp<'_, R, P>,
    pla: &Pla,
    job: &Job,
    bits: u32,
) -> Result<Solution, TermsRefusal>
    requires within { IsWithin job.now }
    requires bits { (MIN_BITS ≤ bits) × (bits ≤ job.now.nodes) }
    requires room { P.done interp.old.pool.now < 2 ^ 29 }
    requires consistent { IsConsistent pla.now.inputs pla.now.outputs pla.now.rows }
    ensures same_pool { interp.new.pool.ghost_name ≡ interp.old.pool.ghost_name }
    ensures points { IfOk result (λ s. let d = description pla.now in job.now.mode ≡ Gen
        → s.points ≡ length (zeros_in d 1) + length (ones_in d 1)) }
    ensures ok { IfOk result (λ s. AreAnswers (description pla.now) job.now.mode
        (map shown_answer s.shown.items)
        × IsDueSolving job.now (description pla.now)
        (solved job.now (description pla.now) (map shown_answer s.shown.items))) }
    ensures jobs { IfOk result (λ s. P.done interp.old.pool.now
        + jobs_for job.now.mode (map shown_answer s.shown.items) ≤ P.done interp.new.pool.now) }
    ensures full { IsErrOf result TermsRefusal.Full
        → 2 ^ bits < last_nodes (description pla.now) job.now.mode }
    ensures terms { IsErrOf result TermsRefusal.Over
        → IsDueSolving job.now (description pla.now) (silent (outcomes.Terms job.now.terms)) }
    ensures least { P.done interp.old.pool.now ≤ P.done interp.new.pool.now }
    ensures most { P.done interp.new.pool.now ≤ P.done interp.old.pool.now + 2 ^ 25 }
{
    let (table, token) = Shared::make(interp.alloc, bits, pla.inputs, run_plan(pla, job.mode))?;
    let mut pass = CachedPass::new(table.pass(token));
    let (first, leads) = find_first(interp, &mut pass, pla, job, bits)?;
    let leads = leads.as_slice();
    let points = count_first_points(&mut pass, pla, job.mode, &first.cares);
    let elements = run_second_phase(
        interp,
        &mut pass,
        &Workers::on(job, pla, bits),
        pla,
        job.mode,
        &first,
        leads,
    )?;
    let shown = list_shown(
        interp.alloc,
        &mut pass,
        &first.found,
        leads,
        &elements,
        job.terms,
    )?;
    Ok(Solution { points, shown })
}

// Whether phase 1 is within the limits of the job, on a table of its own that has all slots of the
// run.
fn try_first<R: Threads + Sync, P: Pool>(
    interp: &mut Interp<'_, R, P>,
    pla: &Pla,
    job: &Job,
) -> Result<(), TermsRefusal>
    requires within { IsWithin job.now }
    requires room { P.done interp.old.pool.now < 2 ^ 29 }
    requires consistent { IsConsistent pla.now.inputs pla.now.outputs pla.now.rows }
    ensures same_pool { interp.new.pool.ghost_name ≡ interp.old.pool.ghost_name }
    ensures fits { OnOk result (is_basis job.now.mode ≡ true
        → FirstFits job.now (description pla.now)) }
    ensures full { IsErrOf result TermsRefusal.Full
        → 2 ^ job.now.nodes < first_nodes (description pla.now) job.now.mode }
    ensures terms { IsErrOf result TermsRefusal.Over
        → IsDueSolving job.now (description pla.now) (silent (outcomes.Terms job.now.terms)) }
{
    let plan = first_plan(pla, job.mode);
    let (table, token) = Shared::make(interp.alloc, job.nodes, pla.inputs, plan)?;
    let mut pass = CachedPass::new(table.pass(token));
    find_first(interp, &mut pass, pla, job, job.nodes)?;
    Ok(())
}

// Why there is no solution where all phases together need more slots than the run has: for want of
// these, unless phase 1 alone passes the limit of terms before.
fn refuse<R: Threads + Sync, P: Pool>(
    interp: &mut Interp<'_, R, P>,
    pla: &Pla,
    job: &Job,
) -> TermsRefusal
    requires within { IsWithin job.now }
    requires room { P.done interp.old.pool.now < 2 ^ 29 }
    requires consistent { IsConsistent pla.now.inputs pla.now.outputs pla.now.rows }
    requires over { 2 ^ job.now.nodes < last_nodes (description pla.now) job.now.mode }
    ensures same_pool { interp.new.pool.ghost_name ≡ interp.old.pool.ghost_name }
    ensures full { result ≡ TermsRefusal.Full → IsDueSolving job.now (description pla.now)
        (silent (outcomes.Exhausted (2 ^ job.now.nodes))) }
    ensures terms { result ≡ TermsRefusal.Over
        → IsDueSolving job.now (description pla.now) (silent (outcomes.Terms job.now.terms)) }
{
    match job.mode {
        Mode::Basis => match try_first(interp, pla, job) {
            Ok(()) => TermsRefusal::Full,
            Err(refusal) => refusal,
        },
        Mode::Anf | Mode::Check | Mode::Gen => TermsRefusal::Full,
    }
}

// The solution on a table of 2^bits slots or a greater one, or why there is none.
fn seek_solution<R: Threads + Sync, P: Pool>(
    interp: &mut Interp<'_, R, P>,
    pla: &Pla,
    job: &Job,
    bits: u32,
) -> Result<Solution, TermsRefusal>
    requires within { IsWithin job.now }
    requires bits { (MIN_BITS ≤ bits) × (bits ≤ job.now.nodes) }
    requires room { P.done interp.old.pool.now + (job.now.nodes + 1) * 2 ^ 25
        < 2 ^ 29 + bits * 2 ^ 25 }
    requires consistent { IsConsistent pla.now.inputs pla.now.outputs pla.now.rows }
    ensures same_pool { interp.new.pool.ghost_name ≡ interp.old.pool.ghost_name }
    ensures points { IfOk result (λ s. let d = description pla.now in job.now.mode ≡ Gen
        → s.points ≡ length (zeros_in d 1) + length (ones_in d 1)) }
    ensures ok { IfOk result (λ s. AreAnswers (description pla.now) job.now.mode
        (map shown_answer s.shown.items)
        × IsDueSolving job.now (description pla.now)
        (solved job.now (description pla.now) (map shown_answer s.shown.items))) }
    ensures jobs { IfOk result (λ s. P.done interp.old.pool.now
        + jobs_for job.now.mode (map shown_answer s.shown.items) ≤ P.done interp.new.pool.now) }
    ensures full { IsErrOf result TermsRefusal.Full → IsDueSolving job.now (description pla.now)
        (silent (outcomes.Exhausted (2 ^ job.now.nodes))) }
    ensures terms { IsErrOf result TermsRefusal.Over
        → IsDueSolving job.now (description pla.now) (silent (outcomes.Terms job.now.terms)) }
{
    match try_solution(interp, pla, job, bits) {
        Err(TermsRefusal::Full) if bits < job.nodes => {
            let next = demand_of(pla, job).next_size(bits, job.nodes);
            seek_solution(interp, pla, job, next)
        }
        Err(TermsRefusal::Full) => Err(refuse(interp, pla, job)),
        solution => solution,
    }
}

// How the run of the job ends that found no solution.
fn end_unsolved(job: &Job, refusal: TermsRefusal) -> Outcome<OwnEnd>
    requires { job.now.nodes ≤ MAX_BITS }
    ensures { result ≡ unsolved_outcome job.now refusal }
{
    match refusal {
        TermsRefusal::Full => Outcome::Exhausted {
            nodes: 1 << job.nodes,
        },
        TermsRefusal::Over => Outcome::Terms { limit: job.terms },
        TermsRefusal::Memory => Outcome::Memory,
    }
}

/// The solution of a consistent description, or how the run ends without it. The pool answers the
/// jobs, which the job's number of workers run; their branches enter the gate.
pub(crate) fn solve<R: Threads + Sync, P: Pool>(
    interp: &mut Interp<'_, R, P>,
    pla: &Pla,
    job: &Job,
) -> Result<Solution, Outcome<OwnEnd>>
    requires within { IsWithin job.now }
    requires fresh { P.done interp.old.pool.now ≡ 0 }
    requires consistent { IsConsistent pla.now.inputs pla.now.outputs pla.now.rows }
    ensures same_pool { interp.new.pool.ghost_name ≡ interp.old.pool.ghost_name }
    ensures points { IfOk result (λ s. let d = description pla.now in job.now.mode ≡ Gen
        → s.points ≡ length (zeros_in d 1) + length (ones_in d 1)) }
    ensures ok { IfOk result (λ s. AreAnswers (description pla.now) job.now.mode
        (map shown_answer s.shown.items)
        × IsDueSolving job.now (description pla.now)
        (solved job.now (description pla.now) (map shown_answer s.shown.items))) }
    ensures jobs { IfOk result (λ s. jobs_for job.now.mode (map shown_answer s.shown.items)
        ≤ P.done interp.new.pool.now) }
    ensures err { IfErr result (EndsWithout (IsDueSolving job.now (description pla.now))) }
    ensures unfinished { IfErr result (λ o. ¬ HasText end_way o) }
{
    let bits = demand_of(pla, job).first_size(job.nodes);
    match seek_solution(interp, pla, job, bits) {
        Ok(solution) => Ok(solution),
        Err(refusal) => Err(end_unsolved(job, refusal)),
    }
}
