//! Phase 2 of a run: the elements of the bases of all outputs, from the leads that phase 1 found.
ghost use Rattle.std.specs.Prelude.{◌≡◌, ◌+◌, ◌<◌, ◌≤◌, ◌^◌, ◌++◌, [], IfOk, IsErrOf, OnOk, length};
ghost use Rattle.std.specs.Prelude.{map, reverse, sum_by, true};
ghost use Rattle.lattice.specs.Family.{Covers};
ghost use Rattle.lattice.specs.Rows.{IsConsistent};
ghost use Rattle.lattice.specs.WorkingLists.{is_basis, output_numbers, second_phase, working_set};
ghost use Rattle.lattice.specs.declared.kind.Mode.{Mode};
ghost use Rattle.lattice.specs.declared.kind.Mode.TheVariants.{Basis};
ghost use Rattle.node_store.specs.Stores.{Grows, IsFull, Reads};
ghost use Rattle.computed_cache.specs.Cached.{cached_state};
ghost use Rattle.pla_reader.specs.Reading.{description};
ghost use Rattle.interp_run.specs.Phases.{AreLeads, AreOf, IsFirst, IsSecond, by_output};
ghost use Rattle.interp_run.specs.Phases.{element_task, first_tasks, second_tasks, terms_of};

use crate::means::Interp;
use crate::phases::First;
use crate::tasks::{Part, Task, Tasks, run_tasks};
use crate::workers::Workers;
use computed_cache::CachedPass;
use fork_branches::{Pool, SolveRefusal};
use lattice::{Memory, Mode, MonoLists, Monos};
use node_store::{Handle, Store};
use pla_reader::Pla;
use set_algebra::{WalkRefusal, count_terms, lists_of};
use std::alloc::Global;
use std::thread::Threads;

// A list without monomials for each output.
fn list_no_leads(alloc: Global, outputs: u32) -> Result<MonoLists, Memory>
    ensures { IfOk result (λ lists. map reverse lists ≡ map (λ _. []) (output_numbers outputs)) }
{
    let mut lists = MonoLists::new(alloc);
    for before in 0..outputs {
        lists.push(Monos::new(alloc))?;
    }
    Ok(lists)
}

// The leads of each output, from the greatest down, in mode basis, where there are no more than
// `limit` terms in what was found: in the polynomials and, as the leads, of the bases.
fn list_found_leads<S: Store>(
    alloc: Global,
    store: &mut S,
    pla: &Pla,
    found: &[Handle],
    limit: u64,
) -> Result<MonoLists, WalkRefusal>
    requires { AreOf (S.state store.old) (description pla.now) found.now
        (first_tasks (description pla.now) Basis) }
    ensures reads { Reads (S.state store.old) (S.state store.new) }
    ensures leads { IfOk result (AreLeads (description pla.now) Basis) }
    ensures within { OnOk result (terms_of (S.state store.old) found.now ≤ limit) }
    ensures terms { IsErrOf result WalkRefusal.Over
        → limit < terms_of (S.state store.old) found.now }
{
    let (polynomials, leads) = found.split_at(pla.outputs as usize);
    let Some(count) = count_terms(store, polynomials, limit) else {
        return Err(WalkRefusal::Over);
    };
    let mut left = limit - count;
    lists_of(alloc, store, leads, &mut left)
}

/// The leads of each output, from the greatest down, from what phase 1 found. In mode basis there
/// are no more than `limit` terms in this: in the polynomials and, as the leads, of the bases. In
/// the other modes there are no leads, and nothing is counted.
pub(crate) fn list_leads<S: Store>(
    alloc: Global,
    store: &mut S,
    pla: &Pla,
    mode: Mode,
    found: &[Handle],
    limit: u64,
) -> Result<MonoLists, WalkRefusal>
    requires { AreOf (S.state store.old) (description pla.now) found.now
        (first_tasks (description pla.now) mode) }
    ensures reads { Reads (S.state store.old) (S.state store.new) }
    ensures leads { IfOk result (AreLeads (description pla.now) mode) }
    ensures within { OnOk result (is_basis mode ≡ true
        → terms_of (S.state store.old) found.now ≤ limit) }
    ensures terms { IsErrOf result WalkRefusal.Over → (is_basis mode ≡ true)
        × (limit < terms_of (S.state store.old) found.now) }
{
    match mode {
        Mode::Basis => list_found_leads(alloc, store, pla, found, limit),
        Mode::Anf | Mode::Check | Mode::Gen => Ok(list_no_leads(alloc, pla.outputs)?),
    }
}

// The tasks with those for the elements of an output behind them, by ascending lead.
fn push_elements(mut tasks: Vec<Task>, output: u32, leads: &Monos) -> Result<Vec<Task>, Memory>
    ensures { IfOk result (λ all. all.items
        ≡ tasks.items ++ map (element_task output) (reverse leads.now)) }
{
    for lead in leads.as_slice().iter().rev() {
        tasks.push(Task {
            output,
            part: Part::Element { lead: *lead },
        })?;
    }
    Ok(tasks)
}

// The tasks of phase 2: the elements of each output.
fn list_second_tasks(alloc: Global, pla: &Pla, leads: &[Monos]) -> Result<Vec<Task>, Memory>
    requires leads { length leads.now ≡ pla.now.outputs }
    ensures { IfOk result (λ tasks. (mode : Mode) → AreLeads (description pla.now) mode leads.now
        → tasks.items ≡ second_tasks (description pla.now) mode) }
{
    let mut list = Vec::new(alloc);
    for before in 0..pla.outputs {
        list = push_elements(list, before + 1, &leads[before as usize])?;
    }
    Ok(list)
}

/// Runs phase 2, for the leads of phase 1: the elements of all outputs, in order.
pub(crate) fn run_second_phase<R: Threads + Sync, P: Pool>(
    interp: &mut Interp<'_, R, P>,
    store: &mut CachedPass,
    workers: &Workers,
    pla: &Pla,
    mode: Mode,
    first: &First,
    leads: &[Monos],
) -> Result<Vec<Handle>, SolveRefusal>
    requires room { P.done interp.old.pool.now < 2 ^ 30 }
    requires vars { (cached_state store.old).vars ≡ pla.now.inputs }
    requires consistent { IsConsistent pla.now.inputs pla.now.outputs pla.now.rows }
    requires first { IsFirst (cached_state store.old) (description pla.now) mode first.now }
    requires leads { AreLeads (description pla.now) mode leads.now }
    requires few { length (second_tasks (description pla.now) mode) ≤ 1000000 }
    requires planned { Covers (cached_state store.old).plan
        (working_set pla.now.inputs (second_phase pla.now.inputs pla.now.outputs pla.now.kind
        pla.now.rows mode)) }
    ensures grows { Grows (cached_state store.old) (cached_state store.new) }
    ensures enough { IfOk result (λ elements. (length leads.now ≤ length first.now.found.items)
        × (length elements.items ≡ sum_by length leads.now)) }
    ensures solved { IfOk result (λ elements. IsSecond (cached_state store.new)
        (description pla.now) mode
        (by_output leads.now first.now.found.items elements.items)) }
    ensures same_pool { interp.new.pool.ghost_name ≡ interp.old.pool.ghost_name }
    ensures jobs { OnOk result (P.done interp.old.pool.now
        + length (second_tasks (description pla.now) mode) ≤ P.done interp.new.pool.now) }
    ensures least { P.done interp.old.pool.now ≤ P.done interp.new.pool.now }
    ensures most { P.done interp.new.pool.now ≤ P.done interp.old.pool.now + 2 ^ 24 }
    ensures full { IsErrOf result SolveRefusal.Full
        → IsFull (cached_state store.old) (cached_state store.new) }
{
    let list = list_second_tasks(interp.alloc, pla, leads)?;
    let tasks = Tasks {
        pla,
        cares: &first.cares,
        list: &list,
    };
    run_tasks(interp, store, workers.for_elements(list.len()), &tasks)
}
