//! The two phases of a run: the polynomials and the leads of all outputs, and the elements of their
//! bases.
ghost use Rattle.std.specs.Prelude.{◌≡◌, ◌+◌, ◌++◌, ◌<◌, ◌≤◌, ◌^◌, IfOk, IsErrOf, OnOk, length};
ghost use Rattle.std.specs.Prelude.{map};
ghost use Rattle.lattice.specs.Family.{Covers};
ghost use Rattle.lattice.specs.Rows.{IsConsistent};
ghost use Rattle.lattice.specs.WorkingLists.{first_phase, output_numbers, working_set};
ghost use Rattle.node_store.specs.Stores.{Grows, IsFull};
ghost use Rattle.computed_cache.specs.Cached.{cached_state};
ghost use Rattle.pla_reader.specs.Reading.{description};
ghost use Rattle.interp_run.specs.Phases.{IsFirst, first_tasks, task};

use crate::cover_jobs::find_cares;
use crate::means::Interp;
use crate::tasks::{Part, Task, Tasks, run_tasks};
use crate::workers::Workers;
use computed_cache::CachedPass;
use fork_branches::{Pool, SolveRefusal};
use lattice::{Memory, Mode};
use node_store::Handle;
use pla_reader::Pla;
use set_algebra::ValuedPoints;
use std::alloc::Global;
use std::thread::Threads;

/// What phase 1 finds: the care sets of all outputs, and what each of its tasks finds.
#[derive(Drop)]
pub(crate) struct First {
    pub cares: Vec<ValuedPoints>,
    pub found: Vec<Handle>,
}

// The tasks with this part of each output behind them.
fn push_part(mut tasks: Vec<Task>, part: &Part, outputs: u32) -> Result<Vec<Task>, Memory>
    ensures { IfOk result (λ all. all.items
        ≡ tasks.items ++ map (task part.now) (output_numbers outputs)) }
{
    for before in 0..outputs {
        tasks.push(Task {
            output: before + 1,
            part: *part,
        })?;
    }
    Ok(tasks)
}

// The tasks of phase 1: the polynomials of all outputs, and then in mode basis their leads.
fn list_first_tasks(alloc: Global, pla: &Pla, mode: Mode) -> Result<Vec<Task>, Memory>
    ensures { IfOk result (λ tasks. tasks.items ≡ first_tasks (description pla.now) mode) }
{
    let polynomials = push_part(Vec::new(alloc), &Part::Polynomial, pla.outputs)?;
    match mode {
        Mode::Basis => push_part(polynomials, &Part::Leads, pla.outputs),
        Mode::Anf | Mode::Check | Mode::Gen => Ok(polynomials),
    }
}

/// Runs phase 1. The jobs of the pool are the covers of the outputs' sets, and then the tasks.
pub(crate) fn run_first_phase<R: Threads + Sync, P: Pool>(
    interp: &mut Interp<'_, R, P>,
    store: &mut CachedPass,
    workers: &Workers,
    pla: &Pla,
    mode: Mode,
) -> Result<First, SolveRefusal>
    requires room { P.done interp.old.pool.now < 2 ^ 29 }
    requires vars { (cached_state store.old).vars ≡ pla.now.inputs }
    requires consistent { IsConsistent pla.now.inputs pla.now.outputs pla.now.rows }
    requires planned { Covers (cached_state store.old).plan
        (working_set pla.now.inputs (first_phase pla.now.inputs pla.now.outputs pla.now.kind
        pla.now.rows mode)) }
    ensures grows { Grows (cached_state store.old) (cached_state store.new) }
    ensures found { IfOk result (IsFirst (cached_state store.new) (description pla.now) mode) }
    ensures same_pool { interp.new.pool.ghost_name ≡ interp.old.pool.ghost_name }
    ensures jobs { OnOk result (P.done interp.old.pool.now
        + length (first_tasks (description pla.now) mode) ≤ P.done interp.new.pool.now) }
    ensures least { P.done interp.old.pool.now ≤ P.done interp.new.pool.now }
    ensures most { P.done interp.new.pool.now ≤ P.done interp.old.pool.now + 2 ^ 24 }
    ensures full { IsErrOf result SolveRefusal.Full
        → IsFull (cached_state store.old) (cached_state store.new) }
{
    let cares = find_cares(interp, store, workers.covers, pla)?;
    let list = list_first_tasks(interp.alloc, pla, mode)?;
    let tasks = Tasks {
        pla,
        cares: &cares,
        list: &list,
    };
    let found = run_tasks(interp, store, workers.first, &tasks)?;
    Ok(First { cares, found })
}
