//! All jobs of a list, whose numbers workers steal from each other.
ghost use Rattle.std.specs.Prelude.{◌≡◌, ◌≤◌, ℕ, IfOk, IfErr, length, min};
ghost use Rattle.std.specs.List.{concat};
ghost use Rattle.node_store.specs.Stores.{Grows};
ghost use Rattle.computed_cache.specs.Cached.{cached_state};
ghost use Rattle.job_counter.specs.Numbers.{times, once_below};
ghost use Rattle.fork_branches.specs.Work.{MayWork, WorkedOut};
ghost use Rattle.fork_branches.specs.Solves.{AreSolved, Refuses, AreRun};

use computed_cache::CachedPass;
use fork_branches::{Jobs, Shares, Solution, SolveRefusal, solve_by};
use job_deques::Deques;
use node_store::Handle;
use outside::Rendezvous;
use std::alloc::Global;
use std::thread::Threads;

/// The handles of jobs that were all run, by the numbers of the jobs, and the numbers that each job
/// worker took.
#[derive(Drop)]
pub struct Stolen {
    pub handles: Vec<Handle>,
    pub taken: Shares,
}

/// Runs all jobs, and gives the handle of each, by number, and the numbers that each job worker
/// took.
///
/// There are as many job workers as `solve_by` has, and each has a deque, to which the numbers are
/// dealt before the start: each to that of its rest. A worker pops the numbers of its own deque,
/// and once that is empty it steals from the others in turn. It ends when it has found every deque
/// empty. All memory is taken before the first number: after `Memory` no job was run. `Full` where
/// a worker found no slot for a family that its job needed, once all have ended.
pub fn steal_all<R: Threads + Sync, J: Jobs>(
    rt: &R,
    alloc: Global,
    pass: &mut CachedPass,
    jobs: &J,
    gate: &Rendezvous,
    workers: u32,
) -> Result<Stolen, SolveRefusal>
    requires workers { (1 ≤ workers) × (workers ≤ 16) }
    requires may { MayWork (J.tasks jobs.now) (cached_state pass.old) }
    ensures grows { Grows (cached_state pass.old) (cached_state pass.new) }
    ensures solved { IfOk result (λ s. AreSolved (J.tasks jobs.now) (cached_state pass.old)
        (cached_state pass.new) s.handles.items) }
    ensures refused { IfErr result (Refuses (cached_state pass.old) (cached_state pass.new)) }
    ensures worked { AreRun result → 1 ≤ (J.tasks jobs.now).total
        → WorkedOut (J.tasks jobs.now) (min workers (J.tasks jobs.now).total)
        (cached_state pass.old) (cached_state pass.new) }
    ensures lists { IfOk result (λ s. length s.taken ≡ min workers (J.tasks jobs.now).total) }
    ensures once { IfOk result (λ s. (x : ℕ)
        → times x (concat s.taken) ≡ once_below x (J.tasks jobs.now).total) }
{
    let Solution { handles, shares } = solve_by::<R, J, Deques>(
        rt, alloc, pass, jobs, gate, workers,
    )?;
    Ok(Stolen {
        handles,
        taken: shares,
    })
}
