//! What runs lists of jobs and counts the jobs that it answered.
use crate::jobs::Jobs;
use crate::solve::{Deal, solve_as};
use computed_cache::CachedPass;
use node_store::{Handle, SolveRefusal};
use outside::Rendezvous;
use std::alloc::Global;
use std::thread::Threads;

/// The handles of a list of jobs that were all run. Only a pool's `all` makes one.
#[derive(Drop)]
pub struct Solved {
    handles: Vec<Handle>,
}

impl Solved {
    ghost use Rattle.std.specs.Prelude.{◌≡◌};

    /// The handles, by the numbers of the jobs.
    pub fn into_handles(self) -> Vec<Handle>
        ensures { result ≡ self.handles }
    {
        self.handles
    }
}

/// What runs lists of jobs, and counts the jobs that it answered: `done`.
pub trait Pool {
    ghost use Rattle.std.specs.Prelude.{◌≡◌, ◌≤◌, ◌<◌, ◌+◌, ◌^◌, ℕ, length, IfOk, IfErr, OnOk};
    ghost use Rattle.std.specs.Prelude.{OnErr, min};
    ghost use Rattle.node_store.specs.Stores.{Grows};
    ghost use Rattle.computed_cache.specs.Cached.{cached_state};
    ghost use Rattle.fork_branches.specs.Work.{MayWork, WorkedOut};
    ghost use Rattle.fork_branches.specs.Solves.{AreSolved, Refuses, AreRun};

    ghost done: { Self → ℕ };

    /// How the numbers of the jobs are dealt to the job workers.
    fn deal(&self) -> Deal;

    /// Counts the jobs of a list, and gives their handles. Whoever writes a pool of their own
    /// counts here, and passes on.
    fn answered(&mut self, solved: Solved) -> Vec<Handle>
        requires { done self.old + length solved.handles.items < 2 ^ 31 }
        ensures done { done self.new ≡ done self.old + length solved.handles.items }
        ensures handles { result ≡ solved.handles };

    /// Runs all jobs as `solve_by` does, and counts them if they were all run.
    final fn all<R: Threads + Sync, J: Jobs>(
        &mut self,
        rt: &R,
        alloc: Global,
        pass: &mut CachedPass,
        jobs: &J,
        gate: &Rendezvous,
        workers: u32,
    ) -> Result<Vec<Handle>, SolveRefusal>
        requires workers { (1 ≤ workers) × (workers ≤ 16) }
        requires may { MayWork (J.tasks jobs.now) (cached_state pass.old) }
        requires room { done self.old < 2 ^ 30 }
        ensures grows { Grows (cached_state pass.old) (cached_state pass.new) }
        ensures solved { IfOk result
            (λ v. AreSolved (J.tasks jobs.now) (cached_state pass.old) (cached_state pass.new)
            v.items) }
        ensures refused { IfErr result (Refuses (cached_state pass.old) (cached_state pass.new)) }
        ensures worked { AreRun result → 1 ≤ (J.tasks jobs.now).total
            → WorkedOut (J.tasks jobs.now) (min workers (J.tasks jobs.now).total)
            (cached_state pass.old) (cached_state pass.new) }
        ensures done { OnOk result (done self.new ≡ done self.old + (J.tasks jobs.now).total) }
        ensures undone { OnErr result (done self.new ≡ done self.old) }
    {
        let solution = solve_as(self.deal(), rt, alloc, pass, jobs, gate, workers)?;
        let handles = solution.handles;
        Ok(self.answered(Solved { handles }))
    }
}

/// The pool whose jobs are drawn by threads, as `solve_all` runs them.
#[derive(Drop, Debug)]
pub struct Drawn {
    done: u32,
}

impl Drawn {
    ghost use Rattle.std.specs.Prelude.{◌≡◌};

    /// A pool that answered no job yet.
    pub fn new() -> Drawn
        ensures { result.done ≡ 0 }
    {
        Drawn { done: 0 }
    }
}

impl Pool for Drawn {
    ghost done = { λ pool. pool.done };

    fn deal(&self) -> Deal {
        Deal::ByCounter
    }

    fn answered(&mut self, solved: Solved) -> Vec<Handle> {
        let handles = solved.into_handles();
        self.done += handles.len() as u32;
        handles
    }
}
