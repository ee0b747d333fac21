ghost use Rattle.std.specs.Prelude.{◌≤◌, ◌<◌, ◌^◌};

use crate::of_fork_branches::Noted;
use computed_cache::CachedPass;
use node_store::any_plan;
use outside::Rendezvous;
use std::alloc::Global;
use std::test::Fail;
use std::thread::Threads;
use steal_pool::{Stolen, steal_all};
use unique_table::Shared;

// All jobs, stolen by the workers, in a table of their own.
fn steal<R: Threads + Sync>(
    rt: &R,
    alloc: Global,
    jobs: &Noted,
    workers: u32,
) -> Result<Stolen, Fail>
    requires workers { (1 ≤ workers) × (workers ≤ 16) }
    requires few { jobs.now.count < 2 ^ 30 }
{
    let (table, token) = Shared::make(alloc, 8, 3, any_plan(3))?;
    let mut pass = CachedPass::new(table.pass(token));
    let gate = Rendezvous::open();
    Ok(steal_all(rt, alloc, &mut pass, jobs, &gate, workers)?)
}

// The jobs 0 and 2 are dealt to one deque, and job 0 waits until all others have begun. So another
// worker steals job 2.
#[test]
fn jobs_are_stolen(rt: HostRuntime) -> Result<(), Fail> {
    let jobs = Noted::new(rt.alloc(), 4, 1, 4)?;
    let stolen = steal(&rt, rt.alloc(), &jobs, 2)?;
    assert!(rt; jobs.went_well());
    assert_eq!(rt; stolen.handles.len(), 4);
    let first = stolen.taken.worker_of(0);
    assert!(rt; first.is_some());
    assert!(rt; first != stolen.taken.worker_of(2));
    Ok(())
}

// Fifty jobs by five workers: each is called once, and has a worker.
#[test]
fn each_stolen_job_is_run_once(rt: HostRuntime) -> Result<(), Fail> {
    let jobs = Noted::new(rt.alloc(), 50, 1, 1)?;
    let stolen = steal(&rt, rt.alloc(), &jobs, 5)?;
    assert!(rt; jobs.went_well());
    for number in 0..50 {
        assert!(rt;
            stolen
                .taken
                .worker_of(number)
                .is_some_and(|worker| worker < 5)
        );
    }
    assert_eq!(rt; stolen.taken.worker_of(50), None);
    Ok(())
}
