ghost use Rattle.std.specs.Prelude.{◌≤◌, ◌≡◌, ◌<◌, ◌^◌, All, IfOk};
ghost use Rattle.node_store.specs.Stores.{Knows};
ghost use Rattle.node_store.specs.AnyFamily.{MayHoldAny};

use bool_poly::SetOps;
use computed_cache::CachedPass;
use fork_branches::{Deal, Drawn, Forked, Jobs, Pool, Solution, Solved, solve_by};
use job_counter::Dealing;
use lattice::{Mono, Monos, Op};
use node_store::{Full, Handle, Store, any_plan};
use outside::Rendezvous;
use set_algebra::{family_of, walk_upto};
use std::alloc::Global;
use std::sync::atomic::{AtomicU64, Ordering};
use std::test::Fail;
use std::thread::Threads;
use unique_table::Shared;

// How often a job or a branch looks whether the others have begun: for some ten seconds, as one may
// begin late on a machine that has other work.
const LOOKS: u64 = 10_000_000_000;

// Jobs that note their calls. The odd ones give the handle of the family with the monomial 1 alone,
// and the even ones that of the empty family. The first ones, as many as `waiting` says, wait until
// `awaited` jobs have begun.
#[derive(Drop)]
pub(crate) struct Noted {
    count: u32,
    calls: Vec<AtomicU64>,
    begun: AtomicU64,
    waiting: u32,
    awaited: u64,
    missed: AtomicU64,
}

impl Noted {
    // So many jobs, which nobody called yet.
    pub(crate) fn new(alloc: Global, count: u32, waiting: u32, awaited: u64) -> Result<Noted, Fail>
        ensures { IfOk result (λ n. n.count ≡ count) }
    {
        let mut calls = Vec::new(alloc);
        for _ in 0..count {
            calls.push(AtomicU64::new(0))?;
        }
        Ok(Noted {
            count,
            calls,
            begun: AtomicU64::new(0),
            waiting,
            awaited,
            missed: AtomicU64::new(0),
        })
    }

    // Whether so many jobs begin while this one looks.
    fn sees_others(&self) -> bool {
        for _ in 0..LOOKS {
            if self.begun.load(Ordering::SeqCst) >= self.awaited {
                return true;
            }
        }
        false
    }

    // Whether each job was called once, and those that waited saw the others begin.
    pub(crate) fn went_well(&self) -> bool {
        self.had_calls(1)
    }

    // Whether each job was called so often, and those that waited saw the others begin.
    fn had_calls(&self, times: u64) -> bool {
        self.missed.load(Ordering::SeqCst) == 0
            && self
                .calls
                .iter()
                .all(|call| call.load(Ordering::SeqCst) == times)
    }
}

impl Jobs for Noted {
    ghost use Rattle.std.specs.Prelude.{[]};
    ghost use Rattle.thread_tests.specs.NotedJobs.{noted};

    ghost tasks = { λ jobs. noted jobs.count };

    fn count(&self) -> u32 {
        self.count
    }

    fn one<S: Store, O: SetOps<S>>(
        &self,
        store: &mut S,
        ops: &mut O,
        number: u32,
    ) -> Result<Handle, Full> {
        let _ = store;
        let _ = ops;
        self.begun.fetch_add(1, Ordering::SeqCst);
        if let Some(call) = self.calls.get(number as usize) {
            call.fetch_add(1, Ordering::SeqCst);
        }
        if number < self.waiting && !self.sees_others() {
            self.missed.store(1, Ordering::SeqCst);
        }
        Ok(Handle(number % 2))
    }
}

// A pool that counts the lists of jobs, and passes on.
#[derive(Drop)]
struct Counting {
    lists: u32,
    pool: Drawn,
}

impl Pool for Counting {
    ghost done = { λ pool. pool.pool.done };

    fn deal(&self) -> Deal {
        self.pool.deal()
    }

    fn answered(&mut self, solved: Solved) -> Vec<Handle> {
        self.lists = self.lists.saturating_add(1);
        self.pool.answered(solved)
    }
}

// All jobs by a pool, in a table of their own.
fn all_by<R: Threads + Sync, P: Pool>(
    rt: &R,
    alloc: Global,
    pool: &mut P,
    jobs: &Noted,
    gate: &Rendezvous,
    workers: u32,
) -> Result<Vec<Handle>, Fail>
    requires workers { (1 ≤ workers) × (workers ≤ 16) }
    requires few { jobs.now.count < 2 ^ 30 }
    requires room { P.done pool.old < 2 ^ 30 }
{
    let (table, token) = Shared::make(alloc, 8, 3, any_plan(3))?;
    let mut pass = CachedPass::new(table.pass(token));
    Ok(pool.all(rt, alloc, &mut pass, jobs, gate, workers)?)
}

// Fifty jobs by five workers: each is called once, and its answer stands at its number.
#[test]
fn each_job_is_run_once(rt: HostRuntime) -> Result<(), Fail> {
    let jobs = Noted::new(rt.alloc(), 50, 1, 1)?;
    let handles = all_by(
        &rt,
        rt.alloc(),
        &mut Drawn::new(),
        &jobs,
        &Rendezvous::open(),
        5,
    )?;
    assert!(rt; jobs.went_well());
    assert_eq!(rt; handles.len(), 50);
    for number in 0..50 {
        assert_eq!(rt; handles.get(number as usize), Some(&Handle(number % 2)));
    }
    Ok(())
}

// The first job waits until the three others have begun, so one of two workers runs these three: no
// share that is dealt out before the jobs begin does that. The two workers meet at the gate.
#[test]
fn jobs_are_drawn(rt: HostRuntime) -> Result<(), Fail> {
    let jobs = Noted::new(rt.alloc(), 4, 1, 4)?;
    let gate = Rendezvous::waiting(LOOKS);
    let handles = all_by(&rt, rt.alloc(), &mut Drawn::new(), &jobs, &gate, 2)?;
    assert!(rt; jobs.went_well());
    assert!(rt; gate.met());
    assert_eq!(rt; handles.len(), 4);
    Ok(())
}

// All jobs by a dealing, in a table of their own.
fn dealt_by<R: Threads + Sync, D: Dealing>(
    rt: &R,
    alloc: Global,
    jobs: &Noted,
    workers: u32,
) -> Result<Solution, Fail>
    requires workers { (1 ≤ workers) × (workers ≤ 16) }
    requires few { jobs.now.count < 2 ^ 30 }
{
    let (table, token) = Shared::make(alloc, 8, 3, any_plan(3))?;
    let mut pass = CachedPass::new(table.pass(token));
    let gate = Rendezvous::open();
    Ok(solve_by::<R, Noted, D>(rt, alloc, &mut pass, jobs, &gate, workers)?)
}

// The same jobs: the worker that ran the first ran no other, and nobody ran a fifth.
#[test]
fn shares_of_the_workers(rt: HostRuntime) -> Result<(), Fail> {
    let jobs = Noted::new(rt.alloc(), 4, 1, 4)?;
    let Solution { handles, shares } = dealt_by::<HostRuntime, job_counter::Counting>(
        &rt,
        rt.alloc(),
        &jobs,
        2,
    )?;
    assert!(rt; jobs.went_well());
    assert_eq!(rt; handles.len(), 4);
    let first = shares.worker_of(0);
    assert!(rt; first == Some(0) || first == Some(1));
    for number in 1..4 {
        let other = shares.worker_of(number);
        assert!(rt; other == Some(0) || other == Some(1));
        assert!(rt; other != first);
    }
    assert_eq!(rt; shares.worker_of(4), None);
    Ok(())
}

// As many jobs as workers, each of which waits until all have begun. A worker runs one job at a
// time, so all workers are at work at one time.
#[test]
fn as_many_workers_as_asked(rt: HostRuntime) -> Result<(), Fail> {
    for workers in [2u32, 8, 16] {
        assert!(rt; 1 <= workers && workers <= 16);
        let jobs = Noted::new(rt.alloc(), workers, workers, u64::from(workers))?;
        let handles = all_by(
            &rt,
            rt.alloc(),
            &mut Drawn::new(),
            &jobs,
            &Rendezvous::open(),
            workers,
        )?;
        assert!(rt; jobs.went_well(), "{workers} workers");
        assert_eq!(rt; handles.len(), workers as usize);
    }
    Ok(())
}

// One job and several workers: each of them does it, and waits until all have begun, so they are at
// work at one time. The first two meet at the gate.
#[test]
fn one_job_by_several_workers(rt: HostRuntime) -> Result<(), Fail> {
    for workers in [2u32, 3, 16] {
        assert!(rt; 1 <= workers && workers <= 16);
        let jobs = Noted::new(rt.alloc(), 1, 1, u64::from(workers))?;
        let gate = Rendezvous::waiting(LOOKS);
        let handles = all_by(&rt, rt.alloc(), &mut Drawn::new(), &jobs, &gate, workers)?;
        assert!(rt; jobs.had_calls(u64::from(workers)), "{workers} workers");
        assert!(rt; gate.met());
        assert_eq!(rt; handles.len(), 1);
    }
    Ok(())
}

// A pool of one's own counts, and passes on.
#[test]
fn pool_of_ones_own(rt: HostRuntime) -> Result<(), Fail> {
    let mut pool = Counting {
        lists: 0,
        pool: Drawn::new(),
    };
    let jobs = Noted::new(rt.alloc(), 3, 1, 1)?;
    let handles = all_by(&rt, rt.alloc(), &mut pool, &jobs, &Rendezvous::open(), 1)?;
    assert_eq!(rt; handles.len(), 3);
    assert_eq!(rt; pool.lists, 1);
    Ok(())
}

// A list without jobs has no answers.
#[test]
fn no_jobs(rt: HostRuntime) -> Result<(), Fail> {
    let jobs = Noted::new(rt.alloc(), 0, 0, 0)?;
    let handles = all_by(
        &rt,
        rt.alloc(),
        &mut Drawn::new(),
        &jobs,
        &Rendezvous::open(),
        16,
    )?;
    assert!(rt; handles.is_empty());
    Ok(())
}

// ---- operations in branches

// What an operation gives of two families over three variables.
fn given<S: Store, O: SetOps<S>>(
    store: &mut S,
    ops: &mut O,
    op: Op,
    a: &[u64],
    b: &[u64],
) -> Result<Handle, Full>
    requires ready { O.ready ops.old }
    requires any { MayHoldAny 3 (S.state store.old) }
    requires below { All (λ m. m < 2 ^ 3) a.now × All (λ m. m < 2 ^ 3) b.now }
    ensures { IfOk result (Knows (S.state store.new)) }
{
    let a = family_of(store, 3, a)?;
    let b = family_of(store, 3, b)?;
    match op {
        Op::Union => ops.union(store, a, b),
        Op::Inter => ops.inter(store, a, b),
        Op::Minus => ops.minus(store, a, b),
        Op::Xor => ops.xor(store, a, b),
        _ => ops.ones_of(store, a, b),
    }
}

// Its members from the greatest down, by as many workers, and whether two branches met, which look
// for each other so many times.
fn given_by<R: Threads + Sync>(
    rt: &R,
    alloc: Global,
    workers: u32,
    looks: u64,
    op: Op,
    a: &[u64],
    b: &[u64],
) -> Result<(bool, Monos), Fail>
    requires workers { (1 ≤ workers) × (workers ≤ 16) }
    requires below { All (λ m. m < 2 ^ 3) a.now × All (λ m. m < 2 ^ 3) b.now }
{
    let (table, token) = Shared::make(alloc, 8, 3, any_plan(3))?;
    let mut pass = CachedPass::new(table.pass(token));
    let gate = Rendezvous::waiting(looks);
    let mut ops = Forked::new(rt, &gate, workers);
    let found = given(&mut pass, &mut ops, op, a, b)?;
    let members = walk_upto(alloc, &mut pass, found, 8)?;
    Ok((gate.met(), members))
}

// The outputs of a full adder over three inputs: where the sum is 1 and where the carry is 1, and
// what the operations give of both, by as many workers.
#[test]
fn operations_by_workers(rt: HostRuntime) -> Result<(), Fail> {
    let cases: [(Op, &[Mono]); 4] = [
        (
            Op::Union,
            &[
                Mono(7),
                Mono(6),
                Mono(5),
                Mono(4),
                Mono(3),
                Mono(2),
                Mono(1),
            ],
        ),
        (Op::Inter, &[Mono(7)]),
        (Op::Minus, &[Mono(4), Mono(2), Mono(1)]),
        (
            Op::Xor,
            &[Mono(6), Mono(5), Mono(4), Mono(3), Mono(2), Mono(1)],
        ),
    ];
    for workers in [1, 2, 8, 16] {
        assert!(rt; 1 <= workers && workers <= 16);
        for (op, want) in cases {
            let (_, found) = given_by(
                &rt,
                rt.alloc(),
                workers,
                0,
                op,
                &[1, 2, 4, 7],
                &[3, 5, 6, 7],
            )?;
            assert_eq!(rt; found.as_slice(), want);
        }
    }
    Ok(())
}

// The first step of an operation that goes on into halves runs them in two branches, which meet.
#[test]
fn branches_meet(rt: HostRuntime) -> Result<(), Fail> {
    let cases: [(Op, usize); 4] = [(Op::Union, 7), (Op::Inter, 1), (Op::Minus, 3), (Op::Xor, 6)];
    for (op, members) in cases {
        let (met, found) = given_by(&rt, rt.alloc(), 2, LOOKS, op, &[1, 2, 4, 7], &[3, 5, 6, 7])?;
        assert!(rt; met);
        assert_eq!(rt; found.len(), members);
    }
    Ok(())
}

// The points where a polynomial is 1 are found by branches too, which meet.
#[test]
fn branches_of_ones_meet(rt: HostRuntime) -> Result<(), Fail> {
    let (met, found) = given_by(
        &rt,
        rt.alloc(),
        2,
        LOOKS,
        Op::Ones,
        &[1, 2, 4],
        &[0, 1, 2, 3, 4, 5, 6, 7],
    )?;
    assert!(rt; met);
    assert_eq!(rt;
        found.as_slice(),
        [Mono(7), Mono(4), Mono(2), Mono(1)].as_slice()
    );
    Ok(())
}

// One worker has no second branch that it could meet.
#[test]
fn one_worker_meets_nobody(rt: HostRuntime) -> Result<(), Fail> {
    let (met, _) = given_by(&rt, rt.alloc(), 1, 10, Op::Union, &[0, 3, 5, 6], &[1, 2, 4])?;
    assert!(rt; !met);
    Ok(())
}
