//! The job workers beside each other.
ghost use Rattle.std.specs.Prelude.{◌≡◌, ◌+◌, ◌++◌};
ghost use Rattle.std.specs.Thread.{IsSync};
ghost use Rattle.computed_cache.specs.Cached.{cached_state};
ghost use Rattle.fork_branches.specs.Work.{MayWork, Works, WorkedBy, Takes, AreIdle};
ghost use Rattle.fork_branches.specs.Work.{IsSent, IsBack, answers_of, job_workers_of};

use crate::crew::Crew;
use crate::fork::Fork;
use crate::jobs::Jobs;
use crate::work::work;
use computed_cache::CachedPass;
use job_counter::Dealing;
use node_store::Full;
use outside::{Gate, Rendezvous};
use std::mem;
use std::thread::{Threads, join};
use unique_table::{Shared, Token};

/// What a branch leaves.
#[derive(Drop)]
pub struct Branch<H> {
    token: Token,
    hand: H,
    crew: Box<Crew>,
    result: Result<(), Full>,
}

// Both halves of a crew beside each other. The pass and the hand are halved before the branches
// start, and have what both have once they have ended, also where one of them is Full.
#[cycle(crews)]
fn work_both<R: Threads + Sync, J: Jobs, D: Dealing>(
    fork: &Fork<R, Rendezvous>,
    dealer: &D,
    jobs: &J,
    pass: &mut CachedPass,
    hand: D::Hand,
    first: Box<Crew>,
    second: Box<Crew>,
) -> (D::Hand, Box<Crew>, Box<Crew>, Result<(), Full>)
    requires may { MayWork (J.tasks jobs.now) (cached_state pass.old) }
    requires total { D.total dealer.now ≡ (J.tasks jobs.now).total }
    requires of { D.is_of dealer.now hand }
    requires fresh { D.is_fresh dealer.now hand }
    requires front { AreIdle (J.tasks jobs.now).total first.value }
    requires back { AreIdle (J.tasks jobs.now).total second.value }
    ensures works { Works (J.tasks jobs.now) (cached_state pass.old) (cached_state pass.new)
        (answers_of result.1.value ++ answers_of result.2.value) result.3 }
    ensures takes { Takes (D.is_of dealer.now) D.shares (D.took dealer.now) hand result.0
        (answers_of result.1.value ++ answers_of result.2.value) result.3 }
    ensures worked { WorkedBy (J.tasks jobs.now)
        (job_workers_of first.value + job_workers_of second.value) (cached_state pass.old)
        (cached_state pass.new) }
    ensures front { job_workers_of result.1.value ≡ job_workers_of first.value }
    ensures back { job_workers_of result.2.value ≡ job_workers_of second.value }
{
    let (rt, gate) = (fork.rt, fork.gate);
    let table = pass.table();
    let one = pass.split().end().end();
    let two = pass.split().end().end();
    let (mine, other) = dealer.halve(hand);
    let front = move || -> Branch<D::Hand>
        requires { IsSync R.row × IsSent (J.tasks jobs.now) table.now one first.value
            × (D.total dealer.now ≡ (J.tasks jobs.now).total) × D.is_of dealer.now mine
            × D.is_fresh dealer.now mine }
        ensures { IsBack (J.tasks jobs.entry.now) table.entry.now one first.value result
            × Takes (D.is_of dealer.entry.now) D.shares (D.took dealer.entry.now) mine
            result.hand (answers_of result.crew.value) result.result }
    {
        gate.enter(0);
        work_on(&Fork { rt, gate }, dealer, jobs, table, one, mine, first)
    };
    let back = move || -> Branch<D::Hand>
        requires { IsSync R.row × IsSent (J.tasks jobs.now) table.now two second.value
            × (D.total dealer.now ≡ (J.tasks jobs.now).total) × D.is_of dealer.now other
            × D.is_fresh dealer.now other }
        ensures { IsBack (J.tasks jobs.entry.now) table.entry.now two second.value result
            × Takes (D.is_of dealer.entry.now) D.shares (D.took dealer.entry.now) other
            result.hand (answers_of result.crew.value) result.result }
    {
        gate.enter(1);
        work_on(&Fork { rt, gate }, dealer, jobs, table, two, other, second)
    };
    let (front, back) = join(rt, front, back);
    pass.join(CachedPass::new(table.pass(front.token)));
    pass.join(CachedPass::new(table.pass(back.token)));
    let hand = dealer.unite(front.hand, back.hand);
    let result = front.result.and(back.result);
    (hand, front.crew, back.crew, result)
}

// What a branch runs.
#[cycle(crews)]
fn work_on<R: Threads + Sync, J: Jobs, D: Dealing>(
    fork: &Fork<R, Rendezvous>,
    dealer: &D,
    jobs: &J,
    table: &Shared,
    token: Token,
    hand: D::Hand,
    crew: Box<Crew>,
) -> Branch<D::Hand>
    requires sent { IsSent (J.tasks jobs.now) table.now token crew.value }
    requires total { D.total dealer.now ≡ (J.tasks jobs.now).total }
    requires of { D.is_of dealer.now hand }
    requires fresh { D.is_fresh dealer.now hand }
    ensures back { IsBack (J.tasks jobs.now) table.entry.now token crew.value result }
    ensures takes { Takes (D.is_of dealer.now) D.shares (D.took dealer.now) hand result.hand
        (answers_of result.crew.value) result.result }
{
    let mut crew = crew;
    let mut pass = CachedPass::new(table.pass(token));
    let (hand, result) = work_in(fork, dealer, jobs, &mut pass, hand, &mut crew);
    let token = pass.end().end();
    Branch {
        token,
        hand,
        crew,
        result,
    }
}

/// Lets a crew take numbers and run their jobs until there are none left, or until the table is
/// full, and gives the hand back.
#[cycle(crews)]
pub fn work_in<R: Threads + Sync, J: Jobs, D: Dealing>(
    fork: &Fork<R, Rendezvous>,
    dealer: &D,
    jobs: &J,
    pass: &mut CachedPass,
    hand: D::Hand,
    crew: &mut Crew,
) -> (D::Hand, Result<(), Full>)
    requires may { MayWork (J.tasks jobs.now) (cached_state pass.old) }
    requires total { D.total dealer.now ≡ (J.tasks jobs.now).total }
    requires of { D.is_of dealer.now hand }
    requires fresh { D.is_fresh dealer.now hand }
    requires idle { AreIdle (J.tasks jobs.now).total crew.old }
    ensures works { Works (J.tasks jobs.now) (cached_state pass.old) (cached_state pass.new)
        (answers_of crew.new) result.1 }
    ensures takes { Takes (D.is_of dealer.now) D.shares (D.took dealer.now) hand result.0
        (answers_of crew.new) result.1 }
    ensures worked { WorkedBy (J.tasks jobs.now) (job_workers_of crew.old)
        (cached_state pass.old) (cached_state pass.new) }
    ensures as_many { job_workers_of crew.new ≡ job_workers_of crew.old }
{
    match mem::replace(crew, Crew::Away) {
        Crew::Away => (hand, Ok(())),
        Crew::One(worker) => {
            let (mut worker, mut hand) = (worker, hand);
            let result = work(
                fork,
                worker.workers,
                dealer,
                jobs,
                pass,
                &mut hand,
                &mut worker.answers,
            );
            *crew = Crew::One(worker);
            (hand, result)
        }
        Crew::Two(first, second) => {
            let (hand, first, second, result) = work_both(
                fork, dealer, jobs, pass, hand, first, second,
            );
            *crew = Crew::Two(first, second);
            (hand, result)
        }
    }
}
