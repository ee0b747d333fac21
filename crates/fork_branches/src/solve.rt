//! All jobs of a list.
ghost use Rattle.std.specs.Prelude.{◌≡◌, ◌≤◌, ◌<◌, ◌+◌, ℕ, [], ◌++◌, IfOk, IfErr, OnOk, All};
ghost use Rattle.std.specs.Prelude.{length, min, vec_capacity};
ghost use Rattle.std.specs.List.{concat};
ghost use Rattle.node_store.specs.Stores.{Grows};
ghost use Rattle.computed_cache.specs.Cached.{cached_state};
ghost use Rattle.job_counter.specs.Numbers.{times, once_below};
ghost use Rattle.fork_branches.specs.Work.{MayWork, Works, WorkedOut, AreIdle, answers_of};
ghost use Rattle.fork_branches.specs.Work.{numbers_of, workers_of, job_workers_of};
ghost use Rattle.fork_branches.specs.Solves.{AreSolved, Refuses, AreRun, placed};

use crate::crew::{Answer, Crew, make_crew};
use crate::crews::work_in;
use crate::fork::Fork;
use crate::jobs::Jobs;
use crate::shares::Shares;
use crate::work::work;
use computed_cache::CachedPass;
use job_counter::{Counting, Dealing};
use job_deques::Deques;
use lattice::Memory;
use node_store::{Full, Handle, SolveRefusal};
use outside::Rendezvous;
use std::alloc::Global;
use std::thread::Threads;

/// The handles of a list of jobs that were all run, by the numbers of the jobs, and which job
/// worker ran which of them.
#[derive(Drop)]
pub struct Solution {
    pub handles: Vec<Handle>,
    pub shares: Shares,
}

// What all memory of a call is taken for, but for that of its dealing: the handles, the workers,
// and the answers of what these leave.
struct Prepared {
    handles: Vec<Handle>,
    crew: Crew,
    rest: Vec<Answer>,
}

// The workers for so many jobs, before the first number is taken.
fn prepare(alloc: Global, count: u32, workers: u32) -> Result<Prepared, Memory>
    requires some { 1 ≤ count }
    requires workers { (1 ≤ workers) × (workers ≤ 16) }
    ensures handles { IfOk result (λ p. length p.handles.items ≡ count) }
    ensures idle { IfOk result (λ p. AreIdle count p.crew) }
    ensures workers { IfOk result (λ p. workers_of p.crew ≡ workers) }
    ensures job_workers { IfOk result (λ p. job_workers_of p.crew ≡ min workers count) }
    ensures rest { IfOk result (λ p. (p.rest.items ≡ []) × (count ≤ vec_capacity p.rest)) }
{
    let handles = Vec::from_elem(alloc, Handle(0), count as usize)?;
    let job_workers = workers.min(count);
    let each = workers / job_workers;
    let more = workers % job_workers;
    let crew = make_crew(alloc, count, job_workers, each, more)?;
    let rest = Vec::with_capacity(alloc, count as usize)?;
    Ok(Prepared {
        handles,
        crew,
        rest,
    })
}

// Puts each answer at its number.
fn put_answers(answers: &[Answer], handles: &mut [Handle])
    requires { All (λ a. a.number < length handles.old) answers.now }
    ensures { handles.new ≡ placed answers.now handles.old }
{
    for answer in answers {
        handles[answer.number as usize] = answer.handle;
    }
}

// Puts each answer of a crew at its number.
fn put_all(crew: &Crew, handles: &mut [Handle])
    requires { All (λ a. a.number < length handles.old) (answers_of crew.now) }
    ensures { handles.new ≡ placed (answers_of crew.now) handles.old }
{
    match crew {
        Crew::Away => {}
        Crew::One(worker) => put_answers(worker.answers.as_slice(), handles),
        Crew::Two(first, second) => {
            put_all(first, handles);
            put_all(second, handles);
        }
    }
}

// Lets the job workers run the jobs of a dealing, and then runs those that they left.
fn work_out<R: Threads + Sync, J: Jobs, D: Dealing>(
    fork: &Fork<R, Rendezvous>,
    dealer: &D,
    jobs: &J,
    pass: &mut CachedPass,
    hand: D::Hand,
    crew: &mut Crew,
    rest: &mut Vec<Answer>,
) -> Result<(), Full>
    requires may { MayWork (J.tasks jobs.now) (cached_state pass.old) }
    requires total { D.total dealer.now ≡ (J.tasks jobs.now).total }
    requires of { D.is_of dealer.now hand }
    requires fresh { D.is_fresh dealer.now hand }
    requires whole { D.shares hand ≡ D.whole dealer.now }
    requires none { (x : ℕ) → D.took dealer.now hand x ≡ 0 }
    requires idle { AreIdle (J.tasks jobs.now).total crew.old }
    requires no_rest { rest.old.items ≡ [] }
    requires room { (J.tasks jobs.now).total ≤ vec_capacity rest.old }
    ensures works { Works (J.tasks jobs.now) (cached_state pass.old) (cached_state pass.new)
        (answers_of crew.new ++ rest.new.items) result }
    ensures worked { WorkedOut (J.tasks jobs.now) (job_workers_of crew.old)
        (cached_state pass.old) (cached_state pass.new) }
    ensures once { OnOk result ((x : ℕ)
        → times x (numbers_of (answers_of crew.new)) + times x (numbers_of rest.new.items)
        ≡ once_below x (J.tasks jobs.now).total) }
    ensures as_many { job_workers_of crew.new ≡ job_workers_of crew.old }
{
    let (mut hand, result) = work_in(fork, dealer, jobs, pass, hand, crew);
    result?;
    work(fork, 1, dealer, jobs, pass, &mut hand, rest)
}

/// Runs all jobs, and gives the handle of each, by number, and which job worker ran it.
///
/// As many job workers as there are workers, or as there are jobs where these are fewer, take the
/// numbers of a dealing one by one. They are started by halves, each of which enters the gate
/// first: place 0 in the first half, and place 1 in the second. The workers are shared out among
/// them evenly, the first ones getting one more, and each job of a job worker runs in as many
/// branches as it has workers, each of which does the whole job. Once all have ended the caller
/// takes what they left, for the first of them. All memory is taken before the first number: after
/// `Memory` no job was run. `Full` where a worker found no slot for a family that its job needed,
/// once all have ended: the pass knows, holds and did what all workers did then too. After its
/// first `Full` a worker goes on taking numbers, and runs no more jobs.
pub fn solve_by<R: Threads + Sync, J: Jobs, D: Dealing>(
    rt: &R,
    alloc: Global,
    pass: &mut CachedPass,
    jobs: &J,
    gate: &Rendezvous,
    workers: u32,
) -> Result<Solution, SolveRefusal>
    requires workers { (1 ≤ workers) × (workers ≤ 16) }
    requires may { MayWork (J.tasks jobs.now) (cached_state pass.old) }
    ensures grows { Grows (cached_state pass.old) (cached_state pass.new) }
    ensures solved { IfOk result (λ s. AreSolved (J.tasks jobs.now) (cached_state pass.old)
        (cached_state pass.new) s.handles.items) }
    ensures refused { IfErr result (Refuses (cached_state pass.old) (cached_state pass.new)) }
    ensures worked { AreRun result → 1 ≤ (J.tasks jobs.now).total
        → WorkedOut (J.tasks jobs.now) (min workers (J.tasks jobs.now).total)
        (cached_state pass.old) (cached_state pass.new) }
    ensures lists { IfOk result
        (λ s. length s.shares ≡ min workers (J.tasks jobs.now).total) }
    ensures once { IfOk result (λ s. (x : ℕ)
        → times x (concat s.shares) ≡ once_below x (J.tasks jobs.now).total) }
{
    let count = jobs.count();
    if count == 0 {
        return Ok(Solution {
            handles: Vec::new(alloc),
            shares: Shares::none(alloc),
        });
    }
    let Prepared {
        mut handles,
        mut crew,
        mut rest,
    } = prepare(alloc, count, workers)?;
    let (dealer, hand) = D::make(alloc, count, workers.min(count))?;
    let fork = Fork { rt, gate };
    work_out(&fork, &dealer, jobs, pass, hand, &mut crew, &mut rest)?;
    let places = handles.as_mut_slice();
    put_all(&crew, places);
    put_answers(rest.as_slice(), places);
    Ok(Solution {
        handles,
        shares: Shares { crew, rest },
    })
}

/// How the numbers of a list of jobs are dealt to the job workers.
#[derive(Clone, Copy, Debug, PartialEq, Eq)]
pub enum Deal {
    /// They draw them of one counter.
    ByCounter,
    /// Each pops those of its own deque, and then steals from the others.
    ByDeques,
}

/// Runs all jobs as `solve_by` does, by the dealing that is named.
pub fn solve_as<R: Threads + Sync, J: Jobs>(
    deal: Deal,
    rt: &R,
    alloc: Global,
    pass: &mut CachedPass,
    jobs: &J,
    gate: &Rendezvous,
    workers: u32,
) -> Result<Solution, SolveRefusal>
    requires workers { (1 ≤ workers) × (workers ≤ 16) }
    requires may { MayWork (J.tasks jobs.now) (cached_state pass.old) }
    ensures grows { Grows (cached_state pass.old) (cached_state pass.new) }
    ensures solved { IfOk result (λ s. AreSolved (J.tasks jobs.now) (cached_state pass.old)
        (cached_state pass.new) s.handles.items) }
    ensures refused { IfErr result (Refuses (cached_state pass.old) (cached_state pass.new)) }
    ensures worked { AreRun result → 1 ≤ (J.tasks jobs.now).total
        → WorkedOut (J.tasks jobs.now) (min workers (J.tasks jobs.now).total)
        (cached_state pass.old) (cached_state pass.new) }
    ensures lists { IfOk result
        (λ s. length s.shares ≡ min workers (J.tasks jobs.now).total) }
    ensures once { IfOk result (λ s. (x : ℕ)
        → times x (concat s.shares) ≡ once_below x (J.tasks jobs.now).total) }
{
    match deal {
        Deal::ByCounter => solve_by::<R, J, Counting>(rt, alloc, pass, jobs, gate, workers),
        Deal::ByDeques => solve_by::<R, J, Deques>(rt, alloc, pass, jobs, gate, workers),
    }
}

/// Runs all jobs as `solve_by` does, whose numbers the job workers draw of one counter, and gives
/// the handle of each, by number.
pub fn solve_all<R: Threads + Sync, J: Jobs>(
    rt: &R,
    alloc: Global,
    pass: &mut CachedPass,
    jobs: &J,
    gate: &Rendezvous,
    workers: u32,
) -> Result<Vec<Handle>, SolveRefusal>
    requires workers { (1 ≤ workers) × (workers ≤ 16) }
    requires may { MayWork (J.tasks jobs.now) (cached_state pass.old) }
    ensures grows { Grows (cached_state pass.old) (cached_state pass.new) }
    ensures solved { IfOk result (λ v. AreSolved (J.tasks jobs.now) (cached_state pass.old)
        (cached_state pass.new) v.items) }
    ensures refused { IfErr result (Refuses (cached_state pass.old) (cached_state pass.new)) }
    ensures worked { AreRun result → 1 ≤ (J.tasks jobs.now).total
        → WorkedOut (J.tasks jobs.now) (min workers (J.tasks jobs.now).total)
        (cached_state pass.old) (cached_state pass.new) }
{
    let solution = solve_by::<R, J, Counting>(rt, alloc, pass, jobs, gate, workers)?;
    Ok(solution.handles)
}
