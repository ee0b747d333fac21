//! The job workers of a call, by halves.
ghost use Rattle.std.specs.Prelude.{◌≡◌, ◌+◌, ◌*◌, ◌≤◌, IfOk, min};
ghost use Rattle.fork_branches.specs.Work.{AreIdle, workers_of, job_workers_of};

use lattice::Memory;
use node_store::Handle;
use std::alloc::Global;

/// The number of a job, and the handle that it gave.
#[derive(Clone, Copy, Debug)]
pub struct Answer {
    pub number: u32,
    pub handle: Handle,
}

/// A job worker: by how many workers each of its jobs is run, and the answers of the jobs whose
/// numbers it took.
#[derive(Drop)]
pub struct Worker {
    pub workers: u32,
    pub answers: Vec<Answer>,
}

/// A job worker, or the crews of two branches.
#[derive(Drop)]
pub enum Crew {
    /// It is at work elsewhere.
    Away,
    One(Worker),
    Two(Box<Crew>, Box<Crew>),
}

/// So many job workers, each with room for so many answers. The jobs of each have `each` workers,
/// and those of the first `more` of them one more.
pub fn make_crew(
    alloc: Global,
    room: u32,
    job_workers: u32,
    each: u32,
    more: u32,
) -> Result<Crew, Memory>
    requires some { 1 ≤ job_workers }
    requires each { (1 ≤ each) × (each + min more 1 ≤ 16) }
    requires more { more ≤ job_workers }
    ensures idle { IfOk result (AreIdle room) }
    ensures workers { IfOk result (λ c. workers_of c ≡ job_workers * each + more) }
    ensures job_workers { IfOk result (λ c. job_workers_of c ≡ job_workers) }
{
    if job_workers == 1 {
        let answers = Vec::with_capacity(alloc, room as usize)?;
        let workers = each + more;
        return Ok(Crew::One(Worker { workers, answers }));
    }
    let fewer = job_workers / 2;
    let front = job_workers - fewer;
    let more_front = more.min(front);
    let first = make_crew(alloc, room, front, each, more_front)?;
    let second = make_crew(alloc, room, fewer, each, more - more_front)?;
    let first = Box::new(alloc, first)?;
    let second = Box::new(alloc, second)?;
    Ok(Crew::Two(first, second))
}
