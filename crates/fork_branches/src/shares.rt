//! Which job worker ran which jobs.
ghost use Rattle.std.specs.Prelude.{◌≡◌, ◌+◌, ◌<◌, ◌≤◌, ℕ, List, [], length, IfSome, IfNone};
ghost use Rattle.std.specs.Prelude.{Contains, slice_index_or, IsTrue, IsFalse};
ghost use Rattle.std.specs.List.{concat};
ghost use Rattle.job_counter.specs.Numbers.{times};
ghost use Rattle.fork_branches.specs.Work.{numbers_of, answers_of, lists_of, job_workers_of};
ghost use Rattle.fork_branches.specs.Shares.{with_first};

use crate::crew::{Answer, Crew};
use std::alloc::Global;
use std::marker::Model;

/// The numbers of the jobs that each job worker of a call ran: a list for each job worker.
#[derive(Drop)]
pub struct Shares {
    pub(crate) crew: Crew,
    // What the caller ran itself, which belongs to the first job worker.
    pub(crate) rest: Vec<Answer>,
}

impl Model for Shares {
    ghost Value = { List (List ℕ) };

    ghost view = { λ s. with_first (numbers_of s.rest.items) (lists_of s.crew) };

    ghost invariant = { λ s. (job_workers_of s.crew ≤ 16)
        × (job_workers_of s.crew ≡ 0 → length s.rest.items ≡ 0) };
}

impl Shares {
    /// The shares of no job worker.
    pub(crate) fn none(alloc: Global) -> Shares
        ensures { result ≡ [] }
    {
        Shares {
            crew: Crew::Away,
            rest: Vec::new(alloc),
        }
    }

    /// The place of the job worker that ran the job of the number. None where none did.
    pub fn worker_of(&self, number: u32) -> Option<u32>
        ensures some { IfSome result (λ w. Contains (slice_index_or self.now w []) number) }
        ensures none { IfNone result (times number (concat self.now) ≡ 0) }
    {
        if has(self.rest.as_slice(), number) {
            return Some(0);
        }
        place_of(&self.crew, number)
    }
}

// Whether one of the answers is the number's.
fn has(answers: &[Answer], number: u32) -> bool
    ensures yes { IsTrue result → Contains (numbers_of answers.now) number }
    ensures no { IsFalse result → times number (numbers_of answers.now) ≡ 0 }
{
    for answer in answers {
        if answer.number == number {
            return true;
        }
    }
    false
}

// The place in a crew of the job worker that has an answer of the number.
fn place_of(crew: &Crew, number: u32) -> Option<u32>
    requires { job_workers_of crew.now ≤ 16 }
    ensures below { IfSome result (λ w. w < job_workers_of crew.now) }
    ensures some { IfSome result
        (λ w. Contains (slice_index_or (lists_of crew.now) w []) number) }
    ensures none { IfNone result (times number (numbers_of (answers_of crew.now)) ≡ 0) }
{
    match crew {
        Crew::Away => None,
        Crew::One(worker) if has(worker.answers.as_slice(), number) => Some(0),
        Crew::One(_) => None,
        Crew::Two(first, second) => match place_of(first, number) {
            Some(place) => Some(place),
            None => Some(job_workers(first) + place_of(second, number)?),
        },
    }
}

// How many job workers there are.
fn job_workers(crew: &Crew) -> u32
    requires { job_workers_of crew.now ≤ 16 }
    ensures { result ≡ job_workers_of crew.now }
{
    match crew {
        Crew::Away => 0,
        Crew::One(_) => 1,
        Crew::Two(first, second) => job_workers(first) + job_workers(second),
    }
}
