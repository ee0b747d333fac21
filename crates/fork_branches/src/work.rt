//! What a job worker does.
ghost use Rattle.std.specs.Prelude.{◌≡◌, ◌≤◌, ℕ, [], vec_capacity, OnOk};
ghost use Rattle.computed_cache.specs.Cached.{cached_state};
ghost use Rattle.job_counter.specs.Numbers.{once_below};
ghost use Rattle.fork_branches.specs.Work.{MayWork, Works, Takes};

use crate::crew::Answer;
use crate::fork::Fork;
use crate::jobs::Jobs;
use crate::one::run_in;
use computed_cache::CachedPass;
use job_counter::Dealing;
use node_store::Full;
use outside::Rendezvous;
use std::thread::Threads;

/// Takes numbers and runs their jobs, each by as many workers, until the hand gives none. Where the
/// table is full it goes on taking numbers, and runs no more jobs.
pub fn work<R: Threads + Sync, J: Jobs, D: Dealing>(
    fork: &Fork<R, Rendezvous>,
    workers: u32,
    dealer: &D,
    jobs: &J,
    pass: &mut CachedPass,
    hand: &mut D::Hand,
    answers: &mut Vec<Answer>,
) -> Result<(), Full>
    requires workers { (1 ≤ workers) × (workers ≤ 16) }
    requires may { MayWork (J.tasks jobs.now) (cached_state pass.old) }
    requires total { D.total dealer.now ≡ (J.tasks jobs.now).total }
    requires of { D.is_of dealer.now hand.old }
    requires none { answers.old.items ≡ [] }
    requires room { (J.tasks jobs.now).total ≤ vec_capacity answers.old }
    ensures works { Works (J.tasks jobs.now) (cached_state pass.old) (cached_state pass.new)
        answers.new.items result }
    ensures takes { Takes (D.is_of dealer.now) D.shares (D.took dealer.now) hand.old hand.new
        answers.new.items result }
    ensures over { OnOk result (D.shares hand.new ≡ D.whole dealer.now → (x : ℕ)
        → D.took dealer.now hand.new x ≡ once_below x (D.total dealer.now)) }
{
    while let Some(number) = dealer.take(hand) {
        match run_in(fork, workers, 0, jobs, pass, number) {
            Ok(handle) => answers.push(Answer { number, handle }).unwrap(),
            Err(full) => {
                take_rest(dealer, hand, jobs.count());
                return Err(full);
            }
        }
    }
    Ok(())
}

// Takes so many numbers more, or all that the hand gives.
fn take_rest<D: Dealing>(dealer: &D, hand: &mut D::Hand, count: u32)
    requires { D.is_of dealer.now hand.old }
    ensures of { D.is_of dealer.now hand.new }
    ensures shares { D.shares hand.new ≡ D.shares hand.old }
{
    for _turn in 0..count {
        if dealer.take(hand).is_none() {
            return;
        }
    }
}
