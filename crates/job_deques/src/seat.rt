//! What one worker takes numbers with.
ghost use Rattle.std.specs.Prelude.{◌≡◌, ◌+◌, ◌<◌, ℕ, [], ◌∷◌, ◌++◌, IfSome, IfNone, OnOk};
ghost use Rattle.std.specs.Prelude.{MatchOption};
ghost use Rattle.job_counter.specs.Numbers.{times};
ghost use Rattle.job_deques.specs.Rule.{TookAll};
ghost use Rattle.job_deques.specs.Seats.{Layout, IsTaking, AreBelow, StaysAtWork, own_view, took};

use crate::own::Own;
use crate::way::Way;
use lattice::Memory;

/// The worker's own deque, the number of which it is, and the ways to all deques by number, its own
/// among them.
#[derive(Drop)]
pub(crate) struct Seat {
    pub(crate) at: u32,
    pub(crate) own: Own,
    pub(crate) ways: Vec<Way>,
}

impl Seat {
    /// Takes a number: the first of its own deque, or, where that is empty, the first of another.
    /// None where it found each empty at one moment.
    pub(crate) fn take(&mut self, count: u32) -> Option<u32>
        ensures same { StaysAtWork self.old self.new }
        ensures below { IfSome result
            (λ n. (l : Layout) → IsTaking l self.old → AreBelow l → n < l.count) }
        ensures some { IfSome result
            (λ n. (x : ℕ) → took self.new x ≡ took self.old x + times x (n ∷ [])) }
        ensures none { IfNone result ((x : ℕ) → took self.new x ≡ took self.old x) }
        ensures all { IfNone result (TookAll (own_view self.new.own)) }
    {
        if let Some(number) = self.own.pop() {
            return Some(number);
        }
        self.steal(count)
    }

    // Takes the first number of another deque, beginning with that after its own. Each try after
    // the first has met another who took a number, of which there are as many as numbers.
    fn steal(&mut self, count: u32) -> Option<u32>
        ensures same { StaysAtWork self.old self.new }
        ensures own { self.new.own ≡ self.old.own }
        ensures below { IfSome result
            (λ n. (l : Layout) → IsTaking l self.old → AreBelow l → n < l.count) }
        ensures some { IfSome result
            (λ n. (x : ℕ) → took self.new x ≡ took self.old x + times x (n ∷ [])) }
        ensures none { IfNone result ((x : ℕ) → took self.new x ≡ took self.old x) }
    {
        let total = self.ways.len();
        for turn in 0..total {
            let from = (self.at as usize + turn) % total;
            if from == self.at as usize {
                continue;
            }
            if let Some(number) = self.ways[from].steal(count) {
                return Some(number);
            }
        }
        None
    }

    /// One way more.
    pub(crate) fn receive(&mut self, way: Way) -> Result<(), Memory>
        ensures ways { OnOk result (self.new.ways.items ≡ self.old.ways.items ++ way ∷ []) }
        ensures own { self.new.own ≡ self.old.own }
        ensures at { self.new.at ≡ self.old.at }
    {
        self.ways.push(way)?;
        Ok(())
    }

    /// Its last way, which it has no longer. None where it has no way.
    pub(crate) fn give(&mut self) -> Option<Way>
        ensures ways { MatchOption result ((self.old.ways.items ≡ []) × (self.new.ways.items ≡ []))
            (λ w. self.old.ways.items ≡ self.new.ways.items ++ w ∷ []) }
        ensures none { IfNone result (self.new ≡ self.old) }
        ensures own { self.new.own ≡ self.old.own }
        ensures at { self.new.at ≡ self.old.at }
    {
        if self.ways.is_empty() {
            return None;
        }
        self.ways.pop()
    }
}
