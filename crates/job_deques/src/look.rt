//! The seats of a hand take numbers, one after the other.
ghost use Rattle.std.specs.Prelude.{◌≡◌, ◌+◌, ◌<◌, ◌≤◌, ℕ, [], ◌∷◌, length, IfSome, IfNone};
ghost use Rattle.std.specs.Prelude.{All};
ghost use Rattle.std.specs.List.{AllZip};
ghost use Rattle.job_counter.specs.Numbers.{times};
ghost use Rattle.job_deques.specs.declared.view.TheConstants.{ALL_PARTS};
ghost use Rattle.job_deques.specs.Rule.{TookAll};
ghost use Rattle.job_deques.specs.Seats.{Layout, IsTaking, AreBelow, StaysAtWork};
ghost use Rattle.job_deques.specs.Seats.{own_view, all_took};

use crate::seat::Seat;
use std::collections::LinkedList;

/// Takes a number with the first seat that finds one.
pub(crate) fn look(seats: &mut LinkedList<Seat>, count: u32) -> Option<u32>
    requires { length seats.old ≤ ALL_PARTS }
    ensures same { AllZip StaysAtWork seats.old seats.new }
    ensures below { IfSome result
        (λ n. (l : Layout) → All (IsTaking l) seats.old → AreBelow l → n < l.count) }
    ensures some { IfSome result
        (λ n. (x : ℕ) → all_took seats.new x ≡ all_took seats.old x + times x (n ∷ [])) }
    ensures none { IfNone result ((x : ℕ) → all_took seats.new x ≡ all_took seats.old x) }
    ensures all { IfNone result (All (λ s. TookAll (own_view s.own)) seats.new) }
{
    let first = seats.front_mut()?;
    if let Some(number) = first.take(count) {
        return Some(number);
    }
    let mut rest = seats.split_off(1).unwrap();
    let found = look(&mut rest, count);
    seats.append(&mut rest).unwrap();
    found
}
