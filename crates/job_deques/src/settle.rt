//! All passes are taken in, once all workers have ended.
ghost use Rattle.std.specs.Prelude.{◌≡◌, ◌≤◌, ℕ, length, IfSome, IfNone, All};
ghost use Rattle.job_deques.specs.declared.view.TheConstants.{ALL_PARTS};
ghost use Rattle.job_deques.specs.Seats.{Layout, all_took};
ghost use Rattle.job_deques.specs.Hands.{AreWhole, CanTakeBack, GaveWay, TookBack, HasNoWay};
ghost use Rattle.job_deques.specs.Hands.{places};

use crate::seat::Seat;
use crate::way::Way;
use std::collections::LinkedList;

// A way of the first seat that has one, and the number of its deque. None where no seat has one.
fn next_way(seats: &mut LinkedList<Seat>) -> Option<(usize, Way)>
    requires { length seats.old ≤ ALL_PARTS }
    ensures many { length seats.new ≡ length seats.old }
    ensures some { IfSome result (λ r. GaveWay r.0 r.1 seats.old seats.new) }
    ensures none { IfNone result (seats.new ≡ seats.old) }
    ensures bare { IfNone result (All HasNoWay seats.new) }
{
    let first = seats.front_mut()?;
    if let Some(way) = first.give() {
        return Some((first.ways.len(), way));
    }
    let mut rest = seats.split_off(1).unwrap();
    let found = next_way(&mut rest);
    seats.append(&mut rest).unwrap();
    found
}

// The owner of the deque of the number takes in the way.
fn give_back(seats: &mut LinkedList<Seat>, deque: usize, way: Way)
    requires { (l : Layout) × CanTakeBack l deque way seats.old }
    ensures { (l : Layout) → CanTakeBack l deque way seats.old
        → TookBack l deque way seats.old seats.new }
{
    let mut rest = seats.split_off(deque).unwrap();
    let seat = rest.front_mut().unwrap();
    seat.own.absorb(way);
    seats.append(&mut rest).unwrap();
}

/// Each owner takes in all ways to its deque.
pub(crate) fn settle(seats: &mut LinkedList<Seat>)
    requires { (l : Layout) × AreWhole l seats.old }
    ensures whole { (l : Layout) → AreWhole l seats.old → AreWhole l seats.new }
    ensures places { places seats.new ≡ places seats.old }
    ensures took { (x : ℕ) → all_took seats.new x ≡ all_took seats.old x }
    ensures bare { All HasNoWay seats.new }
{
    while let Some((deque, way)) = next_way(seats) {
        give_back(seats, deque, way);
    }
}
