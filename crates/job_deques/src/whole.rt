//! Whether a hand has all seats.
ghost use Rattle.std.specs.Prelude.{◌≡◌, ◌≤◌, length, ◌↔◌, IsTrue};
ghost use Rattle.job_deques.specs.declared.view.TheConstants.{ALL_PARTS};
ghost use Rattle.job_deques.specs.Hands.{places, numbers_below};

use crate::seat::Seat;
use std::collections::LinkedList;

/// Whether the seats are those with the numbers below the total, in order.
pub(crate) fn are_whole(seats: &LinkedList<Seat>, total: u32) -> bool
    requires { length seats.now ≤ ALL_PARTS }
    ensures { IsTrue result ↔ (places seats.now ≡ numbers_below total) }
{
    let mut next = 0;
    for seat in seats.iter() {
        if seat.at != next {
            return false;
        }
        next += 1;
    }
    next == total
}
