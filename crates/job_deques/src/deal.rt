//! The numbers are dealt to the deques.
ghost use Rattle.std.specs.Prelude.{◌≡◌, ◌<◌, OnOk};
ghost use Rattle.job_deques.specs.Seats.{Layout};
ghost use Rattle.job_deques.specs.Dealt.{AreApart, numbered};

use crate::seat::Seat;
use lattice::Memory;

/// Pushes each number below the count to the deque of its rest.
pub(crate) fn deal(seats: &mut Vec<Seat>, count: u32) -> Result<(), Memory>
    ghost l: { Layout }
    requires some { 0 < l.total }
    requires apart { AreApart (numbered l 0) seats.old.items }
    ensures { OnOk result (AreApart (numbered l count) seats.new.items) }
{
    let total = seats.len();
    for number in 0..count {
        let deque = number as usize % total;
        seats[deque].own.push(number)?;
    }
    Ok(())
}
