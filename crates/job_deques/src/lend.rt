//! Each seat gets a way to each deque.
ghost use Rattle.std.specs.Prelude.{◌≡◌, ◌+◌, ◌<◌, OnOk};
ghost use Rattle.job_deques.specs.Seats.{Layout};
ghost use Rattle.job_deques.specs.Dealt.{AreApart, AreJoined, AreLending};
ghost use Rattle.job_deques.specs.declared.view.TheConstants.{ALL_PARTS};

use crate::seat::Seat;
use lattice::Memory;

// The seat gets a way to the deque.
fn lend_one(seats: &mut Vec<Seat>, to: usize, deque: usize) -> Result<(), Memory>
    ghost l: { Layout }
    requires numbers { (deque < l.total) × (to < l.total) }
    requires small { l.total < ALL_PARTS }
    requires lending { AreLending l to deque seats.old.items }
    ensures { OnOk result (AreLending l to (deque + 1) seats.new.items) }
{
    let way = seats[deque].own.lend()?;
    seats[to].receive(way)?;
    Ok(())
}

// The seat gets a way to each deque.
fn lend_to(seats: &mut Vec<Seat>, to: usize) -> Result<(), Memory>
    ghost l: { Layout }
    requires number { to < l.total }
    requires small { l.total < ALL_PARTS }
    requires lending { AreLending l to 0 seats.old.items }
    ensures { OnOk result (AreLending l to l.total seats.new.items) }
{
    for deque in 0..seats.len() {
        lend_one(seats, to, deque)?;
    }
    Ok(())
}

/// Each seat gets a way to each deque.
pub(crate) fn lend(seats: &mut Vec<Seat>) -> Result<(), Memory>
    ghost l: { Layout }
    requires small { l.total < ALL_PARTS }
    requires apart { AreApart l seats.old.items }
    ensures { OnOk result (AreJoined l seats.new.items) }
{
    for to in 0..seats.len() {
        lend_to(seats, to)?;
    }
    Ok(())
}
