//! The seats of a dealing, before the first number is taken.
ghost use Rattle.std.specs.Prelude.{◌≡◌, ◌^◌, ◌<◌, ◌≤◌, ℕ, [], length, All, IfOk, OnOk};
ghost use Rattle.job_deques.specs.Rule.{hold};
ghost use Rattle.job_deques.specs.Seats.{Layout, own_view, all_took};
ghost use Rattle.job_deques.specs.Dealt.{AreFresh, AreApart, AreJoined, numbered, layout_of};
ghost use Rattle.job_deques.specs.Hands.{AreTaking, IsUnused, places, numbers_below};
ghost use Rattle.job_deques.specs.declared.view.TheConstants.{ALL_PARTS};

use crate::deal::deal;
use crate::lend::lend;
use crate::own::Own;
use crate::seat::Seat;
use lattice::Memory;
use std::alloc::Global;
use std::collections::LinkedList;
use std::snapshot::Snapshot;

// A seat with a deque with no number, and no way yet.
fn make_seat(alloc: Global, at: u32, room: u32, total: u32) -> Result<Seat, Memory>
    ensures at { IfOk result (λ s. s.at ≡ at) }
    ensures own { IfOk result (λ s. own_view s.own ≡ hold ALL_PARTS [] []) }
    ensures ways { IfOk result (λ s. length s.ways.items ≡ 0) }
{
    let ways = Vec::with_capacity(alloc, total as usize)?;
    let own = Own::make(alloc, room)?;
    Ok(Seat { at, own, ways })
}

// So many seats with deques with no numbers, and no ways.
fn make_fresh(alloc: Global, room: u32, total: u32) -> Result<Vec<Seat>, Memory>
    ensures many { IfOk result (λ seats. length seats.items ≡ total) }
    ensures fresh { IfOk result (λ seats. AreFresh seats.items) }
{
    let mut seats = Vec::with_capacity(alloc, total as usize)?;
    for at in 0..total {
        seats.push(make_seat(alloc, at, room, total)?)?;
    }
    Ok(seats)
}

// The numbers below the count are dealt to the deques, and each seat gets a way to each of them.
fn set_out(seats: &mut Vec<Seat>, count: u32) -> Result<(), Memory>
    ghost l: { Layout }
    requires some { 0 < l.total }
    requires small { l.total < ALL_PARTS }
    requires count { count ≡ l.count }
    requires apart { AreApart (numbered l 0) seats.old.items }
    ensures { OnOk result (AreJoined (numbered l l.count) seats.new.items) }
{
    deal(seats, count)?;
    lend(seats)?;
    Ok(())
}

// The seats in a list, which can be cut and joined without memory.
fn list_seats(alloc: Global, seats: Vec<Seat>) -> Result<LinkedList<Seat>, Memory>
    ensures { IfOk result (λ list. list ≡ seats.items) }
{
    let mut seats = seats;
    let mut list = LinkedList::new(alloc);
    while let Some(seat) = seats.pop() {
        list.push_front(seat)?;
    }
    Ok(list)
}

/// So many seats, to whose deques the numbers below the count are dealt, and which have a way to
/// each deque; and what they were when they were made.
pub(crate) fn make_seats(
    alloc: Global,
    count: u32,
    total: u32,
) -> Result<(Snapshot<Vec<Seat>>, LinkedList<Seat>), Memory>
    requires some { 1 ≤ total }
    requires small { total < ALL_PARTS }
    requires count { count < 2 ^ 30 }
    ensures total { IfOk result (λ r. length r.0.value.items ≡ total) }
    ensures of { IfOk result (λ r. AreTaking (layout_of r.0.value.items count) r.1) }
    ensures fresh { IfOk result (λ r. All (IsUnused (layout_of r.0.value.items count)) r.1) }
    ensures whole { IfOk result (λ r. places r.1 ≡ numbers_below total) }
    ensures none { IfOk result (λ r. (x : ℕ) → all_took r.1 x ≡ 0) }
{
    let mut seats = make_fresh(alloc, count / total + 1, total)?;
    let made = Snapshot::of(&seats);
    set_out(&mut seats, count)?;
    let list = list_seats(alloc, seats)?;
    Ok((made, list))
}
