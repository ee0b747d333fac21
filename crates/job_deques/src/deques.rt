//! The dealing by deques.
use crate::look::look;
use crate::make::make_seats;
use crate::seat::Seat;
use crate::settle::settle;
use crate::whole::are_whole;
use job_counter::Dealing;
use lattice::Memory;
use std::alloc::Global;
use std::collections::LinkedList;
use std::snapshot::Snapshot;

/// The numbers below a count, dealt to the deques of so many workers before the start: each number
/// to that of its rest. A worker takes the numbers of its own deque in order, and once that is
/// empty those of the others in turn. Nobody puts a number into a deque after the start.
#[derive(Drop)]
pub struct Deques {
    count: u32,
    total: u32,
    seats: Snapshot<Vec<Seat>>,
}

/// What a worker takes numbers with: a seat, which has the worker's own deque and ways to all
/// others. Before the start, and once all workers have ended, one hand has all seats.
#[derive(Drop)]
pub struct Hand {
    seats: LinkedList<Seat>,
}

impl Dealing for Deques {
    type Hand = Hand;

    ghost use Rattle.std.specs.Prelude.{All};
    ghost use Rattle.job_deques.specs.Seats.{all_took};
    ghost use Rattle.job_deques.specs.Hands.{IsUnused, places, numbers_below};
    ghost use Rattle.job_deques.specs.Deals.{IsOf, layout};

    ghost total = { λ d. d.count };

    ghost is_of = { IsOf };

    ghost is_fresh = { λ d h. All (IsUnused (layout d)) h.seats };

    ghost whole = { λ d. numbers_below d.total };

    ghost shares = { λ h. places h.seats };

    ghost took = { λ d h x. all_took h.seats x };

    fn make(alloc: Global, count: u32, workers: u32) -> Result<(Deques, Hand), Memory> {
        let (made, seats) = make_seats(alloc, count, workers)?;
        let dealing = Deques {
            count,
            total: workers,
            seats: made,
        };
        Ok((dealing, Hand { seats }))
    }

    // With all seats each owner takes in all ways first. With more than one seat, but not all, it
    // takes nothing: that two seats take no number twice is known only after that.
    fn take(&self, hand: &mut Hand) -> Option<u32> {
        if are_whole(&hand.seats, self.total) {
            settle(&mut hand.seats);
            return look(&mut hand.seats, self.count);
        }
        if hand.seats.len() > 1 {
            return None;
        }
        look(&mut hand.seats, self.count)
    }

    fn halve(&self, hand: Hand) -> (Hand, Hand) {
        let mut first = hand;
        let half = first.seats.len().div_ceil(2);
        let seats = first.seats.split_off(half).unwrap();
        (first, Hand { seats })
    }

    fn unite(&self, first: Hand, second: Hand) -> Hand {
        let mut first = first;
        let mut second = second;
        first.seats.append(&mut second.seats).unwrap();
        first
    }
}
