//! The numbers below a count, dealt by a counter.
ghost use Rattle.std.specs.Prelude.{◌≡◌, ◌+◌, ◌≤◌, length};
ghost use Rattle.job_counter.specs.declared.counter.TheConstants.{ALL_PARTS};
ghost use Rattle.job_counter.specs.Drawing.{drawing};

use crate::counter::{ALL_PARTS, Counter, Drawer};
use crate::dealing::Dealing;
use lattice::Memory;
use std::alloc::Global;

/// Deals the numbers below a count in their order: each is drawn of one counter.
#[derive(Drop)]
pub struct Counting {
    counter: Counter,
    count: u32,
    ghost few: { count ≤ ALL_PARTS },
}

/// A drawer, and how often it may draw yet: once for each of its parts that bounded no draw.
#[derive(Drop)]
pub struct Draws {
    drawer: Drawer,
    left: u64,
    ghost each_bounds_one: { length (drawing drawer).drawn + left ≡ (drawing drawer).parts },
    ghost few: { (drawing drawer).parts ≤ ALL_PARTS },
}

impl Dealing for Counting {
    type Hand = Draws;

    ghost use Rattle.std.specs.Prelude.{[]};
    ghost use Rattle.job_counter.specs.Drawing.{IsOf, drawing, took_below, zeros};

    ghost total = { λ d. d.count };

    ghost is_of = { λ d h. IsOf h.drawer d.counter };

    ghost is_fresh = { λ _ h. (drawing h.drawer).drawn ≡ [] };

    ghost whole = { λ _. zeros ALL_PARTS };

    ghost shares = { λ h. zeros (drawing h.drawer).parts };

    ghost took = { λ d h x. took_below d.count h.drawer x };

    fn make(alloc: Global, count: u32, workers: u32) -> Result<(Counting, Draws), Memory> {
        let (counter, drawer) = Counter::make(alloc)?;
        let left = ALL_PARTS;
        Ok((Counting { counter, count }, Draws { drawer, left }))
    }

    fn take(&self, hand: &mut Draws) -> Option<u32> {
        if hand.left > 0 {
            hand.left -= 1;
            let number = self.counter.draw(&mut hand.drawer);
            if number < u64::from(self.count) {
                return Some(number as u32);
            }
        }
        self.counter.all_drawn(&mut hand.drawer);
        None
    }

    fn halve(&self, hand: Draws) -> (Draws, Draws) {
        let Draws { mut drawer, left } = hand;
        let other = self.counter.split(&mut drawer);
        let half = left / 2;
        (
            Draws {
                drawer,
                left: left - half,
            },
            Draws {
                drawer: other,
                left: half,
            },
        )
    }

    fn unite(&self, first: Draws, second: Draws) -> Draws {
        let Draws { mut drawer, left } = first;
        self.counter.join(&mut drawer, second.drawer);
        let left = left + second.left;
        Draws { drawer, left }
    }
}
