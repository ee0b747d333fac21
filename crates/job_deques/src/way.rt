//! A way to the deque of another worker.
ghost use Rattle.std.specs.Prelude.{◌≡◌, ◌<◌, [], ◌∷◌, MatchOption};
ghost use Rattle.crossbeam_deque.specs.Handles.{view, IsPassOf, stealer_deque};
ghost use Rattle.job_deques.specs.Rule.{Took};

use crate::plays::{Numbers, Theft};
use crate::view::Hold;
use crossbeam_deque::{Pass, Steal, Stealer};
use std::alloc::Global;

/// A handle that steals from a deque, and a pass of it, which has no bytes.
#[derive(Drop)]
pub(crate) struct Way {
    pub(crate) thief: Stealer<u32, Global, Hold, Numbers>,
    pub(crate) taker: Pass<u32, Hold>,
    ghost of: { IsPassOf (stealer_deque thief) taker },
    ghost part: { 0 < (view taker).parts },
}

impl Way {
    ghost use Rattle.job_deques.specs.Seats.{way_deque, way_view};

    /// Steals the number at the front. None where the deque was empty at one moment, or where as
    /// many tries as are allowed met others who took a number.
    pub(crate) fn steal(&mut self, tries: u32) -> Option<u32>
        ensures deque { way_deque self.new ≡ way_deque self.old }
        ensures rule { MatchOption result (way_view self.new ≡ way_view self.old)
            (λ x. Took (way_view self.old) (x ∷ []) (way_view self.new)) }
    {
        for _try in 0..tries {
            match self.thief.steal_as::<Theft>(&mut self.taker) {
                Steal::Success(number) => return Some(number),
                Steal::Empty => return None,
                Steal::Retry => {}
            }
        }
        None
    }
}
