//! A worker's own deque.
ghost use Rattle.std.specs.Prelude.{◌≡◌, ◌<◌, [], ◌∷◌, ◌++◌, IfOk, OnOk, MatchOption};
ghost use Rattle.crossbeam_deque.specs.Handles.{worker_flavor, worker_view};
ghost use Rattle.job_deques.specs.declared.view.TheConstants.{ALL_PARTS};
ghost use Rattle.job_deques.specs.Rule.{hold, IsWithin, Took, TookAll};
ghost use Rattle.job_deques.specs.Rule.{without_part, one_part, together};

use crate::plays::{Look, Numbers, Parting, Pop, Push, Union};
use crate::view::Hold;
use crate::way::Way;
use crossbeam_deque::Worker;
use lattice::Memory;
use std::alloc::Global;

/// The owner's end of a deque, first in, first out.
#[derive(Drop)]
pub(crate) struct Own {
    pub(crate) owner: Worker<u32, Global, Hold, Numbers>,
    ghost fifo: { worker_flavor owner ≡ 0 },
    ghost part: { 0 < (worker_view owner).parts },
}

impl Own {
    ghost use Rattle.job_deques.specs.Seats.{own_deque, own_view, way_deque, way_view};

    /// A deque with no number, and room for so many numbers.
    pub(crate) fn make(alloc: Global, room: u32) -> Result<Own, Memory>
        ensures { IfOk result (λ o. own_view o ≡ hold ALL_PARTS [] []) }
    {
        let owner = Worker::fifo_as(alloc, room as usize)?;
        Ok(Own { owner })
    }

    /// Puts a number at the back, before there is a second pass.
    pub(crate) fn push(&mut self, number: u32) -> Result<(), Memory>
        requires { (own_view self.old).parts ≡ ALL_PARTS }
        ensures deque { own_deque self.new ≡ own_deque self.old }
        ensures view { OnOk result (own_view self.new ≡ hold (own_view self.old).parts
            ((own_view self.old).pushed ++ number ∷ []) (own_view self.old).taken) }
    {
        self.owner.push_as::<Push>(number).map_err(|_| Memory)
    }

    /// Takes the number at the front. None where the deque was empty at one moment.
    pub(crate) fn pop(&mut self) -> Option<u32>
        ensures deque { own_deque self.new ≡ own_deque self.old }
        ensures rule { MatchOption result
            ((own_view self.new ≡ own_view self.old) × TookAll (own_view self.old))
            (λ x. Took (own_view self.old) (x ∷ []) (own_view self.new)) }
    {
        self.owner.pop_as::<Pop>()
    }

    /// A way to the deque, with one of its parts.
    pub(crate) fn lend(&mut self) -> Result<Way, Memory>
        requires { 1 < (own_view self.old).parts }
        ensures deque { own_deque self.new ≡ own_deque self.old }
        ensures view { OnOk result (own_view self.new ≡ without_part (own_view self.old)) }
        ensures way { IfOk result (λ w. (way_deque w ≡ own_deque self.old)
            × (way_view w ≡ one_part (own_view self.old))) }
    {
        let thief = self.owner.stealer()?;
        let taker = self.owner.another::<Parting>();
        Ok(Way { thief, taker })
    }

    /// Takes in the part of the way, and the numbers that were taken by it.
    pub(crate) fn absorb(&mut self, way: Way)
        requires { way_deque way ≡ own_deque self.old }
        ensures deque { own_deque self.new ≡ own_deque self.old }
        ensures view { own_view self.new ≡ together (own_view self.old) (way_view way) }
        ensures within { IsWithin (own_view self.new) }
    {
        let Way { thief: _, taker } = way;
        self.owner.absorb::<Union>(taker);
        let _left = self.owner.len_as::<Look>();
    }
}
