//! The rule of a deque, and what each step tells. These types are for the proofs alone.
ghost use Rattle.std.specs.Prelude.{[]};
ghost use Rattle.job_deques.specs.Rule.{hold, Kept, IsWithin, Pushed, Took, TookAll};
ghost use Rattle.job_deques.specs.Rule.{without_part, one_part, together};
ghost use Rattle.job_deques.specs.declared.view.TheConstants.{ALL_PARTS};

use crate::view::Hold;
use crossbeam_deque::protocol::{Join, Lesson, Outcome, Protocol, Split};

pub struct Numbers;

impl Protocol<u32, Hold> for Numbers {
    ghost holds = { Kept };

    ghost first = { hold ALL_PARTS [] [] };

    ghost guest = { hold 0 [] [] };
}

/// A number more is in the deque.
pub struct Push;

impl Outcome<u32, Hold> for Push {
    ghost then = { Pushed };
}

/// The owner took a number, or found the deque empty.
pub struct Pop;

impl Outcome<u32, Hold> for Pop {
    ghost then = { Took };

    ghost empty = { TookAll };
}

/// Another took a number.
pub struct Theft;

impl Outcome<u32, Hold> for Theft {
    ghost then = { Took };
}

/// No number was taken more often than it was pushed.
pub struct Look;

impl Lesson<u32, Hold> for Look {
    ghost fact = { λ v _. IsWithin v };
}

/// One part goes to a second pass.
pub struct Parting;

impl Split<Hold> for Parting {
    ghost left = { without_part };

    ghost right = { one_part };
}

/// The parts and the numbers of both.
pub struct Union;

impl Join<Hold> for Union {
    ghost both = { together };

    ghost spent = { hold 0 [] [] };
}
