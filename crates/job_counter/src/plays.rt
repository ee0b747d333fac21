//! The rule of the counter, and what each step tells. These types are for the proofs alone.
ghost use Rattle.std.specs.Prelude.{[]};
ghost use Rattle.job_counter.specs.Rule.{Rule, Drew, Counted, hand, first_half, second_half};
ghost use Rattle.job_counter.specs.Rule.{both_hands};
ghost use Rattle.job_counter.specs.declared.counter.TheConstants.{ALL_PARTS};

use crate::view::Hand;
use atomic_table::{Join, Play, Split, TableRule};

pub struct Numbers;

impl TableRule<(), Hand, ()> for Numbers {
    ghost holds = { λ _. Rule };

    ghost first = { λ _. hand ALL_PARTS [] };
}

/// A number more is drawn.
pub struct Draw;

impl Play<(), Hand> for Draw {
    ghost then = { λ _. Drew };
}

/// The numbers that were drawn are counted.
pub struct Count;

impl Play<(), Hand> for Count {
    ghost then = { λ _. Counted };
}

/// The parts are halved, and the numbers stay with the first.
pub struct Halves;

impl Split<Hand> for Halves {
    ghost left = { first_half };

    ghost right = { second_half };
}

/// The parts and the numbers of both.
pub struct Union;

impl Join<Hand> for Union {
    ghost both = { both_hands };

    ghost spent = { hand 0 [] };
}
