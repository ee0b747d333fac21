//! The rule of the table, and what each step tells. These types are for the proofs alone.
ghost use Rattle.std.specs.Prelude.{ℕ, Bool, false};
ghost use Rattle.unique_table.specs.Rule.{Rule, first_view, split_view, second_view, joined_view};
ghost use Rattle.unique_table.specs.Rule.{no_view};
ghost use Rattle.unique_table.specs.Told.{Probed, Exchanged, Checked, Looked, Stored};

use crate::view::{About, View};
use atomic_table::{Join, Play, Split, TableRule};
use std::marker::{Brand, PhantomData};

pub struct Nodes;

impl TableRule<(), View, About> for Nodes {
    ghost holds = { Rule };

    ghost first = { first_view };
}

/// The word that a call asks for at some place of its path.
pub trait Asked {
    ghost asked: { ℕ };

    /// Whether the place is the last one.
    ghost last: { Bool };
}

impl Asked for Brand {
    ghost asked = { 0 };

    ghost last = { false };
}

pub struct Probe<J> {
    asked: PhantomData<J>,
}

impl<J: Asked> Play<(), View> for Probe<J> {
    ghost then = { λ step. Probed J.asked J.last step.word };
}

pub struct Insert<J> {
    asked: PhantomData<J>,
}

impl<J: Asked> Play<(), View> for Insert<J> {
    ghost then = { λ step. Exchanged J.last step.word step.second };
}

/// Both know what the one knew and count the split, and the second has no history.
pub struct Twin;

impl Split<View> for Twin {
    ghost left = { split_view };

    ghost right = { second_view };
}

/// One knows what both knew, and its history goes on with the other's.
pub struct Union;

impl Join<View> for Union {
    ghost both = { joined_view };

    ghost spent = { no_view };
}

pub struct Check;

impl Play<(), View> for Check {
    ghost then = { λ _ before _ after. Checked before after };
}

pub struct CacheLoad;

impl Play<(), View> for CacheLoad {
    ghost then = { λ step. Looked step.word };
}

pub struct CacheStore;

impl Play<(), View> for CacheStore {
    ghost then = { λ step. Stored step.word };
}
