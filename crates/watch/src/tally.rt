// A watcher that keeps its notes.
ghost use Rattle.std.specs.Prelude.{◌≡◌, ◌<◌, ◌≤◌, ◌-◌, ◌↔◌, ◌++◌, ◌∷◌, [], IsTrue, length};
ghost use Rattle.watch.specs.Notes.{total_terms};

use crate::note::Notes;
use crate::{MOST_NOTES, Note, Watch};
use std::marker::Model;

/// A watcher that only keeps its notes.
#[derive(Drop)]
pub struct Tally {
    notes: Notes,
    patience: u32,
}

impl Model for Tally {
    ghost use Rattle.watch.specs.Notes.{WatcherState};

    ghost Value = { WatcherState };

    ghost view = { λ t. record { told = t.notes; patience = t.patience } };
}

impl Tally {
    /// A watcher that was told nothing, with patience for so many notes.
    pub fn new(patience: u32) -> Tally
        ensures new { result ≡ record { told = []; patience = patience } }
    {
        Tally {
            notes: Notes::new(),
            patience,
        }
    }
}

impl Watch for Tally {
    ghost told = { λ t. t.told };

    ghost patience = { λ t. t.patience };

    fn note(&mut self, n: &Note) -> bool {
        self.notes.push(*n);
        match self.patience.checked_sub(1) {
            Some(left) => {
                self.patience = left;
                true
            }
            None => false,
        }
    }

    fn terms(&self) -> u64 {
        self.notes.terms()
    }
}
