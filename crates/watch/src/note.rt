// A note, and a list of notes that takes no memory.
ghost use Rattle.std.specs.Prelude.{◌≡◌, ◌<◌, ◌++◌, ◌∷◌, [], length};
ghost use Rattle.watch.specs.Notes.{total_terms};

use std::marker::Model;

/// An output that was written.
#[derive(Clone, Copy, Debug, PartialEq, Eq)]
pub struct Note {
    /// Its number, counted from 1.
    pub output: u32,
    /// The number of terms of its polynomial.
    pub terms: u64,
    /// The number of elements of its basis.
    pub basis: u64,
}

/// The most notes that a watcher is told.
pub const MOST_NOTES: usize = 64;

/// A list of notes in a fixed array.
#[derive(Drop)]
pub(crate) struct Notes {
    array: [Note; MOST_NOTES],
    count: usize,
}

impl Model for Notes {
    ghost use Rattle.std.specs.Prelude.{◌≤◌, List, take};
    ghost use Rattle.watch.specs.declared.note.Note.{Note};
    ghost use Rattle.watch.specs.declared.note.TheConstants.{MOST_NOTES};

    ghost Value = { List Note };

    ghost view = { λ notes. take notes.count notes.array };

    ghost invariant = { λ notes. notes.count ≤ MOST_NOTES };
}

impl Notes {
    pub(crate) fn new() -> Notes
        ensures empty { result ≡ [] }
    {
        let none = Note {
            output: 0,
            terms: 0,
            basis: 0,
        };
        Notes {
            array: [none; MOST_NOTES],
            count: 0,
        }
    }

    pub(crate) fn push(&mut self, note: Note)
        requires room { length self.old < MOST_NOTES }
        ensures pushed { self.new ≡ self.old ++ note ∷ [] }
    {
        self.array[self.count] = note;
        self.count += 1;
    }

    // The sum of their terms, or the greatest number where it is greater.
    pub(crate) fn terms(&self) -> u64
        ensures sum { result ≡ total_terms self.now }
    {
        let mut sum: u64 = 0;
        for note in &self.array[..self.count] {
            sum = sum.saturating_add(note.terms);
        }
        sum
    }
}
