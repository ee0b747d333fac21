// A watcher that writes lines of progress.
ghost use Rattle.std.specs.Prelude.{◌≡◌, ◌≢◌, ◌<◌, ◌≤◌, ◌-◌, ◌↔◌, ◌++◌, ◌∷◌, [], IsTrue, length};
ghost use Rattle.std.specs.Bool.{OnFalse, OnTrue};
ghost use Rattle.outside.specs.Causes.{GainsUnlessRose};
ghost use Rattle.watch.specs.Notes.{line_of, total_terms};

use crate::{MOST_NOTES, Note, Tally, Watch};
use arrayvec::ArrayString;
use itoa::Buffer;
use outside::{Sink, write_whole};
use std::marker::Model;

// 24 bytes, and numbers of at most 10, 20 and 20 digits.
const LONGEST_LINE: usize = 74;

// `output J: T terms, B basis` and a line feed.
fn line(n: &Note) -> ArrayString<LONGEST_LINE>
    ensures { result.bytes ≡ line_of n.now }
{
    let mut digits = Buffer::new();
    let mut line = ArrayString::new();
    line.push_str("output ");
    line.push_str(digits.format(n.output));
    line.push_str(": ");
    line.push_str(digits.format(n.terms));
    line.push_str(" terms, ");
    line.push_str(digits.format(n.basis));
    line.push_str(" basis\n");
    line
}

/// A watcher that keeps its notes, and for each note that it answers with true writes
/// `output J: T terms, B basis` and a line feed to its sink. A failed write is ignored.
#[derive(Drop)]
pub struct Lines<K: Sink + Drop> {
    tally: Tally,
    sink: K,
}

impl<K: Sink + Drop> Model for Lines<K> {
    ghost use Rattle.watch.specs.Notes.{LinesState};

    ghost Value = { LinesState K };

    ghost view = { λ l. record {
      told = l.tally.told;
      patience = l.tally.patience;
      sink = l.sink;
    } };
}

impl<K: Sink + Drop> Lines<K> {
    /// A watcher that was told nothing, with patience for so many notes.
    pub fn new(sink: K, patience: u32) -> Lines<K>
        ensures new { result ≡ record { told = []; patience = patience; sink = sink } }
    {
        Lines {
            tally: Tally::new(patience),
            sink,
        }
    }

    /// Its sink.
    pub fn sink(&self) -> &K
        ensures sink { result.now ≡ self.now.sink }
    {
        &self.sink
    }
}

impl<K: Sink + Drop> Watch for Lines<K> {
    ghost told = { λ l. l.told };

    ghost patience = { λ l. l.patience };

    fn note(&mut self, n: &Note) -> bool
        requires room { length self.old.told < MOST_NOTES }
        ensures told { self.new.told ≡ self.old.told ++ n.now ∷ [] }
        ensures patience { self.new.patience ≡ self.old.patience - 1 }
        ensures answer { IsTrue result ↔ (1 ≤ self.old.patience) }

        // A note that is answered with true adds its line to the sink, or a part of it where a
        // write fails; another adds nothing.
        ensures line { OnTrue result
            (GainsUnlessRose (K.held self.old.sink) (K.held self.new.sink) (line_of n.now)
            (K.faults self.old.sink) (K.faults self.new.sink)) }
        ensures silent { OnFalse result (self.new.sink ≡ self.old.sink) }
    {
        let patient = self.tally.note(n);
        if patient {
            let _ = write_whole(&mut self.sink, line(n).as_str().as_bytes());
        }
        patient
    }

    fn terms(&self) -> u64 {
        self.tally.terms()
    }
}
