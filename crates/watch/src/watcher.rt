// The trait of watchers, and telling all of them.
ghost use Rattle.std.specs.Prelude.{◌≡◌, ◌<◌, ◌≤◌, ◌-◌, ◌↔◌, ◌++◌, ◌∷◌, [], All, IsTrue, List, ℕ};
ghost use Rattle.std.specs.Prelude.{length};
ghost use Rattle.watch.specs.Notes.{left_after, states_by, total_terms};
ghost use Rattle.watch.specs.declared.note.Note.{Note};

use crate::{MOST_NOTES, Note};

/// One who is told of outputs until its patience ends.
pub trait Watch: Drop {
    /// The notes that it was told, in order.
    ghost told: { Self → List Note };

    /// How many more notes it wants.
    ghost patience: { Self → ℕ };

    /// Tells it of an output, and answers whether it still had patience. Each note takes one of its
    /// patience, as long as there is any.
    fn note(&mut self, n: &Note) -> bool
        requires room { length (told self.old) < MOST_NOTES }
        ensures told { told self.new ≡ told self.old ++ n.now ∷ [] }
        ensures patience { patience self.new ≡ patience self.old - 1 }
        ensures answer { IsTrue result ↔ (1 ≤ patience self.old) };

    /// The sum of the terms that it was told, or the greatest `u64` where the sum is greater.
    fn terms(&self) -> u64
        ensures sum { result ≡ total_terms (told self.now) };
}

/// Tells every watcher once, in order, and drops those that had no patience left. The others keep
/// their order.
pub fn tell(watchers: &mut Vec<Box<dyn Watch>>, n: &Note)
    requires room { All (λ s. length s.told < MOST_NOTES)
        (states_by told patience watchers.old.items) }
    ensures left { states_by told patience watchers.new.items
        ≡ left_after n.now (states_by told patience watchers.old.items) }
{
    let mut kept = 0;
    for at in 0..watchers.len() {
        if watchers[at].note(n) {
            watchers.swap(kept, at);
            kept += 1;
        }
    }
    watchers.truncate(kept);
}
