//! The writing of an answer.
ghost use Rattle.std.specs.Prelude.{◌≡◌, ◌⊎◌, ◌≤◌, All, OnErr, OnOk, [], length};
ghost use Rattle.std.specs.List.{concat};
ghost use Rattle.std.specs.Io.KnownBytes.{Appends};
ghost use Rattle.lattice.specs.Counts.{Rose};
ghost use Rattle.outside.specs.Causes.{GainsLess, HasCause};
ghost use Rattle.watch.specs.Notes.{left_after_all, states_by};
ghost use Rattle.program.specs.Pages.{TellsFirst};
ghost use Rattle.program.specs.declared.outcome.Outcome.TheVariants as outcomes;

use crate::outcome::Outcome;
use lattice::Text;
use outside::{Failed, Sink, write_whole};
use watch::{Note, Watch, tell};

/// Writes the text of an answer, and says how the run ends: it is done, or the write failed.
pub fn write_page<E, K: Sink>(out: &mut K, text: &[u8]) -> Outcome<E>
    ensures ends { (result ≡ outcomes.Done) ⊎ (result ≡ outcomes.WriteFault) }
    ensures whole { result ≡ outcomes.Done → Appends (K.held out.old) (K.held out.new) text.now }
    ensures less { result ≡ outcomes.WriteFault
        → GainsLess (K.held out.old) (K.held out.new) text.now }
    ensures write { result ≡ outcomes.WriteFault → Rose (K.faults out.old) (K.faults out.new) }
{
    match write_whole(out, text) {
        Ok(()) => Outcome::Done,
        Err(Failed) => Outcome::WriteFault,
    }
}

/// Writes the texts, one after the other, and tells the watchers of each as soon as it was written
/// whole.
pub fn write_pages<K: Sink>(
    out: &mut K,
    pages: &[Text],
    notes: &[Note],
    watchers: &mut Vec<Box<dyn Watch>>,
) -> Result<(), Failed>
    requires size { length notes.now ≡ length pages.now }
    requires few { length pages.now ≤ 64 }
    requires untold { All (λ s. s.told ≡ []) (states_by told patience watchers.old.items) }
    ensures whole { OnOk result (Appends (K.held out.old) (K.held out.new) (concat pages.now)) }
    ensures less { OnErr result (GainsLess (K.held out.old) (K.held out.new) (concat pages.now)) }
    ensures cause { HasCause (K.faults out.old) (K.faults out.new) result }
    ensures told { OnOk result (states_by told patience watchers.new.items
        ≡ left_after_all notes.now (states_by told patience watchers.old.items)) }
    ensures stopped { OnErr result
        (TellsFirst (K.held out.old) (K.held out.new) pages.now notes.now
        (states_by told patience watchers.old.items)
        (states_by told patience watchers.new.items)) }
{
    for (page, note) in pages.iter().zip(notes) {
        write_whole(out, page.as_slice())?;
        tell(watchers, note);
    }
    Ok(())
}
