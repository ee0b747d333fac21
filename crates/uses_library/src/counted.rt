//! A program that counts the rows of a description.
ghost use Rattle.std.specs.Prelude.{◌≡◌};
ghost use Rattle.std.proofs.Common.{refl};
ghost use Rattle.pla_reader.specs.Reading.{description};
ghost use Rattle.uses_library.specs.RowCount.{count_duty, count_text};

use arrayvec::ArrayString;
use itoa::Buffer;
use lattice::Words;
use outside::Sink;
use pla_reader::{MOST_BYTES, Pla, read};
use program::{NoEnd, Outcome, Program, write_page};
use std::alloc::Global;
use watch::Watch;

// `rows `, a number of 20 digits and a line feed.
const LONGEST_TEXT: usize = 26;

/// The program. Its words are its name alone.
#[derive(Drop)]
pub struct RowCount;

// The text, which takes no memory.
fn text_of(pla: &Pla) -> ArrayString<LONGEST_TEXT>
    ensures { result.bytes ≡ count_text (description pla.now) }
{
    let mut digits = Buffer::new();
    let mut text = ArrayString::new();
    text.push_str("rows ");
    text.push_str(digits.format(pla.rows.len()));
    text.push_str("\n");
    text
}

impl Program for RowCount {
    type Job = ();

    type Ends = NoEnd;

    ghost duty = { λ _. count_duty };

    ghost ready = { λ _. Unit {0} };

    ghost keeps = { λ _ _. Unit {0} };

    ghost earned = { λ _ _ _. Unit {0} };

    ghost fits = { λ _. Unit {0} };

    ghost ways = { λ _. refl };

    ghost kept = { λ _. tt };

    fn lawful(&self) {}

    fn name(&self) -> &'static str {
        "rows"
    }

    fn usage(&self) -> &'static str {
        "usage: rows"
    }

    fn limit(&self) -> usize {
        MOST_BYTES
    }

    fn job_of(&self, _alloc: Global, words: &Words) -> Result<(), Outcome<NoEnd>> {
        if words.count() == 1 {
            Ok(())
        } else {
            Err(Outcome::Usage)
        }
    }

    fn reads(&self, _job: &()) -> bool {
        true
    }

    fn answer<K: Sink>(
        &mut self,
        alloc: Global,
        _job: &(),
        bytes: &[u8],
        out: &mut K,
        _watchers: &mut Vec<Box<dyn Watch>>,
    ) -> Outcome<NoEnd> {
        match read(alloc, bytes) {
            Ok((pla, _taken)) => write_page(out, text_of(&pla).as_str().as_bytes()),
            Err(refusal) => Outcome::from(refusal),
        }
    }
}
