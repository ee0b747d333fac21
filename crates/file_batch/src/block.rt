//! The block of one file.
ghost use Rattle.std.specs.Prelude.{◌≡◌, ◌++◌, OnOk};
ghost use Rattle.std.specs.List.{concat};
ghost use Rattle.std.specs.Io.KnownBytes.{Appends};
ghost use Rattle.outside.specs.Causes.{GainsFront, HasCause};
ghost use Rattle.file_batch.specs.Blocks.{header};

use arrayvec::ArrayString;
use itoa::Buffer;
use lattice::Text;
use outside::{Failed, Sink, write_whole};

// The line with the file's number and its status.
fn header_of(number: u64, status: u8) -> ArrayString<64>
    ensures { result.bytes ≡ header number status }
{
    let mut digits = Buffer::new();
    let mut text = ArrayString::new();
    text.push_str("file ");
    text.push_str(digits.format(number));
    text.push_str(" ");
    text.push_str(digits.format(status));
    text.push_str("\n");
    text
}

// Writes the texts, one after the other.
fn write_pages<K: Sink>(out: &mut K, pages: &[Text]) -> Result<(), Failed>
    ensures whole { OnOk result (Appends (K.held out.old) (K.held out.new) (concat pages.now)) }
    ensures front { GainsFront (K.held out.old) (K.held out.new) (concat pages.now) }
    ensures cause { HasCause (K.faults out.old) (K.faults out.new) result }
{
    for page in pages {
        write_whole(out, page.as_slice())?;
    }
    Ok(())
}

/// Writes the line with the file's number and its status, and then the texts.
pub(crate) fn write_block<K: Sink>(
    out: &mut K,
    number: u64,
    status: u8,
    pages: &[Text],
) -> Result<(), Failed>
    ensures whole { OnOk result (Appends (K.held out.old) (K.held out.new)
        (header number status ++ concat pages.now)) }
    ensures front { GainsFront (K.held out.old) (K.held out.new)
        (header number status ++ concat pages.now) }
    ensures cause { HasCause (K.faults out.old) (K.faults out.new) result }
{
    let line = header_of(number, status);
    write_whole(out, line.as_str().as_bytes())?;
    write_pages(out, pages)
}
