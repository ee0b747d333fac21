//! A batch by one thread: each file is answered as soon as it was read whole, before more is read.
ghost use Rattle.std.specs.Prelude.{◌≡◌, ◌≤◌, ◌<◌, ◌+◌, ◌^◌, ◌++◌, ◌∷◌, [], List, ℕ, Option};
ghost use Rattle.std.specs.Prelude.{length, IsErrOf, OnErr, OnOk};
ghost use Rattle.lattice.specs.Counts.{Rose};
ghost use Rattle.file_relay.specs.Reading.{IsReadPast, IsReadThrough};
ghost use Rattle.file_batch.specs.Alone.{AllAnswered, IsAnswered, ArePartlyAnswered};
ghost use Rattle.file_batch.specs.Batches.{IsWritten, IsWrittenPart};
ghost use Rattle.file_batch.specs.Progress.{IsCaused};
ghost use Rattle.file_batch.specs.declared.stop.BatchStop.TheVariants.{ReadFault, TooLong};
ghost use Rattle.file_batch.specs.declared.stop.BatchStop.TheVariants.{WriteFault};

use crate::answerer::Answerer;
use crate::progress::{Halt, write_next};
use crate::stop::{BatchStop, stop_of};
use file_relay::{MOST_STREAM, Message};
use file_stream::Cutter;
use outside::{Sink, Source};
use std::alloc::{AllocError, Global};

const PIECE: usize = 4096;

// A stream that is read: the file so far, how many files came before it, and whether something
// stopped the writing.
#[derive(Drop)]
pub(crate) struct Reading {
    cutter: Cutter,
    number: u64,
    written: Result<(), Halt>,
}

// Feeds the byte to the cutter, and answers the file that it ends.
fn answer_next<A: Answerer, K: Sink>(
    alloc: Global,
    answerer: &A,
    out: &mut K,
    reading: &mut Reading,
    byte: u8,
) -> Result<(), AllocError>
    requires ready { A.ready answerer.now }
    requires room { reading.old.number + 1 < 2 ^ 64 }
    ensures few { reading.new.number ≤ reading.old.number + 1 }
    ensures fed { (start : Option (List ℕ)) (read : List ℕ)
        → IsAnswered (A.answers answerer.now) start (K.held out.old) reading.old read
        → OnOk result (IsAnswered (A.answers answerer.now) start (K.held out.new) reading.new
        (read ++ byte ∷ [])) }
    ensures refused { (start : Option (List ℕ)) (read : List ℕ)
        → IsAnswered (A.answers answerer.now) start (K.held out.old) reading.old read
        → OnErr result (IsAnswered (A.answers answerer.now) start (K.held out.new) reading.new
        read) }
    ensures cause { (start : ℕ) → IsCaused start (K.faults out.old) reading.old.written
        → IsCaused start (K.faults out.new) reading.new.written }
{
    if let Some(file) = reading.cutter.feed(byte)? {
        reading.number += 1;
        let message = Message::File {
            number: reading.number,
            file,
        };
        reading.written = write_next(alloc, answerer, out, &message, reading.written);
    }
    Ok(())
}

// Feeds the bytes to the cutter, and answers each file as soon as it ends.
fn answer_piece<A: Answerer, K: Sink>(
    alloc: Global,
    answerer: &A,
    out: &mut K,
    reading: &mut Reading,
    bytes: &[u8],
) -> Result<(), AllocError>
    requires ready { A.ready answerer.now }
    requires room { reading.old.number + length bytes.now < 2 ^ 64 }
    ensures few { reading.new.number ≤ reading.old.number + length bytes.now }
    ensures fed { (start : Option (List ℕ)) (read : List ℕ)
        → IsAnswered (A.answers answerer.now) start (K.held out.old) reading.old read
        → OnOk result (IsAnswered (A.answers answerer.now) start (K.held out.new) reading.new
        (read ++ bytes.now)) }
    ensures refused { (start : Option (List ℕ)) (read : List ℕ)
        → IsAnswered (A.answers answerer.now) start (K.held out.old) reading.old read
        → OnErr result (ArePartlyAnswered (A.answers answerer.now) start (K.held out.new)
        (read ++ bytes.now)) }
    ensures cause { (start : ℕ) → IsCaused start (K.faults out.old) reading.old.written
        → IsCaused start (K.faults out.new) reading.new.written }
{
    for byte in bytes {
        answer_next(alloc, answerer, out, reading, *byte)?;
    }
    Ok(())
}

// Answers the file that the end of the stream ends, if there is one.
fn answer_last<A: Answerer, K: Sink>(
    alloc: Global,
    answerer: &A,
    out: &mut K,
    reading: Reading,
) -> Result<(), Halt>
    requires ready { A.ready answerer.now }
    requires room { reading.number + 1 < 2 ^ 64 }
    ensures all { (start : Option (List ℕ)) (read : List ℕ)
        → IsAnswered (A.answers answerer.now) start (K.held out.old) reading read
        → AllAnswered (A.answers answerer.now) start (K.held out.new) read result }
    ensures cause { (start : ℕ) → IsCaused start (K.faults out.old) reading.written
        → IsCaused start (K.faults out.new) result }
{
    let Reading {
        cutter,
        number,
        written,
    } = reading;
    let Some(file) = cutter.finish() else {
        return written;
    };
    let message = Message::File {
        number: number + 1,
        file,
    };
    write_next(alloc, answerer, out, &message, written)
}

/// Answers the files of the stream, and writes a block for each, in order, by one thread.
pub fn write_alone<A: Answerer, S: Source, K: Sink>(
    alloc: Global,
    answerer: &A,
    source: &mut S,
    out: &mut K,
) -> Result<(), BatchStop>
    requires ready { A.ready answerer.now }
    ensures whole { OnOk result (IsWritten (A.answers answerer.now) (S.left source.old)
        (S.left source.new) (K.held out.old) (K.held out.new)) }
    ensures part { IsWrittenPart (A.answers answerer.now) (S.left source.old) (S.left source.new)
        (K.held out.old) (K.held out.new) }
    ensures read { IsErrOf result ReadFault → Rose (S.faults source.old) (S.faults source.new) }
    ensures write { IsErrOf result WriteFault → Rose (K.faults out.old) (K.faults out.new) }
    ensures through { IsErrOf result WriteFault
        → IsReadThrough (S.left source.old) (S.left source.new) }
    ensures long { IsErrOf result TooLong → IsReadPast (S.left source.old) (S.left source.new) }
{
    let mut reading = Reading {
        cutter: Cutter::new(alloc),
        number: 0,
        written: Ok(()),
    };
    let mut piece = [0; PIECE];
    let mut total = 0;
    while total <= MOST_STREAM {
        let count = match source.read(&mut piece) {
            Ok(count) => count,
            Err(_) => return Err(BatchStop::ReadFault),
        };
        if count == 0 {
            let written = answer_last(alloc, answerer, out, reading);
            return stop_of(Ok(()), written);
        }
        answer_piece(alloc, answerer, out, &mut reading, &piece[..count])?;
        total += count;
    }
    Err(BatchStop::TooLong)
}
