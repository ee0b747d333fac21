//! The branch that answers: it takes the files, and writes a block for each.
ghost use Rattle.std.specs.Prelude.{◌≡◌, ◌++◌, ◌∷◌, ℕ, List, Option, true, false, [], IfOk, OnErr};
ghost use Rattle.std.specs.Prelude.{OnOk, IsErrOf};
ghost use Rattle.std.specs.Io.KnownBytes.{Appends};
ghost use Rattle.crossbeam_channel.specs.Claims.{view, IsSeatAt};
ghost use Rattle.crossbeam_channel.specs.Ends.{receives_on};
ghost use Rattle.outside.specs.Causes.{GainsFront};
ghost use Rattle.file_relay.specs.Messages.{ends_once};
ghost use Rattle.file_relay.specs.Relayed.{log};
ghost use Rattle.file_relay.specs.declared.message.Message.TheVariants.{End};
ghost use Rattle.file_batch.specs.Progress.{HasWritten, IsAnswerTo, IsCaused, Progress};
ghost use Rattle.file_batch.specs.declared.progress.Halt.TheVariants as halts;

use crate::answerer::Answerer;
use crate::block::write_block;
use file_relay::{Inlet, Message, Token, take};
use file_stream::Piece;
use outside::{Failed, Gate, Rendezvous, Sink};
use std::alloc::Global;
use std::sync::Wait;

/// Why no more is written.
#[derive(Clone, Copy, Debug, Drop, PartialEq, Eq)]
pub enum Halt {
    Memory,
    Fault,
}

// Answers the file, and writes its block.
fn write_answer<A: Answerer, K: Sink>(
    alloc: Global,
    answerer: &A,
    out: &mut K,
    number: u64,
    file: &Piece,
) -> Result<(), Halt>
    requires ready { A.ready answerer.now }
    ensures wrote { HasWritten (IsAnswerTo (A.answers answerer.now) number file.now)
        (K.held out.old) (K.held out.new) result }
    ensures cause { IsCaused (K.faults out.old) (K.faults out.new) result }
{
    let Ok(answer) = answerer.answer(alloc, file) else {
        return Err(Halt::Memory);
    };
    match write_block(out, number, answer.status, answer.pages.as_slice()) {
        Ok(()) => Ok(()),
        Err(Failed) => Err(Halt::Fault),
    }
}

// Writes the block of the message's file, unless something stopped the writing before.
pub(crate) fn write_next<A: Answerer, K: Sink>(
    alloc: Global,
    answerer: &A,
    out: &mut K,
    message: &Message,
    written: Result<(), Halt>,
) -> Result<(), Halt>
    requires ready { A.ready answerer.now }
    ensures progress { (start : Option (List ℕ)) (got : List Message)
        → Progress (A.answers answerer.now) start (K.held out.old) got written
        → Progress (A.answers answerer.now) start (K.held out.new) (got ++ message.now ∷ [])
        result }
    ensures cause { (start : ℕ) → IsCaused start (K.faults out.old) written
        → IsCaused start (K.faults out.new) result }
    ensures untouched { message.now ≡ End → out.new ≡ out.old }
{
    if written.is_err() {
        return written;
    }
    match message {
        Message::File { number, file } => write_answer(alloc, answerer, out, *number, file),
        Message::End => Ok(()),
    }
}

/// Meets the branch that reads, then takes files up to the end mark, whether or not that one came;
/// answers each and writes its block. Once something stopped the writing it goes on taking, and
/// writes nothing more.
pub(crate) fn write_blocks<R: Wait, A: Answerer, K: Sink>(
    rt: &R,
    alloc: Global,
    answerer: &A,
    out: &mut K,
    inlet: &Inlet,
    pass: &mut Token,
    gate: &Rendezvous,
) -> Result<(), Halt>
    requires ready { A.ready answerer.now }
    requires channel { IsSeatAt (receives_on inlet.now) pass.old }
    requires fresh { view pass.old ≡ log false true [] [] }
    ensures channel { IsSeatAt (receives_on inlet.now) pass.new × (pass.new.id ≡ pass.old.id) }
    ensures role { view pass.new ≡ log false true [] (view pass.new).got }
    ensures ends { ends_once (view pass.new).got ≡ true }
    ensures progress { Progress (A.answers answerer.now) (K.held out.old) (K.held out.new)
        (view pass.new).got result }
    ensures cause { IsCaused (K.faults out.old) (K.faults out.new) result }
    ensures untouched { (view pass.new).got ≡ End ∷ [] → out.new ≡ out.old }
{
    gate.enter(0);
    let mut written = Ok(());
    for _ in rt.forever() {
        let message = take(rt, inlet, pass);
        written = write_next(alloc, answerer, out, &message, written);
        if let Message::End = message {
            return written;
        }
    }
    unreachable!()
}
