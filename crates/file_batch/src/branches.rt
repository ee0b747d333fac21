//! Both branches: one reads, cuts and sends, and the other answers and writes.
ghost use Rattle.std.specs.Prelude.{◌≡◌, ◌∷◌, true, false, [], OnErr, OnOk, IsErrOf};
ghost use Rattle.crossbeam_channel.specs.Claims.{view, IsSeatAt};
ghost use Rattle.crossbeam_channel.specs.Ends.{receives_on, sends_on};
ghost use Rattle.lattice.specs.Counts.{Rose};
ghost use Rattle.file_relay.specs.Messages.{ends_once};
ghost use Rattle.file_relay.specs.Reading.{BeforeEnd, IsReadPart, IsReadPast, IsReadThrough};
ghost use Rattle.file_relay.specs.Reading.{IsReadWhole};
ghost use Rattle.file_relay.specs.Relayed.{log};
ghost use Rattle.file_relay.specs.declared.message.Message.TheVariants.{End};
ghost use Rattle.file_relay.specs.declared.reader.StreamStop.TheVariants as reads;
ghost use Rattle.file_batch.specs.Progress.{IsCaused, Progress};
ghost use Rattle.file_batch.specs.Batches.{IsWritten, IsWrittenPart};
ghost use Rattle.file_batch.specs.Branches.{IfRead};
ghost use Rattle.file_batch.specs.declared.branches.Stream.TheVariants.{Unread};
ghost use Rattle.file_batch.specs.declared.stop.BatchStop.TheVariants.{ReadFault, TooLong};
ghost use Rattle.file_batch.specs.declared.stop.BatchStop.TheVariants.{WriteFault};

use crate::alone::write_alone;
use crate::answerer::Answerer;
use crate::progress::{Halt, write_blocks};
use crate::stop::{BatchStop, stop_of};
use file_relay::{Link, Outlet, StreamStop, Token, open_link, send_end, send_files, settle};
use outside::{Gate, Rendezvous, Sink, Source};
use std::alloc::Global;
use std::sync::Wait;
use std::thread::{Threads, join_mut};

// How often a branch looks for the other at most, before it goes on without it: for about a second,
// as a thread may begin late on a machine that has other work.
const MOST_LOOKS: u64 = 1_000_000_000;

// What became of the stream in the branch that reads.
#[derive(Clone, Copy, Debug, Drop, PartialEq, Eq)]
enum Stream {
    // It was read, and the reading ended so.
    Read(Result<(), StreamStop>),
    // The branch that answers did not come, so nothing was read.
    Unread,
}

// Meets the branch that answers, and sends it the files of the stream. Where that one does not
// come, this one reads nothing and sends the end mark alone, for which the channel has room.
fn send_where_met<R: Wait, S: Source>(
    rt: &R,
    alloc: Global,
    source: &mut S,
    outlet: &Outlet,
    pass: &mut Token,
    gate: &Rendezvous,
) -> Stream
    requires channel { IsSeatAt (sends_on outlet.now) pass.old }
    requires fresh { view pass.old ≡ log true false [] [] }
    ensures channel { IsSeatAt (sends_on outlet.now) pass.new × (pass.new.id ≡ pass.old.id) }
    ensures role { view pass.new ≡ log true false (view pass.new).sent [] }
    ensures ends { ends_once (view pass.new).sent ≡ true }
    ensures whole { IfRead result (λ read. OnOk read (BeforeEnd
        (IsReadWhole (S.left source.old) (S.left source.new)) (view pass.new).sent)) }
    ensures part { IfRead result (λ read. OnErr read (BeforeEnd
        (IsReadPart (S.left source.old) (S.left source.new)) (view pass.new).sent)) }
    ensures long { IfRead result (λ read. IsErrOf read reads.TooLong
        → IsReadPast (S.left source.old) (S.left source.new)) }
    ensures rose { IfRead result (λ read. IsErrOf read reads.Fault
        → Rose (S.faults source.old) (S.faults source.new)) }
    ensures unread { result ≡ Unread
        → (source.new ≡ source.old) × ((view pass.new).sent ≡ End ∷ []) }
{
    gate.enter(1);
    if !gate.met() {
        send_end(rt, outlet, pass);
        return Stream::Unread;
    }
    Stream::Read(send_files(rt, alloc, source, outlet, pass))
}

// Both branches, which meet before the stream is read, and what each left in what it was lent.
fn run_both<R: Threads + Wait + Sync, A: Answerer + Sync, S: Source + Send, K: Sink + Send>(
    rt: &R,
    alloc: Global,
    answerer: &A,
    source: &mut S,
    out: &mut K,
    link: &mut Link,
) -> (Result<(), Halt>, Stream)
    requires ready { A.ready answerer.now }
    requires outlet { IsSeatAt (sends_on link.old.outlet) link.old.sending }
    requires inlet { IsSeatAt (receives_on link.old.inlet) link.old.taking }
    requires sending { view link.old.sending ≡ log true false [] [] }
    requires taking { view link.old.taking ≡ log false true [] [] }
    ensures same { link.new.outlet ≡ link.old.outlet }
    ensures outlet { IsSeatAt (sends_on link.old.outlet) link.new.sending }
    ensures inlet { IsSeatAt (receives_on link.old.inlet) link.new.taking }
    ensures sending { view link.new.sending ≡ log true false (view link.new.sending).sent [] }
    ensures taking { view link.new.taking ≡ log false true [] (view link.new.taking).got }
    ensures sent { ends_once (view link.new.sending).sent ≡ true }
    ensures got { ends_once (view link.new.taking).got ≡ true }
    ensures whole { IfRead result.1 (λ read. OnOk read (BeforeEnd
        (IsReadWhole (S.left source.old) (S.left source.new)) (view link.new.sending).sent)) }
    ensures part { IfRead result.1 (λ read. OnErr read (BeforeEnd
        (IsReadPart (S.left source.old) (S.left source.new)) (view link.new.sending).sent)) }
    ensures long { IfRead result.1 (λ read. IsErrOf read reads.TooLong
        → IsReadPast (S.left source.old) (S.left source.new)) }
    ensures rose { IfRead result.1 (λ read. IsErrOf read reads.Fault
        → Rose (S.faults source.old) (S.faults source.new)) }
    ensures progress { Progress (A.answers answerer.now) (K.held out.old) (K.held out.new)
        (view link.new.taking).got result.0 }
    ensures cause { IsCaused (K.faults out.old) (K.faults out.new) result.0 }
    // Where the stream was not read, source and sink are as they were, once what was taken is known
    // to be what was sent.
    ensures unread { result.1 ≡ Unread → (source.new ≡ source.old)
        × ((view link.new.taking).got ≡ (view link.new.sending).sent → out.new ≡ out.old) }
{
    let gate = Rendezvous::waiting(MOST_LOOKS);
    let Link {
        outlet,
        inlet,
        sending,
        taking,
    } = link;
    join_mut(
        rt,
        &mut || write_blocks(rt, alloc, answerer, out, inlet, taking, &gate),
        &mut || send_where_met(rt, alloc, source, outlet, sending, &gate),
    )
}

/// Answers the files of the stream, and writes a block for each, in order: by two threads, of which
/// one reads on while the other answers, or, where the system gives no second thread, by one.
pub fn write_batch<R: Threads + Wait + Sync, A: Answerer + Sync, S: Source + Send, K: Sink + Send>(
    rt: &R,
    alloc: Global,
    answerer: &A,
    source: &mut S,
    out: &mut K,
) -> Result<(), BatchStop>
    requires ready { A.ready answerer.now }
    ensures whole { OnOk result (IsWritten (A.answers answerer.now) (S.left source.old)
        (S.left source.new) (K.held out.old) (K.held out.new)) }
    ensures part { IsWrittenPart (A.answers answerer.now) (S.left source.old) (S.left source.new)
        (K.held out.old) (K.held out.new) }
    ensures read { IsErrOf result ReadFault → Rose (S.faults source.old) (S.faults source.new) }
    ensures write { IsErrOf result WriteFault → Rose (K.faults out.old) (K.faults out.new) }
    ensures through { IsErrOf result WriteFault
        → IsReadThrough (S.left source.old) (S.left source.new) }
    ensures long { IsErrOf result TooLong → IsReadPast (S.left source.old) (S.left source.new) }
{
    let Ok(mut link) = open_link(alloc) else {
        return Err(BatchStop::Memory);
    };
    let (written, stream) = run_both(rt, alloc, answerer, source, out, &mut link);
    let Link {
        outlet,
        inlet: _,
        sending,
        taking,
    } = link;
    settle(&outlet, sending, taking);
    match stream {
        Stream::Read(read) => stop_of(read, written),
        Stream::Unread => write_alone(alloc, answerer, source, out),
    }
}
