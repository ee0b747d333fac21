//! The thread that reads: it cuts the stream into files, and sends each as soon as it was read
//! whole.
ghost use Rattle.std.specs.Prelude.{◌≡◌, ◌≤◌, ◌<◌, ◌+◌, ◌^◌, ◌++◌, ◌∷◌, true, false, [], List, ℕ};
ghost use Rattle.std.specs.Prelude.{length, IsErrOf, OnOk, OnErr};
ghost use Rattle.crossbeam_channel.specs.Claims.{view, IsSeatAt};
ghost use Rattle.crossbeam_channel.specs.Ends.{sends_on};
ghost use Rattle.lattice.specs.Counts.{Rose};
ghost use Rattle.file_stream.specs.Files.{files_of};
ghost use Rattle.file_relay.specs.Messages.{HaveFiles, ends_once, has_no_end};
ghost use Rattle.file_relay.specs.Reading.{BeforeEnd, IsReadPart, IsReadPast, IsReadWhole};
ghost use Rattle.file_relay.specs.Reading.{ArePartly, IsSent};
ghost use Rattle.file_relay.specs.Relayed.{log};
ghost use Rattle.file_relay.specs.declared.message.Message.TheVariants.{End};
ghost use Rattle.file_relay.specs.declared.reader.StreamStop.TheVariants.{Fault, Memory, TooLong};

use crate::link::{Outlet, Token, send};
use crate::message::Message;
use file_stream::Cutter;
use outside::Source;
use std::alloc::{AllocError, Global};
use std::sync::Wait;

/// Why the reading stopped before the end of the stream.
#[derive(Clone, Copy, Debug, Drop, PartialEq, Eq)]
pub enum StreamStop {
    Fault,
    Memory,
    TooLong,
}

impl From<AllocError> for StreamStop {
    ghost from_gives = { λ _ e. e ≡ Memory };

    fn from(_: AllocError) -> Self {
        StreamStop::Memory
    }
}

const PIECE: usize = 4096;

/// The most bytes of a stream.
pub const MOST_STREAM: usize = 67_108_864;

// Feeds the byte to the cutter, and sends the file that it ends.
fn send_next<R: Wait>(
    rt: &R,
    outlet: &Outlet,
    pass: &mut Token,
    cutter: &mut Cutter,
    number: &mut u64,
    byte: u8,
) -> Result<(), AllocError>
    requires channel { IsSeatAt (sends_on outlet.now) pass.old }
    requires role { view pass.old ≡ log true false (view pass.old).sent [] }
    requires room { number.old + 1 < 2 ^ 64 }
    ensures channel { IsSeatAt (sends_on outlet.now) pass.new × (pass.new.id ≡ pass.old.id) }
    ensures role { view pass.new ≡ log true false (view pass.new).sent [] }
    ensures few { number.new ≤ number.old + 1 }
    ensures fed { (read : List ℕ) → IsSent cutter.old number.old read (view pass.old).sent
        → OnOk result (IsSent cutter.new number.new (read ++ byte ∷ []) (view pass.new).sent) }
    ensures refused { (read : List ℕ) → IsSent cutter.old number.old read (view pass.old).sent
        → OnErr result (IsSent cutter.new number.new read (view pass.new).sent) }
{
    if let Some(file) = cutter.feed(byte)? {
        *number += 1;
        send(
            rt,
            outlet,
            pass,
            Message::File {
                number: *number,
                file,
            },
        );
    }
    Ok(())
}

// Feeds the bytes to the cutter, and sends each file as soon as it ends.
fn send_piece<R: Wait>(
    rt: &R,
    outlet: &Outlet,
    pass: &mut Token,
    cutter: &mut Cutter,
    number: &mut u64,
    bytes: &[u8],
) -> Result<(), AllocError>
    requires channel { IsSeatAt (sends_on outlet.now) pass.old }
    requires role { view pass.old ≡ log true false (view pass.old).sent [] }
    requires room { number.old + length bytes.now < 2 ^ 64 }
    ensures channel { IsSeatAt (sends_on outlet.now) pass.new × (pass.new.id ≡ pass.old.id) }
    ensures role { view pass.new ≡ log true false (view pass.new).sent [] }
    ensures few { number.new ≤ number.old + length bytes.now }
    ensures fed { (read : List ℕ) → IsSent cutter.old number.old read (view pass.old).sent
        → OnOk result (IsSent cutter.new number.new (read ++ bytes.now) (view pass.new).sent) }
    ensures refused { (read : List ℕ) → IsSent cutter.old number.old read (view pass.old).sent
        → OnErr result (ArePartly (read ++ bytes.now) (view pass.new).sent) }
{
    for byte in bytes {
        send_next(rt, outlet, pass, cutter, number, *byte)?;
    }
    Ok(())
}

// Sends the file that the end of the stream ends, if there is one.
fn send_last<R: Wait>(rt: &R, outlet: &Outlet, pass: &mut Token, cutter: Cutter, number: u64)
    requires channel { IsSeatAt (sends_on outlet.now) pass.old }
    requires role { view pass.old ≡ log true false (view pass.old).sent [] }
    requires room { number + 1 < 2 ^ 64 }
    ensures channel { IsSeatAt (sends_on outlet.now) pass.new × (pass.new.id ≡ pass.old.id) }
    ensures role { view pass.new ≡ log true false (view pass.new).sent [] }
    ensures all { (read : List ℕ) → IsSent cutter number read (view pass.old).sent
        → HaveFiles 1 (view pass.new).sent (files_of read) }
{
    if let Some(file) = cutter.finish() {
        send(
            rt,
            outlet,
            pass,
            Message::File {
                number: number + 1,
                file,
            },
        );
    }
}

// Sends the files of the stream, and no end mark.
fn send_stream<R: Wait, S: Source>(
    rt: &R,
    alloc: Global,
    source: &mut S,
    outlet: &Outlet,
    pass: &mut Token,
) -> Result<(), StreamStop>
    requires channel { IsSeatAt (sends_on outlet.now) pass.old }
    requires fresh { view pass.old ≡ log true false [] [] }
    ensures channel { IsSeatAt (sends_on outlet.now) pass.new × (pass.new.id ≡ pass.old.id) }
    ensures role { view pass.new ≡ log true false (view pass.new).sent [] }
    ensures unended { has_no_end (view pass.new).sent ≡ true }
    ensures whole { OnOk result (IsReadWhole (S.left source.old) (S.left source.new)
        (view pass.new).sent) }
    ensures part { OnErr result (IsReadPart (S.left source.old) (S.left source.new)
        (view pass.new).sent) }
    ensures long { IsErrOf result TooLong → IsReadPast (S.left source.old) (S.left source.new) }
    ensures later { S.faults source.old ≤ S.faults source.new }
    ensures kept { OnOk result (S.faults source.new ≡ S.faults source.old) }
    ensures rose { IsErrOf result Fault → Rose (S.faults source.old) (S.faults source.new) }
{
    let mut cutter = Cutter::new(alloc);
    let mut number = 0;
    let mut piece = [0; PIECE];
    let mut total = 0;
    while total <= MOST_STREAM {
        let count = match source.read(&mut piece) {
            Ok(count) => count,
            Err(_) => return Err(StreamStop::Fault),
        };
        if count == 0 {
            send_last(rt, outlet, pass, cutter, number);
            return Ok(());
        }
        send_piece(rt, outlet, pass, &mut cutter, &mut number, &piece[..count])?;
        total += count;
    }
    Err(StreamStop::TooLong)
}

/// Sends the end mark, behind files or, where none was sent, alone.
pub fn send_end<R: Wait>(rt: &R, outlet: &Outlet, pass: &mut Token)
    requires channel { IsSeatAt (sends_on outlet.now) pass.old }
    requires role { view pass.old ≡ log true false (view pass.old).sent [] }
    requires unended { has_no_end (view pass.old).sent ≡ true }
    ensures channel { IsSeatAt (sends_on outlet.now) pass.new × (pass.new.id ≡ pass.old.id) }
    ensures role { view pass.new ≡ log true false (view pass.new).sent [] }
    ensures sent { (view pass.new).sent ≡ (view pass.old).sent ++ End ∷ [] }
    ensures ends { ends_once (view pass.new).sent ≡ true }
{
    send(rt, outlet, pass, Message::End);
}

/// Reads the stream, cuts it into files, and sends each with its number as soon as it was read
/// whole; then the end mark, also where it stopped before the end of the stream. It answers why it
/// stopped.
pub fn send_files<R: Wait, S: Source>(
    rt: &R,
    alloc: Global,
    source: &mut S,
    outlet: &Outlet,
    pass: &mut Token,
) -> Result<(), StreamStop>
    requires channel { IsSeatAt (sends_on outlet.now) pass.old }
    requires fresh { view pass.old ≡ log true false [] [] }
    ensures channel { IsSeatAt (sends_on outlet.now) pass.new × (pass.new.id ≡ pass.old.id) }
    ensures role { view pass.new ≡ log true false (view pass.new).sent [] }
    ensures ends { ends_once (view pass.new).sent ≡ true }
    ensures whole { OnOk result (BeforeEnd (IsReadWhole (S.left source.old) (S.left source.new))
        (view pass.new).sent) }
    ensures part { OnErr result (BeforeEnd (IsReadPart (S.left source.old) (S.left source.new))
        (view pass.new).sent) }
    ensures long { IsErrOf result TooLong → IsReadPast (S.left source.old) (S.left source.new) }
    ensures later { S.faults source.old ≤ S.faults source.new }
    ensures kept { OnOk result (S.faults source.new ≡ S.faults source.old) }
    ensures rose { IsErrOf result Fault → Rose (S.faults source.old) (S.faults source.new) }
{
    let result = send_stream(rt, alloc, source, outlet, pass);
    send_end(rt, outlet, pass);
    result
}
