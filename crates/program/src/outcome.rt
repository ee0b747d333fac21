//! How a run ends.
ghost use Rattle.std.specs.Prelude.{◌≡◌, ◌≤◌, [], length};
ghost use Rattle.std.proofs.Common.{inl, refl};
ghost use Rattle.program.specs.Outcomes.{IsOwnStatus, Way, status_of, way_of};

use crate::lines::{
    LONGEST_MESSAGE, Message, contradiction_message, count_message, fixed_message, refusal_message,
};
use cube_sets::Clash;
use pla_reader::Why;

/// How a run ends: as each program does, or with an end of the program's own.
#[derive(Clone, Copy, Debug, PartialEq, Eq)]
pub enum Outcome<E> {
    /// The answer was written whole.
    Done,
    /// The words ask for no job.
    Usage,
    /// The description is refused, at this line for this cause.
    Text { line: u32, why: Why },
    /// An on-row and an off-row of an output share a point.
    Contradiction(Clash),
    /// More nodes are needed than there are slots, which are so many.
    Exhausted { nodes: u64 },
    /// There are more terms than the limit.
    Terms { limit: u64 },
    /// Want of memory.
    Memory,
    /// A read failed.
    ReadFault,
    /// A write of the answer failed.
    WriteFault,
    /// The source gave more bytes than this limit of the program.
    TooLong { limit: usize },
    /// An end of the program's own.
    Own(E),
}

/// An end of a program's own.
pub trait End: Copy {
    /// How it is told.
    ghost way: { Self → Way };

    /// The exit status.
    fn status(&self) -> u8
        ensures { result ≡ (way self.now).status };

    /// What the line on err says, which takes no memory; nothing where there is no line.
    fn message(&self) -> Message
        ensures { result.bytes ≡ (way self.now).message };

    /// Its status is none that a run ends with in another way.
    ghost own: { (e : Self) → IsOwnStatus (way e).status };
}

/// What stands for an end of its own in a program that has none: what is due there never names it.
#[derive(Clone, Copy, Debug, PartialEq, Eq)]
pub struct NoEnd;

impl End for NoEnd {
    ghost way = { λ _. record { status = 1; message = [] } };

    ghost own = { λ _. inl refl };

    fn status(&self) -> u8 {
        1
    }

    fn message(&self) -> Message {
        Message::new()
    }
}

impl<E: End> Outcome<E> {
    /// The exit status.
    pub fn status(&self) -> u8
        ensures { result ≡ status_of E.way self.now }
    {
        match self {
            Outcome::Done => 0,
            Outcome::Usage => 2,
            Outcome::Text { .. } => 3,
            Outcome::Contradiction(_) => 4,
            Outcome::Exhausted { .. } => 5,
            Outcome::Terms { .. } => 6,
            Outcome::Memory => 7,
            Outcome::ReadFault => 8,
            Outcome::WriteFault => 9,
            Outcome::TooLong { .. } => 10,
            Outcome::Own(end) => end.status(),
        }
    }

    /// What the line on err says, by what it says on usage.
    pub fn message(&self, usage: &str) -> Message
        requires { length usage.now ≤ LONGEST_MESSAGE }
        ensures { result.bytes ≡ (way_of E.way usage.now self.now).message }
    {
        match self {
            Outcome::Done => Message::new(),
            Outcome::Usage => fixed_message(usage),
            Outcome::Text { line, why } => refusal_message("line", *line, why.name()),
            Outcome::Contradiction(clash) => contradiction_message(*clash),
            Outcome::Exhausted { nodes } => count_message("more than", *nodes, "nodes are needed"),
            Outcome::Terms { limit } => count_message("more than", *limit, "terms"),
            Outcome::Memory => fixed_message("out of memory"),
            Outcome::ReadFault => fixed_message("read fault"),
            Outcome::WriteFault => fixed_message("write fault"),
            Outcome::TooLong { limit } => count_message("longer than", *limit as u64, "bytes"),
            Outcome::Own(end) => end.message(),
        }
    }
}
