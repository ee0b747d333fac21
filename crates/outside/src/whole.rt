// Whole texts, through calls that take or give a part each.
ghost use Rattle.std.specs.Prelude.{◌≡◌, ◌≤◌, ℕ, List, take, IfOk, OnOk, OnErr, IsErrOf, Some};
ghost use Rattle.std.specs.Io.KnownBytes.{Appends};
ghost use Rattle.lattice.specs.Counts.{Rose};
ghost use Rattle.outside.specs.Causes.{GainsFront, GainsLess, HasCause, LosesAtMost, LosesUpTo};
ghost use Rattle.outside.specs.declared.whole.ReadStop.TheVariants.{Fault, Memory};

use crate::{Failed, Sink, Source};
use std::alloc::{AllocError, Global};

/// Why a read of everything stopped.
#[derive(Clone, Copy, Debug, Drop, PartialEq, Eq)]
pub enum ReadStop {
    Fault,
    Memory,
}

impl From<AllocError> for ReadStop {
    ghost from_gives = { λ _ e. e ≡ Memory };

    fn from(_: AllocError) -> Self {
        ReadStop::Memory
    }
}

const PIECE: usize = 4096;

/// Reads to the end of input, but no more than `most` bytes.
pub fn read_up_to<S: Source>(
    alloc: Global,
    source: &mut S,
    most: usize,
) -> Result<Vec<u8>, ReadStop>
    ensures bytes { IfOk result (λ bytes. LosesUpTo (S.left source.old) (S.left source.new) most
        bytes.items) }
    ensures told { IfOk result (λ bytes. (xs : List ℕ) → S.left source.old ≡ Some xs
        → bytes.items ≡ take most xs) }
    ensures few { LosesAtMost (S.left source.old) (S.left source.new) most }
    ensures later { S.faults source.old ≤ S.faults source.new }
    ensures kept { OnOk result (S.faults source.new ≡ S.faults source.old) }
    ensures rose { IsErrOf result Fault → Rose (S.faults source.old) (S.faults source.new) }
{
    let mut bytes = Vec::new(alloc);
    let mut piece = [0; PIECE];
    while bytes.len() < most {
        let want = PIECE.min(most - bytes.len());
        let count = match source.read(&mut piece[..want]) {
            Ok(count) => count,
            Err(_) => return Err(ReadStop::Fault),
        };
        if count == 0 {
            return Ok(bytes);
        }
        bytes.extend_from_slice(&piece[..count])?;
    }
    Ok(bytes)
}

/// Writes the text, piece by piece.
pub fn write_whole<K: Sink>(out: &mut K, text: &[u8]) -> Result<(), Failed>
    ensures whole { OnOk result (Appends (K.held out.old) (K.held out.new) text.now) }
    ensures front { GainsFront (K.held out.old) (K.held out.new) text.now }
    ensures less { OnErr result (GainsLess (K.held out.old) (K.held out.new) text.now) }
    ensures cause { HasCause (K.faults out.old) (K.faults out.new) result }
{
    let mut done = 0;
    while done < text.len() {
        done += out.write(&text[done..])?;
    }
    Ok(())
}
