//! Reading two circuits, one behind the other, from bytes.
ghost use Rattle.std.specs.Prelude.{◌≡◌, ◌≤◌, ◌↔◌, IsTrue, MatchOption, MatchResult, length};
ghost use Rattle.aig_reader.specs.Circuit.{Circuit};
ghost use Rattle.aig_reader.specs.Reading.{circuit};
ghost use Rattle.aig_pairs.specs.Pairs.{begins, may_begin, EndsAt, IsFirstPart, IsPart, NoneBelow};
ghost use Rattle.aig_pairs.specs.Pairs.{GivesPair, ReadsPair};
ghost use Rattle.aig_pairs.specs.declared.pairs.PairRefusal.TheVariants.{Memory};

use aig_reader::{Aig, ReadRefusal, Refusal, read};
use std::alloc::Global;

/// Why bytes were not read as two circuits.
#[derive(Clone, Copy, Debug, PartialEq, Eq)]
pub enum PairRefusal {
    /// The first fault of the second circuit, or of all the bytes where nothing parts two circuits;
    /// the byte is counted from the first of all the bytes.
    Bad(Refusal),
    /// All the bytes are one circuit.
    Alone,
    /// There was no memory.
    Memory,
}

/// Whether the bytes begin as a circuit does: by the word of either form, and a space.
fn begins(bytes: &[u8]) -> bool
    ensures { result ≡ begins bytes.now }
{
    matches!(bytes, [b'a', b'i' | b'a', b'g', b' ', ..])
}

/// Whether a second circuit may begin at the place, behind other bytes.
#[tactic(auto, unfolding(crate::specs::Pairs::may_begin))]
fn may_begin(bytes: &[u8], at: usize) -> bool
    requires { at ≤ length bytes.now }
    ensures begins { result ≡ may_begin bytes.now at }
    ensures behind { IsTrue result → 1 ≤ at }
{
    at > 0 && begins(&bytes[at..])
}

/// Whether the bytes before the place, which are a circuit, end there: in a line feed, or as they
/// would be none without the last of them. What ends in neither way is cut within its comment.
fn ends_at(alloc: Global, bytes: &[u8], at: usize) -> Result<bool, PairRefusal>
    requires { (1 ≤ at) × (at ≤ length bytes.now) }
    ensures { MatchResult result (λ ends. IsTrue ends ↔ EndsAt bytes.now at) (λ e. e ≡ Memory) }
{
    if bytes[at - 1] == b'\n' {
        return Ok(true);
    }
    match read(alloc, &bytes[..at - 1]) {
        Ok(_) => Ok(false),
        Err(ReadRefusal::Bad(_)) => Ok(true),
        Err(ReadRefusal::Memory) => Err(PairRefusal::Memory),
    }
}

/// The circuit that the bytes before the place are, where a second one may begin there and they end
/// there.
fn part_at(alloc: Global, bytes: &[u8], at: usize) -> Result<Option<Aig>, PairRefusal>
    requires { at ≤ length bytes.now }
    ensures { MatchResult result (λ found. MatchOption found
        ((first : Circuit) → IsPart bytes.now at first → ⊥)
        (λ aig. IsPart bytes.now at (circuit aig))) (λ e. e ≡ Memory) }
{
    if !may_begin(bytes, at) {
        return Ok(None);
    }
    let first = match read(alloc, &bytes[..at]) {
        Ok(first) => first,
        Err(ReadRefusal::Bad(_)) => return Ok(None),
        Err(ReadRefusal::Memory) => return Err(PairRefusal::Memory),
    };
    if !ends_at(alloc, bytes, at)? {
        return Ok(None);
    }
    Ok(Some(first))
}

/// The circuit that the first part says, and where this part ends; none where nothing parts two
/// circuits.
fn first_part(alloc: Global, bytes: &[u8]) -> Result<Option<(Aig, usize)>, PairRefusal>
    ensures { MatchResult result (λ found. MatchOption found
        (NoneBelow bytes.now (length bytes.now))
        (λ part. IsFirstPart bytes.now part.1 (circuit part.0))) (λ e. e ≡ Memory) }
{
    for at in 0..bytes.len() {
        if let Some(first) = part_at(alloc, bytes, at)? {
            return Ok(Some((first, at)));
        }
    }
    Ok(None)
}

/// Why bytes in which nothing parts two circuits are not two.
fn unparted(alloc: Global, bytes: &[u8]) -> PairRefusal
    requires { NoneBelow bytes.now (length bytes.now) }
    ensures { GivesPair (Err result) (ReadsPair bytes.now) }
{
    match read(alloc, bytes) {
        Ok(_) => PairRefusal::Alone,
        Err(ReadRefusal::Bad(refusal)) => PairRefusal::Bad(refusal),
        Err(ReadRefusal::Memory) => PairRefusal::Memory,
    }
}

/// Reads two circuits, one behind the other, each in the binary or the ASCII form.
///
/// A file in the AIGER format may end in a comment of any text, so no line tells where it ends. The
/// second circuit begins at the least place where the bytes go on with `aig` or `aag` and a space,
/// and before which the bytes are a circuit that ends there: in a line feed, or with a byte without
/// which it would be none, as a gate's in the binary form. So a line of the first circuit's comment
/// that begins like this is taken for the second circuit.
///
/// `Bad` has the first fault of the second circuit, or, where there is no such place, that of all
/// the bytes, with how many of all the bytes stand before it; `Alone` says that there is no such
/// place, and all the bytes are one circuit. At each place that looks like a beginning, up to the
/// least, the bytes before it are read once: the time is that of so many readings.
pub fn read_pair(alloc: Global, bytes: &[u8]) -> Result<(Aig, Aig), PairRefusal>
    ensures { GivesPair result (ReadsPair bytes.now) }
{
    let Some((first, at)) = first_part(alloc, bytes)? else {
        return Err(unparted(alloc, bytes));
    };
    match read(alloc, &bytes[at..]) {
        Ok(second) => Ok((first, second)),
        Err(ReadRefusal::Bad(refusal)) => Err(PairRefusal::Bad(Refusal {
            byte: at + refusal.byte,
            why: refusal.why,
        })),
        Err(ReadRefusal::Memory) => Err(PairRefusal::Memory),
    }
}
