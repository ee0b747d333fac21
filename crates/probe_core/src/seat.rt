//! What a seat has met and knows.
ghost use Rattle.std.specs.Prelude.{◌≡◌, ◌+◌, ◌<◌, ◌≤◌, ◌^◌, vec_len, IfOk, OnOk, OnErr};
ghost use Rattle.std.specs.Vec.{vec_capacity};
ghost use Rattle.lattice.specs.declared.limits.TheConstants.{MAX_BITS};
ghost use Rattle.lattice.specs.NodeWords.{lo_of, hi_of};
ghost use Rattle.probe_core.specs.Machines.{SeatState};
ghost use Rattle.probe_core.specs.Seats.{knows, knows_key, learned, taught, united, met_more};
ghost use Rattle.probe_core.specs.Seats.{told_more, first_seat, twin, joined, ended};

use lattice::{Entry, HANDLE_UNIT, Memory, Op, TOP_UNIT};
use node_store::Handle;
use std::alloc::Global;
use std::marker::Model;

/// A seat: whether it lives, the slots that it has met with their words, and the handles that it
/// knows.
#[derive(Drop)]
pub struct Seat {
    pub live: bool,
    pub met: Vec<Entry>,
    pub known: Vec<Handle>,
}

impl Model for Seat {
    ghost Value = { SeatState };

    ghost view = { λ s. record { live = s.live; met = s.met.items; known = s.known.items } };
}

impl Seat {
    /// The first seat of a machine, which knows the two constants.
    pub fn first(alloc: Global) -> Result<Seat, Memory>
        ensures { IfOk result (λ s. s ≡ first_seat) }
    {
        let known = Vec::from_slice(alloc, &[Handle(0), Handle(1)])?;
        Ok(Seat {
            live: true,
            met: Vec::new(alloc),
            known,
        })
    }

    /// A seat that knows what this one knows, with a history of its own.
    pub fn twin(&self) -> Result<Seat, Memory>
        ensures { IfOk result (λ s. s ≡ twin self.now) }
    {
        let alloc = *self.known.allocator();
        let known = Vec::from_slice(alloc, self.known.as_slice())?;
        Ok(Seat {
            live: true,
            met: Vec::new(alloc),
            known,
        })
    }

    /// A seat that knows what both know, and has both histories.
    pub fn joined(&self, other: &Seat) -> Result<Seat, Memory>
        ensures { IfOk result (λ s. s ≡ joined self.now other.now) }
    {
        let alloc = *self.known.allocator();
        let mut met = Vec::from_slice(alloc, self.met.as_slice())?;
        met.extend_from_slice(other.met.as_slice())?;
        let mut known = Vec::from_slice(alloc, self.known.as_slice())?;
        unite(&mut known, other.known.as_slice())?;
        Ok(Seat {
            live: self.live,
            met,
            known,
        })
    }

    /// The seat meets the slot of a place with its word, and learns what it teaches. After Memory
    /// it is as before.
    pub fn meet(&mut self, at: u32, word: u64) -> Result<(), Memory>
        requires { at < 2 ^ MAX_BITS }
        ensures ok { OnOk result (self.new ≡ met_more self.old at word) }
        ensures err { OnErr result (self.new ≡ self.old) }
    {
        self.known.reserve(2)?;
        self.met.push(Entry::Met {
            handle: at as u64 + 2,
            word,
        })?;
        teach(&mut self.known, Handle(at + 2), word);
        Ok(())
    }

    /// The seat sees the result of a key, and learns it where it knows the handles of the key.
    /// After Memory it is as before.
    pub fn see(&mut self, key: u64, found: Handle) -> Result<(), Memory>
        ensures ok { OnOk result (self.new ≡ told_more self.old key found.0) }
        ensures err { OnErr result (self.new ≡ self.old) }
    {
        self.known.reserve(1)?;
        if knows_key(self.known.as_slice(), key) {
            learn(&mut self.known, found);
        }
        Ok(())
    }

    /// The seat ends.
    pub fn end(&mut self)
        ensures { self.new ≡ ended self.old }
    {
        self.live = false;
    }
}

/// Whether the handle is among the known ones.
pub fn is_known(known: &[Handle], h: Handle) -> bool
    ensures { result ≡ knows known.now h.0 }
{
    known.iter().any(|k| k.0 == h.0)
}

/// The handles of the low and the high child in a node's word.
pub fn children(word: u64) -> (Handle, Handle)
    ensures low { result.0.0 ≡ lo_of word }
    ensures high { result.1.0 ≡ hi_of word }
{
    let low = word / HANDLE_UNIT % HANDLE_UNIT;
    let high = word % HANDLE_UNIT;
    (Handle(low as u32), Handle(high as u32))
}

// Whether the handles of a key are known. The second operand is a family for the operations up to
// Least, and else none.
fn knows_key(known: &[Handle], key: u64) -> bool
    ensures { result ≡ knows_key known.now key }
{
    let (first, second) = children(key);
    is_known(known, first) && (key / TOP_UNIT > Op::Least as u64 || is_known(known, second))
}

// Puts the handle among the known ones, where there is room for it.
fn learn(known: &mut Vec<Handle>, h: Handle)
    requires { vec_len known.old < vec_capacity known.old }
    ensures known { known.new.items ≡ learned known.old.items h.0 }
    ensures len { vec_len known.new ≤ vec_len known.old + 1 }
    ensures capacity { vec_capacity known.old ≤ vec_capacity known.new }
{
    if !is_known(known.as_slice(), h) {
        known.push(h).unwrap();
    }
}

// Puts what a slot teaches by its word among the known handles, where there is room for two.
fn teach(known: &mut Vec<Handle>, slot: Handle, word: u64)
    requires { vec_len known.old + 2 ≤ vec_capacity known.old }
    ensures { known.new.items ≡ taught known.old.items slot.0 word }
{
    let (low, high) = children(word);
    if is_known(known.as_slice(), slot) {
        learn(known, low);
        learn(known, high);
    } else if is_known(known.as_slice(), low) && is_known(known.as_slice(), high) {
        learn(known, slot);
    }
}

// Puts the handles of another list among the known ones.
fn unite(known: &mut Vec<Handle>, others: &[Handle]) -> Result<(), Memory>
    ensures { OnOk result (known.new.items ≡ united known.old.items others.now) }
{
    for h in others {
        if !is_known(known.as_slice(), *h) {
            known.push(*h)?;
        }
    }
    Ok(())
}
