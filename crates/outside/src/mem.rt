// A source and a sink in memory, which fail at the calls that the caller names.
ghost use Rattle.std.specs.Prelude.{◌≡◌, ◌≤◌, ◌<◌, ◌-◌, ◌==◌, ◌||◌, [], List, ℕ, length, min, take};
ghost use Rattle.std.specs.Prelude.{drop, IfOk, Some, is_err, if◌then◌else◌};
ghost use Rattle.std.specs.Io.{ReadsAtMost};
ghost use Rattle.std.specs.Io.KnownBytes.{ReadConsumes, WriteAppends};
ghost use Rattle.outside.specs.Causes.{HasCause};
ghost use Rattle.lattice.specs.Counts.{one_more};
ghost use Rattle.outside.specs.Mem.{SinkState, SourceState, is_due};

use crate::{Failed, Sink, Source};
use lattice::Memory;
use std::alloc::Global;
use std::marker::Model;

/// A source over bytes of its own.
#[derive(Drop)]
pub struct MemSource {
    bytes: Vec<u8>,
    at: usize,
    step: usize,
    fails: Vec<u64>,
    calls: u64,
    faults: u64,
}

impl Model for MemSource {
    ghost Value = { SourceState };

    ghost view = { λ s. record {
      left = drop s.at s.bytes.items;
      step = s.step;
      fails = s.fails.items;
      calls = s.calls;
      faults = s.faults;
    } };

    ghost invariant = { λ s. (s.at ≤ length s.bytes.items) × (1 ≤ s.step) };
}

// Counts a call, and answers whether it is one of those that fail.
fn count_call(calls: &mut u64, faults: &mut u64, fails: &[u64]) -> bool
    ensures due { result ≡ is_due fails.now calls.old }
    ensures calls { calls.new ≡ one_more calls.old }
    ensures faults { faults.new ≡ (if result then one_more faults.old else faults.old) }
{
    let number = match calls.checked_add(1) {
        Some(number) => number,
        None => return false,
    };
    *calls = number;
    if fails.contains(&number) {
        *faults = faults.saturating_add(1);
        return true;
    }
    false
}

impl MemSource {
    /// The bytes, at most `step` of them per call, but for the calls whose numbers are in `fails`.
    pub fn make(
        alloc: Global,
        bytes: &[u8],
        step: usize,
        fails: &[u64],
    ) -> Result<MemSource, Memory>
        requires step { 1 ≤ step }
        ensures made { IfOk result (λ s. s
            ≡ record { left = bytes.now; step = step; fails = fails.now; calls = 0; faults = 0 }) }
    {
        Ok(MemSource {
            bytes: bytes.to_vec(alloc)?,
            at: 0,
            step,
            fails: fails.to_vec(alloc)?,
            calls: 0,
            faults: 0,
        })
    }
}

impl Source for MemSource {
    ghost left = { λ s. Some s.left };

    ghost faults = { λ s. s.faults };

    fn read(&mut self, buf: &mut [u8]) -> Result<usize, Failed>
        requires room { 0 < length buf.old }
        ensures bound { ReadsAtMost result buf.new }
        ensures bytes { ReadConsumes (Some self.old.left) (Some self.new.left) result buf.new }
        ensures cause { HasCause self.old.faults self.new.faults result }
        // Exactly the calls that are due fail.
        ensures due { is_err result ≡ is_due self.old.fails self.old.calls }
        // The others give as many bytes as are left and fit, up to a step.
        ensures count { IfOk result (λ k. k
            ≡ min self.old.step (min (length self.old.left) (length buf.new))) }
        ensures state { self.new ≡ record self.old
            { left = self.new.left; faults = self.new.faults; calls = one_more self.old.calls } }
    {
        if count_call(&mut self.calls, &mut self.faults, &self.fails) {
            return Err(Failed);
        }
        let left = self.bytes.len() - self.at;
        let count = self.step.min(left.min(buf.len()));
        let end = self.at + count;
        buf[..count].copy_from_slice(&self.bytes[self.at..end]);
        self.at = end;
        Ok(count)
    }
}

/// A sink that keeps what it takes.
#[derive(Drop)]
pub struct MemSink {
    bytes: Vec<u8>,
    count: usize,
    step: usize,
    fails: Vec<u64>,
    calls: u64,
    faults: u64,
}

impl Model for MemSink {
    ghost Value = { SinkState };

    ghost view = { λ s. record {
      held = take s.count s.bytes.items;
      room = length s.bytes.items;
      step = s.step;
      fails = s.fails.items;
      calls = s.calls;
      faults = s.faults;
    } };

    ghost invariant = { λ s. (s.count ≤ length s.bytes.items) × (1 ≤ s.step) };
}

impl MemSink {
    /// Room for so many bytes, taken at most `step` per call, but for the calls whose numbers are
    /// in `fails`.
    pub fn make(alloc: Global, room: usize, step: usize, fails: &[u64]) -> Result<MemSink, Memory>
        requires step { 1 ≤ step }
        ensures made { IfOk result (λ s. s
            ≡ record {
              held = [];
              room = room;
              step = step;
              fails = fails.now;
              calls = 0;
              faults = 0;
            }) }
    {
        Ok(MemSink {
            bytes: Vec::from_elem(alloc, 0, room)?,
            count: 0,
            step,
            fails: fails.to_vec(alloc)?,
            calls: 0,
            faults: 0,
        })
    }

    /// The bytes that it holds.
    pub fn bytes(&self) -> &[u8]
        ensures held { result.now ≡ self.now.held }
    {
        &self.bytes[..self.count]
    }
}

impl Sink for MemSink {
    ghost held = { λ s. Some s.held };

    ghost faults = { λ s. s.faults };

    fn write(&mut self, piece: &[u8]) -> Result<usize, Failed>
        requires some { 0 < length piece.now }
        ensures bound { IfOk result (λ n. (1 ≤ n) × (n ≤ length piece.now)) }
        ensures bytes { WriteAppends (Some self.old.held) (Some self.new.held) result piece.now }
        ensures cause { HasCause self.old.faults self.new.faults result }
        // Exactly the calls that are due fail, and those that find no room.
        ensures due { is_err result ≡
            (is_due self.old.fails self.old.calls || length self.old.held == self.old.room) }
        ensures count { IfOk result (λ n. n
            ≡ min self.old.step (min (self.old.room - length self.old.held) (length piece.now))) }
        ensures state { self.new ≡ record self.old
            { held = self.new.held; faults = self.new.faults; calls = one_more self.old.calls } }
    {
        if count_call(&mut self.calls, &mut self.faults, &self.fails) {
            return Err(Failed);
        }
        let room = self.bytes.len() - self.count;
        if room == 0 {
            self.faults = self.faults.saturating_add(1);
            return Err(Failed);
        }
        let count = self.step.min(room.min(piece.len()));
        let end = self.count + count;
        self.bytes[self.count..end].copy_from_slice(&piece[..count]);
        self.count = end;
        Ok(count)
    }
}
