//! Where a cache keeps the result of an operation.
ghost use Rattle.std.specs.Prelude.{◌≡◌, ◌≤◌, ◌<◌, ◌*◌, ◌^◌};
ghost use Rattle.lattice.specs.NodeWords.{cache_place, quotient};
ghost use Rattle.lattice.specs.CacheWords.{number_of, key_for};
ghost use Rattle.lattice.specs.declared.limits.TheConstants.{MIN_CACHE_BITS, MAX_BITS, HANDLE_UNIT};

use lattice::{HANDLE_UNIT, KEY_BITS, MIXING, Op, TOP_UNIT};
use node_store::Handle;

/// The place of a key in a cache, and what all its words have there: the quotient, above the
/// result.
#[derive(Clone, Copy)]
pub struct Slot {
    pub place: usize,
    pub base: u64,
}

// The bits of a word that a key leaves free.
const SPARE_BITS: u32 = 64 - KEY_BITS;

// The number of an operation.
fn number(op: Op) -> u64
    ensures { result ≡ number_of op }
{
    op as u64
}

// The key of an operation on its operands.
fn key(op: Op, a: Handle, b: u32) -> u64
    requires a { a.0 < HANDLE_UNIT }
    requires b { b < HANDLE_UNIT }
    ensures key { result ≡ key_for op a.0 b }
{
    number(op) * TOP_UNIT + u64::from(a.0) * HANDLE_UNIT + u64::from(b)
}

/// Where a cache of 2^cache_bits words keeps the result of the operation on its operands.
pub fn slot_of(cache_bits: u32, op: Op, a: Handle, b: u32) -> Slot
    requires low { MIN_CACHE_BITS ≤ cache_bits }
    requires high { cache_bits ≤ MAX_BITS }
    requires a { a.0 < HANDLE_UNIT }
    requires b { b < HANDLE_UNIT }
    ensures place { result.place ≡ cache_place cache_bits (key_for op a.0 b) }
    ensures inside { result.place < 2 ^ cache_bits }
    ensures base { result.base ≡ quotient cache_bits (key_for op a.0 b) * HANDLE_UNIT }
{
    // The mixing of the key stands in the upper bits, so that shifts alone cut it.
    let mixed = key(op, a, b).wrapping_mul(MIXING) << SPARE_BITS;
    Slot {
        place: (mixed >> (64 - cache_bits)) as usize,
        base: (mixed << cache_bits >> cache_bits) * (HANDLE_UNIT >> SPARE_BITS),
    }
}
