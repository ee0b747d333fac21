//! Where the cache of a table keeps results, and whose result a cache word is.
ghost use Rattle.std.specs.Prelude.{◌≡◌, ◌<◌, ◌≤◌, ◌^◌};
ghost use Rattle.lattice.specs.NodeWords.{cache_bits, key_at, result_of};
ghost use Rattle.lattice.specs.declared.limits.TheConstants.{MAX_BITS};

use lattice::{HANDLE_UNIT, KEY_BITS, MIN_CACHE_BITS, UNMIXING};
use node_store::Handle;

/// How many cache words a table of 2^bits slots has.
pub fn cache_size(bits: u32) -> usize
    requires { bits ≤ MAX_BITS }
    ensures { result ≡ 2 ^ cache_bits bits }
{
    1usize << cache_bits(bits)
}

// A cache has 2 to so many words, as the table where it has 2^12 slots or more.
fn cache_bits(bits: u32) -> u32
    ensures { result ≡ cache_bits bits }
{
    bits.max(MIN_CACHE_BITS)
}

/// The key that has this place in the cache of a table of 2^bits slots, and the quotient of the
/// word.
pub fn key_at(bits: u32, at: u32, word: u64) -> u64
    requires bits { bits ≤ MAX_BITS }
    requires at { at < 2 ^ cache_bits bits }
    ensures { result ≡ key_at (cache_bits bits) at word }
{
    let rest = KEY_BITS - cache_bits(bits);
    let mixed = (u64::from(at) << rest) + word / HANDLE_UNIT;
    mixed.wrapping_mul(UNMIXING) % (1 << KEY_BITS)
}

/// The result in a cache word.
pub fn result_of(word: u64) -> Handle
    ensures { result.0 ≡ result_of word }
{
    Handle((word % HANDLE_UNIT).saturating_sub(1) as u32)
}
