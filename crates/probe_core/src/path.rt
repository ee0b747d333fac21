//! Where a table looks for a node's word.
ghost use Rattle.std.specs.Prelude.{◌≡◌, ◌<◌, ◌≤◌, ◌^◌, ◌↔◌, IsTrue};
ghost use Rattle.lattice.specs.NodeWords.{mixed, stride, line_at, place};
ghost use Rattle.lattice.specs.declared.limits.TheConstants.{MIN_BITS, MAX_BITS};
ghost use Rattle.probe_core.specs.Events.{HasPassed, HasProbed};

use lattice::{Entry, LINE, MIXING};

/// The place to which the word's probe path comes after so many steps, in a table of 2^bits places.
/// The path goes round the line where it starts, and then round one line after the other.
pub fn probe_place(bits: u32, word: u64, steps: usize) -> usize
    requires bits { (MIN_BITS ≤ bits) × (bits ≤ MAX_BITS) }
    requires steps { steps < 2 ^ bits }
    ensures place { result ≡ place bits word steps }
    ensures inside { result < 2 ^ bits }
{
    line_at(bits, word, steps) * LINE + (start(bits, word) + steps) % LINE
}

// The place where the word's path starts.
fn start(bits: u32, word: u64) -> usize
    requires { (MIN_BITS ≤ bits) × (bits ≤ MAX_BITS) }
    ensures is { result ≡ mixed bits word }
    ensures inside { result < 2 ^ bits }
{
    (word.wrapping_mul(MIXING) >> (64 - bits)) as usize
}

// By how many lines the word's path goes on from one line to the next.
fn stride(word: u64) -> usize
    ensures is { result ≡ stride word }
    ensures small { result < 2 ^ 21 }
{
    2 * (word.wrapping_mul(MIXING) / (1 << 20) % (1 << 20)) as usize + 1
}

// The line to which the path comes after so many steps.
fn line_at(bits: u32, word: u64, steps: usize) -> usize
    requires bits { (MIN_BITS ≤ bits) × (bits ≤ MAX_BITS) }
    requires steps { steps < 2 ^ bits }
    ensures { result ≡ line_at bits word steps }
{
    let first = start(bits, word) / LINE;
    // (most words stand in their first line, which is found without the stride)
    if steps < LINE {
        return first;
    }
    let lines = (1usize << bits) / LINE;
    (first + steps / LINE * stride(word)) % lines
}

/// Whether the place is on the word's probe path, and each place before it there was met with
/// another word.
pub fn has_probed(bits: u32, met: &[Entry], at: u32, word: u64) -> bool
    requires { (MIN_BITS ≤ bits) × (bits ≤ MAX_BITS) }
    ensures { IsTrue result ↔ HasProbed bits met.now at word }
{
    for steps in 0..1usize << bits {
        let here = probe_place(bits, word, steps);
        if here == at as usize {
            return true;
        }
        if !has_passed(met, here, word) {
            return false;
        }
    }
    false
}

// Whether the place was met with another word.
fn has_passed(met: &[Entry], at: usize, word: u64) -> bool
    requires { at < 2 ^ MAX_BITS }
    ensures { IsTrue result ↔ HasPassed met.now at word }
{
    let slot = at as u64 + 2;
    met.iter().any(|entry| {
        matches!(entry, Entry::Met { handle, word: other }
            if *handle == slot && *other != word)
    })
}
