//! Descriptions made from a seed.
#![tactic(auto)]

ghost use Rattle.std.specs.Prelude.{◌≡◌, ◌<◌, ◌*◌, ◌^◌, IfOk};
ghost use Rattle.lattice.specs.Family.{divides};
ghost use Rattle.gen_pla.specs.Generated.{point, pairs, outputs_at, generated, generated_row};
ghost use Rattle.gen_pla.specs.Generated.{generated_rows};
ghost use Rattle.pla_reader.specs.Reading.{description};
ghost use Rattle.lattice.specs.Rows.{IsConsistent};

use lattice::{Kind, Memory, Names, Row};
use pla_reader::{Pla, Rows};
use std::alloc::Global;

// The number of rows.
const ROWS: u32 = 256;

// The mask of the 16 inputs.
const CARE: u64 = 0xffff;

// The point of row k: the points are those of an arithmetic progression by 2^16.
#[tactic(auto, unfolding(crate::specs::Generated::point))]
fn point(seed: u64, k: u32) -> u64
    requires { k < ROWS }
    ensures { result ≡ point seed k }
{
    // The step is odd, so that the points differ.
    let step = 2 * (seed % 32768) + 1;
    let first = seed / 32768 % 65536;
    (step * k as u64 + first) % 65536
}

// Whether bit i and bit i + 1 are both set.
#[tactic(auto, using(crate::proofs::Progression::pair_set))]
fn has_pair(value: u64, i: u32) -> bool
    requires { i < 15 }
    ensures { result ≡ divides (3 * 2 ^ i) value }
{
    let pair = 3u64 << i;
    value & pair == pair
}

// How many pairs of neighbouring bits are both set, among bits 0 to 15.
#[tactic(auto, using(crate::proofs::Progression::pair_rules))]
fn pairs(value: u64) -> u64
    ensures { result ≡ pairs value 15 }
{
    let mut pairs = 0u64;
    for i in 0..15u32 {
        pairs += has_pair(value, i) as u64;
    }
    pairs
}

// The outputs that have the value 1 at the point, output j by the bit j - 1.
#[tactic(auto, unfolding(crate::specs::Generated::outputs_at))]
fn outputs_at(value: u64) -> u64
    ensures is { result ≡ outputs_at value }
    ensures few { result < 4 }
{
    value.count_ones() as u64 % 2 + 2 * (pairs(value) % 2)
}

// Row k.
#[tactic(auto, unfolding(crate::specs::Generated::generated_row))]
fn generated_row(seed: u64, k: u32) -> Row
    requires { k < ROWS }
    ensures { result ≡ generated_row seed k }
{
    let value = point(seed, k);
    let on = outputs_at(value);
    Row {
        line: k + 1,
        care: CARE,
        value,
        on,
        off: 3 - on,
        dc: 0,
    }
}

/// The description that the seed makes, of any seed: 16 inputs, 2 outputs, the type fr, no names,
/// and 256 rows that fix one point each, of an arithmetic progression by 2^16 with an odd step.
/// Output 1 is 1 where the point has an odd number of bits set, and output 2 where an odd number of
/// pairs of neighbouring bits are both set.
#[tactic(auto, using(crate::proofs::Progression::row_rules))]
pub fn generate(alloc: Global, seed: u64) -> Result<Pla, Memory>
    ensures file { IfOk result (λ p. description p ≡ generated seed) }

    // Its rows do not contradict each other.
    ensures consistent { IsConsistent 16 2 (generated_rows seed 256) }
{
    let mut rows = Vec::with_capacity(alloc, ROWS as usize)?;
    for k in 0..ROWS {
        rows.push(generated_row(seed, k))?;
    }
    Ok(Pla {
        inputs: 16,
        outputs: 2,
        kind: Kind::Fr,
        rows: Rows::from_vec(rows),
        in_names: Names::new(alloc),
        out_names: Names::new(alloc),
    })
}
