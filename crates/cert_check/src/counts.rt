//! How many of given monomials divide each point, for all points at once.
ghost use Rattle.std.specs.Prelude.{◌≡◌, ◌+◌, ◌-◌, ◌^◌, ◌<◌, ◌≤◌, List, ℕ, length, slice_index};
ghost use Rattle.std.specs.Prelude.{IfOk, All};
ghost use Rattle.lattice.specs.Family.{family_where, has};
ghost use Rattle.cert_check.specs.Marks.{marked, CountsDivisors};

use lattice::Mono;
use std::alloc::{AllocError, Global};

/// Adds to each number the other one of the same place.
fn add_each(numbers: &mut [u16], others: &[u16])
    requires size { length others.now ≡ length numbers.old }
    requires fits { (k : ℕ) → k < length others.now
        → slice_index numbers.old k + slice_index others.now k < 2 ^ 16 }
    ensures { (k : ℕ) → k < length others.now
        → slice_index numbers.new k ≡ slice_index numbers.old k + slice_index others.now k }
{
    for i in 0..others.len() {
        numbers[i] += others[i];
    }
}

/// Puts in place of the mark of each monomial, which is 0 or 1, the number of the marked monomials
/// that divide it as a point.
fn count_divisors(table: &mut [u16], variables: u32)
    requires few { variables ≤ 14 }
    requires size { length table.old ≡ 2 ^ variables }
    requires marks { All (λ mark. mark ≤ 1) table.old }
    ensures { CountsDivisors variables (marked variables table.old) table.new }
{
    if variables == 0 {
        return;
    }
    let half = 1 << (variables - 1);
    let (without, with) = table.split_at_mut(half);
    count_divisors(without, variables - 1);
    count_divisors(with, variables - 1);
    add_each(with, without);
}

/// The table of the points over so many inputs in which the monomials are marked by 1.
#[tactic(auto, using(crate::proofs::Marked::marks_nothing, crate::proofs::Marked::marks_more, crate::proofs::Marked::marks_small, crate::proofs::Marked::marked_is, std::proofs::lemmas::List::take_all, lattice::proofs::Diagrams::weight_is))]
fn marks_of(alloc: Global, inputs: u32, monomials: &[Mono]) -> Result<Vec<u16>, AllocError>
    requires few { inputs ≤ 14 }
    requires below { All (λ m. m < 2 ^ inputs) monomials.now }
    ensures size { IfOk result (λ table. length table.items ≡ 2 ^ inputs) }
    ensures marks { IfOk result (λ table. All (λ mark. mark ≤ 1) table.items) }
    ensures marked { IfOk result (λ table. marked inputs table.items
        ≡ family_where inputs (has monomials.now)) }
{
    let mut table = vec![in alloc; 0u16; 1usize << inputs]?;
    for m in monomials {
        table[m.0 as usize] = 1;
    }
    Ok(table)
}

/// For each point over so many inputs, how many of the monomials divide it, each counted once.
pub(crate) fn counts_of(
    alloc: Global,
    inputs: u32,
    monomials: &[Mono],
) -> Result<Vec<u16>, AllocError>
    requires few { inputs ≤ 14 }
    requires below { All (λ m. m < 2 ^ inputs) monomials.now }
    ensures { IfOk result (λ counts. CountsDivisors inputs (family_where inputs (has monomials.now))
        counts.items) }
{
    let mut table = marks_of(alloc, inputs, monomials)?;
    count_divisors(&mut table, inputs);
    Ok(table)
}
