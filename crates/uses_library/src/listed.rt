//! The least polynomial on listed points.
ghost use Rattle.std.specs.Prelude.{◌≤◌, ◌<◌, ◌^◌, ℕ, List, length, reverse, IfOk, IsErrOf};
ghost use Rattle.std.specs.List.{All};
ghost use Rattle.lattice.specs.Family.{AreDisjoint};
ghost use Rattle.lattice.specs.Interpolation.{IsLeast};
ghost use Rattle.lattice.specs.WorkingLists.{working_set};
ghost use Rattle.lattice.specs.declared.limits.TheConstants.{MAX_VARS};
ghost use Rattle.node_store.specs.AnyFamily.{every_family};

use bool_poly::Serial;
use interp_lex::least;
use lattice::Monos;
use node_store::{PlainStore, any_plan};
use set_algebra::{TermsRefusal, family_of, walk_upto};
use std::alloc::Global;

/// The store has room for 2 to this power of nodes.
const BITS: u32 = 16;

/// The monomials, from the greatest down, of the least polynomial that is 0 at the zeros and 1 at
/// the ones; `Over` where it has more than `limit`, and `Full` where the store has too few slots.
pub fn least_terms(
    alloc: Global,
    inputs: u32,
    zeros: &[u64],
    ones: &[u64],
    limit: u64,
) -> Result<Monos, TermsRefusal>
    requires inputs { (1 ≤ inputs) × (inputs ≤ MAX_VARS) }
    requires zeros { All (λ a. a < 2 ^ inputs) zeros.now }
    requires ones { All (λ a. a < 2 ^ inputs) ones.now }
    requires apart { AreDisjoint zeros.now ones.now }
    ensures least { IfOk result (λ terms. IsLeast inputs zeros.now ones.now (reverse terms)) }
    ensures over { IsErrOf result TermsRefusal.Over → (p : List ℕ)
        → IsLeast inputs zeros.now ones.now p → limit < length p }
    ensures full { IsErrOf result TermsRefusal.Full
        → 2 ^ BITS < length (working_set inputs (every_family inputs)) }
{
    let mut store = PlainStore::make(alloc, BITS, inputs, any_plan(inputs))?;
    let zeros = family_of(&mut store, inputs, zeros)?;
    let ones = family_of(&mut store, inputs, ones)?;
    let found = least(&mut store, &mut Serial, zeros, ones)?;
    Ok(walk_upto(alloc, &mut store, found, limit)?)
}
