//! The terms of polynomials, counted and listed up to a limit.
ghost use Rattle.std.specs.Prelude.{◌≡◌, ◌<◌, ◌≤◌, ◌+◌, IfNone, IfSome, IfOk, IsErrOf, OnOk};
ghost use Rattle.std.specs.Prelude.{length, map, reverse};
ghost use Rattle.std.specs.List.{All};
ghost use Rattle.node_store.specs.Stores.{Knows, Reads, family};
ghost use Rattle.set_algebra.specs.Terms.{terms_of};

use crate::counted::{WalkRefusal, count_upto, walk_upto};
use lattice::{MonoLists, Monos};
use node_store::{Handle, Store};
use std::alloc::Global;

/// The number of terms of the polynomials; None exactly where it passes `limit`.
pub fn count_terms<S: Store>(store: &mut S, polynomials: &[Handle], limit: u64) -> Option<u64>
    requires { All (Knows (S.state store.old)) polynomials.now }
    ensures reads { Reads (S.state store.old) (S.state store.new) }
    ensures count { IfSome result (λ n. n ≡ terms_of (S.state store.old) polynomials.now) }
    ensures within { IfSome result (λ n. n ≤ limit) }
    ensures over { IfNone result (limit < terms_of (S.state store.old) polynomials.now) }
{
    let mut count = 0;
    for polynomial in polynomials {
        count += count_upto(store, *polynomial, limit - count)?;
    }
    Some(count)
}

/// The terms of a polynomial, from the greatest to the least. `left` is how many terms may be
/// listed, which it lessens by those that it lists; `Over` exactly where there are more.
pub fn terms_of<S: Store>(
    alloc: Global,
    store: &mut S,
    polynomial: Handle,
    left: &mut u64,
) -> Result<Monos, WalkRefusal>
    requires { Knows (S.state store.old) polynomial }
    ensures reads { Reads (S.state store.old) (S.state store.new) }
    ensures terms { IfOk result (λ terms. terms ≡ reverse (family (S.state store.old) polynomial)) }
    ensures left { OnOk result (left.new + length (family (S.state store.old) polynomial)
        ≡ left.old) }
    ensures over { IsErrOf result WalkRefusal.Over
        → left.old < length (family (S.state store.old) polynomial) }
{
    let terms = walk_upto(alloc, store, polynomial, *left)?;
    *left -= terms.len() as u64;
    Ok(terms)
}

/// The terms of each polynomial, from the greatest to the least. `left` is how many terms all of
/// them may have, which it lessens by those that it lists; `Over` exactly where they have more.
pub fn lists_of<S: Store>(
    alloc: Global,
    store: &mut S,
    polynomials: &[Handle],
    left: &mut u64,
) -> Result<MonoLists, WalkRefusal>
    requires { All (Knows (S.state store.old)) polynomials.now }
    ensures reads { Reads (S.state store.old) (S.state store.new) }
    ensures lists { IfOk result (λ lists. map reverse lists
        ≡ map (family (S.state store.old)) polynomials.now) }
    ensures left { OnOk result (left.new + terms_of (S.state store.old) polynomials.now
        ≡ left.old) }
    ensures over { IsErrOf result WalkRefusal.Over
        → left.old < terms_of (S.state store.old) polynomials.now }
{
    let mut lists = MonoLists::new(alloc);
    for polynomial in polynomials {
        lists.push(terms_of(alloc, store, *polynomial, left)?)?;
    }
    Ok(lists)
}

/// The terms of each polynomial, from the greatest to the least; `Over` exactly where they have
/// more than `limit` terms in all.
pub fn lists_upto<S: Store>(
    alloc: Global,
    store: &mut S,
    polynomials: &[Handle],
    limit: u64,
) -> Result<MonoLists, WalkRefusal>
    requires { All (Knows (S.state store.old)) polynomials.now }
    ensures reads { Reads (S.state store.old) (S.state store.new) }
    ensures lists { IfOk result (λ lists. map reverse lists
        ≡ map (family (S.state store.old)) polynomials.now) }
    ensures within { OnOk result (terms_of (S.state store.old) polynomials.now ≤ limit) }
    ensures over { IsErrOf result WalkRefusal.Over
        → limit < terms_of (S.state store.old) polynomials.now }
{
    let mut left = limit;
    lists_of(alloc, store, polynomials, &mut left)
}
