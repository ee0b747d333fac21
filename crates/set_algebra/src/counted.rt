//! Members counted and listed, up to a limit.
ghost use Rattle.std.specs.Prelude.{◌≡◌, ◌<◌, ◌≤◌, ◌+◌, ◌^◌, ◌++◌, length, map, reverse, IfSome};
ghost use Rattle.std.specs.Prelude.{IfNone, IfOk, OnOk, IsErrOf};
ghost use Rattle.lattice.specs.Cofactors.{level};
ghost use Rattle.node_store.specs.Stores.{Knows, family, Reads};

use crate::halves::split;
use lattice::{Memory, Mono, Monos};
use node_store::{Handle, Store};
use std::alloc::{AllocFailed, Global};
use thiserror::Error;

/// Why members were not listed.
#[derive(Clone, Copy, PartialEq, Eq, Debug, Error)]
pub enum WalkRefusal {
    #[error("there are more members than the limit")]
    Over,
    #[error("out of memory")]
    Memory,
}

impl From<Memory> for WalkRefusal {
    ghost use Rattle.set_algebra.specs.declared.counted.WalkRefusal.TheVariants as refusals;

    ghost from_gives = { λ _ e. e ≡ refusals.Memory };

    fn from(_e: Memory) -> WalkRefusal {
        WalkRefusal::Memory
    }
}

impl<T: Drop> From<AllocFailed<T>> for WalkRefusal {
    ghost use Rattle.set_algebra.specs.declared.counted.WalkRefusal.TheVariants as refusals;

    ghost from_gives = { λ _ e. e ≡ refusals.Memory };

    fn from(_e: AllocFailed<T>) -> WalkRefusal {
        WalkRefusal::Memory
    }
}

/// The number of members; None exactly where it passes `limit`. It counts no more than one member
/// past the limit.
pub fn count_upto<S: Store>(store: &mut S, a: Handle, limit: u64) -> Option<u64>
    requires { Knows (S.state store.old) a }
    ensures reads { Reads (S.state store.old) (S.state store.new) }
    ensures count { IfSome result (λ n. n ≡ length (family (S.state store.old) a)) }
    ensures within { IfSome result (λ n. n ≤ limit) }
    ensures over { IfNone result (limit < length (family (S.state store.old) a)) }
{
    match split(store, a) {
        None => {
            let count = if a.0 == 0 { 0 } else { 1 };
            if count <= limit { Some(count) } else { None }
        }
        Some(h) => {
            let low = count_upto(store, h.low, limit)?;
            let high = count_upto(store, h.high, limit - low)?;
            Some(low + high)
        }
    }
}

/// Adds the members, each with `base` more, from the greatest to the least, while there are at most
/// `limit`.
fn walk_into<S: Store>(
    store: &mut S,
    a: Handle,
    base: u64,
    limit: u64,
    into: &mut Monos,
) -> Result<(), WalkRefusal>
    requires known { Knows (S.state store.old) a }
    requires base { let s = S.state store.old in base + 2 ^ level s.vars (family s a) ≤ 2 ^ 63 }
    requires within { length into.old ≤ limit }
    ensures reads { Reads (S.state store.old) (S.state store.new) }
    ensures members { OnOk result
        (into.new ≡ into.old ++ map (λ m. base + m) (reverse (family (S.state store.old) a))) }
    ensures within { OnOk result (length into.new ≤ limit) }
    ensures over { IsErrOf result WalkRefusal.Over
        → limit < length into.old + length (family (S.state store.old) a) }
{
    match split(store, a) {
        None => {
            if a.0 == 0 {
                return Ok(());
            }
            if into.len() as u64 == limit {
                return Err(WalkRefusal::Over);
            }
            into.push(Mono(base))?;
            Ok(())
        }
        Some(h) => {
            walk_into(store, h.high, base + h.weight, limit, into)?;
            walk_into(store, h.low, base, limit, into)
        }
    }
}

/// The members from the greatest to the least; `Over` exactly where there are more than `limit`. It
/// takes no memory for members past the limit. After `Memory` the store knows all that it knew.
pub fn walk_upto<S: Store>(
    alloc: Global,
    store: &mut S,
    a: Handle,
    limit: u64,
) -> Result<Monos, WalkRefusal>
    requires { Knows (S.state store.old) a }
    ensures reads { Reads (S.state store.old) (S.state store.new) }
    ensures members { IfOk result (λ ms. ms ≡ reverse (family (S.state store.old) a)) }
    ensures within { OnOk result (length (family (S.state store.old) a) ≤ limit) }
    ensures over { IsErrOf result WalkRefusal.Over → limit < length (family (S.state store.old) a) }
{
    let mut members = Monos::new(alloc);
    walk_into(store, a, 0, limit, &mut members)?;
    Ok(members)
}
