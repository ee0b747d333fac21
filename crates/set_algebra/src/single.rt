//! The family of all numbers, the family of one, and whether a number is a member.
ghost use Rattle.std.specs.Prelude.{◌≡◌, ◌<◌, ◌≤◌, ◌-◌, ◌^◌, [], ◌∷◌};
ghost use Rattle.lattice.specs.Family.{has, power};
ghost use Rattle.node_store.specs.Stores.{Knows, family, IsPlanned, Reads, Builds};

use crate::halves::split;
use lattice::Mono;
use node_store::{Full, Handle, Store, grow};

/// All numbers over the `count` variables of least weight.
fn power_below<S: Store>(store: &mut S, count: u32) -> Result<Handle, Full>
    requires count { count ≤ (S.state store.old).vars }
    requires planned { IsPlanned (S.state store.old) (power count) }
    ensures { Builds (S.state store.old) (S.state store.new) result (power count) }
{
    if count == 0 {
        return Ok(Handle(1));
    }
    let rest = power_below(store, count - 1)?;
    let var = store.vars() - (count - 1);
    grow(store, var, rest, rest)
}

/// All numbers below 2^vars.
pub fn power<S: Store>(store: &mut S) -> Result<Handle, Full>
    requires planned { let s = S.state store.old in IsPlanned s (power s.vars) }
    ensures { let s = S.state store.old in Builds s (S.state store.new) result (power s.vars) }
{
    let vars = store.vars();
    power_below(store, vars)
}

/// The family whose one member is `m`, over the `count` variables of least weight.
fn one_below<S: Store>(store: &mut S, m: u64, count: u32) -> Result<Handle, Full>
    requires count { count ≤ (S.state store.old).vars }
    requires below { m < 2 ^ count }
    requires planned { IsPlanned (S.state store.old) (m ∷ []) }
    ensures { Builds (S.state store.old) (S.state store.new) result (m ∷ []) }
{
    if m == 0 {
        return Ok(Handle(1));
    }
    let rest = count - 1;
    let weight = 1u64 << rest;
    if m < weight {
        return one_below(store, m, rest);
    }
    let high = one_below(store, m - weight, rest)?;
    let var = store.vars() - rest;
    grow(store, var, Handle(0), high)
}

/// The family whose one member is `m`.
pub fn one<S: Store>(store: &mut S, m: Mono) -> Result<Handle, Full>
    requires below { m < 2 ^ (S.state store.old).vars }
    requires planned { IsPlanned (S.state store.old) (m ∷ []) }
    ensures { Builds (S.state store.old) (S.state store.new) result (m ∷ []) }
{
    let vars = store.vars();
    one_below(store, m.0, vars)
}

/// Whether the number is a member.
fn holds<S: Store>(store: &mut S, a: Handle, m: u64) -> bool
    requires { Knows (S.state store.old) a }
    ensures reads { Reads (S.state store.old) (S.state store.new) }
    ensures value { result ≡ has (family (S.state store.old) a) m }
{
    match split(store, a) {
        None => a.0 != 0 && m == 0,
        Some(h) => {
            if m < h.weight {
                holds(store, h.low, m)
            } else {
                holds(store, h.high, m - h.weight)
            }
        }
    }
}

/// Whether `m` is a member.
pub fn contains<S: Store>(store: &mut S, a: Handle, m: Mono) -> bool
    requires { Knows (S.state store.old) a }
    ensures reads { Reads (S.state store.old) (S.state store.new) }
    ensures value { result ≡ has (family (S.state store.old) a) m }
{
    holds(store, a, m.0)
}
