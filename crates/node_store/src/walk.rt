//! Calls over any store.
ghost use Rattle.std.specs.Prelude.{◌≡◌, ◌≢◌, ◌<◌, ◌≤◌, ◌-◌, ◌↔◌, suc, IsNone, IfSome};
ghost use Rattle.lattice.specs.Family.{IsFamily, Has};
ghost use Rattle.lattice.specs.Cofactors.{level, join, low_cofactor, high_cofactor};
ghost use Rattle.node_store.specs.Stores.{Knows, Denotes, family, AreParts, ArePartsOf, Reads};
ghost use Rattle.node_store.specs.Stores.{Builds};

use crate::store::{Full, Handle, Node, Store};

/// The least variable in a member of `a`; None exactly for the two constants.
pub fn first_var<S: Store>(store: &mut S, a: Handle) -> Option<u32>
    requires { Knows (S.state store.old) a }
    ensures reads { Reads (S.state store.old) (S.state store.new) }
    ensures constant { IsNone result ↔ (a.0 < 2) }
    ensures range { IfSome result (λ x. (1 ≤ x) × (x ≤ (S.state store.old).vars)) }
    ensures level { IfSome result
        (λ x. level (S.state store.old).vars (family (S.state store.old) a)
        ≡ suc ((S.state store.old).vars - x)) }
{
    let n = store.node(a)?;
    Some(n.var)
}

/// The handle of the members of `lo`, and those of `hi` with variable `var` put in: `lo` itself
/// where `hi` is empty.
pub fn grow<S: Store>(store: &mut S, var: u32, lo: Handle, hi: Handle) -> Result<Handle, Full>
    requires parts { AreParts (S.state store.old) var lo hi }
    requires planned { let s = S.state store.old in hi.0 ≢ 0
        → Has s.plan (join (s.vars - var) (family s lo) (family s hi)) }
    ensures { let s = S.state store.old in
        Builds s (S.state store.new) result (join (s.vars - var) (family s lo) (family s hi)) }
{
    if hi.0 == 0 {
        return Ok(lo);
    }
    store.intern(&Node { var, lo, hi })
}

/// The members of `a` without the variable, and those with it, with it taken away. No variable of
/// `a` comes before it.
pub fn parts<S: Store>(store: &mut S, a: Handle, var: u32) -> (Handle, Handle)
    requires known { Knows (S.state store.old) a }
    requires first { 1 ≤ var }
    requires last { var ≤ (S.state store.old).vars }
    requires after { IsFamily (suc ((S.state store.old).vars - var))
        (family (S.state store.old) a) }
    ensures reads { Reads (S.state store.old) (S.state store.new) }
    ensures without { let s = S.state store.old in
        Denotes (S.state store.new) result.0 (low_cofactor (s.vars - var) (family s a)) }
    ensures with_var { let s = S.state store.old in
        Denotes (S.state store.new) result.1 (high_cofactor (s.vars - var) (family s a)) }
{
    let node = store.node(a);
    parts_of(a, node, var)
}

/// What `parts` gives of `a`, where its node was asked for already.
pub fn parts_of(a: Handle, node: Option<Node>, var: u32) -> (Handle, Handle)
    ensures { ArePartsOf a node var result.0 result.1 }
{
    match node {
        Some(n) if n.var == var => (n.lo, n.hi),
        _ => (a, Handle(0)),
    }
}
