//! The points over one variable fewer.
ghost use Rattle.lattice.specs.Family.{Covers};
ghost use Rattle.lattice.specs.WorkingLists.{working_set};
ghost use Rattle.node_store.specs.Stores.{Knows, family, Gives};
ghost use Rattle.interp_lex.specs.Parts.{common_of, common_list, replaced_of, replaced_list};
ghost use Rattle.interp_lex.specs.Parts.{upper_list, lower_list, lower_of, AreKnown};
ghost use Rattle.set_algebra.specs.GivenPoints.{GivesPoints};

use bool_poly::SetOps;
use node_store::{Full, Handle, Store};
use set_algebra::{Cofactors, ValuedPoints};

/// The members of both `a` and `b`, and those of both `c` and `d`.
fn common<S: Store, O: SetOps<S>>(
    store: &mut S,
    ops: &mut O,
    a: Handle,
    b: Handle,
    c: Handle,
    d: Handle,
) -> Result<Handle, Full>
    requires a { Knows (S.state store.old) a }
    requires b { Knows (S.state store.old) b }
    requires c { Knows (S.state store.old) c }
    requires d { Knows (S.state store.old) d }
    requires planned { let s = S.state store.old in
        Covers s.plan (working_set s.vars
        (common_list s.vars (family s a) (family s b) (family s c) (family s d))) }
    requires ready { O.ready ops.old }
    ensures result { let s = S.state store.old in
        Gives s (S.state store.new) result
        (common_of s.vars (family s a) (family s b) (family s c) (family s d))
        (working_set s.vars (common_list s.vars (family s a) (family s b) (family s c)
        (family s d))) }
    ensures ready { O.ready ops.new }
{
    let first = ops.inter(store, a, b)?;
    let second = ops.inter(store, c, d)?;
    ops.union(store, first, second)
}

/// The members of `low` and `added`, and those of `high` that are not in `removed`.
fn replaced<S: Store, O: SetOps<S>>(
    store: &mut S,
    ops: &mut O,
    low: Handle,
    added: Handle,
    high: Handle,
    removed: Handle,
) -> Result<Handle, Full>
    requires known { let s = S.state store.old in Knows s low × Knows s added × Knows s high
        × Knows s removed }
    requires planned { let s = S.state store.old in
        Covers s.plan (working_set s.vars
        (replaced_list s.vars (family s low) (family s added) (family s high) (family s removed))) }
    requires ready { O.ready ops.old }
    ensures result { let s = S.state store.old in
        Gives s (S.state store.new) result
        (replaced_of s.vars (family s low) (family s added) (family s high) (family s removed))
        (working_set s.vars (replaced_list s.vars (family s low) (family s added) (family s high)
        (family s removed))) }
    ensures ready { O.ready ops.new }
{
    let first = ops.union(store, low, added)?;
    let second = ops.minus(store, high, removed)?;
    ops.union(store, first, second)
}

/// The points at which the part with the variable is fixed: those that are given both with and
/// without it.
pub fn upper_part<S: Store, O: SetOps<S>>(
    store: &mut S,
    ops: &mut O,
    c: Cofactors,
) -> Result<ValuedPoints, Full>
    requires known { AreKnown (S.state store.old) c }
    requires planned { let s = S.state store.old in
        Covers s.plan (working_set s.vars
        (upper_list s.vars (family s c.a_low) (family s c.a_high) (family s c.b_low)
        (family s c.b_high))) }
    requires ready { O.ready ops.old }
    ensures result { let s = S.state store.old in
        GivesPoints s (S.state store.new) result
        (common_of s.vars (family s c.a_low) (family s c.a_high) (family s c.b_low)
        (family s c.b_high)) (common_of s.vars (family s c.a_low) (family s c.b_high)
        (family s c.b_low) (family s c.a_high))
        (working_set s.vars (upper_list s.vars (family s c.a_low) (family s c.a_high)
        (family s c.b_low) (family s c.b_high))) }
    ensures ready { O.ready ops.new }
{
    let zeros = common(store, ops, c.a_low, c.a_high, c.b_low, c.b_high)?;
    let ones = common(store, ops, c.a_low, c.b_high, c.b_low, c.a_high)?;
    Ok(ValuedPoints { zeros, ones })
}

/// The points at which the part without the variable is fixed, for the part `h` with it.
pub fn lower_part<S: Store, O: SetOps<S>>(
    store: &mut S,
    ops: &mut O,
    c: Cofactors,
    h: Handle,
) -> Result<ValuedPoints, Full>
    requires known { AreKnown (S.state store.old) c }
    requires h { Knows (S.state store.old) h }
    requires planned { let s = S.state store.old in
        Covers s.plan (working_set s.vars
        (lower_list s.vars (family s h) (family s c.a_low) (family s c.a_high) (family s c.b_low)
        (family s c.b_high))) }
    requires ready { O.ready ops.old }
    ensures result { let s = S.state store.old in
        GivesPoints s (S.state store.new) result
        (lower_of s.vars (family s h) (family s c.a_low) (family s c.a_high) (family s c.b_high))
        (lower_of s.vars (family s h) (family s c.b_low) (family s c.b_high) (family s c.a_high))
        (working_set s.vars (lower_list s.vars (family s h) (family s c.a_low) (family s c.a_high)
        (family s c.b_low) (family s c.b_high))) }
    ensures ready { O.ready ops.new }
{
    let zeros_at_one = ops.ones_of(store, h, c.a_high)?;
    let ones_at_one = ops.ones_of(store, h, c.b_high)?;
    let zeros = replaced(store, ops, c.a_low, ones_at_one, c.a_high, zeros_at_one)?;
    let ones = replaced(store, ops, c.b_low, zeros_at_one, c.b_high, ones_at_one)?;
    Ok(ValuedPoints { zeros, ones })
}
