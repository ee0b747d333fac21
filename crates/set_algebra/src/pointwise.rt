//! The operations that tell for each number alone whether it is in the result.
ghost use Rattle.std.specs.Prelude.{◌≡◌, ◌≤◌, ◌⊎◌, ◌-◌, IfSome, IfNone, Ok, true, false, cond, []};
ghost use Rattle.lattice.specs.Family.{combine, union_of, inter_of, minus_of, sum_of};
ghost use Rattle.lattice.specs.Cofactors.{low_cofactor, high_cofactor};
ghost use Rattle.lattice.specs.Operations.{test_of, is_pointwise};
ghost use Rattle.node_store.specs.Stores.{State, Knows, Denotes, family, IsPlanned, Reads, Builds};
ghost use Rattle.node_store.specs.Stores.{IsSound};
ghost use Rattle.set_algebra.specs.Pairs.{AreInOrder, AreCofactors, IsCutAt, Asks};
ghost use Rattle.set_algebra.specs.Begins.{IfDone, IfHalves};

use crate::operations::{Inter, Minus, Pointwise, Union, Xor};
use crate::pairs::{Cofactors, cut};
use lattice::Op;
use node_store::{Full, Handle, Store, grow};

/// Whether what is in both operands is in the result.
fn keeps_both(op: Op) -> bool
    ensures { result ≡ test_of op true true }
{
    matches!(op, Op::Union | Op::Inter)
}

/// Whether what is in the first operand alone is in the result.
fn keeps_first(op: Op) -> bool
    ensures { result ≡ test_of op true false }
{
    matches!(op, Op::Union | Op::Minus | Op::Xor)
}

/// Whether what is in the second operand alone is in the result.
fn keeps_second(op: Op) -> bool
    ensures { result ≡ test_of op false true }
{
    matches!(op, Op::Union | Op::Xor)
}

/// The handle where it is kept, and else that of the empty family.
fn kept_if(keep: bool, h: Handle) -> Handle
    ensures { (s : State) → IsSound s → Knows s h → Denotes s result (cond keep (family s h) []) }
{
    if keep { h } else { Handle(0) }
}

/// The result where it needs no look at the operands; None only where one of them is no constant.
fn at_once(op: Op, a: Handle, b: Handle) -> Option<Handle>
    requires { is_pointwise op ≡ true }
    ensures some { IfSome result (λ r. (s : State) → IsSound s → Knows s a → Knows s b
        → Denotes s r (combine (test_of op) s.vars (family s a) (family s b))) }
    ensures none { IfNone result ((2 ≤ a.0) ⊎ (2 ≤ b.0)) }
{
    if a.0 == b.0 {
        return Some(kept_if(keeps_both(op), a));
    }
    if b.0 == 0 {
        return Some(kept_if(keeps_first(op), a));
    }
    if a.0 == 0 {
        return Some(kept_if(keeps_second(op), b));
    }
    None
}

/// The operands, the smaller handle first where their order does not matter, so that one kept
/// result serves both orders.
fn in_order(op: Op, a: Handle, b: Handle) -> (Handle, Handle)
    ensures { AreInOrder op a b result.0 result.1 }
{
    if keeps_first(op) == keeps_second(op) {
        (Handle(a.0.min(b.0)), Handle(a.0.max(b.0)))
    } else {
        (a, b)
    }
}

/// The result of the operands in order, where it needs no halves: where it needs no look at the
/// nodes, or is kept.
#[inline(always)]
fn found<S: Store>(store: &mut S, op: Op, x: Handle, y: Handle) -> Option<Handle>
    requires op { is_pointwise op ≡ true }
    requires asks { Asks op (S.state store.old) x y }
    ensures reads { Reads (S.state store.old) (S.state store.new) }
    ensures some { let s = S.state store.old in
        IfSome result (λ r. Builds s (S.state store.new) (Ok r)
        (combine (test_of op) s.vars (family s x) (family s y))) }
    ensures none { IfNone result ((2 ≤ x.0) ⊎ (2 ≤ y.0)) }
{
    if let Some(r) = at_once(op, x, y) {
        return Some(r);
    }
    store.look(op, x, y.0)
}

/// The operands in order, and their parts.
#[derive(Clone, Copy)]
pub struct Halved {
    pub x: Handle,
    pub y: Handle,
    pub cofactors: Cofactors,
}

/// What there is of an operation before its halves: its result, or the operands whose low parts and
/// whose high parts are combined.
#[derive(Clone, Copy)]
pub enum Begun {
    Done(Handle),
    Halves(Halved),
}

/// What there is before the halves of a pointwise operation: its result, where it needs no look at
/// the nodes or is kept, and else the operands in order, cut at their first variable.
#[inline(always)]
pub fn begin<S: Store>(store: &mut S, op: Op, a: Handle, b: Handle) -> Begun
    requires op { is_pointwise op ≡ true }
    requires asks { Asks op (S.state store.old) a b }
    ensures reads { Reads (S.state store.old) (S.state store.new) }
    ensures done { let s = S.state store.old in
        IfDone result (λ r. Builds s (S.state store.new) (Ok r)
        (combine (test_of op) s.vars (family s a) (family s b))) }
    ensures order { IfHalves result (λ h. AreInOrder op a b h.x h.y) }
    ensures cofactors { IfHalves result
        (λ h. AreCofactors (S.state store.old) (S.state store.new) h.x h.y h.cofactors) }
    ensures low { IfHalves result
        (λ h. Asks op (S.state store.new) h.cofactors.a_low h.cofactors.b_low) }
    ensures high { IfHalves result
        (λ h. Asks op (S.state store.new) h.cofactors.a_high h.cofactors.b_high) }
{
    let (x, y) = in_order(op, a, b);
    match found(store, op, x, y) {
        Some(r) => Begun::Done(r),
        None => Begun::Halves(Halved {
            x,
            y,
            cofactors: cut(store, x, y),
        }),
    }
}

/// What there is after the halves of a pointwise operation, `lo` of the low parts and `hi` of the
/// high ones: the result over both, which is kept.
#[inline(always)]
pub fn finish<S: Store>(
    store: &mut S,
    op: Op,
    halved: Halved,
    lo: Handle,
    hi: Handle,
) -> Result<Handle, Full>
    requires op { is_pointwise op ≡ true }
    requires asks { Asks op (S.state store.old) halved.x halved.y }
    requires cut { IsCutAt (S.state store.old) halved.x halved.y halved.cofactors.var }
    requires low { let s = S.state store.old in let d = s.vars - halved.cofactors.var in
        Denotes s lo (combine (test_of op) s.vars (low_cofactor d (family s halved.x))
        (low_cofactor d (family s halved.y))) }
    requires high { let s = S.state store.old in let d = s.vars - halved.cofactors.var in
        Denotes s hi (combine (test_of op) s.vars (high_cofactor d (family s halved.x))
        (high_cofactor d (family s halved.y))) }
    ensures { let s = S.state store.old in
        Builds s (S.state store.new) result
        (combine (test_of op) s.vars (family s halved.x) (family s halved.y)) }
{
    let r = grow(store, halved.cofactors.var, lo, hi)?;
    store.keep(op, halved.x, halved.y.0, r);
    Ok(r)
}

/// The result of the operation `O`. It is looked for here, inlined where it is asked for, so that
/// what needs no halves takes no call.
#[inline(always)]
#[cycle(halves)]
fn combine_by<O: Pointwise, S: Store>(store: &mut S, a: Handle, b: Handle) -> Result<Handle, Full>
    requires { Asks O.OP (S.state store.old) a b }
    ensures { let s = S.state store.old in
        Builds s (S.state store.new) result
        (combine (test_of O.OP) s.vars (family s a) (family s b)) }
{
    let op = O::OP;
    let (x, y) = in_order(op, a, b);
    match found(store, op, x, y) {
        Some(r) => Ok(r),
        None => combine_halves::<O, S>(store, x, y),
    }
}

/// The result of operands in order by their halves. They are cut here and not where they are asked
/// for, so that a call passes two handles alone.
#[cycle(halves)]
fn combine_halves<O: Pointwise, S: Store>(
    store: &mut S,
    x: Handle,
    y: Handle,
) -> Result<Handle, Full>
    requires asks { Asks O.OP (S.state store.old) x y }
    requires some { (2 ≤ x.0) ⊎ (2 ≤ y.0) }
    ensures { let s = S.state store.old in
        Builds s (S.state store.new) result
        (combine (test_of O.OP) s.vars (family s x) (family s y)) }
{
    let op = O::OP;
    let c = cut(store, x, y);
    let lo = combine_by::<O, S>(store, c.a_low, c.b_low)?;
    let hi = combine_by::<O, S>(store, c.a_high, c.b_high)?;
    finish(store, op, Halved { x, y, cofactors: c }, lo, hi)
}

/// The result of a pointwise operation.
pub fn combine<S: Store>(store: &mut S, op: Op, a: Handle, b: Handle) -> Result<Handle, Full>
    requires op { is_pointwise op ≡ true }
    requires a { Knows (S.state store.old) a }
    requires b { Knows (S.state store.old) b }
    requires planned { let s = S.state store.old in
        IsPlanned s (combine (test_of op) s.vars (family s a) (family s b)) }
    ensures { let s = S.state store.old in
        Builds s (S.state store.new) result
        (combine (test_of op) s.vars (family s a) (family s b)) }
{
    match op {
        Op::Union => union(store, a, b),
        Op::Inter => inter(store, a, b),
        Op::Minus => minus(store, a, b),
        _ => xor(store, a, b),
    }
}

/// The members of `a` or `b`.
pub fn union<S: Store>(store: &mut S, a: Handle, b: Handle) -> Result<Handle, Full>
    requires a { Knows (S.state store.old) a }
    requires b { Knows (S.state store.old) b }
    requires planned { let s = S.state store.old in
        IsPlanned s (union_of s.vars (family s a) (family s b)) }
    ensures { let s = S.state store.old in
        Builds s (S.state store.new) result (union_of s.vars (family s a) (family s b)) }
{
    combine_by::<Union, S>(store, a, b)
}

/// The members of `a` and `b`.
pub fn inter<S: Store>(store: &mut S, a: Handle, b: Handle) -> Result<Handle, Full>
    requires a { Knows (S.state store.old) a }
    requires b { Knows (S.state store.old) b }
    requires planned { let s = S.state store.old in
        IsPlanned s (inter_of s.vars (family s a) (family s b)) }
    ensures { let s = S.state store.old in
        Builds s (S.state store.new) result (inter_of s.vars (family s a) (family s b)) }
{
    combine_by::<Inter, S>(store, a, b)
}

/// The members of `a` that are not in `b`.
pub fn minus<S: Store>(store: &mut S, a: Handle, b: Handle) -> Result<Handle, Full>
    requires a { Knows (S.state store.old) a }
    requires b { Knows (S.state store.old) b }
    requires planned { let s = S.state store.old in
        IsPlanned s (minus_of s.vars (family s a) (family s b)) }
    ensures { let s = S.state store.old in
        Builds s (S.state store.new) result (minus_of s.vars (family s a) (family s b)) }
{
    combine_by::<Minus, S>(store, a, b)
}

/// The members of exactly one of `a` and `b`.
pub fn xor<S: Store>(store: &mut S, a: Handle, b: Handle) -> Result<Handle, Full>
    requires a { Knows (S.state store.old) a }
    requires b { Knows (S.state store.old) b }
    requires planned { let s = S.state store.old in
        IsPlanned s (sum_of s.vars (family s a) (family s b)) }
    ensures { let s = S.state store.old in
        Builds s (S.state store.new) result (sum_of s.vars (family s a) (family s b)) }
{
    combine_by::<Xor, S>(store, a, b)
}
