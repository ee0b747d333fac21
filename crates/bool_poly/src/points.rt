//! The points at which a monomial or a polynomial is 1.
ghost use Rattle.std.specs.Prelude.{◌≡◌, ◌<◌, ◌≤◌, ◌^◌, IfSome, IfNone, Ok};
ghost use Rattle.lattice.specs.Family.{Covers};
ghost use Rattle.lattice.specs.Basis.{ones_at};
ghost use Rattle.lattice.specs.Polynomial.{ones_of};
ghost use Rattle.lattice.specs.declared.op.Op.TheVariants.{Ones};
ghost use Rattle.node_store.specs.Stores.{Knows, family, IsPlanned, Reads, Builds, Gives, needs_of};
ghost use Rattle.set_algebra.specs.Begins.{IfDone, IfHalves};
ghost use Rattle.set_algebra.specs.Pairs.{AreCofactors, IsCutAt};
ghost use Rattle.bool_poly.specs.Parts.{AreOnes, AsksOnes, AsksWith, part_with};

use lattice::{Mono, Op};
use node_store::{Full, Handle, Store, grow};
use set_algebra::{Begun, Halved, cut, xor};

/// The points of `set` that `m` divides.
fn above_rest<S: Store>(store: &mut S, m: u64, set: Handle) -> Result<Handle, Full>
    requires known { Knows (S.state store.old) set }
    requires planned { let s = S.state store.old in IsPlanned s (ones_at s.vars m (family s set)) }
    ensures { let s = S.state store.old in
        Builds s (S.state store.new) result (ones_at s.vars m (family s set)) }
{
    if m == 0 {
        return Ok(set);
    }
    match store.node(set) {
        None => Ok(Handle(0)),
        Some(n) => {
            let weight = 1u64 << (store.vars() - n.var);
            if weight <= m {
                if weight <= m - weight {
                    return Ok(Handle(0));
                }
                let hi = above_rest(store, m - weight, n.hi)?;
                return grow(store, n.var, Handle(0), hi);
            }
            let lo = above_rest(store, m, n.lo)?;
            if n.hi.0 == n.lo.0 {
                return grow(store, n.var, lo, lo);
            }
            let hi = above_rest(store, m, n.hi)?;
            grow(store, n.var, lo, hi)
        }
    }
}

/// The points of `set` that `m` divides.
pub fn above<S: Store>(store: &mut S, m: Mono, set: Handle) -> Result<Handle, Full>
    requires below { m < 2 ^ (S.state store.old).vars }
    requires known { Knows (S.state store.old) set }
    requires planned { let s = S.state store.old in IsPlanned s (ones_at s.vars m (family s set)) }
    ensures { let s = S.state store.old in
        Builds s (S.state store.new) result (ones_at s.vars m (family s set)) }
{
    above_rest(store, m.0, set)
}

/// What is evaluated at the points with a variable, of a polynomial that is `low` without it and
/// `high` with it: their sum, and 0 where there are no such points.
pub fn part_with<S: Store>(
    store: &mut S,
    low: Handle,
    high: Handle,
    points: Handle,
) -> Result<Handle, Full>
    requires low { Knows (S.state store.old) low }
    requires high { Knows (S.state store.old) high }
    requires points { Knows (S.state store.old) points }
    requires planned { let s = S.state store.old in
        IsPlanned s (part_with s.vars (family s low) (family s high) (family s points)) }
    ensures { let s = S.state store.old in
        Builds s (S.state store.new) result
        (part_with s.vars (family s low) (family s high) (family s points)) }
{
    if points.0 == 0 {
        return Ok(Handle(0));
    }
    xor(store, low, high)
}

/// The points of `set` at which the polynomial `h` is 1, where they need no halves: where a look at
/// the handles is enough, or they are kept.
#[inline(always)]
fn found_ones<S: Store>(store: &mut S, h: Handle, set: Handle) -> Option<Handle>
    requires { AsksOnes (S.state store.old) h set }
    ensures reads { Reads (S.state store.old) (S.state store.new) }
    ensures some { let s = S.state store.old in
        IfSome result (λ r. Gives s (S.state store.new) (Ok r)
        (ones_of s.vars (family s h) (family s set)) (needs_of s Ones h set.0)) }
    ensures varies { IfNone result (2 ≤ h.0) }
    ensures filled { IfNone result (1 ≤ set.0) }
{
    if h.0 == 0 {
        return Some(Handle(0));
    }
    if set.0 == 0 {
        return Some(set);
    }
    if h.0 == 1 {
        return Some(set);
    }
    store.look(Op::Ones, h, set.0)
}

/// What there is before the halves of `ones_of`: the result, where a look at the handles is enough
/// or it is kept, and else `h` and `set`, cut at their first variable. The low half is that of both
/// low parts, and the high half that of `part_with`.
#[inline(always)]
pub fn begin_ones<S: Store>(store: &mut S, h: Handle, set: Handle) -> Begun
    requires { AsksOnes (S.state store.old) h set }
    ensures reads { Reads (S.state store.old) (S.state store.new) }
    ensures done { let s = S.state store.old in
        IfDone result (λ r. Gives s (S.state store.new) (Ok r)
        (ones_of s.vars (family s h) (family s set)) (needs_of s Ones h set.0)) }
    ensures operands { IfHalves result (λ b. (b.x ≡ h) × (b.y ≡ set)) }
    ensures varies { IfHalves result (λ b. 2 ≤ b.x.0) }
    ensures filled { IfHalves result (λ b. 1 ≤ b.y.0) }
    ensures cofactors { IfHalves result
        (λ b. AreCofactors (S.state store.old) (S.state store.new) b.x b.y b.cofactors) }
    ensures low { IfHalves result
        (λ b. AsksOnes (S.state store.new) b.cofactors.a_low b.cofactors.b_low) }
    ensures high { IfHalves result
        (λ b. AsksWith (S.state store.new) b.cofactors.a_low b.cofactors.a_high
        b.cofactors.b_high) }
{
    match found_ones(store, h, set) {
        Some(r) => Begun::Done(r),
        None => Begun::Halves(Halved {
            x: h,
            y: set,
            cofactors: cut(store, h, set),
        }),
    }
}

/// What there is after the halves of `ones_of`, `lo` of the points without the variable of the cut
/// and `hi` of those with it: the points over both, which are kept.
#[inline(always)]
pub fn finish_ones<S: Store>(
    store: &mut S,
    halved: Halved,
    lo: Handle,
    hi: Handle,
) -> Result<Handle, Full>
    requires asks { AsksOnes (S.state store.old) halved.x halved.y }
    requires varies { 2 ≤ halved.x.0 }
    requires filled { 1 ≤ halved.y.0 }
    requires cut { IsCutAt (S.state store.old) halved.x halved.y halved.cofactors.var }
    requires halves { AreOnes (S.state store.old) halved.x halved.y halved.cofactors lo hi }
    ensures { let s = S.state store.old in
        Gives s (S.state store.new) result (ones_of s.vars (family s halved.x) (family s halved.y))
        (needs_of s Ones halved.x halved.y.0) }
{
    let r = grow(store, halved.cofactors.var, lo, hi)?;
    store.keep(Op::Ones, halved.x, halved.y.0, r);
    Ok(r)
}

/// The points of `set` at which the polynomial `h` is 1. They are looked for here, inlined where
/// they are asked for, so that what needs no halves takes no call.
#[inline(always)]
#[cycle(halves)]
fn ones_by<S: Store>(store: &mut S, h: Handle, set: Handle) -> Result<Handle, Full>
    requires { AsksOnes (S.state store.old) h set }
    ensures { let s = S.state store.old in
        Gives s (S.state store.new) result (ones_of s.vars (family s h) (family s set))
        (needs_of s Ones h set.0) }
{
    match found_ones(store, h, set) {
        Some(r) => Ok(r),
        None => ones_halves(store, h, set),
    }
}

/// The points by their halves. The operands are cut here and not where they are asked for, so that
/// a call passes two handles alone.
#[cycle(halves)]
fn ones_halves<S: Store>(store: &mut S, h: Handle, set: Handle) -> Result<Handle, Full>
    requires asks { AsksOnes (S.state store.old) h set }
    requires varies { 2 ≤ h.0 }
    requires filled { 1 ≤ set.0 }
    ensures { let s = S.state store.old in
        Gives s (S.state store.new) result (ones_of s.vars (family s h) (family s set))
        (needs_of s Ones h set.0) }
{
    let c = cut(store, h, set);
    let lo = ones_by(store, c.a_low, c.b_low)?;
    let with = part_with(store, c.a_low, c.a_high, c.b_high)?;
    let hi = ones_by(store, with, c.b_high)?;
    let halved = Halved {
        x: h,
        y: set,
        cofactors: c,
    };
    finish_ones(store, halved, lo, hi)
}

/// The points of `set` at which the polynomial `h` is 1.
pub fn ones_of<S: Store>(store: &mut S, h: Handle, set: Handle) -> Result<Handle, Full>
    requires h { Knows (S.state store.old) h }
    requires set { Knows (S.state store.old) set }
    requires planned { let s = S.state store.old in Covers s.plan (needs_of s Ones h set.0) }
    ensures { let s = S.state store.old in
        Gives s (S.state store.new) result (ones_of s.vars (family s h) (family s set))
        (needs_of s Ones h set.0) }
{
    ones_by(store, h, set)
}
