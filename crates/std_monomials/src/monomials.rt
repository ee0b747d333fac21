//! The standard monomials of a set of points, and its leads.
ghost use Rattle.std.specs.Prelude.{◌≡◌, ◌≤◌, ◌+◌, ◌-◌, IfOk};
ghost use Rattle.lattice.specs.Family.{Family, IsFamily, Covers};
ghost use Rattle.lattice.specs.Basis.{standard_of, leads_of};
ghost use Rattle.lattice.specs.Operations.{IsClosed};
ghost use Rattle.lattice.specs.declared.op.Op.TheVariants.{Standard, Leads};
ghost use Rattle.node_store.specs.Stores.{Knows, family, Gives, needs_of};
ghost use Rattle.std_monomials.specs.Monomials.{AreStandard, AreLeads};

use lattice::Op;
use node_store::{Full, Handle, Store, first_var, grow, parts};
use set_algebra::{inter, union};

/// The standard monomials of the points. The error comes only where the store had no slot left for
/// a family that was needed.
pub fn standard<S: Store>(store: &mut S, points: Handle) -> Result<Handle, Full>
    requires known { Knows (S.state store.old) points }
    requires planned { let s = S.state store.old in Covers s.plan (needs_of s Standard points 0) }
    ensures gives { let s = S.state store.old in
        Gives s (S.state store.new) result (standard_of s.vars (family s points))
        (needs_of s Standard points 0) }
    ensures standard { let s = S.state store.old in
        IfOk result (λ h. AreStandard s.vars (family s points) (family (S.state store.new) h)) }
{
    let Some(var) = first_var(store, points) else {
        return Ok(points);
    };
    if let Some(r) = store.look(Op::Standard, points, 0) {
        return Ok(r);
    }
    // A monomial without the variable is standard for all points where it is so for the points of
    // either half, and one with it where the rest is so for the points that the halves share.
    let (without, with_var) = parts(store, points, var);
    let either = union(store, without, with_var)?;
    let both = inter(store, without, with_var)?;
    let lo = standard(store, either)?;
    let hi = standard(store, both)?;
    let r = grow(store, var, lo, hi)?;
    store.keep(Op::Standard, points, 0, r);
    Ok(r)
}

/// The minimal monomials over the variables from `var` on that are not in `monos`, which has with
/// each monomial its divisors and has no variable before `var`. The last `var` is the number of
/// variables and 1, where no variable is left. The error comes only where the store had no slot
/// left for a family that was needed.
pub fn leads<S: Store>(store: &mut S, monos: Handle, var: u32) -> Result<Handle, Full>
    requires known { Knows (S.state store.old) monos }
    requires first { 1 ≤ var }
    requires last { var ≤ (S.state store.old).vars + 1 }
    requires closed { IsClosed (family (S.state store.old) monos) }
    requires after { IsFamily ((S.state store.old).vars + 1 - var)
        (family (S.state store.old) monos) }
    requires planned { let s = S.state store.old in Covers s.plan (needs_of s Leads monos var) }
    ensures gives { let s = S.state store.old in
        Gives s (S.state store.new) result (leads_of (s.vars + 1 - var) (family s monos))
        (needs_of s Leads monos var) }

    // Where the monomials are the standard ones of points, these are the leads of the points.
    ensures leads { let s = S.state store.old in var ≡ 1 → (points : Family)
        → IsFamily s.vars points → AreStandard s.vars points (family s monos)
        → IfOk result (λ h. AreLeads s.vars points (family (S.state store.new) h)) }
{
    if monos.0 == 0 {
        return Ok(Handle(1));
    }
    if store.vars() < var {
        return Ok(Handle(0));
    }
    if let Some(r) = store.look(Op::Leads, monos, var) {
        return Ok(r);
    }
    let (without, with_var) = parts(store, monos, var);
    let lo = leads(store, without, var + 1)?;
    let above = leads(store, with_var, var + 1)?;
    // A minimal monomial of the upper half may still have a divisor in the lower half that is
    // missing.
    let hi = inter(store, above, without)?;
    let r = grow(store, var, lo, hi)?;
    store.keep(Op::Leads, monos, var, r);
    Ok(r)
}
