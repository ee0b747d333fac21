//! Products of polynomials.
ghost use Rattle.std.specs.Prelude.{ℕ, ◌≡◌, ◌<◌, ◌≤◌, ◌-◌, ◌*◌, ◌^◌, suc, [], ◌∷◌, cond, IfOk};
ghost use Rattle.lattice.specs.Family.{IsFamily, Covers, divides};
ghost use Rattle.lattice.specs.Polynomial.{value};
ghost use Rattle.lattice.specs.Operations.{product_of, variable};
ghost use Rattle.lattice.specs.declared.op.Op.TheVariants.{Product};
ghost use Rattle.node_store.specs.Stores.{Knows, family, IsPlanned, Builds, Gives, needs_of};

use crate::values::sum;
use lattice::Op;
use node_store::{Full, Handle, Store, grow, parts};
use set_algebra::cut;

/// The product with a variable before which `a` has none.
fn raised<S: Store>(store: &mut S, a: Handle, var: u32) -> Result<Handle, Full>
    requires known { Knows (S.state store.old) a }
    requires first { 1 ≤ var }
    requires last { var ≤ (S.state store.old).vars }
    requires after { let s = S.state store.old in IsFamily (suc (s.vars - var)) (family s a) }
    requires planned { let s = S.state store.old in
        IsPlanned s (product_of s.vars (family s a) (variable s.vars var ∷ [])) }
    ensures { let s = S.state store.old in
        Builds s (S.state store.new) result
        (product_of s.vars (family s a) (variable s.vars var ∷ [])) }
{
    let (low, high) = parts(store, a, var);
    let with = sum(store, low, high)?;
    grow(store, var, Handle(0), with)
}

/// The product with a variable, from 1 to vars: its value is that of `a` where the point has the
/// variable, and else 0.
pub fn times_var<S: Store>(store: &mut S, a: Handle, var: u32) -> Result<Handle, Full>
    requires known { Knows (S.state store.old) a }
    requires first { 1 ≤ var }
    requires last { var ≤ (S.state store.old).vars }
    requires planned { let s = S.state store.old in
        IsPlanned s (product_of s.vars (family s a) (variable s.vars var ∷ [])) }
    ensures result { let s = S.state store.old in
        Builds s (S.state store.new) result
        (product_of s.vars (family s a) (variable s.vars var ∷ [])) }
    ensures value { let s = S.state store.old in
        IfOk result (λ h. (p : ℕ) → p < 2 ^ s.vars
        → value (family (S.state store.new) h) p
        ≡ cond (divides (variable s.vars var) p) (value (family s a) p) 0) }
{
    let Some(n) = store.node(a) else {
        return raised(store, a, var);
    };
    if var <= n.var {
        return raised(store, a, var);
    }
    if let Some(r) = store.look(Op::TimesVar, a, var) {
        return Ok(r);
    }
    let lo = times_var(store, n.lo, var)?;
    let hi = times_var(store, n.hi, var)?;
    let r = grow(store, n.var, lo, hi)?;
    store.keep(Op::TimesVar, a, var, r);
    Ok(r)
}

/// The product of two polynomials: its value at each point is the product of the two values.
pub fn product<S: Store>(store: &mut S, a: Handle, b: Handle) -> Result<Handle, Full>
    requires a { Knows (S.state store.old) a }
    requires b { Knows (S.state store.old) b }
    requires planned { let s = S.state store.old in Covers s.plan (needs_of s Product a b.0) }
    ensures result { let s = S.state store.old in
        Gives s (S.state store.new) result (product_of s.vars (family s a) (family s b))
        (needs_of s Product a b.0) }
    ensures value { let s = S.state store.old in
        IfOk result (λ h. (p : ℕ) → p < 2 ^ s.vars
        → value (family (S.state store.new) h) p ≡ value (family s a) p * value (family s b) p) }
{
    if a.0 == 0 || b.0 == 1 {
        return Ok(a);
    }
    if b.0 == 0 || a.0 == 1 {
        return Ok(b);
    }
    // One kept result serves both orders.
    if b.0 < a.0 {
        return product(store, b, a);
    }
    if let Some(r) = store.look(Op::Product, a, b.0) {
        return Ok(r);
    }
    let c = cut(store, a, b);
    let lo = product(store, c.a_low, c.b_low)?;
    let a_sum = sum(store, c.a_low, c.a_high)?;
    let b_sum = sum(store, c.b_low, c.b_high)?;
    let both = product(store, a_sum, b_sum)?;
    let hi = sum(store, lo, both)?;
    let r = grow(store, c.var, lo, hi)?;
    store.keep(Op::Product, a, b.0, r);
    Ok(r)
}
