//! The normal form of a monomial on points, and the element of the reduced basis with a given lead.
ghost use Rattle.std.specs.Prelude.{◌<◌, ◌^◌, ◌∷◌, IfOk};
ghost use Rattle.lattice.specs.Family.{Covers, minus_of};
ghost use Rattle.lattice.specs.Interpolation.{IsLeast, interpolate};
ghost use Rattle.lattice.specs.Basis.{IsLead, IsBasisElement, ones_at, zeros_at, normal_form_of};
ghost use Rattle.lattice.specs.Basis.{basis_element_of};
ghost use Rattle.lattice.specs.WorkingLists.{working_set, interpolation_list, normal_form_list};
ghost use Rattle.lattice.specs.WorkingLists.{basis_element_list};
ghost use Rattle.node_store.specs.Stores.{Knows, family, Gives};

use bool_poly::{SetOps, above};
use interp_lex::least;
use lattice::Mono;
use node_store::{Full, Handle, Store};
use set_algebra::one;

/// The least polynomial that is 1 at `ones`, some of the points, and 0 at the other points. The
/// error comes only where the store had no slot left for a family that was needed.
pub fn least_by<S: Store, O: SetOps<S>>(
    store: &mut S,
    ops: &mut O,
    points: Handle,
    ones: Handle,
) -> Result<Handle, Full>
    requires points { Knows (S.state store.old) points }
    requires ones { Knows (S.state store.old) ones }
    requires planned { let s = S.state store.old in
        let zeros = minus_of s.vars (family s points) (family s ones) in
        Covers s.plan (working_set s.vars
        (zeros ∷ interpolation_list s.vars zeros (family s ones))) }
    requires ready { O.ready ops.old }
    ensures result { let s = S.state store.old in
        let zeros = minus_of s.vars (family s points) (family s ones) in
        Gives s (S.state store.new) result (interpolate s.vars zeros (family s ones))
        (working_set s.vars (zeros ∷ interpolation_list s.vars zeros (family s ones))) }
    ensures ready { O.ready ops.new }
{
    let zeros = ops.minus(store, points, ones)?;
    least(store, ops, zeros, ones)
}

/// The least polynomial that has the values of `m` on the points. The error comes only where the
/// store had no slot left for a family that was needed.
pub fn normal_form_of<S: Store, O: SetOps<S>>(
    store: &mut S,
    ops: &mut O,
    m: Mono,
    points: Handle,
) -> Result<Handle, Full>
    requires below { m < 2 ^ (S.state store.old).vars }
    requires known { Knows (S.state store.old) points }
    requires planned { let s = S.state store.old in
        Covers s.plan (working_set s.vars (normal_form_list s.vars m (family s points))) }
    requires ready { O.ready ops.old }
    ensures gives { let s = S.state store.old in
        Gives s (S.state store.new) result (normal_form_of s.vars m (family s points))
        (working_set s.vars (normal_form_list s.vars m (family s points))) }

    // It is 0 at the points where m is 0 and 1 at those where m is 1, and the least such
    // polynomial.
    ensures least { let s = S.state store.old in
        IfOk result (λ h. IsLeast s.vars (zeros_at s.vars m (family s points))
        (ones_at s.vars m (family s points)) (family (S.state store.new) h)) }
    ensures ready { O.ready ops.new }
{
    let ones = above(store, m, points)?;
    least_by(store, ops, points, ones)
}

/// The element of the reduced basis whose lead is `m`, a lead of the points: the sum of `m` and its
/// normal form. The error comes only where the store had no slot left for a family that was needed.
pub fn basis_element<S: Store, O: SetOps<S>>(
    store: &mut S,
    ops: &mut O,
    m: Mono,
    points: Handle,
) -> Result<Handle, Full>
    requires below { m < 2 ^ (S.state store.old).vars }
    requires known { Knows (S.state store.old) points }
    requires lead { let s = S.state store.old in IsLead s.vars (family s points) m }
    requires planned { let s = S.state store.old in
        Covers s.plan (working_set s.vars (basis_element_list s.vars m (family s points))) }
    requires ready { O.ready ops.old }
    ensures gives { let s = S.state store.old in
        Gives s (S.state store.new) result (basis_element_of s.vars m (family s points))
        (working_set s.vars (basis_element_list s.vars m (family s points))) }
    ensures element { let s = S.state store.old in
        IfOk result (λ h. IsBasisElement s.vars (family s points) m
        (family (S.state store.new) h)) }
    ensures ready { O.ready ops.new }
{
    let lead = one(store, m)?;

    // By the family of the lead and not by `above`, since the store keeps the results of this
    // operation.
    let ones = ops.ones_of(store, lead, points)?;
    let tail = least_by(store, ops, points, ones)?;
    ops.xor(store, lead, tail)
}
