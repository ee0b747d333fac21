//! The points where a polynomial is 1, and the least polynomial with the values of a given one at
//! points, over any store.
ghost use Rattle.lattice.specs.Family.{Covers, power};
ghost use Rattle.lattice.specs.Polynomial.{ones_of};
ghost use Rattle.lattice.specs.WorkingLists.{working_set};
ghost use Rattle.node_store.specs.Stores.{Gives, Knows, family};
ghost use Rattle.circuit_solve.specs.Reduced.{points_list, reduced, values_list};

use bool_poly::{Serial, ones_of};
use node_store::{Full, Handle, Store};
use set_algebra::power;
use vanish_basis::least_by;

/// The points where a polynomial is 1. The error comes only where the store had no slot left for a
/// family that was needed.
pub(crate) fn points_where<S: Store>(store: &mut S, polynomial: Handle) -> Result<Handle, Full>
    requires known { Knows (S.state store.old) polynomial }
    requires planned { let s = S.state store.old in
        Covers s.plan (working_set s.vars (points_list s.vars (family s polynomial))) }
    ensures { let s = S.state store.old in
        Gives s (S.state store.new) result (ones_of s.vars (family s polynomial) (power s.vars))
        (working_set s.vars (points_list s.vars (family s polynomial))) }
{
    let all = power(store)?;
    ones_of(store, polynomial, all)
}

/// The least polynomial that has the values of the given one at the points. The error comes only
/// where the store had no slot left for a family that was needed.
pub(crate) fn reduced_at<S: Store>(
    store: &mut S,
    points: Handle,
    given: Handle,
) -> Result<Handle, Full>
    requires points { Knows (S.state store.old) points }
    requires given { Knows (S.state store.old) given }
    requires planned { let s = S.state store.old in
        Covers s.plan (working_set s.vars
        (values_list s.vars (family s points) (family s given))) }
    ensures { let s = S.state store.old in
        Gives s (S.state store.new) result (reduced s.vars (family s points) (family s given))
        (working_set s.vars (values_list s.vars (family s points) (family s given))) }
{
    let ones = ones_of(store, given, points)?;
    least_by(store, &mut Serial, points, ones)
}
