//! The least polynomial with the values of a given one.
ghost use Rattle.std.specs.Prelude.{◌<◌, ◌^◌, IfOk};
ghost use Rattle.std.specs.List.{All};
ghost use Rattle.lattice.specs.Family.{Covers};
ghost use Rattle.lattice.specs.WorkingLists.{working_set};
ghost use Rattle.node_store.specs.Stores.{Gives, Knows, family};
ghost use Rattle.nf_run.specs.Reduced.{IsReduced, reduced, reduced_list, sum_of_terms};
ghost use Rattle.nf_run.specs.Reduced.{terms_list};

use bool_poly::{Serial, ones_of};
use lattice::Mono;
use node_store::{Full, Handle, Store};
use set_algebra::{one, union};
use vanish_basis::least_by;

/// The polynomial of the terms. The error comes only where the store had no slot left for a family
/// that was needed.
fn polynomial_of<S: Store>(store: &mut S, terms: &[Mono]) -> Result<Handle, Full>
    requires below { All (λ m. m < 2 ^ (S.state store.old).vars) terms.now }
    requires planned { let s = S.state store.old in
        Covers s.plan (working_set s.vars (terms_list s.vars terms.now)) }
    ensures { let s = S.state store.old in
        Gives s (S.state store.new) result (sum_of_terms s.vars terms.now)
        (working_set s.vars (terms_list s.vars terms.now)) }
{
    let mut sum = Handle(0);
    for term in terms {
        let next = one(store, *term)?;
        sum = union(store, sum, next)?;
    }
    Ok(sum)
}

/// The least polynomial that has the values of the given one, by its terms, at the points. The
/// error comes only where the store had no slot left for a family that was needed.
pub fn reduce_polynomial<S: Store>(
    store: &mut S,
    points: Handle,
    terms: &[Mono],
) -> Result<Handle, Full>
    requires known { Knows (S.state store.old) points }
    requires below { All (λ m. m < 2 ^ (S.state store.old).vars) terms.now }
    requires planned { let s = S.state store.old in
        Covers s.plan (working_set s.vars (reduced_list s.vars terms.now (family s points))) }
    ensures gives { let s = S.state store.old in
        Gives s (S.state store.new) result
        (reduced s.vars (sum_of_terms s.vars terms.now) (family s points))
        (working_set s.vars (reduced_list s.vars terms.now (family s points))) }
    ensures least { let s = S.state store.old in
        IfOk result (λ h. IsReduced s.vars (family s points) (sum_of_terms s.vars terms.now)
        (family (S.state store.new) h)) }
{
    let given = polynomial_of(store, terms)?;
    let ones = ones_of(store, given, points)?;
    least_by(store, &mut Serial, points, ones)
}
