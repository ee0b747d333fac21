//! The care points of an output.
ghost use Rattle.std.specs.Prelude.{◌≡◌, ◌≤◌};
ghost use Rattle.lattice.specs.Family.{Covers, power, minus_of, union_of};
ghost use Rattle.lattice.specs.Rows.{care_zeros, care_ones};
ghost use Rattle.lattice.specs.WorkingLists.{care_set, working_set};
ghost use Rattle.node_store.specs.Stores.{Knows, family, Gives};
ghost use Rattle.pla_reader.specs.Reading.{description};
ghost use Rattle.cube_build.specs.CarePoints.{points_list};
ghost use Rattle.cube_build.specs.GivenCareSets.{care_needs, fd_list, fdr_list, outside_list};
ghost use Rattle.cube_build.specs.GivenCareSets.{GivesCareSets, GivesCareSetsFrom, MayGiveCareSets};
ghost use Rattle.set_algebra.specs.GivenPoints.{GivesPoints};

use crate::covers::{build_cover, sets_of};
use lattice::Kind;
use node_store::{Full, Handle, Store};
use pla_reader::Pla;
use set_algebra::{ValuedPoints, minus, power, union};

/// All points that are not in `a`.
fn outside<S: Store>(store: &mut S, a: Handle) -> Result<Handle, Full>
    requires known { Knows (S.state store.old) a }
    requires planned { let s = S.state store.old in
        Covers s.plan (working_set s.vars (outside_list s.vars (family s a))) }
    ensures { let s = S.state store.old in
        Gives s (S.state store.new) result (minus_of s.vars (power s.vars) (family s a))
        (working_set s.vars (outside_list s.vars (family s a))) }
{
    let all = power(store)?;
    minus(store, all, a)
}

/// In a description of type f the points that its rows do not list have value 0.
fn sets_of_f<S: Store>(store: &mut S, on: Handle) -> Result<ValuedPoints, Full>
    requires on { Knows (S.state store.old) on }
    requires planned { let s = S.state store.old in
        Covers s.plan (working_set s.vars (outside_list s.vars (family s on))) }
    ensures { let s = S.state store.old in let n = s.vars in
        GivesPoints s (S.state store.new) result (minus_of n (power n) (family s on)) (family s on)
        (working_set n (outside_list n (family s on))) }
{
    let zeros = outside(store, on)?;
    Ok(ValuedPoints { zeros, ones: on })
}

/// In a description of type fd the points that its rows do not list have value 0, and those that
/// they leave open are no care points.
fn sets_of_fd<S: Store>(store: &mut S, on: Handle, dc: Handle) -> Result<ValuedPoints, Full>
    requires on { Knows (S.state store.old) on }
    requires dc { Knows (S.state store.old) dc }
    requires planned { let s = S.state store.old in
        Covers s.plan (working_set s.vars (fd_list s.vars (family s on) (family s dc))) }
    ensures { let s = S.state store.old in let n = s.vars in
        GivesPoints s (S.state store.new) result
        (minus_of n (power n) (union_of n (family s on) (family s dc)))
        (minus_of n (family s on) (family s dc))
        (working_set n (fd_list n (family s on) (family s dc))) }
{
    let ones = minus(store, on, dc)?;
    let listed = union(store, on, dc)?;
    let zeros = outside(store, listed)?;
    Ok(ValuedPoints { zeros, ones })
}

/// In a description of type fdr the points that its rows do not list or leave open are no care
/// points.
fn sets_of_fdr<S: Store>(
    store: &mut S,
    on: Handle,
    off: Handle,
    dc: Handle,
) -> Result<ValuedPoints, Full>
    requires on { Knows (S.state store.old) on }
    requires off { Knows (S.state store.old) off }
    requires dc { Knows (S.state store.old) dc }
    requires planned { let s = S.state store.old in
        Covers s.plan (working_set s.vars
        (fdr_list s.vars (family s on) (family s off) (family s dc))) }
    ensures { let s = S.state store.old in let n = s.vars in
        GivesPoints s (S.state store.new) result (minus_of n (family s off) (family s dc))
        (minus_of n (family s on) (family s dc))
        (working_set n (fdr_list n (family s on) (family s off) (family s dc))) }
{
    let ones = minus(store, on, dc)?;
    let zeros = minus(store, off, dc)?;
    Ok(ValuedPoints { zeros, ones })
}

/// The care points of an output, from its covers: a handle for each of its sets, in the order of
/// `sets_of`. It is Full only where the plan has more families than the store has slots.
pub fn care_sets_from<S: Store>(
    store: &mut S,
    kind: Kind,
    covers: &[Handle],
) -> Result<ValuedPoints, Full>
    requires covers { MayGiveCareSets (S.state store.old) kind covers.now }
    ensures { GivesCareSetsFrom (S.state store.old) (S.state store.new) result kind covers.now }
{
    match kind {
        Kind::F => sets_of_f(store, covers[0]),
        Kind::Fd => sets_of_fd(store, covers[0], covers[1]),
        // The points that the rows do not list are no care points.
        Kind::Fr => Ok(ValuedPoints {
            zeros: covers[1],
            ones: covers[0],
        }),
        Kind::Fdr => sets_of_fdr(store, covers[0], covers[1], covers[2]),
    }
}

/// The care points of the output, whose numbers begin with 1, in a store with a variable for each
/// input. It is Full only where the plan has more families than the store has slots.
pub fn care_sets<S: Store>(store: &mut S, p: &Pla, output: u32) -> Result<ValuedPoints, Full>
    requires output { (1 ≤ output) × (output ≤ p.now.outputs) }
    requires vars { (S.state store.old).vars ≡ p.now.inputs }
    requires planned { Covers (S.state store.old).plan
        (care_needs p.now.inputs p.now.kind p.now.rows output) }
    ensures { GivesCareSets (S.state store.old) (S.state store.new) result p.now.inputs p.now.kind
        p.now.rows output }
{
    let sets = sets_of(p.kind);
    let mut covers = [Handle(0); 3];
    for place in 0..sets.len() {
        covers[place] = build_cover(store, p, sets[place], output)?;
    }
    care_sets_from(store, p.kind, &covers[..sets.len()])
}

/// The care points of value 0, as `care_sets` gives them.
pub fn zeros<S: Store>(store: &mut S, p: &Pla, output: u32) -> Result<Handle, Full>
    requires output { (1 ≤ output) × (output ≤ p.now.outputs) }
    requires vars { (S.state store.old).vars ≡ p.now.inputs }
    requires planned { Covers (S.state store.old).plan
        (care_needs p.now.inputs p.now.kind p.now.rows output) }
    ensures { Gives (S.state store.old) (S.state store.new) result
        (care_zeros p.now.inputs p.now.kind p.now.rows output)
        (care_needs p.now.inputs p.now.kind p.now.rows output) }
{
    let sets = care_sets(store, p, output)?;
    Ok(sets.zeros)
}

/// The care points of value 1, as `care_sets` gives them.
pub fn ones<S: Store>(store: &mut S, p: &Pla, output: u32) -> Result<Handle, Full>
    requires output { (1 ≤ output) × (output ≤ p.now.outputs) }
    requires vars { (S.state store.old).vars ≡ p.now.inputs }
    requires planned { Covers (S.state store.old).plan
        (care_needs p.now.inputs p.now.kind p.now.rows output) }
    ensures { Gives (S.state store.old) (S.state store.new) result
        (care_ones p.now.inputs p.now.kind p.now.rows output)
        (care_needs p.now.inputs p.now.kind p.now.rows output) }
{
    let sets = care_sets(store, p, output)?;
    Ok(sets.ones)
}

/// All care points of the output, whose numbers begin with 1, in a store with a variable for each
/// input. It is Full only where the plan has more families than the store has slots.
pub fn care_points<S: Store>(store: &mut S, p: &Pla, output: u32) -> Result<Handle, Full>
    requires output { (1 ≤ output) × (output ≤ p.now.outputs) }
    requires vars { (S.state store.old).vars ≡ p.now.inputs }
    requires planned { Covers (S.state store.old).plan
        (working_set p.now.inputs (points_list (description p.now) output)) }
    ensures { Gives (S.state store.old) (S.state store.new) result
        (care_set p.now.inputs p.now.kind p.now.rows output)
        (working_set p.now.inputs (points_list (description p.now) output)) }
{
    let cares = care_sets(store, p, output)?;
    union(store, cares.zeros, cares.ones)
}
