//! The care points of two outputs put together, their leads, and the elements of their reduced
//! basis, over any store.
ghost use Rattle.std.specs.Prelude.{◌≡◌, ◌<◌, ◌^◌, IfOk, IsErrOf, OnErr, reverse};
ghost use Rattle.std.specs.List.{All};
ghost use Rattle.lattice.specs.Basis.{IsLead};
ghost use Rattle.lattice.specs.Family.{Covers};
ghost use Rattle.lattice.specs.WorkingLists.{working_set};
ghost use Rattle.node_store.specs.Stores.{Builds, Gives, Grows, IsFull, IsPlanned, Knows, family};
ghost use Rattle.pla_reader.specs.Reading.{description};
ghost use Rattle.nf_run.specs.Joint.{HoldsBasis, HoldsElements, HoldsJoint};
ghost use Rattle.nf_run.specs.Joint.{elements_list, first_phase_list};
ghost use Rattle.nf_run.specs.Joint.{joined, joint_leads, joint_points, joint_points_list};
ghost use Rattle.nf_run.specs.Joint.{second_phase_list};

use crate::joint::Joining;
use bool_poly::Serial;
use cube_build::care_points;
use lattice::Mono;
use node_store::{Full, Handle, SolveRefusal, Store};
use pla_reader::Pla;
use set_algebra::{inter, union};
use std::alloc::Global;
use std_monomials::leads_of_points;
use vanish_basis::basis_element;

/// The points of two outputs put together, and their leads.
#[derive(Clone, Copy, PartialEq, Eq, Debug)]
pub(crate) struct Joint {
    pub points: Handle,
    pub leads: Handle,
}

/// The members of both families, or the common ones.
fn joined<S: Store>(
    store: &mut S,
    joining: Joining,
    first: Handle,
    second: Handle,
) -> Result<Handle, Full>
    requires first { Knows (S.state store.old) first }
    requires second { Knows (S.state store.old) second }
    requires planned { let s = S.state store.old in
        IsPlanned s (joined joining s.vars (family s first) (family s second)) }
    ensures { let s = S.state store.old in
        Builds s (S.state store.new) result
        (joined joining s.vars (family s first) (family s second)) }
{
    match joining {
        Joining::Union => union(store, first, second),
        Joining::Meet => inter(store, first, second),
    }
}

/// The care points of both outputs put together.
fn joint_points<S: Store>(store: &mut S, p: &Pla, joining: Joining) -> Result<Handle, Full>
    requires outputs { p.now.outputs ≡ 2 }
    requires vars { (S.state store.old).vars ≡ p.now.inputs }
    requires planned { Covers (S.state store.old).plan
        (working_set p.now.inputs (joint_points_list (description p.now) joining)) }
    ensures { Gives (S.state store.old) (S.state store.new) result
        (joint_points (description p.now) joining)
        (working_set p.now.inputs (joint_points_list (description p.now) joining)) }
{
    let first = care_points(store, p, 1)?;
    let second = care_points(store, p, 2)?;
    joined(store, joining, first, second)
}

/// Phase 1: these points and their leads.
pub(crate) fn first_phase<S: Store>(store: &mut S, p: &Pla, joining: Joining) -> Result<Joint, Full>
    requires outputs { p.now.outputs ≡ 2 }
    requires vars { (S.state store.old).vars ≡ p.now.inputs }
    requires planned { Covers (S.state store.old).plan
        (working_set p.now.inputs (first_phase_list (description p.now) joining)) }
    ensures grows { Grows (S.state store.old) (S.state store.new) }
    ensures found { IfOk result (HoldsJoint (S.state store.new) (description p.now) joining) }
    ensures full { OnErr result (IsFull (S.state store.old) (S.state store.new)) }
{
    let points = joint_points(store, p, joining)?;
    let leads = leads_of_points(store, points)?;
    Ok(Joint { points, leads })
}

/// The elements of the reduced basis of the points with these leads, which go from the greatest to
/// the least, by ascending lead.
#[tactic(auto, using(crate::proofs::JointSteps::elements_rules))]
fn elements<S: Store>(
    alloc: Global,
    store: &mut S,
    points: Handle,
    leads: &[Mono],
) -> Result<Vec<Handle>, SolveRefusal>
    requires points { Knows (S.state store.old) points }
    requires leads { let s = S.state store.old in
        All (λ m. (m < 2 ^ s.vars) × IsLead s.vars (family s points) m) (reverse leads.now) }
    requires planned { let s = S.state store.old in
        Covers s.plan (working_set s.vars
        (elements_list s.vars (family s points) (reverse leads.now))) }
    ensures grows { Grows (S.state store.old) (S.state store.new) }
    ensures elements { IfOk result
        (λ found. let s = S.state store.old in HoldsElements (S.state store.new) s.vars
        (family s points) (reverse leads.now) found.items) }
    ensures full { IsErrOf result SolveRefusal.Full
        → IsFull (S.state store.old) (S.state store.new) }
{
    let mut found = Vec::new(alloc);
    for lead in leads.iter().rev() {
        found.push(basis_element(store, &mut Serial, *lead, points)?)?;
    }
    Ok(found)
}

/// Phase 2: phase 1 again, and the elements by ascending lead. The leads go from the greatest to
/// the least.
pub(crate) fn second_phase<S: Store>(
    alloc: Global,
    store: &mut S,
    p: &Pla,
    joining: Joining,
    leads: &[Mono],
) -> Result<Vec<Handle>, SolveRefusal>
    requires outputs { p.now.outputs ≡ 2 }
    requires vars { (S.state store.old).vars ≡ p.now.inputs }
    requires leads { reverse leads.now ≡ joint_leads (description p.now) joining }
    requires planned { Covers (S.state store.old).plan
        (working_set p.now.inputs (second_phase_list (description p.now) joining)) }
    ensures grows { Grows (S.state store.old) (S.state store.new) }
    ensures elements { IfOk result
        (λ found. HoldsBasis (S.state store.new) (description p.now) joining found.items) }
    ensures full { IsErrOf result SolveRefusal.Full
        → IsFull (S.state store.old) (S.state store.new) }
{
    let found = first_phase(store, p, joining)?;
    elements(alloc, store, found.points, leads)
}
