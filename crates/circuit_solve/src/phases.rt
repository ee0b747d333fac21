//! The answers of a circuit, the leads of its care points, and the elements of their reduced basis,
//! over any store.
ghost use Rattle.std.specs.Prelude.{◌≡◌, ◌<◌, ◌^◌, IfOk, IsErrOf, length, reverse};
ghost use Rattle.std.specs.Option.{ForSome};
ghost use Rattle.std.specs.List.{All};
ghost use Rattle.lattice.specs.Basis.{IsLead};
ghost use Rattle.lattice.specs.Family.{Covers};
ghost use Rattle.lattice.specs.WorkingLists.{working_set};
ghost use Rattle.node_store.specs.Stores.{Gives, Grows, IsFull, Knows, family};
ghost use Rattle.aig_reader.specs.Reading.{circuit};
ghost use Rattle.gate_build.specs.Steps.{steps_of};
ghost use Rattle.circuit_solve.specs.Phases.{HoldsElements, HoldsFirst, HoldsSecond};
ghost use Rattle.circuit_solve.specs.Phases.{points_or_all, points_or_all_list};
ghost use Rattle.circuit_solve.specs.Solved.{care_leads, elements_list, first_phase_list};
ghost use Rattle.circuit_solve.specs.Solved.{second_phase_list};

use crate::answers::answers;
use aig_reader::Aig;
use bool_poly::Serial;
use gate_build::Step;
use lattice::Mono;
use node_store::{Full, Handle, SolveRefusal, Store};
use set_algebra::power;
use std::alloc::Global;
use std_monomials::leads_of_points;
use vanish_basis::basis_element;

/// The answers, the care points, and their leads.
#[derive(Drop)]
pub(crate) struct FirstPhase {
    pub polynomials: Vec<Handle>,
    pub points: Handle,
    pub leads: Handle,
}

/// The answers, and the elements of the reduced basis, by ascending lead.
#[derive(Drop)]
pub(crate) struct SecondPhase {
    pub polynomials: Vec<Handle>,
    pub elements: Vec<Handle>,
}

/// The points, or all points where there are none.
fn points_or_all<S: Store>(store: &mut S, points: Option<Handle>) -> Result<Handle, Full>
    requires known { ForSome points (Knows (S.state store.old)) }
    requires planned { let s = S.state store.old in
        Covers s.plan (working_set s.vars (points_or_all_list s.vars points)) }
    ensures { let s = S.state store.old in
        Gives s (S.state store.new) result (points_or_all s points)
        (working_set s.vars (points_or_all_list s.vars points)) }
{
    match points {
        Some(points) => Ok(points),
        None => power(store),
    }
}

/// Phase 1: the answers, the care points and their leads.
pub(crate) fn first_phase<S: Store>(
    alloc: Global,
    store: &mut S,
    aig: &Aig,
    steps: &[Step],
    care: Option<usize>,
) -> Result<FirstPhase, SolveRefusal>
    requires vars { (S.state store.old).vars ≡ aig.now.inputs }
    requires steps { steps.now ≡ steps_of (circuit aig.now) }
    requires care { ForSome care (λ output. output < length aig.now.outputs) }
    requires planned { Covers (S.state store.old).plan
        (working_set aig.now.inputs (first_phase_list (circuit aig.now) care)) }
    ensures grows { Grows (S.state store.old) (S.state store.new) }
    ensures found { IfOk result (HoldsFirst (S.state store.new) (circuit aig.now) care) }
    ensures full { IsErrOf result SolveRefusal.Full
        → IsFull (S.state store.old) (S.state store.new) }
{
    let found = answers(alloc, store, aig, steps, care)?;
    let points = points_or_all(store, found.points)?;
    let leads = leads_of_points(store, points)?;
    Ok(FirstPhase {
        polynomials: found.polynomials,
        points,
        leads,
    })
}

/// The elements of the reduced basis of the points with these leads, which go from the greatest to
/// the least, by ascending lead.
#[tactic(auto, using(crate::proofs::ElementSteps::elements_rules))]
fn elements<S: Store>(
    alloc: Global,
    store: &mut S,
    points: Handle,
    leads: &[Mono],
) -> Result<Vec<Handle>, SolveRefusal>
    requires points { Knows (S.state store.old) points }
    requires leads { let s = S.state store.old in
        All (λ m. (m < 2 ^ s.vars) × IsLead s.vars (family s points) m) (reverse leads.now) }
    requires planned { let s = S.state store.old in
        Covers s.plan (working_set s.vars
        (elements_list s.vars (family s points) (reverse leads.now))) }
    ensures grows { Grows (S.state store.old) (S.state store.new) }
    ensures elements { IfOk result
        (λ found. let s = S.state store.old in HoldsElements (S.state store.new) s.vars
        (family s points) (reverse leads.now) found.items) }
    ensures full { IsErrOf result SolveRefusal.Full
        → IsFull (S.state store.old) (S.state store.new) }
{
    let mut found = Vec::new(alloc);
    for lead in leads.iter().rev() {
        found.push(basis_element(store, &mut Serial, *lead, points)?)?;
    }
    Ok(found)
}

/// Phase 2: phase 1 again, and the elements by ascending lead. The leads go from the greatest to
/// the least.
pub(crate) fn second_phase<S: Store>(
    alloc: Global,
    store: &mut S,
    aig: &Aig,
    steps: &[Step],
    care: Option<usize>,
    leads: &[Mono],
) -> Result<SecondPhase, SolveRefusal>
    requires vars { (S.state store.old).vars ≡ aig.now.inputs }
    requires steps { steps.now ≡ steps_of (circuit aig.now) }
    requires care { ForSome care (λ output. output < length aig.now.outputs) }
    requires leads { reverse leads.now ≡ care_leads (circuit aig.now) care }
    requires planned { Covers (S.state store.old).plan
        (working_set aig.now.inputs (second_phase_list (circuit aig.now) care)) }
    ensures grows { Grows (S.state store.old) (S.state store.new) }
    ensures found { IfOk result (HoldsSecond (S.state store.new) (circuit aig.now) care) }
    ensures full { IsErrOf result SolveRefusal.Full
        → IsFull (S.state store.old) (S.state store.new) }
{
    let found = first_phase(alloc, store, aig, steps, care)?;
    let elements = elements(alloc, store, found.points, leads)?;
    Ok(SecondPhase {
        polynomials: found.polynomials,
        elements,
    })
}
