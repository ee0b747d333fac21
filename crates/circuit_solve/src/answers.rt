//! The answers of a circuit, over any store.
ghost use Rattle.std.specs.Prelude.{◌≡◌, ◌<◌, IfOk, IsErrOf, length, map};
ghost use Rattle.std.specs.Option.{ForSome};
ghost use Rattle.std.specs.List.{All, flat_map};
ghost use Rattle.lattice.specs.Family.{Covers};
ghost use Rattle.lattice.specs.WorkingLists.{working_set};
ghost use Rattle.node_store.specs.Stores.{Grows, IsFull, Knows, family};
ghost use Rattle.aig_reader.specs.Reading.{circuit};
ghost use Rattle.gate_build.specs.Steps.{steps_of};
ghost use Rattle.circuit_solve.specs.Answers.{HoldsAnswers, HoldsCare, answers_list, care_list};
ghost use Rattle.circuit_solve.specs.Found.{AreFound};
ghost use Rattle.circuit_solve.specs.Reduced.{reduced, values_list};

use crate::points::{points_where, reduced_at};
use aig_reader::Aig;
use bool_poly::Serial;
use gate_build::{Step, output_polynomials};
use node_store::{Handle, SolveRefusal, Store};
use std::alloc::Global;

/// The answers, and the care points where these are not all points.
#[derive(Drop)]
pub(crate) struct Answered {
    pub polynomials: Vec<Handle>,
    pub points: Option<Handle>,
}

/// The least polynomials with the values of given ones at the points.
fn all_reduced_at<S: Store>(
    alloc: Global,
    store: &mut S,
    points: Handle,
    given: &[Handle],
) -> Result<Vec<Handle>, SolveRefusal>
    requires points { Knows (S.state store.old) points }
    requires given { All (Knows (S.state store.old)) given.now }
    requires planned { let s = S.state store.old in
        Covers s.plan (working_set s.vars
        (flat_map (λ h. values_list s.vars (family s points) (family s h)) given.now)) }
    ensures grows { Grows (S.state store.old) (S.state store.new) }
    ensures found { IfOk result (λ found. let s = S.state store.old in
        AreFound (S.state store.new) s.vars (λ h. reduced s.vars (family s points) (family s h))
        (λ h. values_list s.vars (family s points) (family s h)) given.now found.items) }
    ensures full { IsErrOf result SolveRefusal.Full
        → IsFull (S.state store.old) (S.state store.new) }
{
    let mut found = Vec::new(alloc);
    for polynomial in given {
        found.push(reduced_at(store, points, *polynomial)?)?;
    }
    Ok(found)
}

/// The points where one of the polynomials is 1, and the least polynomials with the values of the
/// others there.
fn answers_with_care<S: Store>(
    alloc: Global,
    store: &mut S,
    polynomials: Vec<Handle>,
    output: usize,
) -> Result<Answered, SolveRefusal>
    requires output { output < length polynomials.items }
    requires known { All (Knows (S.state store.old)) polynomials.items }
    requires planned { let s = S.state store.old in
        Covers s.plan (working_set s.vars
        (care_list s.vars (map (family s) polynomials.items) output)) }
    ensures grows { Grows (S.state store.old) (S.state store.new) }
    ensures found { IfOk result (λ found. let s = S.state store.old in
        HoldsCare (S.state store.new) s.vars (map (family s) polynomials.items) output found) }
    ensures full { IsErrOf result SolveRefusal.Full
        → IsFull (S.state store.old) (S.state store.new) }
{
    let mut others = polynomials;
    let own = others.remove(output);
    let points = points_where(store, own)?;
    let polynomials = all_reduced_at(alloc, store, points, &others)?;
    Ok(Answered {
        polynomials,
        points: Some(points),
    })
}

/// The answers of the circuit, whose polynomials are found by its steps.
pub(crate) fn answers<S: Store>(
    alloc: Global,
    store: &mut S,
    aig: &Aig,
    steps: &[Step],
    care: Option<usize>,
) -> Result<Answered, SolveRefusal>
    requires vars { (S.state store.old).vars ≡ aig.now.inputs }
    requires steps { steps.now ≡ steps_of (circuit aig.now) }
    requires care { ForSome care (λ output. output < length aig.now.outputs) }
    requires planned { Covers (S.state store.old).plan
        (working_set aig.now.inputs (answers_list (circuit aig.now) care)) }
    ensures grows { Grows (S.state store.old) (S.state store.new) }
    ensures found { IfOk result (HoldsAnswers (S.state store.new) (circuit aig.now) care) }
    ensures full { IsErrOf result SolveRefusal.Full
        → IsFull (S.state store.old) (S.state store.new) }
{
    let polynomials = output_polynomials(alloc, store, &mut Serial, aig, steps)?;
    match care {
        None => Ok(Answered {
            polynomials,
            points: None,
        }),
        Some(output) => answers_with_care(alloc, store, polynomials, output),
    }
}
