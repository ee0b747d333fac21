//! The answers to queries.
ghost use Rattle.std.specs.Prelude.{◌≡◌, ◌≤◌, ◌==◌, true, IfOk, IsErrOf, OnErr, length};
ghost use Rattle.std.specs.List.{All, list_any};
ghost use Rattle.lattice.specs.Family.{Covers};
ghost use Rattle.lattice.specs.WorkingLists.{working_set};
ghost use Rattle.node_store.specs.Stores.{Grows, IsFull};
ghost use Rattle.pla_reader.specs.Reading.{description};
ghost use Rattle.cube_build.specs.CarePoints.{HoldsPoints};
ghost use Rattle.nf_run.specs.Answers.{AreAnswered, HoldsAll, queries_list};
ghost use Rattle.nf_run.specs.Queries.{IsQueryOver};

use crate::queries::Query;
use crate::reduction::reduce_polynomial;
use cube_build::care_points;
use node_store::{Full, Handle, SolveRefusal, Store};
use pla_reader::Pla;
use std::alloc::Global;

/// Whether a query is on the output.
fn is_named(queries: &[Query], output: u32) -> bool
    ensures { result ≡ list_any (λ q. q.output == output) queries.now }
{
    queries.iter().any(|query| query.output == output)
}

/// The care points of the output where a query is on it, and else Handle(0).
#[tactic(auto, using(crate::proofs::QueryAnswers::points_rules))]
fn points_for<S: Store>(
    store: &mut S,
    p: &Pla,
    queries: &[Query],
    output: u32,
) -> Result<Handle, Full>
    requires output { (1 ≤ output) × (output ≤ p.now.outputs) }
    requires vars { (S.state store.old).vars ≡ p.now.inputs }
    requires planned { Covers (S.state store.old).plan
        (working_set p.now.inputs (queries_list (description p.now) queries.now)) }
    ensures grows { Grows (S.state store.old) (S.state store.new) }
    ensures points { IfOk result (λ h. list_any (λ q. q.output == output) queries.now ≡ true
        → HoldsPoints (S.state store.new) (description p.now) output h) }
    ensures full { OnErr result (IsFull (S.state store.old) (S.state store.new)) }
{
    if is_named(queries, output) {
        care_points(store, p, output)
    } else {
        Ok(Handle(0))
    }
}

/// The care points of each output that a query is on, and Handle(0) for any other.
#[tactic(auto, using(crate::proofs::QueryAnswers::points_rules))]
fn all_points<S: Store>(
    alloc: Global,
    store: &mut S,
    p: &Pla,
    queries: &[Query],
) -> Result<Vec<Handle>, SolveRefusal>
    requires vars { (S.state store.old).vars ≡ p.now.inputs }
    requires over { All (IsQueryOver p.now.inputs p.now.outputs) queries.now }
    requires planned { Covers (S.state store.old).plan
        (working_set p.now.inputs (queries_list (description p.now) queries.now)) }
    ensures grows { Grows (S.state store.old) (S.state store.new) }
    ensures many { IfOk result (λ points. length points.items ≡ p.now.outputs) }
    ensures points { IfOk result (λ points. HoldsAll (S.state store.new)
        (description p.now) queries.now points.items) }
    ensures full { IsErrOf result SolveRefusal.Full
        → IsFull (S.state store.old) (S.state store.new) }
{
    let mut points = Vec::new(alloc);
    for before in 0..p.outputs {
        points.push(points_for(store, p, queries, before + 1)?)?;
    }
    Ok(points)
}

/// The answers, from the care points of the outputs.
fn answers_on<S: Store>(
    alloc: Global,
    store: &mut S,
    p: &Pla,
    queries: &[Query],
    points: &[Handle],
) -> Result<Vec<Handle>, SolveRefusal>
    requires vars { (S.state store.old).vars ≡ p.now.inputs }
    requires over { All (IsQueryOver p.now.inputs p.now.outputs) queries.now }
    requires many { length points.now ≡ p.now.outputs }
    requires points { HoldsAll (S.state store.old) (description p.now) queries.now points.now }
    requires planned { Covers (S.state store.old).plan
        (working_set p.now.inputs (queries_list (description p.now) queries.now)) }
    ensures grows { Grows (S.state store.old) (S.state store.new) }
    ensures answers { IfOk result
        (λ answers. AreAnswered (S.state store.new) (description p.now) queries.now answers.items) }
    ensures full { IsErrOf result SolveRefusal.Full
        → IsFull (S.state store.old) (S.state store.new) }
{
    let mut answers = Vec::new(alloc);
    for query in queries {
        let points = points[query.output as usize - 1];
        answers.push(reduce_polynomial(store, points, query.terms.as_slice())?)?;
    }
    Ok(answers)
}

/// The answer to each query, in a store with a variable for each input: the least polynomial that
/// has the values of the query's at the care points of its output. These are found once for each
/// output. `Full` comes only where the plan has more families than the store has slots, and
/// `Memory` where a list of handles found none.
pub fn answer_queries<S: Store>(
    alloc: Global,
    store: &mut S,
    p: &Pla,
    queries: &[Query],
) -> Result<Vec<Handle>, SolveRefusal>
    requires vars { (S.state store.old).vars ≡ p.now.inputs }
    requires over { All (IsQueryOver p.now.inputs p.now.outputs) queries.now }
    requires planned { Covers (S.state store.old).plan
        (working_set p.now.inputs (queries_list (description p.now) queries.now)) }
    ensures grows { Grows (S.state store.old) (S.state store.new) }
    ensures answers { IfOk result
        (λ answers. AreAnswered (S.state store.new) (description p.now) queries.now answers.items) }
    ensures full { IsErrOf result SolveRefusal.Full
        → IsFull (S.state store.old) (S.state store.new) }
{
    let points = all_points(alloc, store, p, queries)?;
    answers_on(alloc, store, p, queries, &points)
}
