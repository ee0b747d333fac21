//! Queries answered on a table of their own.
ghost use Rattle.std.specs.Prelude.{◌≡◌, ◌<◌, ◌≤◌, ◌^◌, IfOk, IsErrOf, OnOk, reverse};
ghost use Rattle.std.specs.List.{All, AllZip};
ghost use Rattle.lattice.specs.WorkingLists.{working_set};
ghost use Rattle.lattice.specs.declared.limits.TheConstants.{MIN_BITS, MAX_BITS};
ghost use Rattle.pla_reader.specs.Reading.{description};
ghost use Rattle.nf_run.specs.Answers.{FindsAnswers, IsAnswerTo, answer_terms, queries_list};
ghost use Rattle.nf_run.specs.Answers.{query_nodes};
ghost use Rattle.nf_run.specs.Queries.{IsQueryOver};

use crate::answering::answer_queries;
use crate::plans::{Sought, plan_for};
use crate::queries::Query;
use computed_cache::CachedPass;
use cube_build::{Demand, next_bits};
use lattice::MonoLists;
use node_store::Store;
use pla_reader::Pla;
use set_algebra::{TermsRefusal, lists_upto};
use std::alloc::Global;
use unique_table::Shared;

/// The answers' terms, each from the greatest to the least, found in a store with the plan of the
/// queries.
fn reduce_in<S: Store>(
    alloc: Global,
    store: &mut S,
    p: &Pla,
    queries: &[Query],
    limit: u64,
) -> Result<MonoLists, TermsRefusal>
    requires over { All (IsQueryOver p.now.inputs p.now.outputs) queries.now }
    requires vars { (S.state store.old).vars ≡ p.now.inputs }
    requires plan { (S.state store.old).plan
        ≡ working_set p.now.inputs (queries_list (description p.now) queries.now) }
    ensures { FindsAnswers (S.state store.old).capacity limit (description p.now) queries.now
        result }
{
    let found = answer_queries(alloc, store, p, queries)?;
    Ok(lists_upto(alloc, store, &found, limit)?)
}

/// The same on a table of 2^bits slots, which all queries share.
fn reduce_on(
    alloc: Global,
    bits: u32,
    p: &Pla,
    queries: &[Query],
    limit: u64,
) -> Result<MonoLists, TermsRefusal>
    requires bits { (MIN_BITS ≤ bits) × (bits ≤ MAX_BITS) }
    requires over { All (IsQueryOver p.now.inputs p.now.outputs) queries.now }
    ensures { FindsAnswers (2 ^ bits) limit (description p.now) queries.now result }
{
    let plan = plan_for(p, &Sought::Answers(queries));
    let (table, token) = Shared::make(alloc, bits, p.inputs, plan)?;
    let mut pass = CachedPass::new(table.pass(token));
    reduce_in(alloc, &mut pass, p, queries, limit)
}

/// What the queries ask of their tables: polynomials from the points of each output, and for each
/// query the points where it is 1 and where it is 0. For each of its terms more these may need
/// twice as many nodes, but no more than there are points.
fn demand_of<'a>(p: &'a Pla, queries: &[Query]) -> Demand<'a> {
    let mut besides = 0u64;
    for query in queries {
        let terms = query.terms.len().min(32);
        let nodes = u64::from(p.inputs) << (terms + 1);
        besides = besides.saturating_add(nodes.min(1 << p.inputs.min(32)));
    }
    Demand {
        pla: p,
        is_basis: false,
        besides,
    }
}

/// Answers the queries on a table of 2^bits slots: for each the terms, from the greatest to the
/// least, of the least polynomial that has the values of the query's at the care points of its
/// output, where all have at most `limit` terms. The care points of an output are found once,
/// however many queries are on it. `Full` comes where more nodes are needed than there are slots,
/// and else `Over` where the answers have more terms. Smaller tables are tried first that the
/// description may do with.
pub fn reduce(
    alloc: Global,
    bits: u32,
    p: &Pla,
    queries: &[Query],
    limit: u64,
) -> Result<MonoLists, TermsRefusal>
    requires bits { (MIN_BITS ≤ bits) × (bits ≤ MAX_BITS) }
    requires over { All (IsQueryOver p.now.inputs p.now.outputs) queries.now }
    ensures answers { IfOk result
        (AllZip (λ q terms. IsAnswerTo (description p.now) q (reverse terms)) queries.now) }
    ensures fits { OnOk result (query_nodes (description p.now) queries.now ≤ 2 ^ bits) }
    ensures few { OnOk result (answer_terms (description p.now) queries.now ≤ limit) }
    ensures exhausted { IsErrOf result TermsRefusal.Full
        → 2 ^ bits < query_nodes (description p.now) queries.now }
    ensures terms { IsErrOf result TermsRefusal.Over
        → (query_nodes (description p.now) queries.now ≤ 2 ^ bits)
        × (limit < answer_terms (description p.now) queries.now) }
{
    // No guess is followed: for the points where a polynomial is 1 it is often wrong.
    let mut tried = demand_of(p, queries).first_bits(bits);
    while tried < bits {
        match reduce_on(alloc, tried, p, queries, limit) {
            Err(TermsRefusal::Full) => tried = next_bits(tried, bits),
            answers => return answers,
        }
    }
    reduce_on(alloc, bits, p, queries, limit)
}
