//! Reading queries from bytes.
ghost use Rattle.std.specs.Prelude.{◌≡◌, ◌<◌, ◌≤◌, ◌^◌, [], length, IfOk, MatchResult, None};
ghost use Rattle.std.specs.List.{All};
ghost use Rattle.cert_check.specs.Reading.{words};
ghost use Rattle.pla_reader.specs.Lines.{lines_of};
ghost use Rattle.pla_reader.specs.Parts.{Stops};
ghost use Rattle.pla_reader.specs.Reading.{description};
ghost use Rattle.lattice.specs.declared.limits.TheConstants.{MAX_VARS};
ghost use Rattle.nf_run.specs.Queries.{GivesQueries, IsQueryOver, order_refusal, queries_on};
ghost use Rattle.nf_run.specs.Queries.{query_fault, query_of, query_reading};

use crate::queries::{Queries, Query, QueryRefusal, QueryWhy};
use cert_check::{AnswerWhy, are_known, bare, monomials_of, place_of, sides};
use lattice::Name;
use pla_reader::{LineRefusal, Pla, includes, names_in_place, printed, split_line};
use std::alloc::Global;

/// The refusal of a line whose terms were not read, though all names are known.
fn order_refusal(refusal: LineRefusal<AnswerWhy>) -> LineRefusal<QueryWhy>
    ensures { result ≡ order_refusal refusal }
{
    match refusal {
        LineRefusal::Bad(_) => LineRefusal::Bad(QueryWhy::TermOrder),
        LineRefusal::Memory => LineRefusal::Memory,
    }
}

/// What the line asks.
#[tactic(auto, using(cert_check::proofs::Verdicts::known_place, cert_check::proofs::Verdicts::ordered_family), unfolding(crate::specs::Queries::query_fault, crate::specs::Queries::query_of))]
fn read_query(
    alloc: Global,
    ins: &[Name],
    outs: &[Name],
    line: &[u8],
) -> Result<Query, LineRefusal<QueryWhy>>
    requires few { length ins.now ≤ MAX_VARS }
    requires outputs { length outs.now ≤ 64 }
    ensures query { MatchResult result
        (λ q. (query_fault ins.now outs.now (words line.now) ≡ None)
        × (q ≡ query_of ins.now outs.now (words line.now)))
        (λ e. Stops e (query_fault ins.now outs.now (words line.now))) }
    ensures over { IfOk result (IsQueryOver (length ins.now) (length outs.now)) }
{
    let Some((left, right)) = sides(line) else {
        return Err(LineRefusal::Bad(QueryWhy::BadLine));
    };
    if !includes(outs, left) {
        return Err(LineRefusal::Bad(QueryWhy::UnknownName));
    }
    if !are_known(ins, right) {
        return Err(LineRefusal::Bad(QueryWhy::UnknownName));
    }
    let terms = match monomials_of(alloc, ins, right) {
        Ok(terms) => terms,
        Err(refusal) => return Err(order_refusal(refusal)),
    };
    Ok(Query {
        output: place_of(outs, left) as u32 + 1,
        terms,
    })
}

/// Reads the lines of queries with these names of inputs and outputs.
fn read_lines(
    alloc: Global,
    ins: &[Name],
    outs: &[Name],
    text: &[u8],
) -> Result<Queries, QueryRefusal>
    requires few { length ins.now ≤ MAX_VARS }
    requires outputs { length outs.now ≤ 64 }
    requires short { length text.now < 2 ^ 32 }
    ensures reading { GivesQueries result (queries_on ins.now outs.now 0 [] (lines_of text.now)) }
    ensures over { IfOk result (All (IsQueryOver (length ins.now) (length outs.now))) }
{
    let mut queries = Queries::new(alloc);
    let mut count = 0;
    let mut rest = text;
    while !rest.is_empty() {
        let (line, after) = split_line(rest);
        count += 1;
        rest = after;
        let line = bare(line);
        if !line.is_empty() {
            let query = match read_query(alloc, ins, outs, line) {
                Ok(query) => query,
                Err(refusal) => return Err(QueryRefusal::of_line(refusal, count)),
            };
            queries.push(query)?;
        }
    }
    Ok(queries)
}

/// Reads queries on the description, one on each line that is not empty: `N = R`, in the form of a
/// line of an answer.
///
/// N is the printed name of an output, and R a polynomial. `Bad` has the first bad line and the
/// first check that it fails; empty lines are counted.
#[tactic(auto, using(pla_reader::proofs::ArrangedInputs::count_printed))]
pub fn read_queries(alloc: Global, p: &Pla, text: &[u8]) -> Result<Queries, QueryRefusal>
    requires { length text.now < 2 ^ 32 }
    ensures reading { GivesQueries result (query_reading (description p.now) text.now) }
    ensures over { IfOk result (All (IsQueryOver p.now.inputs p.now.outputs)) }
{
    let for_inputs = names_in_place(alloc, "x", p.inputs, &p.in_names)?;
    let ins = printed(&for_inputs, &p.in_names);
    let for_outputs = names_in_place(alloc, "f", p.outputs, &p.out_names)?;
    let outs = printed(&for_outputs, &p.out_names);
    read_lines(alloc, ins, outs, text)
}
