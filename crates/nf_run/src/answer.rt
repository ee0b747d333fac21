//! The text that answers a mode on the bytes of a source.
ghost use Rattle.std.specs.Prelude.{◌≡◌, ◌↔◌, ◌<◌, ◌≤◌, ◌^◌, IfErr, IfOk, IsTrue, length};
ghost use Rattle.lattice.specs.declared.limits.TheConstants.{MIN_BITS, MAX_BITS};
ghost use Rattle.pla_reader.specs.Reading.{description};
ghost use Rattle.program.specs.Duties.{done};
ghost use Rattle.program.specs.Runs.{EndsWithout};
ghost use Rattle.nf_run.specs.Due.{IsDue, IsDueJoining, IsDueReducing, stopped};
ghost use Rattle.nf_run.specs.Parts.{refused_outcome};

use crate::ends::QueryEnd;
use crate::joint::{Joining, joint_basis};
use crate::mode::QueryMode;
use crate::queries::QueryRefusal;
use crate::reading::read_queries;
use crate::solving::reduce;
use crate::texts::{answers_text, basis_text};
use lattice::{Memory, Text};
use pla_reader::{Pla, read};
use program::{Outcome, behind, check_rows};
use set_algebra::TermsRefusal;
use std::alloc::Global;

/// The limit of each count of terms.
const MOST_TERMS: u64 = 1_000_000;

/// How a run of nfq ends.
type QueryOutcome = Outcome<QueryEnd>;

// How a run ends whose queries are refused.
fn refuse(refusal: QueryRefusal) -> QueryOutcome
    ensures { result ≡ refused_outcome refusal }
{
    match refusal {
        QueryRefusal::Bad { line, why } => Outcome::Own(QueryEnd::QueryText { line, why }),
        QueryRefusal::Memory => Outcome::Memory,
    }
}

// How a run ends whose terms were not given on stores of 2^bits slots.
fn stop(bits: u32, refusal: TermsRefusal) -> QueryOutcome
    requires { bits ≤ MAX_BITS }
    ensures { result ≡ stopped bits refusal }
{
    match refusal {
        TermsRefusal::Full => Outcome::Exhausted { nodes: 1 << bits },
        TermsRefusal::Over => Outcome::Terms { limit: MOST_TERMS },
        TermsRefusal::Memory => Outcome::Memory,
    }
}

// The text that answers the queries behind the description, or how the run ends without it.
#[tactic(auto, using(crate::proofs::Endings::reduced_rules))]
fn reduce_text(alloc: Global, bits: u32, p: &Pla, text: &[u8]) -> Result<Text, QueryOutcome>
    requires bits { (MIN_BITS ≤ bits) × (bits ≤ MAX_BITS) }
    requires short { length text.now < 2 ^ 32 }
    ensures ok { IfOk result (λ answer. IsDueReducing bits (description p.now) text.now
        (done answer)) }
    ensures err { IfErr result (EndsWithout (IsDueReducing bits (description p.now) text.now)) }
{
    let queries = match read_queries(alloc, p, text) {
        Ok(queries) => queries,
        Err(refusal) => return Err(refuse(refusal)),
    };
    check_rows(p)?;
    let answers = match reduce(alloc, bits, p, queries.as_slice(), MOST_TERMS) {
        Ok(answers) => answers,
        Err(refusal) => return Err(stop(bits, refusal)),
    };
    match answers_text(alloc, p, queries.as_slice(), answers.as_slice()) {
        Ok(text) => Ok(text),
        Err(Memory) => Err(Outcome::Memory),
    }
}

// Whether there are two outputs.
fn has_two_outputs(p: &Pla) -> bool
    ensures { IsTrue result ↔ (p.now.outputs ≡ 2) }
{
    p.outputs == 2
}

// The text of the basis of the ideal that is made of those of both outputs, or how the run ends
// without it.
#[tactic(auto, using(crate::proofs::Endings::joined_rules))]
fn join_text(alloc: Global, bits: u32, p: &Pla, joining: Joining) -> Result<Text, QueryOutcome>
    requires bits { (MIN_BITS ≤ bits) × (bits ≤ MAX_BITS) }
    ensures ok { IfOk result (λ basis. IsDueJoining bits (description p.now) joining (done basis)) }
    ensures err { IfErr result (EndsWithout (IsDueJoining bits (description p.now) joining)) }
{
    if !has_two_outputs(p) {
        return Err(Outcome::Own(QueryEnd::TwoOutputs));
    }
    check_rows(p)?;
    let basis = match joint_basis(alloc, bits, p, joining, MOST_TERMS) {
        Ok(basis) => basis,
        Err(refusal) => return Err(stop(bits, refusal)),
    };
    match basis_text(alloc, p, basis.as_slice()) {
        Ok(text) => Ok(text),
        Err(Memory) => Err(Outcome::Memory),
    }
}

/// The text that is due for the mode on the bytes, or how the run ends without it.
#[tactic(auto, using(crate::proofs::Endings::answer_rules))]
pub(crate) fn answer_text(
    alloc: Global,
    mode: QueryMode,
    bits: u32,
    bytes: &[u8],
) -> Result<Text, QueryOutcome>
    requires bits { (MIN_BITS ≤ bits) × (bits ≤ MAX_BITS) }
    requires short { length bytes.now < 2 ^ 32 }
    ensures ok { IfOk result (λ text. IsDue mode bits bytes.now (done text)) }
    ensures err { IfErr result (EndsWithout (IsDue mode bits bytes.now)) }
{
    let (pla, taken) = read(alloc, bytes)?;
    match mode {
        QueryMode::Reduce => reduce_text(alloc, bits, &pla, behind(bytes, taken)),
        QueryMode::Join(joining) => join_text(alloc, bits, &pla, joining),
    }
}
