//! The answer to a job on the bytes of a source.
ghost use Rattle.std.specs.Prelude.{◌≡◌, ◌≢◌, ◌≤◌, IfErr, IfOk, false, is_some, length, true};
ghost use Rattle.std.specs.List.{list_any};
ghost use Rattle.aig_reader.specs.declared.reading.TheConstants.{MOST_BYTES};
ghost use Rattle.circuit_words.specs.CommandLine.{IsWithin};
ghost use Rattle.circuit_words.specs.declared.job.CircuitMode.TheVariants.{Count};
ghost use Rattle.program.specs.Duties.{done};
ghost use Rattle.program.specs.Runs.{EndsWithout};
ghost use Rattle.circuit_run.specs.Due.{IsDue, IsDueOn, equal_end, has_basis, stopped};
ghost use Rattle.circuit_run.specs.Parts.{IsWhole, answer_due, view};
ghost use Rattle.circuit_run.specs.Subjects.{compares};

use crate::counts::counts_text;
use crate::ends::CircuitEnd;
use crate::equal::equal_text;
use crate::subject::subject;
use crate::texts::solution_text;
use crate::view::{CircuitOutcome, Seen, see};
use circuit_solve::{least_ones, measure_circuit, solve_circuit};
use circuit_words::{CircuitJob, CircuitMode};
use lattice::{Memory, Mono, Text};
use node_store::SolveRefusal;
use program::Outcome;
use set_algebra::TermsRefusal;
use std::alloc::Global;

/// An answer: how a run ends that writes it, and its text.
#[derive(Drop)]
pub(crate) struct Answer {
    pub outcome: CircuitOutcome,
    pub text: Text,
}

// How a run ends whose terms were not given.
fn stop(job: &CircuitJob, refusal: TermsRefusal) -> CircuitOutcome
    requires { IsWithin job.now }
    ensures { result ≡ stopped job.now refusal }
{
    match refusal {
        TermsRefusal::Full => Outcome::Exhausted {
            nodes: 1 << job.nodes,
        },
        TermsRefusal::Over => Outcome::Terms { limit: job.terms },
        TermsRefusal::Memory => Outcome::Memory,
    }
}

// Whether the mode has the basis behind the polynomials.
fn has_basis(mode: CircuitMode) -> bool
    ensures { result ≡ has_basis mode }
{
    match mode {
        CircuitMode::Basis => true,
        CircuitMode::Anf | CircuitMode::Count | CircuitMode::Equal => false,
    }
}

// The least polynomials, and in mode basis the basis behind them, as text, or how the run ends
// without it.
fn solve_text(alloc: Global, job: &CircuitJob, seen: &Seen) -> Result<Text, CircuitOutcome>
    requires mode { job.now.mode ≢ Count }
    requires one { compares job.now.mode ≡ false }
    requires within { IsWithin job.now }
    requires whole { IsWhole (view seen.now) }
    ensures ok { IfOk result (λ text. IsDueOn job.now (view seen.now) (done text)) }
    ensures err { IfErr result (EndsWithout (IsDueOn job.now (view seen.now))) }
{
    let solution = match solve_circuit(
        alloc,
        job.nodes,
        &seen.aig,
        seen.care,
        has_basis(job.mode),
        job.terms,
    ) {
        Ok(solution) => solution,
        Err(refusal) => return Err(stop(job, refusal)),
    };
    let polynomials = solution.polynomials.as_slice();
    match solution_text(alloc, seen, polynomials, solution.basis.as_slice()) {
        Ok(text) => Ok(text),
        Err(Memory) => Err(Outcome::Memory),
    }
}

// The measures of the least polynomials as text, or how the run ends without it.
fn count_text(alloc: Global, job: &CircuitJob, seen: &Seen) -> Result<Text, CircuitOutcome>
    requires mode { job.now.mode ≡ Count }
    requires within { IsWithin job.now }
    requires whole { IsWhole (view seen.now) }
    ensures ok { IfOk result (λ text. IsDueOn job.now (view seen.now) (done text)) }
    ensures err { IfErr result (EndsWithout (IsDueOn job.now (view seen.now))) }
{
    let measures = match measure_circuit(alloc, job.nodes, &seen.aig, seen.care) {
        Ok(measures) => measures,
        Err(SolveRefusal::Full) => return Err(stop(job, TermsRefusal::Full)),
        Err(SolveRefusal::Memory) => return Err(Outcome::Memory),
    };
    match counts_text(alloc, seen, &measures) {
        Ok(text) => Ok(text),
        Err(Memory) => Err(Outcome::Memory),
    }
}

// Whether there is a point for an output.
fn has_point(points: &[Option<Mono>]) -> bool
    ensures { result ≡ list_any is_some points.now }
{
    points.iter().any(|point| point.is_some())
}

// How a run ends that found these least points at which outputs differ.
fn end_for(points: &[Option<Mono>]) -> CircuitOutcome
    ensures { result ≡ equal_end points.now }
{
    if has_point(points) {
        Outcome::Own(CircuitEnd::Different)
    } else {
        Outcome::Done
    }
}

// The least points at which outputs of two circuits differ as text, or how the run ends without it.
fn equal_answer(alloc: Global, job: &CircuitJob, seen: &Seen) -> Result<Answer, CircuitOutcome>
    requires mode { compares job.now.mode ≡ true }
    requires within { IsWithin job.now }
    requires whole { IsWhole (view seen.now) }
    ensures ok { IfOk result (λ answer. IsDueOn job.now (view seen.now) (answer_due answer)) }
    ensures err { IfErr result (EndsWithout (IsDueOn job.now (view seen.now))) }
{
    let points = match least_ones(alloc, job.nodes, &seen.aig, seen.care) {
        Ok(points) => points,
        Err(SolveRefusal::Full) => return Err(stop(job, TermsRefusal::Full)),
        Err(SolveRefusal::Memory) => return Err(Outcome::Memory),
    };
    match equal_text(alloc, seen, &points) {
        Ok(text) => Ok(Answer {
            outcome: end_for(&points),
            text,
        }),
        Err(Memory) => Err(Outcome::Memory),
    }
}

// An answer that says no nowhere.
fn done(text: Text) -> Answer
    ensures { answer_due result ≡ done text }
{
    Answer {
        outcome: Outcome::Done,
        text,
    }
}

/// The answer that is due for the job on the bytes, or how the run ends without it.
pub(crate) fn answer_job(
    alloc: Global,
    job: &CircuitJob,
    bytes: &[u8],
) -> Result<Answer, CircuitOutcome>
    requires within { IsWithin job.now }
    requires few { length bytes.now ≤ MOST_BYTES }
    ensures ok { IfOk result (λ answer. IsDue job.now bytes.now (answer_due answer)) }
    ensures err { IfErr result (EndsWithout (IsDue job.now bytes.now)) }
{
    let aig = subject(alloc, job, bytes)?;
    let seen = see(alloc, job, &aig)?;
    match job.mode {
        CircuitMode::Anf | CircuitMode::Basis => Ok(done(solve_text(alloc, job, &seen)?)),
        CircuitMode::Count => Ok(done(count_text(alloc, job, &seen)?)),
        CircuitMode::Equal => equal_answer(alloc, job, &seen),
    }
}
