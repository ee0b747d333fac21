//! The circuit that a job looks at.
ghost use Rattle.std.specs.Prelude.{◌≡◌, ◌<◌, ◌≤◌, ◌^◌, Err, IfErr, IfOk, Ok, false, length, true};
ghost use Rattle.std.specs.Option.{ForSome};
ghost use Rattle.aig_pairs.specs.Pairs.{ReadsPair};
ghost use Rattle.aig_reader.specs.Reading.{circuit};
ghost use Rattle.aig_reader.specs.declared.reading.TheConstants.{MOST_BYTES};
ghost use Rattle.circuit_run.specs.Parts.{EndsBy, Finds, FindsDifference, IsUnread};
ghost use Rattle.circuit_run.specs.Parts.{circuits};
ghost use Rattle.circuit_run.specs.Subjects.{IsSubject, compares, file_end};
ghost use Rattle.circuit_run.specs.Subjects.{difference_by, miter_within};

use crate::ends::CircuitEnd;
use crate::view::{CircuitOutcome, care_of};
use aig_miter::{MiterRefusal, miter_of};
use aig_pairs::{MatchRefusal, PairRefusal, match_circuit, read_pair};
use aig_reader::{Aig, ReadRefusal, Refusal, read};
use circuit_words::{CircuitJob, CircuitMode};
use program::Outcome;
use std::alloc::Global;

// How a run ends whose file is refused.
fn refused(refusal: Refusal) -> CircuitEnd
    requires { refusal.byte < 2 ^ 32 }
    ensures { result ≡ file_end refusal }
{
    CircuitEnd::File {
        byte: refusal.byte as u32,
        why: refusal.why,
    }
}

// The circuit that the bytes say, or how the run ends without it.
fn read_one(alloc: Global, job: &CircuitJob, bytes: &[u8]) -> Result<Aig, CircuitOutcome>
    requires mode { compares job.now.mode ≡ false }
    requires few { length bytes.now ≤ MOST_BYTES }
    ensures ok { IfOk result (λ aig. IsSubject job.now bytes.now (Ok (circuit aig))) }
    ensures err { IfErr result (EndsBy (IsUnread job.now bytes.now)) }
{
    match read(alloc, bytes) {
        Ok(aig) => Ok(aig),
        Err(ReadRefusal::Bad(refusal)) => Err(Outcome::Own(refused(refusal))),
        Err(ReadRefusal::Memory) => Err(Outcome::Memory),
    }
}

// The two circuits that the bytes say, or how the run ends without them.
fn read_two(alloc: Global, job: &CircuitJob, bytes: &[u8]) -> Result<(Aig, Aig), CircuitOutcome>
    requires mode { compares job.now.mode ≡ true }
    requires few { length bytes.now ≤ MOST_BYTES }
    ensures ok { IfOk result (λ pair. ReadsPair bytes.now (Ok (circuits pair))) }
    ensures err { IfErr result (EndsBy (IsUnread job.now bytes.now)) }
{
    match read_pair(alloc, bytes) {
        Ok(pair) => Ok(pair),
        Err(PairRefusal::Bad(refusal)) => Err(Outcome::Own(refused(refusal))),
        Err(PairRefusal::Alone) => Err(Outcome::Own(CircuitEnd::Alone)),
        Err(PairRefusal::Memory) => Err(Outcome::Memory),
    }
}

// The circuit whose outputs are 1 where those of two circuits differ, or how the run ends without
// it.
fn difference_within(
    alloc: Global,
    first: &Aig,
    second: &Aig,
    care: Option<usize>,
) -> Result<Aig, CircuitOutcome>
    requires inputs { second.now.inputs ≡ first.now.inputs }
    requires outputs { length second.now.outputs ≡ length first.now.outputs }
    requires care { ForSome care (λ output. output < length first.now.outputs) }
    ensures { Finds circuit result (miter_within (circuit first.now) (circuit second.now) care) }
{
    match miter_of(alloc, first, second, care) {
        Ok(aig) => Ok(aig),
        Err(MiterRefusal::TooManyGates) => Err(Outcome::Own(CircuitEnd::TooManyGates)),
        Err(MiterRefusal::Memory) => Err(Outcome::Memory),
    }
}

// The same, with the output that the job says.
fn difference_by(
    alloc: Global,
    job: &CircuitJob,
    first: &Aig,
    second: &Aig,
) -> Result<Aig, CircuitOutcome>
    requires inputs { second.now.inputs ≡ first.now.inputs }
    requires outputs { length second.now.outputs ≡ length first.now.outputs }
    ensures { Finds circuit result
        (difference_by job.now (circuit first.now) (circuit second.now)) }
{
    let care = care_of(alloc, job, first)?;
    difference_within(alloc, first, second, care)
}

// The same of circuits whose names are to match.
fn compare(
    alloc: Global,
    job: &CircuitJob,
    first: &Aig,
    second: &Aig,
) -> Result<Aig, CircuitOutcome>
    ensures { FindsDifference job.now (circuit first.now) (circuit second.now) result }
{
    match match_circuit(alloc, first, second) {
        Ok(over) => difference_by(alloc, job, first, &over),
        Err(MatchRefusal::Inputs) => Err(Outcome::Own(CircuitEnd::OtherInputs)),
        Err(MatchRefusal::Outputs) => Err(Outcome::Own(CircuitEnd::OtherOutputs)),
        Err(MatchRefusal::Memory) => Err(Outcome::Memory),
    }
}

// The same of the two circuits that the bytes say.
fn read_difference(alloc: Global, job: &CircuitJob, bytes: &[u8]) -> Result<Aig, CircuitOutcome>
    requires mode { compares job.now.mode ≡ true }
    requires few { length bytes.now ≤ MOST_BYTES }
    ensures ok { IfOk result (λ aig. IsSubject job.now bytes.now (Ok (circuit aig))) }
    ensures err { IfErr result (EndsBy (IsUnread job.now bytes.now)) }
{
    let (first, second) = read_two(alloc, job, bytes)?;
    compare(alloc, job, &first, &second)
}

/// The circuit that the job looks at, or how the run ends without it: the circuit that the bytes
/// say; in mode equal one whose outputs are 1 where those of two circuits differ.
pub(crate) fn subject(alloc: Global, job: &CircuitJob, bytes: &[u8]) -> Result<Aig, CircuitOutcome>
    requires { length bytes.now ≤ MOST_BYTES }
    ensures ok { IfOk result (λ aig. IsSubject job.now bytes.now (Ok (circuit aig))) }
    ensures err { IfErr result (EndsBy (IsUnread job.now bytes.now)) }
{
    match job.mode {
        CircuitMode::Equal => read_difference(alloc, job, bytes),
        CircuitMode::Anf | CircuitMode::Basis | CircuitMode::Count => read_one(alloc, job, bytes),
    }
}
