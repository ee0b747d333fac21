//! The top call: the words, the stream, and the line on err.
ghost use Rattle.std.specs.Prelude.{◌≡◌, ◌⊎◌, ◌≤◌, List, ℕ, Some, IfErr, IfOk, length};
ghost use Rattle.std.specs.List.{concat};
ghost use Rattle.std.specs.Io.KnownBytes.{Appends};
ghost use Rattle.lattice.specs.Counts.{Rose};
ghost use Rattle.outside.specs.Causes.{GainsUnlessRose};
ghost use Rattle.cli_words.specs.CommandLine.{IsWithin};
ghost use Rattle.cli_words.specs.declared.job.Job.{Job};
ghost use Rattle.file_relay.specs.Reading.{IsReadPast, IsReadThrough};
ghost use Rattle.file_relay.specs.declared.reader.TheConstants.{MOST_STREAM};
ghost use Rattle.program.specs.Duties.{Due, IsDueFor};
ghost use Rattle.program.specs.Outcomes.{HasText, line_of, status_of};
ghost use Rattle.program.specs.Runs.{GivesNoJob};
ghost use Rattle.program.specs.declared.outcome.NoEnd.{NoEnd};
ghost use Rattle.program.specs.declared.outcome.Outcome.{Outcome};
ghost use Rattle.program.specs.declared.outcome.Outcome.TheVariants as outcomes;
ghost use Rattle.batch_pipe.specs.Batches.{IsAsked, IsRefused, batch_duty};
ghost use Rattle.batch_pipe.specs.Runs.{Ends, stop_outcome};

use crate::answering::FileSolver;
use crate::laws::one_is_due;
use cli_words::{Job, WordsRefusal, read_words};
use file_batch::{BatchStop, write_batch};
use file_relay::MOST_STREAM;
use lattice::{Mode, Words};
use outside::{Rendezvous, Sink, Source};
use program::{NoEnd, Outcome, report, words_of};
use std::alloc::Global;
use std::env::Env;
use std::sync::Wait;
use std::thread::Threads;

const NAME: &str = "batch";

const USAGE: &str = "usage: batch anf|basis [--workers N] [--nodes B] [--terms T] [--order NAMES]";

// The job that the words ask for, or how the batch ends without one.
fn job_of(alloc: Global, words: &Words) -> Result<Job, Outcome<NoEnd>>
    ensures ok { IfOk result (λ job. IsAsked words.now job × IsWithin job) }
    ensures err { IfErr result (GivesNoJob batch_duty words.now) }
{
    let job = match read_words(alloc, words) {
        Ok(job) => job,
        Err(WordsRefusal::Usage) => return Err(Outcome::Usage),
        Err(WordsRefusal::Memory) => return Err(Outcome::Memory),
    };
    match job.mode {
        Mode::Anf | Mode::Basis => Ok(job),
        Mode::Check | Mode::Gen => Err(Outcome::Usage),
    }
}

// How a batch ends that was stopped.
fn outcome_of(stop: BatchStop) -> Outcome<NoEnd>
    ensures { result ≡ stop_outcome stop }
{
    match stop {
        BatchStop::Memory => Outcome::Memory,
        BatchStop::ReadFault => Outcome::ReadFault,
        BatchStop::WriteFault => Outcome::WriteFault,
        BatchStop::TooLong => Outcome::TooLong { limit: MOST_STREAM },
    }
}

// All but the line on err.
fn write_blocks<R: Threads + Wait + Sync, S: Source + Send, K: Sink + Send>(
    rt: &R,
    alloc: Global,
    words: &Words,
    source: &mut S,
    out: &mut K,
    gate: &Rendezvous,
) -> Outcome<NoEnd>
    ensures ends { Ends words.now (S.left source.old) (S.left source.new) (K.held out.old)
        (K.held out.new) result }
    ensures untouched { result ≡ outcomes.Usage → S.faults source.new ≡ S.faults source.old }
    ensures read { result ≡ outcomes.ReadFault → Rose (S.faults source.old) (S.faults source.new) }
    ensures write { result ≡ outcomes.WriteFault → Rose (K.faults out.old) (K.faults out.new) }
    ensures through { (result ≡ outcomes.Done) ⊎ (result ≡ outcomes.WriteFault)
        → IsReadThrough (S.left source.old) (S.left source.new) }
    ensures long { result ≡ outcomes.TooLong MOST_STREAM
        → IsReadPast (S.left source.old) (S.left source.new) }
{
    let job = match job_of(alloc, words) {
        Ok(job) => job,
        Err(outcome) => return outcome,
    };
    let solver = FileSolver {
        rt,
        job: &job,
        gate,
    };
    match write_batch(rt, alloc, &solver, source, out) {
        Ok(()) => Outcome::Done,
        Err(stop) => outcome_of(stop),
    }
}

/// Answers each file of the stream as `interp` answers it alone, and writes its block: the line
/// `file K S` with its number and its status, and where that is 0 the text of its outputs. It
/// answers the status of the batch, whose line err gains. Two threads read and answer at once. It
/// may wait for a thread: its promises hold where it returns.
pub fn batch<R: Threads + Wait + Sync, S: Source + Send, K: Sink + Send, E: Sink>(
    rt: &R,
    alloc: Global,
    words: &Words,
    source: &mut S,
    out: &mut K,
    err: &mut E,
    gate: &Rendezvous,
) -> u8
    // Where the source tells its bytes and no fault was counted, the outcome that is due, with the
    // whole text where there is one, unless memory ran out.
    ensures headline { (job : Job) (bytes : List ℕ) (due : Due NoEnd) → IsAsked words.now job
        → S.left source.old ≡ Some bytes → IsDueFor batch_duty job bytes due
        → ¬ Rose (S.faults source.old) (S.faults source.new)
        → ¬ Rose (K.faults out.old) (K.faults out.new)
        → (result ≡ 7) ⊎ ((result ≡ status_of batch_duty.way due.outcome)
        × (HasText batch_duty.way due.outcome
        → Appends (K.held out.old) (K.held out.new) (concat due.pages))) }

    ensures answered { (job : Job) (bytes : List ℕ) → IsAsked words.now job
        → S.left source.old ≡ Some bytes → length bytes ≤ MOST_STREAM
        → ¬ Rose (S.faults source.old) (S.faults source.new)
        → ¬ Rose (K.faults out.old) (K.faults out.new) → (result ≡ 0) ⊎ (result ≡ 7) }

    // For every source and sink: what the source lost and out gained, and the line of the outcome.
    ensures ran { (outcome : Outcome NoEnd) × (result ≡ status_of batch_duty.way outcome)
        × Ends words.now (S.left source.old) (S.left source.new) (K.held out.old) (K.held out.new)
        outcome
        × GainsUnlessRose (E.held err.old) (E.held err.new)
        (line_of batch_duty.way batch_duty.name batch_duty.usage outcome) (E.faults err.old)
        (E.faults err.new) }
    ensures usage { result ≡ 2 → IsRefused words.now }
    ensures refused { IsRefused words.now → (result ≡ 2) ⊎ (result ≡ 7) }
    ensures untouched { result ≡ 2
        → (S.left source.new ≡ S.left source.old) × (S.faults source.new ≡ S.faults source.old) }
    ensures read { result ≡ 8 → Rose (S.faults source.old) (S.faults source.new) }
    ensures write { result ≡ 9 → Rose (K.faults out.old) (K.faults out.new) }

    // A stream is read to its end, within the limit, before a write fault is answered, and past
    // the limit where it is too long.
    ensures through { (result ≡ 0) ⊎ (result ≡ 9)
        → IsReadThrough (S.left source.old) (S.left source.new) }
    ensures long { result ≡ 10 → IsReadPast (S.left source.old) (S.left source.new) }
{
    one_is_due();
    let outcome = write_blocks(rt, alloc, words, source, out, gate);
    report(err, NAME, USAGE, outcome)
}

/// Runs the batch on the words of the command line, and answers its status. Where there is no
/// memory for them, it ends as one that is out of memory.
pub fn start_batch<
    R: Env + Alloc + Threads + Wait + Sync,
    S: Source + Send,
    K: Sink + Send,
    E: Sink,
>(rt: &R, alloc: Global, source: &mut S, out: &mut K, err: &mut E) -> u8
    // There are words for which the batch ended so, or there was no memory for them; and err gained
    // the line of the outcome.
    ensures ran { (outcome : Outcome NoEnd) × (result ≡ status_of batch_duty.way outcome)
        × (words : List (List ℕ))
        × Ends words (S.left source.old) (S.left source.new) (K.held out.old) (K.held out.new)
        outcome
        × GainsUnlessRose (E.held err.old) (E.held err.new)
        (line_of batch_duty.way batch_duty.name batch_duty.usage outcome) (E.faults err.old)
        (E.faults err.new) }
    ensures read { result ≡ 8 → Rose (S.faults source.old) (S.faults source.new) }
    ensures write { result ≡ 9 → Rose (K.faults out.old) (K.faults out.new) }
{
    let Ok(words) = words_of(rt, alloc) else {
        let outcome: Outcome<NoEnd> = Outcome::Memory;
        return report(err, NAME, USAGE, outcome);
    };
    batch(rt, alloc, &words, source, out, err, &Rendezvous::open())
}
