//! The top call: circuit as a program.
ghost use Rattle.std.specs.Prelude.{◌≡◌, ◌≢◌, ◌⊎◌, ◌+◌, [], List, ℕ, Some, codes};
ghost use Rattle.std.specs.List.{concat};
ghost use Rattle.std.specs.Io.KnownBytes.{Appends, Keeps};
ghost use Rattle.lattice.specs.Counts.{Rose};
ghost use Rattle.outside.specs.Causes.{GainsUnlessRose, LosesAtMost};
ghost use Rattle.aig_reader.specs.declared.reading.TheConstants.{MOST_BYTES};
ghost use Rattle.circuit_words.specs.CommandLine.{IsAsked, IsRefused};
ghost use Rattle.circuit_words.specs.declared.job.CircuitJob.{CircuitJob};
ghost use Rattle.program.specs.Duties.{IsDueFor};
ghost use Rattle.program.specs.Outcomes.{HasText, line_of, status_of};
ghost use Rattle.program.specs.declared.outcome.Outcome.{Outcome};
ghost use Rattle.program.specs.declared.outcome.Outcome.TheVariants as outcomes;
ghost use Rattle.circuit_run.specs.Due.{CircuitDue};
ghost use Rattle.circuit_run.specs.Duty.{CircuitRan, circuit_duty, circuit_usage};
ghost use Rattle.circuit_run.specs.Ends.{end_way};
ghost use Rattle.circuit_run.specs.declared.ends.CircuitEnd.{CircuitEnd};

use crate::answer::answer_job;
use crate::ends::CircuitEnd;
use aig_reader::MOST_BYTES;
use circuit_words::{CircuitJob, read_circuit_words};
use cli_words::WordsRefusal;
use lattice::Words;
use outside::{Failed, Sink, Source, write_whole};
use program::{Outcome, Program, run, start_program};
use std::alloc::Global;
use std::env::Env;
use watch::Watch;

/// The program.
#[derive(Drop)]
struct Circuit;

impl Program for Circuit {
    ghost use Rattle.std.proofs.Common.{refl};
    ghost use Rattle.circuit_words.specs.CommandLine.{IsWithin};
    ghost use Rattle.circuit_run.specs.Duty.{circuit_duty};

    type Job = CircuitJob;

    type Ends = CircuitEnd;

    ghost duty = { λ _. circuit_duty };

    ghost ready = { λ _. Unit {0} };

    ghost keeps = { λ _ _. Unit {0} };

    ghost earned = { λ _ _ _. Unit {0} };

    ghost fits = { IsWithin };

    ghost ways = { λ _. refl };

    ghost kept = { λ _. tt };

    fn lawful(&self) {}

    fn name(&self) -> &'static str {
        "circuit"
    }

    fn usage(&self) -> &'static str {
        "usage: circuit anf|basis|count|equal [--nodes B] [--terms T] [--order NAMES] [--care NAME] [--invert NAMES]"
    }

    fn limit(&self) -> usize {
        MOST_BYTES
    }

    fn job_of(&self, alloc: Global, words: &Words) -> Result<CircuitJob, Outcome<CircuitEnd>> {
        match read_circuit_words(alloc, words) {
            Ok(job) => Ok(job),
            Err(WordsRefusal::Usage) => Err(Outcome::Usage),
            Err(WordsRefusal::Memory) => Err(Outcome::Memory),
        }
    }

    fn reads(&self, _job: &CircuitJob) -> bool {
        true
    }

    fn answer<K: Sink>(
        &mut self,
        alloc: Global,
        job: &CircuitJob,
        bytes: &[u8],
        out: &mut K,
        _watchers: &mut Vec<Box<dyn Watch>>,
    ) -> Outcome<CircuitEnd> {
        let answer = match answer_job(alloc, job, bytes) {
            Ok(answer) => answer,
            Err(outcome) => return outcome,
        };
        match write_whole(out, answer.text.as_slice()) {
            Ok(()) => answer.outcome,
            Err(Failed) => Outcome::WriteFault,
        }
    }
}

/// Does all that the program does, and answers its status: reads a circuit from the source, and
/// writes the least polynomials of its outputs, in mode basis the reduced basis of the points that
/// are cared for behind them, and in mode count their numbers of terms, degrees and nodes alone. In
/// mode equal it reads two circuits, and writes for each output whether it is the same in both; its
/// status is 1 where one is not.
pub fn circuit_run<S: Source, K: Sink, E: Sink>(
    alloc: Global,
    words: &Words,
    source: &mut S,
    out: &mut K,
    err: &mut E,
) -> u8
    // Where the source tells its bytes, an answer is due and no fault was counted, out gained its
    // whole text, unless memory ran out.
    ensures headline { (job : CircuitJob) (bytes : List ℕ) (due : CircuitDue)
        → IsAsked words.now job → S.left source.old ≡ Some bytes
        → IsDueFor circuit_duty job bytes due → HasText end_way due.outcome
        → ¬ Rose (S.faults source.old) (S.faults source.new)
        → ¬ Rose (K.faults out.old) (K.faults out.new)
        → (result ≡ 7) ⊎ ((result ≡ status_of end_way due.outcome)
        × Appends (K.held out.old) (K.held out.new) (concat due.pages)) }

    // For every source there are bytes, those that it told where it told them, for which the
    // outcome and what out gained are as is due, or yield to memory and faults; and err gained the
    // line of this outcome.
    ensures ran { (outcome : Outcome CircuitEnd) × (result ≡ status_of end_way outcome)
        × CircuitRan words.now (S.left source.old) (K.held out.old) (K.held out.new) outcome
        × GainsUnlessRose (E.held err.old) (E.held err.new)
        (line_of end_way (codes "circuit") circuit_usage outcome) (E.faults err.old)
        (E.faults err.new) }
    ensures usage { result ≡ 2 → IsRefused words.now }
    ensures taken { result ≢ 2 → result ≢ 7 → ¬ IsRefused words.now }
    ensures read { result ≡ 8 → Rose (S.faults source.old) (S.faults source.new) }
    ensures write { result ≡ 9 → Rose (K.faults out.old) (K.faults out.new) }
    ensures nothing { result ≢ 0 → result ≢ 1 → result ≢ 9
        → Keeps (K.held out.old) (K.held out.new) }
    ensures few { LosesAtMost (S.left source.old) (S.left source.new) (MOST_BYTES + 1) }
    ensures untouched { result ≡ 2
        → (S.left source.new ≡ S.left source.old) × (S.faults source.new ≡ S.faults source.old) }
{
    let mut watchers = Vec::new(alloc);
    run(alloc, &mut Circuit, words, source, out, err, &mut watchers)
}

/// The same on the words of the command line. Where there is no memory for them, the run ends as
/// one that is out of memory.
pub fn start_circuit_run<R: Env + Alloc, S: Source, K: Sink, E: Sink>(
    rt: &R,
    alloc: Global,
    source: &mut S,
    out: &mut K,
    err: &mut E,
) -> u8
    // There are words for which the run was as is due, or there was no memory for them; and err
    // gained the line of the outcome.
    ensures ran { (outcome : Outcome CircuitEnd) × (result ≡ status_of end_way outcome)
        × (((words : List (List ℕ))
        × CircuitRan words (S.left source.old) (K.held out.old) (K.held out.new) outcome)
        ⊎ ((outcome ≡ outcomes.Memory) × Keeps (K.held out.old) (K.held out.new)))
        × GainsUnlessRose (E.held err.old) (E.held err.new)
        (line_of end_way (codes "circuit") circuit_usage outcome) (E.faults err.old)
        (E.faults err.new) }
    ensures read { result ≡ 8 → Rose (S.faults source.old) (S.faults source.new) }
    ensures write { result ≡ 9 → Rose (K.faults out.old) (K.faults out.new) }
    ensures few { LosesAtMost (S.left source.old) (S.left source.new) (MOST_BYTES + 1) }
{
    let mut watchers = Vec::new(alloc);
    start_program(rt, alloc, &mut Circuit, source, out, err, &mut watchers)
}
