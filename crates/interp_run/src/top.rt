//! The top call: interp as a program.
ghost use Rattle.std.specs.Prelude.{◌≡◌, ◌≢◌, ◌⊎◌, ◌+◌, ◌≤◌, [], List, ℕ, All, Some, codes};
ghost use Rattle.std.specs.Prelude.{length};
ghost use Rattle.std.specs.List.{concat};
ghost use Rattle.std.specs.Io.KnownBytes.{Appends, Keeps};
ghost use Rattle.lattice.specs.Counts.{Rose};
ghost use Rattle.lattice.specs.declared.kind.Mode.TheVariants.{Anf, Basis, Check, Gen};
ghost use Rattle.outside.specs.Causes.{GainsUnlessRose, LosesAtMost};
ghost use Rattle.cli_words.specs.CommandLine.{IsWithin};
ghost use Rattle.cli_words.specs.declared.job.Job.{Job};
ghost use Rattle.watch.specs.Notes.{WatcherState, states_by};
ghost use Rattle.program.specs.Duties.{IsDueFor};
ghost use Rattle.program.specs.Outcomes.{HasText, line_of, status_of};
ghost use Rattle.program.specs.Runs.{Answers, Ran};
ghost use Rattle.pla_reader.specs.declared.reading.TheConstants.{MOST_BYTES};
ghost use Rattle.program.specs.declared.outcome.Outcome.{Outcome};
ghost use Rattle.program.specs.declared.outcome.Outcome.TheVariants as outcomes;
ghost use Rattle.interp_run.specs.Due.{InterpDue, IsDue, least_jobs};
ghost use Rattle.interp_run.specs.Duty.{HasJobs, IsAsked, IsRefused, interp_duty, interp_usage};
ghost use Rattle.interp_run.specs.Ends.{end_way};
ghost use Rattle.interp_run.specs.declared.ends.OwnEnd.{OwnEnd};

use crate::answer::answer_file;
use crate::ends::OwnEnd;
use crate::judge::{end_after, judge, print_verdict};
use crate::means::Interp;
use crate::summary::summarize;
use cli_words::{Job, WordsRefusal, read_words};
use fork_branches::Pool;
use lattice::{Mode, Words};
use outside::{Failed, Rendezvous, Sink, Source, write_whole};
use pla_reader::MOST_BYTES;
use program::{Outcome, Program, write_page, write_pages};
use std::alloc::Global;
use std::thread::Threads;
use watch::Watch;

// Solves the description, and writes the answer.
fn write_answer<R: Threads + Sync, K: Sink, P: Pool>(
    interp: &mut Interp<'_, R, P>,
    job: &Job,
    bytes: &[u8],
    out: &mut K,
    watchers: &mut Vec<Box<dyn Watch>>,
) -> Outcome<OwnEnd>
    requires mode { (job.now.mode ≡ Anf) ⊎ (job.now.mode ≡ Basis) }
    requires within { IsWithin job.now }
    requires fresh { P.done interp.old.pool.now ≡ 0 }
    requires few { length bytes.now ≤ MOST_BYTES }
    requires untold { All (λ s. s.told ≡ []) (states_by told patience watchers.old.items) }
    ensures same_pool { interp.new.pool.ghost_name ≡ interp.old.pool.ghost_name }
    ensures answers { Answers end_way (IsDue job.now bytes.now)
        (HasJobs (P.done interp.new.pool.now) job.now) (K.held out.old) (K.held out.new)
        (states_by told patience watchers.old.items) (states_by told patience watchers.new.items)
        result }
    ensures write { result ≡ outcomes.WriteFault → Rose (K.faults out.old) (K.faults out.new) }
{
    let answer = match answer_file(interp, job, bytes) {
        Ok(answer) => answer,
        Err(outcome) => return outcome,
    };
    match write_pages(
        out,
        answer.pages.as_slice(),
        answer.notes.as_slice(),
        watchers,
    ) {
        Ok(()) => Outcome::Done,
        Err(Failed) => Outcome::WriteFault,
    }
}

// Judges the answer that stands after the description, and writes the verdict.
fn write_verdict<K: Sink>(alloc: Global, job: &Job, bytes: &[u8], out: &mut K) -> Outcome<OwnEnd>
    requires mode { job.now.mode ≡ Check }
    requires few { length bytes.now ≤ MOST_BYTES }
    ensures answers { (jobs : ℕ) (states : List WatcherState) → Answers end_way
        (IsDue job.now bytes.now) (HasJobs jobs job.now) (K.held out.old) (K.held out.new) states
        states result }
    ensures write { result ≡ outcomes.WriteFault → Rose (K.faults out.old) (K.faults out.new) }
{
    let verdict = match judge(alloc, job, bytes) {
        Ok(verdict) => verdict,
        Err(outcome) => return outcome,
    };
    match write_whole(out, print_verdict(verdict).as_str().as_bytes()) {
        Ok(()) => end_after(verdict),
        Err(Failed) => Outcome::WriteFault,
    }
}

// Solves the description that the job's seed makes, and writes the summary.
fn write_summary<R: Threads + Sync, K: Sink, P: Pool>(
    interp: &mut Interp<'_, R, P>,
    job: &Job,
    out: &mut K,
) -> Outcome<OwnEnd>
    requires mode { job.now.mode ≡ Gen }
    requires within { IsWithin job.now }
    requires fresh { P.done interp.old.pool.now ≡ 0 }
    ensures same_pool { interp.new.pool.ghost_name ≡ interp.old.pool.ghost_name }
    ensures answers { (states : List WatcherState) → Answers end_way (IsDue job.now [])
        (HasJobs (P.done interp.new.pool.now) job.now) (K.held out.old) (K.held out.new) states
        states result }
    ensures write { result ≡ outcomes.WriteFault → Rose (K.faults out.old) (K.faults out.new) }
{
    match summarize(interp, job) {
        Ok(text) => write_page(out, text.as_slice()),
        Err(outcome) => outcome,
    }
}

impl<R: Threads + Sync, P: Pool> Program for Interp<'_, R, P> {
    ghost use Rattle.std.specs.Prelude.{◌≡◌};
    ghost use Rattle.std.specs.Thread.{IsSync};
    ghost use Rattle.std.proofs.Common.{refl};
    ghost use Rattle.cli_words.specs.CommandLine.{IsWithin};
    ghost use Rattle.interp_run.specs.Duty.{HasJobs, interp_duty};

    type Job = Job;

    type Ends = OwnEnd;

    ghost duty = { λ _. interp_duty };

    ghost ready = { λ s. IsSync R.row × (P.done s.pool.now ≡ 0) };

    ghost keeps = { λ old new. new.pool.ghost_name ≡ old.pool.ghost_name };

    ghost earned = { λ job due s. HasJobs (P.done s.pool.now) job due };

    ghost fits = { IsWithin };

    ghost ways = { λ _. refl };

    ghost kept = { λ _. refl };

    fn lawful(&self) {}

    fn name(&self) -> &'static str {
        "interp"
    }

    fn usage(&self) -> &'static str {
        "usage: interp MODE [--workers N] [--nodes B] [--terms T] [--seed S] [--order NAMES]"
    }

    fn limit(&self) -> usize {
        MOST_BYTES
    }

    fn job_of(&self, alloc: Global, words: &Words) -> Result<Job, Outcome<OwnEnd>> {
        match read_words(alloc, words) {
            Ok(job) => Ok(job),
            Err(WordsRefusal::Usage) => Err(Outcome::Usage),
            Err(WordsRefusal::Memory) => Err(Outcome::Memory),
        }
    }

    fn reads(&self, job: &Job) -> bool {
        match job.mode {
            Mode::Anf | Mode::Basis | Mode::Check => true,
            Mode::Gen => false,
        }
    }

    fn answer<K: Sink>(
        &mut self,
        _alloc: Global,
        job: &Job,
        bytes: &[u8],
        out: &mut K,
        watchers: &mut Vec<Box<dyn Watch>>,
    ) -> Outcome<OwnEnd> {
        match job.mode {
            Mode::Check => write_verdict(self.alloc, job, bytes, out),
            Mode::Anf | Mode::Basis => write_answer(self, job, bytes, out, watchers),
            Mode::Gen => write_summary(self, job, out),
        }
    }
}

/// Does all that the program does, and answers its status. The job's number of workers solve the
/// outputs; on a table of at most 2^16 slots, and on one of 2^17 that is not the last one, one
/// finds the covers and two at most the polynomials. Their branches enter the gate at their starts.
/// The watchers are told of each output as soon as its text was written whole; those whose patience
/// ends are dropped.
pub fn run<R: Threads + Sync, S: Source, K: Sink, E: Sink, P: Pool>(
    rt: &R,
    alloc: Global,
    words: &Words,
    source: &mut S,
    out: &mut K,
    err: &mut E,
    pool: &mut P,
    gate: &Rendezvous,
    watchers: &mut Vec<Box<dyn Watch>>,
) -> u8
    requires untold { All (λ s. s.told ≡ []) (states_by told patience watchers.old.items) }
    requires fresh { P.done pool.old ≡ 0 }

    // Where the source tells its bytes, or in mode gen, an answer is due and no fault was counted,
    // out gained its whole text, unless memory ran out: that of the least polynomials and, in mode
    // basis, of the reduced bases; in mode check the verdict, and in mode gen the summary.
    ensures headline { (job : Job) (bytes : List ℕ) (due : InterpDue) → IsAsked words.now job
        → (S.left source.old ≡ Some bytes) ⊎ (job.mode ≡ Gen) → HasText end_way due.outcome
        → IsDueFor interp_duty job bytes due
        → ¬ Rose (S.faults source.old) (S.faults source.new)
        → ¬ Rose (K.faults out.old) (K.faults out.new)
        → (result ≡ 7) ⊎ ((result ≡ status_of end_way due.outcome)
        × Appends (K.held out.old) (K.held out.new) (concat due.pages)) }

    // For every source there are bytes, those that it told where it told them, for which the
    // outcome, what out gained and who was told are as is due, or yield to memory and faults; and
    // err gained the line of this outcome.
    ensures ran { (outcome : Outcome OwnEnd) × (result ≡ status_of end_way outcome)
        × Ran interp_duty (HasJobs (P.done pool.new)) words.now (S.left source.old)
        (K.held out.old) (K.held out.new) (states_by told patience watchers.old.items)
        (states_by told patience watchers.new.items) outcome
        × GainsUnlessRose (E.held err.old) (E.held err.new)
        (line_of end_way (codes "interp") interp_usage outcome) (E.faults err.old)
        (E.faults err.new) }
    ensures usage { result ≡ 2 → IsRefused words.now }
    ensures taken { result ≢ 2 → result ≢ 7 → ¬ IsRefused words.now }
    ensures read { result ≡ 8 → Rose (S.faults source.old) (S.faults source.new) }
    ensures write { result ≡ 9 → Rose (K.faults out.old) (K.faults out.new) }

    // Where an answer was written, whole or in part, the pool counts the jobs that find it, or
    // more.
    ensures jobs { (job : Job) (bytes : List ℕ) (due : InterpDue) → IsAsked words.now job
        → (S.left source.old ≡ Some bytes) ⊎ (job.mode ≡ Gen)
        → IsDueFor interp_duty job bytes due → job.mode ≢ Check
        → (result ≡ 0) ⊎ (result ≡ 9) → least_jobs job.mode due.notes ≤ P.done pool.new }

    ensures nothing { result ≢ 0 → result ≢ 1 → result ≢ 9
        → Keeps (K.held out.old) (K.held out.new) }
    ensures nobody { result ≢ 0 → result ≢ 9
        → states_by told patience watchers.new.items ≡ states_by told patience watchers.old.items }
    ensures checks { (job : Job) → IsAsked words.now job → (job.mode ≡ Check) ⊎ (job.mode ≡ Gen)
        → states_by told patience watchers.new.items ≡ states_by told patience watchers.old.items }
    ensures few { LosesAtMost (S.left source.old) (S.left source.new) (MOST_BYTES + 1) }
    ensures untouched { result ≡ 2
        → (S.left source.new ≡ S.left source.old) × (S.faults source.new ≡ S.faults source.old) }
    ensures generated { (job : Job) → IsAsked words.now job → job.mode ≡ Gen
        → (S.left source.new ≡ S.left source.old) × (S.faults source.new ≡ S.faults source.old) }
{
    let mut interp = Interp {
        rt,
        alloc,
        pool,
        gate,
    };
    program::run(alloc, &mut interp, words, source, out, err, watchers)
}
