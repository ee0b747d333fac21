//! The top call: nfq as a program.
ghost use Rattle.std.specs.Prelude.{◌≡◌, ◌≢◌, ◌⊎◌, ◌↔◌, ◌+◌, ◌≤◌, [], List, ℕ, Some, codes};
ghost use Rattle.std.specs.List.{concat};
ghost use Rattle.std.specs.Io.KnownBytes.{Appends, Keeps};
ghost use Rattle.lattice.specs.Counts.{Rose};
ghost use Rattle.lattice.specs.declared.limits.TheConstants.{MIN_BITS, MAX_BITS};
ghost use Rattle.outside.specs.Causes.{GainsUnlessRose, LosesAtMost};
ghost use Rattle.program.specs.Duties.{IsDueFor};
ghost use Rattle.program.specs.Outcomes.{line_of, status_of};
ghost use Rattle.program.specs.Runs.{Ran};
ghost use Rattle.pla_reader.specs.declared.reading.TheConstants.{MOST_BYTES};
ghost use Rattle.program.specs.declared.outcome.Outcome.{Outcome};
ghost use Rattle.program.specs.declared.outcome.Outcome.TheVariants as outcomes;
ghost use Rattle.nf_run.specs.Due.{QueryDue};
ghost use Rattle.nf_run.specs.Duty.{IsAsked, IsRefused, QueryRan, query_duty, query_usage};
ghost use Rattle.nf_run.specs.Ends.{end_way};
ghost use Rattle.nf_run.specs.declared.ends.QueryEnd.{QueryEnd};
ghost use Rattle.nf_run.specs.declared.mode.QueryMode.{QueryMode};

use crate::answer::answer_text;
use crate::ends::QueryEnd;
use crate::mode::{QueryMode, mode_of};
use lattice::Words;
use outside::{Sink, Source};
use pla_reader::MOST_BYTES;
use program::{Outcome, Program, run, start_program, write_page};
use std::alloc::Global;
use std::env::Env;
use watch::Watch;

/// The program, over stores of 2^bits slots.
#[derive(Drop)]
struct Nfq {
    bits: u32,
}

impl Program for Nfq {
    ghost use Rattle.std.specs.Prelude.{◌≤◌};
    ghost use Rattle.std.proofs.Common.{refl};
    ghost use Rattle.lattice.specs.declared.limits.TheConstants.{MIN_BITS, MAX_BITS};
    ghost use Rattle.nf_run.specs.Duty.{query_duty};

    type Job = QueryMode;

    type Ends = QueryEnd;

    ghost duty = { λ s. query_duty s.bits };

    ghost ready = { λ s. (MIN_BITS ≤ s.bits) × (s.bits ≤ MAX_BITS) };

    ghost keeps = { λ _ _. Unit {0} };

    ghost earned = { λ _ _ _. Unit {0} };

    ghost fits = { λ _. Unit {0} };

    ghost ways = { λ _. refl };

    ghost kept = { λ _. tt };

    fn lawful(&self) {}

    fn name(&self) -> &'static str {
        "nfq"
    }

    fn usage(&self) -> &'static str {
        "usage: nfq reduce|union|meet"
    }

    fn limit(&self) -> usize {
        MOST_BYTES
    }

    fn job_of(&self, _alloc: Global, words: &Words) -> Result<QueryMode, Outcome<QueryEnd>> {
        match mode_of(words) {
            Some(mode) => Ok(mode),
            None => Err(Outcome::Usage),
        }
    }

    fn reads(&self, _job: &QueryMode) -> bool {
        true
    }

    fn answer<K: Sink>(
        &mut self,
        alloc: Global,
        job: &QueryMode,
        bytes: &[u8],
        out: &mut K,
        _watchers: &mut Vec<Box<dyn Watch>>,
    ) -> Outcome<QueryEnd> {
        match answer_text(alloc, *job, self.bits, bytes) {
            Ok(text) => write_page(out, text.as_slice()),
            Err(outcome) => outcome,
        }
    }
}

/// Does all that the program does, over stores of 2^bits slots, and answers its status. In mode
/// reduce it answers the queries that stand after the description; in modes union and meet it finds
/// the reduced basis of the intersection and of the sum of the ideals of the care points of both
/// outputs.
pub fn nf_run<S: Source, K: Sink, E: Sink>(
    alloc: Global,
    words: &Words,
    bits: u32,
    source: &mut S,
    out: &mut K,
    err: &mut E,
) -> u8
    requires bits { (MIN_BITS ≤ bits) × (bits ≤ MAX_BITS) }

    // Where the source tells its bytes, an answer is due and no fault was counted, out gained its
    // whole text, unless memory ran out: that of the least polynomials with the values of the
    // queries, or of the reduced basis.
    ensures headline { (mode : QueryMode) (bytes : List ℕ) (due : QueryDue) → IsAsked words.now mode
        → S.left source.old ≡ Some bytes → IsDueFor (query_duty bits) mode bytes due
        → due.outcome ≡ outcomes.Done → ¬ Rose (S.faults source.old) (S.faults source.new)
        → ¬ Rose (K.faults out.old) (K.faults out.new)
        → (result ≡ 7)
        ⊎ ((result ≡ 0) × Appends (K.held out.old) (K.held out.new) (concat due.pages)) }

    // For every source there are bytes, those that it told where it told them, for which the
    // outcome and what out gained are as is due, or yield to memory and faults; and err gained the
    // line of this outcome.
    ensures ran { (outcome : Outcome QueryEnd) × (result ≡ status_of end_way outcome)
        × QueryRan bits words.now (S.left source.old) (K.held out.old) (K.held out.new) outcome
        × GainsUnlessRose (E.held err.old) (E.held err.new)
        (line_of end_way (codes "nfq") query_usage outcome) (E.faults err.old) (E.faults err.new) }
    ensures usage { (result ≡ 2) ↔ IsRefused words.now }
    ensures read { result ≡ 8 → Rose (S.faults source.old) (S.faults source.new) }
    ensures write { result ≡ 9 → Rose (K.faults out.old) (K.faults out.new) }
    ensures nothing { result ≢ 0 → result ≢ 9 → Keeps (K.held out.old) (K.held out.new) }
    ensures few { LosesAtMost (S.left source.old) (S.left source.new) (MOST_BYTES + 1) }
    ensures untouched { result ≡ 2
        → (S.left source.new ≡ S.left source.old) × (S.faults source.new ≡ S.faults source.old) }
{
    let mut watchers = Vec::new(alloc);
    run(
        alloc,
        &mut Nfq { bits },
        words,
        source,
        out,
        err,
        &mut watchers,
    )
}

/// The same on the words of the command line. Where there is no memory for them, the run ends as
/// one that is out of memory.
pub fn start_nf_run<R: Env + Alloc, S: Source, K: Sink, E: Sink>(
    rt: &R,
    alloc: Global,
    bits: u32,
    source: &mut S,
    out: &mut K,
    err: &mut E,
) -> u8
    requires bits { (MIN_BITS ≤ bits) × (bits ≤ MAX_BITS) }

    // There are words for which the run was as is due, or there was no memory for them; and err
    // gained the line of the outcome.
    ensures ran { (outcome : Outcome QueryEnd) × (result ≡ status_of end_way outcome)
        × (((words : List (List ℕ))
        × QueryRan bits words (S.left source.old) (K.held out.old) (K.held out.new) outcome)
        ⊎ ((outcome ≡ outcomes.Memory) × Keeps (K.held out.old) (K.held out.new)))
        × GainsUnlessRose (E.held err.old) (E.held err.new)
        (line_of end_way (codes "nfq") query_usage outcome) (E.faults err.old) (E.faults err.new) }
    ensures read { result ≡ 8 → Rose (S.faults source.old) (S.faults source.new) }
    ensures write { result ≡ 9 → Rose (K.faults out.old) (K.faults out.new) }
    ensures few { LosesAtMost (S.left source.old) (S.left source.new) (MOST_BYTES + 1) }
{
    let mut watchers = Vec::new(alloc);
    start_program(
        rt,
        alloc,
        &mut Nfq { bits },
        source,
        out,
        err,
        &mut watchers,
    )
}
