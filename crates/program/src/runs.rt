//! A run: the words, the reading, the answer, and the line on err.
ghost use Rattle.std.specs.Prelude.{◌≡◌, ◌≢◌, ◌⊎◌, ◌+◌, ◌≤◌, All, List, Some, ℕ, [], false, length};
ghost use Rattle.std.specs.Prelude.{true};
ghost use Rattle.std.specs.List.{concat};
ghost use Rattle.std.specs.Io.KnownBytes.{Appends, Keeps};
ghost use Rattle.lattice.specs.Counts.{Rose};
ghost use Rattle.outside.specs.Causes.{GainsUnlessRose, LosesAtMost};
ghost use Rattle.watch.specs.Notes.{states_by};
ghost use Rattle.program.specs.Duties.{Due, IsDueFor, IsLawful};
ghost use Rattle.program.specs.Outcomes.{HasText, line_of, status_of};
ghost use Rattle.program.specs.Runs.{Ran};
ghost use Rattle.program.specs.declared.lines.TheConstants.{LONGEST_MESSAGE, LONGEST_NAME};
ghost use Rattle.program.specs.declared.outcome.Outcome.{Outcome};
ghost use Rattle.program.specs.declared.outcome.Outcome.TheVariants as outcomes;

use crate::lines::line;
use crate::outcome::{End, Outcome};
use crate::programs::Program;
use lattice::Words;
use outside::{ReadStop, Sink, Source, read_up_to, write_whole};
use std::alloc::Global;
use watch::Watch;

// Reads the source, up to one byte more than the limit, and answers the job on its bytes.
fn answer_of_source<G: Program, S: Source, K: Sink>(
    alloc: Global,
    program: &mut G,
    job: &G::Job,
    source: &mut S,
    out: &mut K,
    watchers: &mut Vec<Box<dyn Watch>>,
) -> Outcome<G::Ends>
    requires ready { G.ready program.old }
    requires untold { All (λ s. s.told ≡ []) (states_by told patience watchers.old.items) }
    requires lawful { IsLawful (G.duty program.old) }
    requires fits { G.fits job.now }
    requires reads { (G.duty program.old).reads job.now ≡ true }
    ensures ran { (words : List (List ℕ)) → (G.duty program.old).IsAsked words job.now
        → Ran (G.duty program.old) (λ job due. G.earned job due program.new) words
        (S.left source.old) (K.held out.old) (K.held out.new)
        (states_by told patience watchers.old.items)
        (states_by told patience watchers.new.items) result }
    ensures keeps { G.keeps program.old program.new }
    ensures read { result ≡ outcomes.ReadFault → Rose (S.faults source.old) (S.faults source.new) }
    ensures write { result ≡ outcomes.WriteFault → Rose (K.faults out.old) (K.faults out.new) }
    ensures few { LosesAtMost (S.left source.old) (S.left source.new)
        ((G.duty program.old).limit + 1) }
{
    let limit = program.limit();
    let bytes = match read_up_to(alloc, source, limit + 1) {
        Ok(bytes) => bytes,
        Err(ReadStop::Fault) => return Outcome::ReadFault,
        Err(ReadStop::Memory) => return Outcome::Memory,
    };
    if bytes.len() > limit {
        return Outcome::TooLong { limit };
    }
    program.answer(alloc, job, &bytes, out, watchers)
}

// All but the line on err.
fn outcome_of<G: Program, S: Source, K: Sink>(
    alloc: Global,
    program: &mut G,
    words: &Words,
    source: &mut S,
    out: &mut K,
    watchers: &mut Vec<Box<dyn Watch>>,
) -> Outcome<G::Ends>
    requires ready { G.ready program.old }
    requires untold { All (λ s. s.told ≡ []) (states_by told patience watchers.old.items) }
    requires lawful { IsLawful (G.duty program.old) }
    ensures ran { Ran (G.duty program.old) (λ job due. G.earned job due program.new) words.now
        (S.left source.old) (K.held out.old) (K.held out.new)
        (states_by told patience watchers.old.items)
        (states_by told patience watchers.new.items) result }
    ensures keeps { G.keeps program.old program.new }
    ensures read { result ≡ outcomes.ReadFault → Rose (S.faults source.old) (S.faults source.new) }
    ensures write { result ≡ outcomes.WriteFault → Rose (K.faults out.old) (K.faults out.new) }
    ensures few { LosesAtMost (S.left source.old) (S.left source.new)
        ((G.duty program.old).limit + 1) }
    ensures untouched { result ≡ outcomes.Usage
        → (S.left source.new ≡ S.left source.old) × (S.faults source.new ≡ S.faults source.old) }
    ensures unread { (job : G.Job) → (G.duty program.old).IsAsked words.now job
        → (G.duty program.old).reads job ≡ false
        → (S.left source.new ≡ S.left source.old) × (S.faults source.new ≡ S.faults source.old) }
{
    let job = match program.job_of(alloc, words) {
        Ok(job) => job,
        Err(outcome) => return outcome,
    };
    if program.reads(&job) {
        answer_of_source(alloc, program, &job, source, out, watchers)
    } else {
        program.answer(alloc, &job, &[], out, watchers)
    }
}

/// Writes the line of the outcome to err, over the program's name and what it says on usage, and
/// answers its status. A failed write changes nothing.
pub fn report<N: End, E: Sink>(err: &mut E, name: &str, usage: &str, outcome: Outcome<N>) -> u8
    requires name { length name.now ≤ LONGEST_NAME }
    requires usage { length usage.now ≤ LONGEST_MESSAGE }
    ensures status { result ≡ status_of N.way outcome }
    ensures line { GainsUnlessRose (E.held err.old) (E.held err.new)
        (line_of N.way name.now usage.now outcome) (E.faults err.old) (E.faults err.new) }
{
    let message = outcome.message(usage);
    let _ = write_whole(err, line(name, message.as_str()).as_str().as_bytes());
    outcome.status()
}

/// Does all that the program does, and answers its status: takes the job from the words, reads the
/// source up to the program's limit, where the job reads it, has the program answer, and tells in a
/// line on err how the run ended.
pub fn run<G: Program, S: Source, K: Sink, E: Sink>(
    alloc: Global,
    program: &mut G,
    words: &Words,
    source: &mut S,
    out: &mut K,
    err: &mut E,
    watchers: &mut Vec<Box<dyn Watch>>,
) -> u8
    requires ready { G.ready program.old }
    requires untold { All (λ s. s.told ≡ []) (states_by told patience watchers.old.items) }

    // Where the source tells its bytes, or the job reads none, an answer is due and no fault was
    // counted, out gained its whole text, unless memory ran out.
    ensures headline { (job : G.Job) (bytes : List ℕ) (due : Due G.Ends)
        → (G.duty program.old).IsAsked words.now job
        → (S.left source.old ≡ Some bytes) ⊎ ((G.duty program.old).reads job ≡ false)
        → IsDueFor (G.duty program.old) job bytes due → HasText (G.duty program.old).way due.outcome
        → ¬ Rose (S.faults source.old) (S.faults source.new)
        → ¬ Rose (K.faults out.old) (K.faults out.new)
        → (result ≡ 7) ⊎ ((result ≡ status_of (G.duty program.old).way due.outcome)
        × Appends (K.held out.old) (K.held out.new) (concat due.pages)) }

    // For every source there are bytes, those that it told where it told them, for which the
    // outcome, what out gained and who was told are as is due, or yield to memory and faults; and
    // err gained the line of this outcome.
    ensures ran { (outcome : Outcome G.Ends) × (result ≡ status_of (G.duty program.old).way outcome)
        × Ran (G.duty program.old) (λ job due. G.earned job due program.new) words.now
        (S.left source.old) (K.held out.old) (K.held out.new)
        (states_by told patience watchers.old.items)
        (states_by told patience watchers.new.items) outcome
        × GainsUnlessRose (E.held err.old) (E.held err.new)
        (line_of (G.duty program.old).way (G.duty program.old).name (G.duty program.old).usage
        outcome) (E.faults err.old) (E.faults err.new) }
    ensures usage { result ≡ 2 → (G.duty program.old).IsRefused words.now }
    ensures taken { result ≢ 2 → result ≢ 7 → ¬ (G.duty program.old).IsRefused words.now }
    ensures refused { (G.duty program.old).IsRefused words.now
        → ¬ (G.duty program.old).WordsTakeMemory → result ≡ 2 }
    ensures read { result ≡ 8 → Rose (S.faults source.old) (S.faults source.new) }
    ensures write { result ≡ 9 → Rose (K.faults out.old) (K.faults out.new) }

    // Where the answer that is due was written, whole or in part, the program earned it.
    ensures earned { (job : G.Job) (bytes : List ℕ) (due : Due G.Ends)
        → (G.duty program.old).IsAsked words.now job
        → (S.left source.old ≡ Some bytes) ⊎ ((G.duty program.old).reads job ≡ false)
        → IsDueFor (G.duty program.old) job bytes due
        → (result ≤ 1) ⊎ (result ≡ 9) → G.earned job due program.new }
    ensures nothing { result ≢ 0 → result ≢ 1 → result ≢ 9
        → Keeps (K.held out.old) (K.held out.new) }
    ensures nobody { result ≢ 0 → result ≢ 1 → result ≢ 9
        → states_by told patience watchers.new.items ≡ states_by told patience watchers.old.items }
    ensures keeps { G.keeps program.old program.new }
    ensures few { LosesAtMost (S.left source.old) (S.left source.new)
        ((G.duty program.old).limit + 1) }
    ensures untouched { result ≡ 2
        → (S.left source.new ≡ S.left source.old) × (S.faults source.new ≡ S.faults source.old) }
    ensures unread { (job : G.Job) → (G.duty program.old).IsAsked words.now job
        → (G.duty program.old).reads job ≡ false
        → (S.left source.new ≡ S.left source.old) × (S.faults source.new ≡ S.faults source.old) }
{
    program.lawful();
    let name = program.name();
    let usage = program.usage();
    let outcome = outcome_of(alloc, program, words, source, out, watchers);
    report(err, name, usage, outcome)
}
