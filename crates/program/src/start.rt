//! What a program's `main` does.
ghost use Rattle.std.specs.Prelude.{◌≡◌, ◌⊎◌, ◌+◌, All, IfOk, List, [], ℕ};
ghost use Rattle.std.specs.Io.KnownBytes.{Keeps};
ghost use Rattle.lattice.specs.Counts.{Rose};
ghost use Rattle.outside.specs.Causes.{GainsUnlessRose, LosesAtMost};
ghost use Rattle.watch.specs.Notes.{states_by};
ghost use Rattle.program.specs.Outcomes.{line_of, status_of};
ghost use Rattle.program.specs.Runs.{Ran};
ghost use Rattle.program.specs.declared.outcome.Outcome.{Outcome};
ghost use Rattle.program.specs.declared.outcome.Outcome.TheVariants as outcomes;

use crate::outcome::Outcome;
use crate::programs::Program;
use crate::runs::{report, run};
use lattice::{Memory, Words};
use outside::{Sink, Source};
use std::alloc::Global;
use std::env::{Env, args};
use std::io::ErrorKind;
use watch::Watch;

/// The words of the command line, or none where they are not all text: a run then answers how it is
/// used.
pub fn words_of<R: Env + Alloc>(rt: &R, alloc: Global) -> Result<Words, Memory> {
    let mut words = Words::new(alloc);
    match args(rt) {
        Ok(args) => {
            for word in args {
                words.push(word.as_str())?;
            }
        }
        Err(error) => {
            if error.kind() == ErrorKind::OutOfMemory {
                return Err(Memory);
            }
        }
    }
    Ok(words)
}

/// A list of one watcher, who was told nothing.
pub fn alone(alloc: Global, watcher: Box<dyn Watch>) -> Result<Vec<Box<dyn Watch>>, Memory>
    requires { told watcher ≡ [] }
    ensures { IfOk result (λ watchers. All (λ s. s.told ≡ [])
        (states_by told patience watchers.items)) }
{
    let mut watchers = Vec::with_capacity(alloc, 1)?;
    watchers.push(watcher)?;
    Ok(watchers)
}

/// Ends a run before which there was no memory: writes its line to err, and answers its status.
pub fn end_without_memory<G: Program, E: Sink>(err: &mut E, program: &G) -> u8
    ensures status { result ≡ status_of (G.duty program.now).way outcomes.Memory }
    ensures line { GainsUnlessRose (E.held err.old) (E.held err.new)
        (line_of (G.duty program.now).way (G.duty program.now).name (G.duty program.now).usage
        outcomes.Memory) (E.faults err.old) (E.faults err.new) }
{
    let outcome: Outcome<G::Ends> = Outcome::Memory;
    report(err, program.name(), program.usage(), outcome)
}

/// Runs the program on the words of the command line, and answers its status. Where there is no
/// memory for them, the run ends as one that is out of memory.
pub fn start_program<R: Env + Alloc, G: Program, S: Source, K: Sink, E: Sink>(
    rt: &R,
    alloc: Global,
    program: &mut G,
    source: &mut S,
    out: &mut K,
    err: &mut E,
    watchers: &mut Vec<Box<dyn Watch>>,
) -> u8
    requires ready { G.ready program.old }
    requires untold { All (λ s. s.told ≡ []) (states_by told patience watchers.old.items) }

    // There are words for which the run was as is due, or there was no memory for them; and err
    // gained the line of the outcome.
    ensures ran { (outcome : Outcome G.Ends)
        × (result ≡ status_of (G.duty program.old).way outcome)
        × (((words : List (List ℕ))
        × Ran (G.duty program.old) (λ job due. G.earned job due program.new) words
        (S.left source.old) (K.held out.old) (K.held out.new)
        (states_by told patience watchers.old.items)
        (states_by told patience watchers.new.items) outcome)
        ⊎ ((outcome ≡ outcomes.Memory) × Keeps (K.held out.old) (K.held out.new)
        × (states_by told patience watchers.new.items
        ≡ states_by told patience watchers.old.items)))
        × GainsUnlessRose (E.held err.old) (E.held err.new)
        (line_of (G.duty program.old).way (G.duty program.old).name (G.duty program.old).usage
        outcome) (E.faults err.old) (E.faults err.new) }
    ensures read { result ≡ 8 → Rose (S.faults source.old) (S.faults source.new) }
    ensures write { result ≡ 9 → Rose (K.faults out.old) (K.faults out.new) }
    ensures keeps { G.keeps program.old program.new }
    ensures few { LosesAtMost (S.left source.old) (S.left source.new)
        ((G.duty program.old).limit + 1) }
{
    let Ok(words) = words_of(rt, alloc) else {
        return end_without_memory(err, program);
    };
    run(alloc, program, &words, source, out, err, watchers)
}
