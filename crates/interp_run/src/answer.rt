//! The answer to a job on the bytes of a description.
ghost use Rattle.std.specs.Prelude.{◌≡◌, ◌⊎◌, ◌≤◌, IfOk, IfErr, length, map};
ghost use Rattle.lattice.specs.declared.kind.Mode.TheVariants.{Anf, Basis};
ghost use Rattle.anf_printer.specs.Text.{shown_answer};
ghost use Rattle.cli_words.specs.CommandLine.{IsWithin};
ghost use Rattle.program.specs.Duties.{IsDueFor};
ghost use Rattle.program.specs.Runs.{EndsWithout};
ghost use Rattle.pla_reader.specs.declared.reading.TheConstants.{MOST_BYTES};
ghost use Rattle.program.specs.declared.outcome.Outcome.TheVariants as outcomes;
ghost use Rattle.interp_run.specs.Answers.{notes_from};
ghost use Rattle.interp_run.specs.Due.{IsDue, least_jobs};
ghost use Rattle.interp_run.specs.Duty.{interp_duty};

use crate::describe::describe;
use crate::ends::OwnEnd;
use crate::means::Interp;
use crate::solve::solve;
use anf_printer::{Shown, answer_text};
use cli_words::Job;
use fork_branches::Pool;
use lattice::{Memory, Pages, Seq};
use outside::Rendezvous;
use pla_reader::MOST_BYTES;
use program::{Outcome, check_rows};
use std::alloc::{AllocError, Global};
use std::thread::Threads;
use watch::Note;

/// What watchers are told, a note for each output.
pub type Notes = Seq<Note>;

/// The texts of the outputs, and what watchers are told of each.
#[derive(Drop)]
pub struct Answered {
    pub pages: Pages,
    pub notes: Notes,
}

// What the watchers are told of each output.
fn make_notes(alloc: Global, shown: &[Shown]) -> Result<Notes, AllocError>
    requires few { length shown.now ≤ 64 }
    ensures { IfOk result (λ notes. notes ≡ notes_from 1 (map shown_answer shown.now)) }
{
    let mut notes = Vec::new(alloc);
    for (before, output) in shown.iter().enumerate() {
        notes.push(Note {
            output: before as u32 + 1,
            terms: output.poly.as_slice().len() as u64,
            basis: output.basis.as_slice().len() as u64,
        })?;
    }
    Ok(Notes::from_vec(notes))
}

/// The answer to a job of mode anf or basis on bytes within the limit, or how the run ends without
/// it: as is due, or for want of memory.
pub(crate) fn answer_file<R: Threads + Sync, P: Pool>(
    interp: &mut Interp<'_, R, P>,
    job: &Job,
    bytes: &[u8],
) -> Result<Answered, Outcome<OwnEnd>>
    requires mode { (job.now.mode ≡ Anf) ⊎ (job.now.mode ≡ Basis) }
    requires within { IsWithin job.now }
    requires fresh { P.done interp.old.pool.now ≡ 0 }
    requires few { length bytes.now ≤ MOST_BYTES }
    ensures same_pool { interp.new.pool.ghost_name ≡ interp.old.pool.ghost_name }
    ensures ok { IfOk result (λ a. IsDue job.now bytes.now
        (record { outcome = outcomes.Done; pages = a.pages; notes = a.notes })) }
    ensures jobs { IfOk result
        (λ a. least_jobs job.now.mode a.notes ≤ P.done interp.new.pool.now) }
    ensures few { IfOk result (λ a. (length a.notes ≡ length a.pages) × (length a.pages ≤ 64)) }
    ensures err { IfErr result (EndsWithout (IsDue job.now bytes.now)) }
{
    let (pla, _) = describe(interp.alloc, job, bytes)?;
    check_rows(&pla)?;
    let solution = solve(interp, &pla, job)?;
    let Ok(notes) = make_notes(interp.alloc, &solution.shown) else {
        return Err(Outcome::Memory);
    };
    match answer_text(interp.alloc, &pla, job.mode, &solution.shown) {
        Ok(pages) => Ok(Answered { pages, notes }),
        Err(Memory) => Err(Outcome::Memory),
    }
}

/// The answer to a job of mode anf or basis on the bytes, of which there may be any number, or how
/// a run ends without it: as is due, or for want of memory. The pool answers the jobs, also where
/// no answer comes of them.
pub fn answer_of<R: Threads + Sync, P: Pool>(
    rt: &R,
    alloc: Global,
    job: &Job,
    pool: &mut P,
    bytes: &[u8],
    gate: &Rendezvous,
) -> Result<Answered, Outcome<OwnEnd>>
    requires mode { (job.now.mode ≡ Anf) ⊎ (job.now.mode ≡ Basis) }
    requires within { IsWithin job.now }
    requires fresh { P.done pool.old ≡ 0 }
    ensures ok { IfOk result (λ a. IsDueFor interp_duty job.now bytes.now
        (record { outcome = outcomes.Done; pages = a.pages; notes = a.notes })) }
    ensures jobs { IfOk result (λ a. least_jobs job.now.mode a.notes ≤ P.done pool.new) }
    ensures few { IfOk result (λ a. (length a.notes ≡ length a.pages) × (length a.pages ≤ 64)) }
    ensures err { IfErr result (EndsWithout (IsDueFor interp_duty job.now bytes.now)) }
{
    if bytes.len() > MOST_BYTES {
        return Err(Outcome::TooLong { limit: MOST_BYTES });
    }
    let mut interp = Interp {
        rt,
        alloc,
        pool,
        gate,
    };
    answer_file(&mut interp, job, bytes)
}
