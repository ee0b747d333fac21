//! The answer to a file of a stream.
ghost use Rattle.std.specs.Prelude.{◌≡◌, ◌≢◌, [], IfOk, IsOk};
ghost use Rattle.std.specs.Thread.{IsSync};
ghost use Rattle.cli_words.specs.CommandLine.{IsWithin};
ghost use Rattle.program.specs.Outcomes.{status_of};
ghost use Rattle.program.specs.declared.outcome.Outcome.TheVariants as outcomes;
ghost use Rattle.interp_run.specs.Duty.{interp_duty};
ghost use Rattle.batch_pipe.specs.Batches.{IsAnsweredAlone, Solves};

use cli_words::Job;
use file_batch::{Answerer, FileAnswer};
use file_stream::Piece;
use fork_branches::Drawn;
use interp_run::{OwnEnd, answer_of};
use lattice::{Memory, Pages};
use outside::Rendezvous;
use pla_reader::MOST_BYTES;
use program::Outcome;
use std::alloc::Global;
use std::thread::Threads;

// The status of a run that is out of memory.
const OUT_OF_MEMORY: u8 = 7;

/// Answers each file as `interp` does, for one job, with a pool of its own for each.
#[derive(Drop)]
pub(crate) struct FileSolver<'a, R> {
    pub rt: &'a R,
    pub job: &'a Job,
    pub gate: &'a Rendezvous,
}

// A file without an answer has a status alone; want of memory is no status of a file.
fn without_answer(alloc: Global, outcome: Outcome<OwnEnd>) -> Result<FileAnswer, Memory>
    ensures answer { IfOk result
        (λ a. (a.status ≡ status_of interp_duty.way outcome) × (a.pages ≡ [])) }
    ensures remembered { IsOk result → outcome ≢ outcomes.Memory }
{
    let status = outcome.status();
    if status == OUT_OF_MEMORY {
        return Err(Memory);
    }
    Ok(FileAnswer {
        status,
        pages: Pages::new(alloc),
    })
}

impl<'a, R: Threads + Sync> Answerer for FileSolver<'a, R> {
    ghost ready = { λ solver. IsSync R.row × Solves solver.job.now.mode × IsWithin solver.job.now };

    ghost answers = { λ solver. IsAnsweredAlone solver.job.now };

    fn answer(&self, alloc: Global, file: &Piece) -> Result<FileAnswer, Memory> {
        let bytes = match file {
            Piece::Kept(bytes) => bytes,
            Piece::Long => {
                return without_answer(alloc, Outcome::TooLong { limit: MOST_BYTES });
            }
        };
        let mut pool = Drawn::new();
        match answer_of(
            self.rt,
            alloc,
            self.job,
            &mut pool,
            bytes.as_slice(),
            self.gate,
        ) {
            Ok(answer) => Ok(FileAnswer {
                status: 0,
                pages: answer.pages,
            }),
            Err(outcome) => without_answer(alloc, outcome),
        }
    }
}
