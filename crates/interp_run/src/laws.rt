//! Functions that do nothing. Their contracts are the laws of `specs/Laws.antt`, so a check proves
//! these.
ghost use Rattle.program.specs.Duties.{IsLawful, OneIsDue};
ghost use Rattle.interp_run.specs.Duty.{interp_duty};
ghost use Rattle.interp_run.specs.Laws.{DueForTwoPoints, FirstWithinLast, SomeIsDue};
ghost use Rattle.interp_run.specs.Laws.{WordsAskForJobs, WorkersAreFree, YesIsRight};

use cube_sets::conflict;
use gen_pla::generate;
use pla_reader::Pla;
use std::alloc::Global;

/// Words ask for one job at most, and for a job and bytes one outcome, with its texts and notes, is
/// due at most.
pub fn one_is_due()
    ensures one { OneIsDue interp_duty }
    ensures lawful { IsLawful interp_duty }
{}

/// For a job and bytes that describe the file, one is due at least. Where the bytes have no file,
/// their refusal is due.
pub fn some_is_due(pla: &Pla)
    ensures { SomeIsDue pla.now }
{
    let _ = conflict(pla);
}

/// What is due does not depend on the number of workers.
pub fn workers_are_free()
    ensures { WorkersAreFree }
{}

/// Phase 1 needs no more nodes than the last phase: where the whole working set of a run fits the
/// slots, so does that of phase 1.
pub fn first_within_last()
    ensures { FirstWithinLast }
{}

/// The verdict on an answer is yes exactly where the answer is right.
pub fn yes_is_right()
    ensures { YesIsRight }
{}

/// There are words that ask for a job, in each mode and with an order, and words that are refused.
pub fn words_ask_for_jobs()
    ensures { WordsAskForJobs }
{}

/// What is due for a worked file in the modes anf, basis and check, by another order of its inputs,
/// and by a text that is none; and in mode gen something is due.
pub fn due_for_two_points(alloc: Global)
    ensures { DueForTwoPoints }
{
    let _ = generate(alloc, 0);
}
