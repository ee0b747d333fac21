//! Functions that do nothing. Their contracts are laws, so a check proves these.
ghost use Rattle.program.specs.Duties.{IsLawful, OneIsDue};
ghost use Rattle.batch_pipe.specs.Batches.{batch_duty};
ghost use Rattle.batch_pipe.specs.Laws.{DueForTwoFiles};

use interp_run::laws::due_for_two_points;
use std::alloc::Global;

/// The words of a batch ask for one job at most, and for a job and a stream one text, or one
/// outcome without a text, is due at most.
pub fn one_is_due()
    ensures one { OneIsDue batch_duty }
    ensures lawful { IsLawful batch_duty }
{
    interp_run::laws::one_is_due();
}

/// What is due for a worked stream: so the premises of the clauses of `batch` are met.
pub fn due_for_two_files(alloc: Global)
    ensures { DueForTwoFiles }
{
    due_for_two_points(alloc);
}
