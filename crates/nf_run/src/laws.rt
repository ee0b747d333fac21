//! Functions that do nothing. Their contracts are laws, so a check proves these.
ghost use Rattle.std.specs.Prelude.{ℕ};
ghost use Rattle.program.specs.Duties.{OneIsDue};
ghost use Rattle.nf_run.specs.Duty.{query_duty};
ghost use Rattle.nf_run.specs.Laws.{DueForExamples, JointBasisExists, JointBasisIsUnique};
ghost use Rattle.nf_run.specs.Laws.{SomeIsDue};

use cube_sets::conflict;
use pla_reader::Pla;

/// The intersection and the sum of the ideals of two outputs' care points have a reduced basis
/// each.
pub fn joint_basis_exists()
    ensures { JointBasisExists }
{}

/// They have only one.
pub fn joint_basis_is_unique()
    ensures { JointBasisIsUnique }
{}

/// For a mode and bytes one outcome, with its text, is due at most.
pub fn one_is_due()
    ensures { (bits : ℕ) → OneIsDue (query_duty bits) }
{}

/// For a mode and bytes that describe the file, one is due at least. Where the bytes have no
/// description, their refusal is due.
pub fn some_is_due(pla: &Pla)
    ensures { SomeIsDue pla.now }
{
    let _ = conflict(pla);
}

/// What is due for worked files in each mode, for a query that is refused, and for a file with one
/// output in a mode that needs two.
pub fn due_for_examples()
    ensures { DueForExamples }
{}
