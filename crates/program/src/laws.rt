//! Functions that do nothing. Their contracts are laws, so a check proves these.
ghost use Rattle.program.specs.Duties.{OneIsDue};

use crate::programs::Program;

/// For a job of the program and bytes one outcome, with its texts and notes, is due at most.
pub fn one_is_due<G: Program>(program: &G)
    ensures { OneIsDue (G.duty program.now) }
{
    program.lawful();
}
