//! The description that the bytes of a source begin with.
ghost use Rattle.std.specs.Prelude.{◌≡◌, IfErr, OnOk, drop};
ghost use Rattle.lattice.specs.Rows.{IsConsistent};
ghost use Rattle.pla_reader.specs.Reading.{description};
ghost use Rattle.program.specs.Descriptions.{IsContradiction, unread_outcome};
ghost use Rattle.program.specs.declared.outcome.Outcome.TheVariants as outcomes;

use crate::outcome::Outcome;
use cube_sets::conflict;
use lattice::Memory;
use pla_reader::{Pla, ReadRefusal};

impl<E> From<ReadRefusal> for Outcome<E> {
    ghost from_gives = { λ refusal o. o ≡ unread_outcome refusal };

    fn from(refusal: ReadRefusal) -> Outcome<E> {
        match refusal {
            ReadRefusal::Bad(refusal) => Outcome::Text {
                line: refusal.line,
                why: refusal.why,
            },
            ReadRefusal::Memory => Outcome::Memory,
        }
    }
}

impl<E> From<Memory> for Outcome<E> {
    ghost from_gives = { λ _ o. o ≡ outcomes.Memory };

    fn from(_: Memory) -> Outcome<E> {
        Outcome::Memory
    }
}

/// Nothing where no rows contradict each other, and else how the run ends.
pub fn check_rows<E>(pla: &Pla) -> Result<(), Outcome<E>>
    ensures ok { OnOk result (IsConsistent pla.now.inputs pla.now.outputs pla.now.rows) }
    ensures err { IfErr result (IsContradiction (description pla.now)) }
{
    match conflict(pla) {
        None => Ok(()),
        Some(clash) => Err(Outcome::Contradiction(clash)),
    }
}

/// The bytes behind the first ones, of which there may be fewer.
pub fn behind(bytes: &[u8], taken: usize) -> &[u8]
    ensures { result.now ≡ drop taken bytes.now }
{
    bytes.get(taken..).unwrap_or(&[])
}
