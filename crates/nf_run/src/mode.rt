//! What the words ask for.
ghost use Rattle.std.specs.Prelude.{IfSome, IsNone};
ghost use Rattle.nf_run.specs.Duty.{IsAsked, IsRefused};

use crate::joint::Joining;
use lattice::Words;

/// What a run does with a description.
#[derive(Clone, Copy, Debug, PartialEq, Eq)]
pub enum QueryMode {
    /// It answers the queries that stand after the description.
    Reduce,
    /// It finds the reduced basis of the ideal that is made of those of two outputs.
    Join(Joining),
}

/// The mode that the words ask for: the program's name, and the name of the mode.
pub(crate) fn mode_of(words: &Words) -> Option<QueryMode>
    ensures asked { IfSome result (IsAsked words.now) }
    ensures refused { IsNone result → IsRefused words.now }
{
    if words.count() != 2 {
        return None;
    }
    match words.word(1) {
        Some("reduce") => Some(QueryMode::Reduce),
        Some("union") => Some(QueryMode::Join(Joining::Union)),
        Some("meet") => Some(QueryMode::Join(Joining::Meet)),
        _ => None,
    }
}
