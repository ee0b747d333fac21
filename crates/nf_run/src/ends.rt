//! The ends of runs that are none of each program.
ghost use Rattle.std.specs.Prelude.{◌≡◌};
ghost use Rattle.std.proofs.Common.{inl, inr, refl};
ghost use Rattle.nf_run.specs.Ends.{end_way};

use crate::queries::QueryWhy;
use program::{End, Message, fixed_message, refusal_message};

/// How a run ends that ends in none of the ways of each program.
#[derive(Clone, Copy, Debug, PartialEq, Eq)]
pub enum QueryEnd {
    /// The queries are refused, at this line for this cause.
    QueryText { line: u32, why: QueryWhy },
    /// Two outputs are needed, and there is another number of them.
    TwoOutputs,
}

impl End for QueryEnd {
    ghost way = { end_way };

    ghost own = { λ _. inr (inl refl) };

    fn status(&self) -> u8 {
        3
    }

    fn message(&self) -> Message {
        match self {
            QueryEnd::QueryText { line, why } => refusal_message("query line", *line, why.name()),
            QueryEnd::TwoOutputs => fixed_message("two outputs are needed"),
        }
    }
}
