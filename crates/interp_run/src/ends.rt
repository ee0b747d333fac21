//! The ends of runs that are none of each program.
ghost use Rattle.interp_run.specs.Ends.{end_way};

use cert_check::{AnswerWhy, Fault};
use program::{End, Message, fixed_message, refusal_message};

/// How a run ends that ends in none of the ways of each program.
#[derive(Clone, Copy, Debug, PartialEq, Eq)]
pub enum OwnEnd {
    /// In mode check the answer that was judged is not right: its first fault, on this line of it.
    No { line: u32, why: Fault },
    /// In mode check there are more inputs than can be checked.
    TooWide,
    /// In mode check the answer is refused, at this line for this cause.
    AnswerText { line: u32, why: AnswerWhy },
    /// The order that the words ask for does not name every input once.
    Order,
}

impl End for OwnEnd {
    ghost use Rattle.std.proofs.Common.{inl, inr, lit≤, refl};
    ghost use Rattle.program.specs.Outcomes.{IsOwnStatus};
    ghost use Rattle.interp_run.specs.declared.ends.OwnEnd.TheVariants as owns;

    ghost way = { end_way };

    ghost own = { λ e. elim e as (λ k. IsOwnStatus (end_way k).status) [
      | owns.No line why ↦ inl refl
      | owns.TooWide ↦ inr (inl refl)
      | owns.AnswerText line why ↦ inr (inl refl)
      | owns.Order ↦ inr (inr (lit≤ tt))
    ] };

    fn status(&self) -> u8 {
        match self {
            OwnEnd::No { .. } => 1,
            OwnEnd::TooWide | OwnEnd::AnswerText { .. } => 3,
            OwnEnd::Order => 12,
        }
    }

    fn message(&self) -> Message {
        match self {
            OwnEnd::No { .. } => Message::new(),
            OwnEnd::TooWide => fixed_message("more than 14 inputs cannot be checked"),
            OwnEnd::AnswerText { line, why } => refusal_message("answer line", *line, why.name()),
            OwnEnd::Order => fixed_message("order must name every input once"),
        }
    }
}
