//! The ends of runs that are none of each program.
ghost use Rattle.circuit_run.specs.Ends.{end_way};

use aig_reader::Why;
use program::{End, Message, fixed_message, refusal_message};

/// How a run ends that ends in none of the ways of each program.
#[derive(Clone, Copy, Debug, PartialEq, Eq)]
pub enum CircuitEnd {
    /// In mode equal an output of one circuit differs from that of the other.
    Different,
    /// The file is refused for this cause: so many bytes stand before its first fault.
    File { byte: u32, why: Why },
    /// In mode equal the file is one circuit alone.
    Alone,
    /// In mode equal the inputs of both circuits have not the same names.
    OtherInputs,
    /// In mode equal the outputs of both circuits have not the same names.
    OtherOutputs,
    /// In mode equal both circuits, with the gates that compare them, have too many gates.
    TooManyGates,
    /// The circuit has no inputs.
    NoInputs,
    /// The order that the words ask for does not name every input once.
    Order,
    /// Not every name that is to be inverted is that of an input, or one is given twice.
    Invert,
    /// No output has the name that says which points are cared for.
    Care,
}

impl End for CircuitEnd {
    ghost use Rattle.std.proofs.Common.{inl, inr, lit≤, refl};
    ghost use Rattle.program.specs.Outcomes.{IsOwnStatus};
    ghost use Rattle.circuit_run.specs.declared.ends.CircuitEnd.TheVariants as owns;

    ghost way = { end_way };

    ghost own = { λ e. elim e as (λ k. IsOwnStatus (end_way k).status) [
      | owns.Different ↦ inl refl
      | owns.File byte why ↦ inr (inl refl)
      | owns.Alone ↦ inr (inl refl)
      | owns.OtherInputs ↦ inr (inl refl)
      | owns.OtherOutputs ↦ inr (inl refl)
      | owns.TooManyGates ↦ inr (inl refl)
      | owns.NoInputs ↦ inr (inl refl)
      | owns.Order ↦ inr (inr (lit≤ tt))
      | owns.Invert ↦ inr (inr (lit≤ tt))
      | owns.Care ↦ inr (inr (lit≤ tt))
    ] };

    fn status(&self) -> u8 {
        match self {
            CircuitEnd::Different => 1,
            CircuitEnd::File { .. }
            | CircuitEnd::Alone
            | CircuitEnd::OtherInputs
            | CircuitEnd::OtherOutputs
            | CircuitEnd::TooManyGates
            | CircuitEnd::NoInputs => 3,
            CircuitEnd::Order | CircuitEnd::Invert | CircuitEnd::Care => 12,
        }
    }

    fn message(&self) -> Message {
        match self {
            CircuitEnd::Different => Message::new(),
            CircuitEnd::File { byte, why } => refusal_message("byte", *byte, why.name()),
            CircuitEnd::Alone => fixed_message("two circuits are needed"),
            CircuitEnd::OtherInputs => fixed_message("the circuits must have the same inputs"),
            CircuitEnd::OtherOutputs => fixed_message("the circuits must have the same outputs"),
            CircuitEnd::TooManyGates => fixed_message("more than 1000000 gates for both"),
            CircuitEnd::NoInputs => fixed_message("there are no inputs"),
            CircuitEnd::Order => fixed_message("order must name every input once"),
            CircuitEnd::Invert => fixed_message("invert must name inputs, each once"),
            CircuitEnd::Care => fixed_message("care must name an output"),
        }
    }
}
