//! Why a file was not read.
ghost use Rattle.std.specs.Prelude.{◌≡◌};
ghost use Rattle.aig_reader.specs.declared.refusal.Stop.TheVariants.{Memory};
ghost use Rattle.aig_reader.specs.Causes.{why_name};

use std::alloc::{AllocError, AllocFailed};

/// What is wrong with a file.
#[derive(Clone, Copy, Debug, PartialEq, Eq)]
pub enum Why {
    /// The file begins with neither `aig` nor `aag`.
    NoFormat,
    /// The bytes end within the file.
    Truncated,
    /// Another byte stands where a space or a line feed must.
    BadByte,
    /// No digit stands where a number must.
    BadNumber,
    /// A number is 1,000,000,000 or more, or a difference has more than three bytes.
    LongNumber,
    /// The greatest variable is not the number of inputs and gates, or in the ASCII form it is more
    /// than 2,000,000.
    VariableCount,
    /// There are more than 62 inputs.
    TooManyInputs,
    /// There are more than 64 outputs.
    TooManyOutputs,
    /// There are more than 1,000,000 gates.
    TooManyGates,
    /// There is a latch, or a symbol of one.
    Latch,
    /// The header goes on with the properties of version 1.9, or there is a symbol of one.
    Property,
    /// A literal is of no variable.
    LiteralRange,
    /// In the binary form an operand is not less than its gate, or the second one is greater than
    /// the first.
    GateOrder,
    /// What a line defines is constant, or a complement.
    NoVariable,
    /// A line defines what a line before it does.
    DefinedTwice,
    /// No line defines the variable of the literal.
    NotDefined,
    /// In the ASCII form a gate stands, through others or not, on itself, or on one that stands on
    /// itself.
    OnItself,
    /// A line behind the gates is neither a symbol nor begins a comment, or its name is empty.
    BadSymbol,
    /// A symbol's position is that of no input or output.
    SymbolRange,
    /// An input or output is named twice.
    Twice,
}

impl Why {
    /// The name of the cause, by which a line of the status tells of it.
    pub fn name(self) -> &'static str
        ensures { result.now ≡ why_name self }
    {
        match self {
            Why::NoFormat => "NoFormat",
            Why::Truncated => "Truncated",
            Why::BadByte => "BadByte",
            Why::BadNumber => "BadNumber",
            Why::LongNumber => "LongNumber",
            Why::VariableCount => "VariableCount",
            Why::TooManyInputs => "TooManyInputs",
            Why::TooManyOutputs => "TooManyOutputs",
            Why::TooManyGates => "TooManyGates",
            Why::Latch => "Latch",
            Why::Property => "Property",
            Why::LiteralRange => "LiteralRange",
            Why::GateOrder => "GateOrder",
            Why::NoVariable => "NoVariable",
            Why::DefinedTwice => "DefinedTwice",
            Why::NotDefined => "NotDefined",
            Why::OnItself => "OnItself",
            Why::BadSymbol => "BadSymbol",
            Why::SymbolRange => "SymbolRange",
            Why::Twice => "Twice",
        }
    }
}

/// The first fault of a file, from the left, and how many bytes stand before it.
#[derive(Clone, Copy, Debug, PartialEq, Eq)]
pub struct Refusal {
    pub byte: usize,
    pub why: Why,
}

/// Why a file was not read: it is refused, or there was no memory.
#[derive(Clone, Copy, Debug, PartialEq, Eq)]
pub enum ReadRefusal {
    Bad(Refusal),
    Memory,
}

/// A fault, and how many bytes are left where it stands.
#[derive(Clone, Copy)]
pub struct Fault {
    pub left: usize,
    pub why: Why,
}

/// Why a part of a file was not read: it has this fault, or there was no memory.
#[derive(Clone, Copy)]
pub enum Stop {
    Bad(Fault),
    Memory,
}

impl From<AllocError> for Stop {
    ghost from_gives = { λ _ e. e ≡ Memory };

    fn from(_e: AllocError) -> Stop {
        Stop::Memory
    }
}

impl<T: Drop> From<AllocFailed<T>> for Stop {
    ghost from_gives = { λ _ e. e ≡ Memory };

    fn from(_e: AllocFailed<T>) -> Stop {
        Stop::Memory
    }
}
