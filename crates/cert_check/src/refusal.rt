//! Why an answer was not read or not judged, and what is wrong with one.
ghost use Rattle.std.specs.Prelude.{◌≡◌};
ghost use Rattle.cert_check.specs.Causes.{answer_why_name, fault_name};

use pla_reader::{LineRefusal, TextRefusal};
use std::alloc::{AllocError, AllocFailed};
use thiserror::Error;

/// What is wrong with a line of an answer, or with the answer as a whole.
#[derive(Clone, Copy, Debug, PartialEq, Eq)]
pub enum AnswerWhy {
    /// The line is not of the form `L = R`, where L is `0` or a plain name, R is `0` or terms
    /// joined by ` + `, and a term is `1` or plain names joined by `*`.
    BadLine,
    /// A name on the left is no output, or one on the right no input.
    UnknownName,
    /// The variables of a term do not ascend strictly, or the terms do not descend strictly.
    TermOrder,
    /// An element comes before the first output, an output comes out of order, or the answer ends
    /// before the last one.
    MissingOutput,
}

impl AnswerWhy {
    /// The name of the cause, by which a line of the status tells of it.
    pub fn name(self) -> &'static str
        ensures { result.now ≡ answer_why_name self }
    {
        match self {
            AnswerWhy::BadLine => "BadLine",
            AnswerWhy::UnknownName => "UnknownName",
            AnswerWhy::TermOrder => "TermOrder",
            AnswerWhy::MissingOutput => "MissingOutput",
        }
    }
}

/// Why an answer was not read. For one that ends before the last output the line is the number of
/// lines.
pub type AnswerRefusal = TextRefusal<AnswerWhy>;

impl From<AnswerWhy> for LineRefusal<AnswerWhy> {
    ghost use Rattle.std.specs.Prelude.{◌≡◌};
    ghost use Rattle.pla_reader.specs.declared.refusal.LineRefusal.TheVariants.{Bad};

    ghost from_gives = { λ why e. e ≡ Bad why };

    fn from(why: AnswerWhy) -> LineRefusal<AnswerWhy> {
        LineRefusal::Bad(why)
    }
}

/// What is wrong with an answer.
#[derive(Clone, Copy, Debug, PartialEq, Eq)]
pub enum Fault {
    /// The polynomial is not 0 or not 1 at a care point of this value.
    Value,
    /// An element is 1 at a care point.
    NotZero,
    /// An element is zero, or its greatest monomial divides that of an earlier element or is
    /// divided by it.
    Leads,
    /// The number of monomials that no greatest monomial divides is not that of the care points.
    Count,
    /// A monomial of the polynomial, or one of an element other than its greatest, is divided by a
    /// greatest monomial.
    Reducible,
    /// The greatest monomial of an element is less than that of the element before it.
    Order,
}

impl Fault {
    /// The name of the fault, by which the verdict tells of it.
    pub fn name(self) -> &'static str
        ensures { result.now ≡ fault_name self }
    {
        match self {
            Fault::Value => "Value",
            Fault::NotZero => "NotZero",
            Fault::Leads => "Leads",
            Fault::Count => "Count",
            Fault::Reducible => "Reducible",
            Fault::Order => "Order",
        }
    }
}

/// Whether an answer is right: it is, or it has this as its first fault, on this line, counted from
/// 1.
#[derive(Clone, Copy, Debug, PartialEq, Eq)]
pub enum Verdict {
    Yes,
    No { line: u32, why: Fault },
}

/// Why an answer was not judged.
#[derive(Clone, Copy, Debug, PartialEq, Eq, Error)]
pub enum CheckRefusal {
    #[error("more than 14 inputs cannot be checked")]
    TooWide,
    #[error("out of memory")]
    Memory,
}

/// Why a part of an answer is not right: its first fault, or there was no memory.
#[derive(Clone, Copy)]
pub enum Stop {
    Fault { line: u32, why: Fault },
    Memory,
}

impl From<AllocError> for Stop {
    ghost use Rattle.std.specs.Prelude.{◌≡◌};
    ghost use Rattle.cert_check.specs.declared.refusal.Stop.TheVariants.{Memory};

    ghost from_gives = { λ _ e. e ≡ Memory };

    fn from(_e: AllocError) -> Stop {
        Stop::Memory
    }
}

impl<T: Drop> From<AllocFailed<T>> for Stop {
    ghost use Rattle.std.specs.Prelude.{◌≡◌};
    ghost use Rattle.cert_check.specs.declared.refusal.Stop.TheVariants.{Memory};

    ghost from_gives = { λ _ e. e ≡ Memory };

    fn from(_e: AllocFailed<T>) -> Stop {
        Stop::Memory
    }
}
