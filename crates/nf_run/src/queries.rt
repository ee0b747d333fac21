//! Queries, and why they are refused.
ghost use Rattle.std.specs.Prelude.{◌≡◌};
ghost use Rattle.nf_run.specs.Queries.{query_why_name};

use lattice::{Monos, Seq};
use pla_reader::TextRefusal;

/// Asks for the least polynomial with the values of this one at the care points of the output,
/// whose numbers begin with 1. The terms are given from the greatest to the least.
#[derive(Drop)]
pub struct Query {
    pub output: u32,
    pub terms: Monos,
}

/// Queries, in the order of their lines.
pub type Queries = Seq<Query>;

/// What is wrong with the line of a query.
#[derive(Clone, Copy, Debug, PartialEq, Eq)]
pub enum QueryWhy {
    /// The line is not of the form of a line of an answer.
    BadLine,
    /// The name on the left is no output, or one on the right no input.
    UnknownName,
    /// The variables of a term do not ascend strictly, or the terms do not descend strictly.
    TermOrder,
}

impl QueryWhy {
    /// The name of the cause, by which a line of the status tells of it.
    pub fn name(self) -> &'static str
        ensures { result.now ≡ query_why_name self }
    {
        match self {
            QueryWhy::BadLine => "BadLine",
            QueryWhy::UnknownName => "UnknownName",
            QueryWhy::TermOrder => "TermOrder",
        }
    }
}

/// Why queries were not read.
pub type QueryRefusal = TextRefusal<QueryWhy>;
