//! What an answer says.
ghost use Rattle.std.specs.Prelude.{◌≡◌};

use crate::refusal::{Fault, Stop};
use lattice::{Monos, Seq};

/// A polynomial, from its greatest monomial to its least, and the line of the answer that it stands
/// on, counted from 1.
#[derive(Drop)]
pub struct Given {
    pub terms: Monos,
    pub line: u32,
}

impl Given {
    /// The fault, at the line of the polynomial.
    pub(crate) fn fault(&self, why: Fault) -> Stop
        ensures { result ≡ Stop.Fault self.now.line why }
    {
        Stop::Fault {
            line: self.line,
            why,
        }
    }
}

/// What an answer gives for an output: its polynomial, and the elements of its basis.
#[derive(Drop)]
pub struct GivenOutput {
    pub poly: Given,
    pub basis: Seq<Given>,
}

/// An answer: what it gives for each output, in order.
pub type GivenAnswer = Seq<GivenOutput>;
