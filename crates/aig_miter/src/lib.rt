//! The miter of two circuits: a circuit whose outputs are 1 where theirs differ.
#![tactic(auto)]

mod differences;
mod laws;
mod moving;
mod pairing;
mod refusal;

pub use crate::laws::{care_output_stays, miter_is_circuit, miter_values};
pub use crate::pairing::miter_of;
pub use crate::refusal::MiterRefusal;
