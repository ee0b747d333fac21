//! Circuits in the AIGER format: read from bytes, their gates and names.
#![tactic(auto)]

mod ascii;
mod circuit;
mod fields;
mod header;
mod laws;
mod lines;
mod order;
mod reading;
mod refusal;
mod symbols;

pub use crate::circuit::{Aig, Gate, Gates, Literals, MAX_GATES, MAX_OUTPUTS, MAX_VARIABLES};
pub use crate::laws::{
    one_reading, one_value, order_kept, some_value, values_as_listed, written_is_read,
};
pub use crate::reading::{MOST_BYTES, read};
pub use crate::refusal::{ReadRefusal, Refusal, Why};
