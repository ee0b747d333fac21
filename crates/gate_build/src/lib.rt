//! Polynomials of a circuit's outputs, gate by gate, over any store of nodes.
#![tactic(auto)]

pub mod laws;
mod literals;
mod outputs;
mod steps;

pub use crate::outputs::output_polynomials;
pub use crate::steps::{Choice, Pair, Step, plan_steps};
