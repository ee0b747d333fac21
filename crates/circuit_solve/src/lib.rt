//! The answers of a circuit: the least polynomials of its outputs on care points, the reduced basis
//! of these points, and the least of them at which each output is 1, on a table of their own.
#![tactic(auto)]

mod answers;
pub mod laws;
mod measuring;
mod ones;
mod phases;
mod plans;
mod points;
mod searching;
mod solution;
mod solving;

pub use crate::measuring::measure_circuit;
pub use crate::ones::least_ones;
pub use crate::solution::Solution;
pub use crate::solving::solve_circuit;
