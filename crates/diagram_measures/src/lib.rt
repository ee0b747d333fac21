//! The terms, the degree and the nodes of a diagram, counted without listing it, and the least
//! member of its family.
#![tactic(auto)]

pub mod laws;
mod least;
mod measured;

pub use crate::least::least_member;
pub use crate::measured::{Measures, measure};
