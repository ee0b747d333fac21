//! The least interpolation polynomial over any store of nodes.
#![tactic(auto)]

mod interpolation;
mod parts;

pub use crate::interpolation::least;
