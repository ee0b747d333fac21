//! The shared table of nodes, on which threads work at once.
#![tactic(auto)]

pub mod laws;
mod pass;
mod plays;
mod view;
mod zeros;

pub use crate::pass::{Pass, Shared, Token};
