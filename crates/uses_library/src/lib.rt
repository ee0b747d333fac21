//! Three callers of the libraries, which `docs/LIBRARY.md` shows: one solves points of its own, one
//! does in memory what the program does, and one is a program that counts rows.
#![tactic(auto)]

mod counted;
mod listed;
mod whole;

pub use crate::counted::RowCount;
pub use crate::listed::least_terms;
pub use crate::whole::{Ended, run_on};
