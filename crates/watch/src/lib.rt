//! Those who are told of each output as it is written.
#![tactic(auto)]

mod lines;
mod note;
mod tally;
mod watcher;

pub use crate::lines::Lines;
pub use crate::note::{MOST_NOTES, Note};
pub use crate::tally::Tally;
pub use crate::watcher::{Watch, tell};
