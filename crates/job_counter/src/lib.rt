//! Numbers that are dealt to threads, each once: what a dealing is, and the one by a counter.
#![tactic(auto)]

mod counter;
mod counting;
mod dealing;
mod plays;
mod view;

pub use crate::counter::{ALL_PARTS, Counter, Drawer};
pub use crate::counting::{Counting, Draws};
pub use crate::dealing::Dealing;
