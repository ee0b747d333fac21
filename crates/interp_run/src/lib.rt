//! The top call: from the words and the bytes to the text and the status.
#![tactic(auto)]

mod answer;
mod bases;
mod cover_jobs;
mod describe;
mod ends;
mod judge;
pub mod laws;
mod means;
mod phases;
mod plan;
mod printed;
mod solve;
mod summary;
mod tasks;
mod top;
mod workers;

pub use crate::answer::{Answered, Notes, answer_of};
pub use crate::ends::OwnEnd;
pub use crate::means::Interp;
pub use crate::plan::{first_plan, run_plan};
pub use crate::top::run;
