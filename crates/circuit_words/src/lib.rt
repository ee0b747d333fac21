//! The command line of `circuit`: the declared command, and what the words ask for.
#![tactic(auto)]

mod declared;
mod job;
mod laws;

pub use crate::job::{CircuitJob, CircuitMode, read_circuit_words};
pub use crate::laws::{one_job_is_asked, words_ask_for_jobs};
