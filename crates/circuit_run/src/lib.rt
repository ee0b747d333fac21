//! What is due for a circuit: the job's view of it, the text of its answer, and the top call of the
//! program `circuit` on the frame of programs.
#![tactic(auto)]

mod answer;
mod counts;
mod ends;
mod equal;
pub mod laws;
mod subject;
mod texts;
mod top;
mod view;

pub use crate::ends::CircuitEnd;
pub use crate::top::{circuit_run, start_circuit_run};
