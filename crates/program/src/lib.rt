//! What every program does: it takes its words, reads the bytes of its source up to its limit, and
//! ends with a status and a line of its name.
#![tactic(auto)]

mod descriptions;
pub mod laws;
mod lines;
mod outcome;
mod pages;
mod programs;
mod runs;
mod start;

pub use crate::descriptions::{behind, check_rows};
pub use crate::lines::{
    LONGEST_MESSAGE, LONGEST_NAME, Message, count_message, fixed_message, refusal_message,
};
pub use crate::outcome::{End, NoEnd, Outcome};
pub use crate::pages::{write_page, write_pages};
pub use crate::programs::Program;
pub use crate::runs::{report, run};
pub use crate::start::{alone, end_without_memory, start_program, words_of};
