//! The command line: the declared command, and what the words ask for; and the arguments that other
//! command lines share with it.
#![tactic(auto)]

mod arguments;
mod declared;
mod found;
mod job;

pub use crate::arguments::{any_text, mode, nodes, terms};
pub use crate::found::{number, text};
pub use crate::job::{Job, WordsRefusal, read_words};
