//! The files of a stream answered in order, and a block of text written for each: by two threads,
//! of which one reads on while the other answers.
#![tactic(auto)]

mod alone;
mod answerer;
mod block;
mod branches;
mod progress;
mod stop;

pub use crate::alone::write_alone;
pub use crate::answerer::{Answerer, FileAnswer};
pub use crate::branches::write_batch;
pub use crate::progress::Halt;
pub use crate::stop::BatchStop;
