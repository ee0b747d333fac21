//! The files of a stream: its pieces, cut byte by byte where a line ends a description.
#![tactic(auto)]

mod cutter;
mod digest;
mod laws;

pub use crate::cutter::{Cutter, Piece};
pub use crate::laws::{files_are_the_stream, worked_streams};
