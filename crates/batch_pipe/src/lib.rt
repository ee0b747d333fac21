//! Many files through one program: each file of a stream is answered as `interp` answers it alone.
#![tactic(auto)]

mod answering;
pub mod laws;
mod top;

pub use crate::top::{batch, start_batch};
