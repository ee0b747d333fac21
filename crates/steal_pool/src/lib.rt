//! Jobs whose numbers workers steal from each other: what runs lists of them.
#![tactic(auto)]

mod pool;
mod steal;

pub use crate::pool::Stealing;
pub use crate::steal::{Stolen, steal_all};
