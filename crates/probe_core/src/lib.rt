//! The shared table of nodes as a pure machine: seats load and exchange its words, load and store
//! those of its cache, split and join, one event at a time.
#![tactic(auto)]

mod cache;
mod event;
mod machine;
mod path;
mod seat;

pub use crate::cache::cache_size;
pub use crate::event::{Event, Seen};
pub use crate::machine::{Core, run};
pub use crate::path::probe_place;
