//! Rows that contradict each other.
#![tactic(auto)]

mod buckets;
mod clash;

pub use crate::clash::{Clash, conflict, meets};
