//! The computed table: kept results in the cache words of a shared table, where each pass finds
//! what others kept.
#![tactic(auto)]

mod pass;
mod slot;

pub use crate::pass::CachedPass;
