//! Handles, nodes and stores of diagram nodes.
#![tactic(auto)]

mod any_family;
mod key;
pub mod laws;
mod plain;
mod refusal;
mod store;
mod walk;
mod word;

pub use crate::any_family::any_plan;
pub use crate::plain::PlainStore;
pub use crate::refusal::SolveRefusal;
pub use crate::store::{Full, Handle, Node, Store};
pub use crate::walk::{first_var, grow, parts, parts_of};
pub use crate::word::{node_of, pack, unpack};
