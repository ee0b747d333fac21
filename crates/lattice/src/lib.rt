//! Points, monomials, families and polynomials in Boolean variables, the rows of a description, and
//! their laws.
#![tactic(auto)]

mod entry;
mod kind;
pub mod laws;
mod limits;
mod lists;
mod memory;
mod mono;
mod op;
mod plan;
mod row;
mod words;

pub use crate::entry::Entry;
pub use crate::kind::{Kind, Mode};
pub use crate::limits::{
    HANDLE_UNIT, KEY_BITS, LINE, MAX_BITS, MAX_VARS, MIN_BITS, MIN_CACHE_BITS, MIXING, TOP_UNIT,
    UNMIXING,
};
pub use crate::lists::{MonoLists, Monos, Name, Names, Order, Pages, Seq, Text};
pub use crate::memory::Memory;
pub use crate::mono::{Mono, value_at};
pub use crate::op::Op;
pub use crate::plan::{Plan, Planned, plan_of};
pub use crate::row::Row;
pub use crate::words::Words;
