//! Numbers dealt by deques: each worker pops its own and steals from the others.
#![tactic(auto)]

mod deal;
mod deques;
mod lend;
mod look;
mod make;
mod own;
mod plays;
mod seat;
mod settle;
mod view;
mod way;
mod whole;

pub use crate::deques::{Deques, Hand};
