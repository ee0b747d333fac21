//! Set operations in two branches, and jobs that threads draw, on one shared table.
#![tactic(auto)]

mod combined;
mod crew;
mod crews;
mod fork;
mod forked;
mod jobs;
mod one;
mod ones;
mod pairs;
mod pool;
mod shares;
mod solve;
mod turned;
mod work;

pub use crate::forked::Forked;
pub use crate::jobs::Jobs;
pub use crate::pool::{Drawn, Pool, Solved};
pub use crate::shares::Shares;
pub use crate::solve::{Deal, Solution, solve_all, solve_as, solve_by};
pub use node_store::SolveRefusal;
