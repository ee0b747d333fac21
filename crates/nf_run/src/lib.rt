//! Normal forms of given polynomials on the care points of a description, the reduced bases of the
//! sum and the intersection of two outputs' ideals, and the top call of the program that finds
//! these.
#![tactic(auto)]

mod answer;
mod answering;
mod ends;
mod joint;
pub mod laws;
mod mode;
mod phases;
mod plans;
mod queries;
mod reading;
mod reduction;
mod solving;
mod texts;
mod top;

pub use crate::answering::answer_queries;
pub use crate::ends::QueryEnd;
pub use crate::joint::{Joining, joint_basis};
pub use crate::mode::QueryMode;
pub use crate::queries::{Queries, Query, QueryRefusal, QueryWhy};
pub use crate::reading::read_queries;
pub use crate::reduction::reduce_polynomial;
pub use crate::solving::reduce;
pub use crate::top::{nf_run, start_nf_run};
