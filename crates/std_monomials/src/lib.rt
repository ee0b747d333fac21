//! Standard monomials and leads of sets of points, over any store of nodes.
#![tactic(auto)]

mod monomials;
mod points;

pub use crate::monomials::{leads, standard};
pub use crate::points::leads_of_points;
