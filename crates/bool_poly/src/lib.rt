//! Polynomials over any store of nodes.
#![tactic(auto)]

mod points;
mod products;
mod set_ops;
mod values;

pub use crate::points::{above, begin_ones, finish_ones, ones_of, part_with};
pub use crate::products::{product, times_var};
pub use crate::set_ops::{Serial, SetOps};
pub use crate::values::{lead, sum, value_of};
