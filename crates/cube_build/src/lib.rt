//! The cubes of rows, and the points and the care points of outputs, over any store of nodes.
#![tactic(auto)]

mod care;
mod covers;
mod cubes;
mod guess;
mod rows;
mod tables;

pub use crate::care::{care_points, care_sets, care_sets_from, ones, zeros};
pub use crate::covers::{PointSet, cover, sets_of};
pub use crate::cubes::cube;
pub use crate::rows::row_cubes;
pub use crate::tables::{Demand, LIGHT_BITS, MIDDLE_BITS, SMALL_BITS, next_bits};
