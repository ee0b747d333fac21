//! Circuits over their inputs in another order, some of them complemented.
#![tactic(auto)]

mod arranging;
mod inverted;
mod laws;
mod names;

pub use crate::arranging::arrange_circuit;
pub use crate::inverted::read_inverted;
pub use crate::laws::{arranged_values, file_order_keeps_circuit, points_are_arranged};
pub use crate::names::marked_names;
