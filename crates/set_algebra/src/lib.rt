//! Sets over any store of nodes.
#![tactic(auto)]

mod counted;
mod halves;
mod listed;
mod operations;
mod pairs;
mod points;
mod pointwise;
mod refusal;
mod single;
mod terms;

pub use crate::counted::{WalkRefusal, count_upto, walk_upto};
pub use crate::listed::family_of;
pub use crate::pairs::{Cofactors, cut};
pub use crate::points::ValuedPoints;
pub use crate::pointwise::{Begun, Halved, begin, combine, finish, inter, minus, union, xor};
pub use crate::refusal::TermsRefusal;
pub use crate::single::{contains, one, power};
pub use crate::terms::{count_terms, lists_of, lists_upto, terms_of};
