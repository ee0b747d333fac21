//! Two circuits, one behind the other: read from bytes, and the second one over the first one's
//! names.
#![tactic(auto)]

mod laws;
mod matching;
mod order;
mod pairs;

pub use crate::laws::{matched_values, matched_with_itself, one_match, one_pair};
pub use crate::matching::{MatchRefusal, match_circuit};
pub use crate::pairs::{PairRefusal, read_pair};
