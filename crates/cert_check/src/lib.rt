//! Answers read back, and judged by evaluation and counting.
#![tactic(auto)]

mod answer;
mod care;
mod checking;
mod counts;
mod form;
mod lines;
mod reading;
mod refusal;
mod terms;

pub use crate::answer::{Given, GivenAnswer, GivenOutput};
pub use crate::checking::{MOST_INPUTS, check};
pub use crate::form::sides;
pub use crate::lines::bare;
pub use crate::reading::read_answer;
pub use crate::refusal::{AnswerRefusal, AnswerWhy, CheckRefusal, Fault, Verdict};
pub use crate::terms::{are_known, monomials_of, place_of};
