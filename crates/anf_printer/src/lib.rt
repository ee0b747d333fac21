//! The text of the answer: polynomials with the names of the description.
#![tactic(auto)]

mod answer;
mod factors;
mod lines;
mod polynomial;

pub use crate::answer::{Shown, answer_text};
pub use crate::lines::{Left, Line, lines_text, lines_with};
pub use crate::polynomial::poly_text;
