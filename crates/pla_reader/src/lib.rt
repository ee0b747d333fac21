//! Descriptions in the form of espresso's PLA files: read from bytes, their names, and the order of
//! their inputs.
#![tactic(auto)]

mod arguments;
mod arranging;
mod draft;
mod laws;
mod lines;
mod names;
mod order;
mod pla;
mod reading;
mod refusal;
mod row;

pub use crate::arranging::{arrange, names_in_order};
pub use crate::laws::{
    arranged_bits, arranged_names_are_printed, file_order_keeps_rows, names_ask_for_their_order,
    orders_by_test,
};
pub use crate::lines::{is_word, split_line, without_last};
pub use crate::names::{includes, is_plain, names_in_place, plain_names, printed};
pub use crate::order::{OrderRefusal, file_order, order_of, position_of, read_order};
pub use crate::pla::{Pla, Rows};
pub use crate::reading::{MOST_BYTES, read};
pub use crate::refusal::{LineRefusal, ReadRefusal, Refusal, TextRefusal, Why};
pub use crate::row::Marks;
