//! The files of a stream as messages from one thread to another: the channel with its rule, and
//! what reads, cuts and sends.
#![tactic(auto)]

mod link;
mod message;
mod reader;

pub use crate::link::{InOrder, Inlet, Link, Log, Outlet, Token, open_link, send, settle, take};
pub use crate::message::Message;
pub use crate::reader::{MOST_STREAM, StreamStop, send_end, send_files};
