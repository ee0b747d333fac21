//! What a seat of the counter knows. No value of it is made.
use std::collections::LinkedList;

/// Its parts, and the numbers that it drew.
#[derive(Drop)]
pub struct Hand {
    pub parts: u64,
    pub drawn: LinkedList<u64>,
}
