//! What every fork of a call has in common.

/// The runtime that starts a thread for one of the two branches of a fork, and the gate that each
/// of them enters first. What a branch runs captures both one by one: `join` tells nothing of a
/// closure that captures a value with a lifetime of its own.
#[derive(Drop)]
pub struct Fork<'a, R, G> {
    pub rt: &'a R,
    pub gate: &'a G,
}
