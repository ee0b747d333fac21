//! What a run works with.

use outside::Rendezvous;
use std::alloc::Global;

/// The program `interp`, and what the steps of its run work with: the runtime that starts the
/// workers, the allocator, the pool that answers the jobs, and the gate that the workers' branches
/// enter.
#[derive(Drop)]
pub struct Interp<'a, R, P> {
    pub rt: &'a R,
    pub alloc: Global,
    pub pool: &'a mut P,
    pub gate: &'a Rendezvous,
}
