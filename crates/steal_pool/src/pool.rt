//! The pool whose job workers steal numbers from each other.
use fork_branches::{Deal, Pool, Solved};
use node_store::Handle;

/// The pool whose jobs are run as `steal_all` runs them.
#[derive(Drop, Debug)]
pub struct Stealing {
    done: u32,
}

impl Stealing {
    ghost use Rattle.std.specs.Prelude.{◌≡◌};

    /// A pool that answered no job yet.
    pub fn new() -> Stealing
        ensures { result.done ≡ 0 }
    {
        Stealing { done: 0 }
    }
}

impl Pool for Stealing {
    ghost done = { λ pool. pool.done };

    fn deal(&self) -> Deal {
        Deal::ByDeques
    }

    fn answered(&mut self, solved: Solved) -> Vec<Handle> {
        let handles = solved.into_handles();
        self.done += handles.len() as u32;
        handles
    }
}
