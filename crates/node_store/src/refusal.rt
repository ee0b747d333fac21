//! Why families were not found.
ghost use Rattle.std.specs.Prelude.{◌≡◌};
ghost use Rattle.node_store.specs.declared.refusal.SolveRefusal.TheVariants as refusals;

use crate::store::Full;
use lattice::Memory;
use std::alloc::AllocFailed;
use thiserror::Error;

/// Why families were not found.
#[derive(Clone, Copy, PartialEq, Eq, Debug, Error)]
pub enum SolveRefusal {
    #[error("the store has no slot left")]
    Full,
    #[error("out of memory")]
    Memory,
}

impl From<Full> for SolveRefusal {
    ghost from_gives = { λ _ e. e ≡ refusals.Full };

    fn from(_: Full) -> SolveRefusal {
        SolveRefusal::Full
    }
}

impl From<Memory> for SolveRefusal {
    ghost from_gives = { λ _ e. e ≡ refusals.Memory };

    fn from(_: Memory) -> SolveRefusal {
        SolveRefusal::Memory
    }
}

impl<T: Drop> From<AllocFailed<T>> for SolveRefusal {
    ghost from_gives = { λ _ e. e ≡ refusals.Memory };

    fn from(_: AllocFailed<T>) -> SolveRefusal {
        SolveRefusal::Memory
    }
}
