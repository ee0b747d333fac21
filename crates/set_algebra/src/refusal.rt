//! Why terms were not given.
ghost use Rattle.std.specs.Prelude.{◌≡◌};
ghost use Rattle.set_algebra.specs.Refusals.{unfound_refusal, unlisted_refusal};
ghost use Rattle.set_algebra.specs.declared.refusal.TermsRefusal.TheVariants as refusals;

use crate::counted::WalkRefusal;
use lattice::Memory;
use node_store::{Full, SolveRefusal};
use thiserror::Error;

/// Why the terms of what was to be found were not given: it was not found, or not listed.
#[derive(Clone, Copy, PartialEq, Eq, Debug, Error)]
pub enum TermsRefusal {
    #[error("the store has no slot left")]
    Full,
    #[error("there are more terms than the limit")]
    Over,
    #[error("out of memory")]
    Memory,
}

impl From<Full> for TermsRefusal {
    ghost from_gives = { λ _ e. e ≡ refusals.Full };

    fn from(_: Full) -> TermsRefusal {
        TermsRefusal::Full
    }
}

impl From<Memory> for TermsRefusal {
    ghost from_gives = { λ _ e. e ≡ refusals.Memory };

    fn from(_: Memory) -> TermsRefusal {
        TermsRefusal::Memory
    }
}

impl From<SolveRefusal> for TermsRefusal {
    ghost from_gives = { λ refusal e. e ≡ unfound_refusal refusal };

    fn from(refusal: SolveRefusal) -> TermsRefusal {
        match refusal {
            SolveRefusal::Full => TermsRefusal::Full,
            SolveRefusal::Memory => TermsRefusal::Memory,
        }
    }
}

impl From<WalkRefusal> for TermsRefusal {
    ghost from_gives = { λ refusal e. e ≡ unlisted_refusal refusal };

    fn from(refusal: WalkRefusal) -> TermsRefusal {
        match refusal {
            WalkRefusal::Over => TermsRefusal::Over,
            WalkRefusal::Memory => TermsRefusal::Memory,
        }
    }
}
