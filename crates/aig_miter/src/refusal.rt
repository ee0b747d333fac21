//! Why there is no miter.
ghost use Rattle.std.specs.Prelude.{◌≡◌};
ghost use Rattle.aig_miter.specs.declared.refusal.MiterRefusal.TheVariants.{Memory};

/// Why two circuits have no miter.
#[derive(Clone, Copy, PartialEq, Eq, Debug)]
pub enum MiterRefusal {
    /// It has more gates than a circuit may have.
    TooManyGates,
    /// There was no memory.
    Memory,
}

impl From<lattice::Memory> for MiterRefusal {
    ghost from_gives = { λ _ e. e ≡ Memory };

    fn from(_e: lattice::Memory) -> MiterRefusal {
        MiterRefusal::Memory
    }
}
