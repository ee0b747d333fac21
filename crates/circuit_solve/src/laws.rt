//! Functions that do nothing. Their contracts are the laws of `specs/Laws.antt`, so a check proves
//! these.
ghost use Rattle.circuit_solve.specs.Laws.{LeastOneExists, LeastOneIsUnique};
ghost use Rattle.circuit_solve.specs.Laws.{SolvedExists, SolvedIsUnique};

/// Something solves a circuit.
pub fn solved_exists()
    ensures { SolvedExists }
{}

/// One thing alone solves a circuit.
pub fn solved_is_unique()
    ensures { SolvedIsUnique }
{}

/// Each literal of a circuit has a least point at which it is 1, of those that are cared for, or is
/// 1 at none of them.
pub fn least_one_exists()
    ensures { LeastOneExists }
{}

/// A literal has one least point at most.
pub fn least_one_is_unique()
    ensures { LeastOneIsUnique }
{}
