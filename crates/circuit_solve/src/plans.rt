//! What tables are made for.
ghost use Rattle.std.specs.Prelude.{◌≡◌};
ghost use Rattle.lattice.specs.WorkingLists.{working_set};
ghost use Rattle.lattice.proofs.Diagrams.{working_set_is_node_list};
ghost use Rattle.aig_reader.specs.Reading.{circuit};
ghost use Rattle.circuit_solve.specs.Sought.{sought_list};

use aig_reader::Aig;
use lattice::{Plan, Planned, plan_of};

/// What is sought on a table.
#[derive(Clone, Copy, PartialEq, Eq, Debug)]
pub(crate) enum Sought {
    /// The answers.
    Answers,
    /// The answers, and the leads of the care points.
    Leads,
    /// The answers, and the elements of the basis, after its leads.
    Elements,
    /// The least points at which the outputs are 1.
    LeastOnes,
}

/// What is sought of a circuit.
#[derive(Drop)]
struct Search<'a> {
    aig: &'a Aig,
    care: Option<usize>,
    sought: Sought,
}

impl Planned for Search<'_> {
    ghost families = { λ s. working_set s.aig.now.inputs
        (sought_list (circuit s.aig.now) s.care s.sought) };

    ghost node_list = { λ s. working_set_is_node_list s.aig.now.inputs
        (sought_list (circuit s.aig.now) s.care s.sought) };
}

/// The plan of a table for what is sought: the working set of its families. It does nothing at run
/// time.
pub(crate) fn plan_for(aig: &Aig, care: Option<usize>, sought: Sought) -> Plan
    ensures { result.families ≡ working_set aig.now.inputs
        (sought_list (circuit aig.now) care sought) }
{
    plan_of(&Search { aig, care, sought })
}
