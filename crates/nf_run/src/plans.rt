//! What tables are made for.
ghost use Rattle.std.specs.Prelude.{◌≡◌};
ghost use Rattle.lattice.specs.WorkingLists.{working_set};
ghost use Rattle.lattice.proofs.Diagrams.{working_set_is_node_list};
ghost use Rattle.pla_reader.specs.Reading.{description};
ghost use Rattle.nf_run.specs.Sought.{sought_list};

use crate::joint::Joining;
use crate::queries::Query;
use lattice::{Plan, Planned, plan_of};
use pla_reader::Pla;

/// What is sought on a table.
#[derive(Drop)]
pub(crate) enum Sought<'a> {
    /// The answers to queries.
    Answers(&'a [Query]),
    /// The leads of a joint basis.
    Leads(Joining),
    /// The elements of a joint basis, after its leads.
    Elements(Joining),
}

/// What is sought of a description.
#[derive(Drop)]
struct Search<'a> {
    pla: &'a Pla,
    sought: &'a Sought<'a>,
}

impl Planned for Search<'_> {
    ghost families = { λ s. working_set s.pla.now.inputs
        (sought_list (description s.pla.now) s.sought.now) };

    ghost node_list = { λ s. working_set_is_node_list s.pla.now.inputs
        (sought_list (description s.pla.now) s.sought.now) };
}

/// The plan of a table for what is sought: the working set of its families. It does nothing at run
/// time.
pub(crate) fn plan_for(pla: &Pla, sought: &Sought<'_>) -> Plan
    ensures { result.families ≡ working_set pla.now.inputs
        (sought_list (description pla.now) sought.now) }
{
    plan_of(&Search { pla, sought })
}
