//! The families that a run may ask of its stores.
ghost use Rattle.std.specs.Prelude.{◌≡◌};
ghost use Rattle.lattice.specs.WorkingLists.{first_phase, second_phase, working_set};
ghost use Rattle.lattice.proofs.Diagrams.{working_set_is_node_list};

use lattice::{Mode, Plan, Planned, plan_of};
use pla_reader::Pla;

/// Phase 1 of a run on a description in a mode.
#[derive(Drop)]
struct FirstPlan<'a> {
    pla: &'a Pla,
    mode: Mode,
}

impl Planned for FirstPlan<'_> {
    ghost families = { λ r. working_set r.pla.now.inputs
        (first_phase r.pla.now.inputs r.pla.now.outputs r.pla.now.kind r.pla.now.rows r.mode) };

    ghost node_list = { λ r. working_set_is_node_list r.pla.now.inputs
        (first_phase r.pla.now.inputs r.pla.now.outputs r.pla.now.kind r.pla.now.rows r.mode) };
}

/// A run on a description in a mode.
#[derive(Drop)]
struct RunPlan<'a> {
    pla: &'a Pla,
    mode: Mode,
}

impl Planned for RunPlan<'_> {
    ghost families = { λ r. working_set r.pla.now.inputs
        (second_phase r.pla.now.inputs r.pla.now.outputs r.pla.now.kind r.pla.now.rows r.mode) };

    ghost node_list = { λ r. working_set_is_node_list r.pla.now.inputs
        (second_phase r.pla.now.inputs r.pla.now.outputs r.pla.now.kind r.pla.now.rows r.mode) };
}

/// The plan of phase 1 of a run on the description: its working set. It does nothing at run time.
pub fn first_plan(pla: &Pla, mode: Mode) -> Plan
    ensures { let p = pla.now in result.families
        ≡ working_set p.inputs (first_phase p.inputs p.outputs p.kind p.rows mode) }
{
    plan_of(&FirstPlan { pla, mode })
}

/// The plan of a run on the description: the working set of its last phase. It does nothing at run
/// time.
pub fn run_plan(pla: &Pla, mode: Mode) -> Plan
    ensures { let p = pla.now in result.families
        ≡ working_set p.inputs (second_phase p.inputs p.outputs p.kind p.rows mode) }
{
    plan_of(&RunPlan { pla, mode })
}
