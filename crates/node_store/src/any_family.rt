//! The plan of a store that may be asked for any family.
ghost use Rattle.std.specs.Prelude.{◌≡◌};
ghost use Rattle.lattice.specs.WorkingLists.{working_set};
ghost use Rattle.lattice.proofs.Diagrams.{working_set_is_node_list};
ghost use Rattle.node_store.specs.AnyFamily.{every_family};

use lattice::{Plan, Planned, plan_of};

// Every family over so many variables.
#[derive(Drop)]
struct EveryFamily(u32);

impl Planned for EveryFamily {
    ghost families = { λ p. working_set p.0 (every_family p.0) };

    ghost node_list = { λ p. working_set_is_node_list p.0 (every_family p.0) };
}

/// The plan that has every family over so many variables: of a store that may be asked for any of
/// them. It does nothing at run time.
pub fn any_plan(vars: u32) -> Plan
    ensures { result.families ≡ working_set vars (every_family vars) }
{
    plan_of(&EveryFamily(vars))
}
