//! Laws of every store. Each is the contract of an empty function.
ghost use Rattle.std.specs.Prelude.{◌≡◌, ◌≤◌, ◌↔◌, length, Result, List, IsOk};
ghost use Rattle.lattice.specs.Family.{Family};
ghost use Rattle.node_store.specs.Stores.{State, Knows, family, Gives};
ghost use Rattle.node_store.specs.declared.store.Full.{Full as FullIn};
ghost use Rattle.node_store.specs.declared.store.Handle.{Handle as HandleIn};

use crate::store::{Handle, Store};

/// Two handles that a store knows are equal exactly where their families are.
pub fn equal_families_have_one_handle<S: Store>(store: &S, a: Handle, b: Handle)
    requires a { Knows (S.state store.now) a }
    requires b { Knows (S.state store.now) b }
    ensures { (a ≡ b) ↔ (family (S.state store.now) a ≡ family (S.state store.now) b) }
{}

/// Where the plan has no more families than the store has slots, a call that gives a handle is Ok.
pub fn fitting_plan_suffices()
    ensures { (before after : State) (result : Result HandleIn FullIn) (f : Family)
        (needed : List Family) → Gives before after result f needed
        → length before.plan ≤ before.capacity → IsOk result }
{}
