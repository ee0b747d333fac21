//! What is to be done.
use bool_poly::SetOps;
use node_store::{Full, Handle, Store};

/// Jobs by number. Each gives the handle of a family, which does not depend on the store.
pub trait Jobs: Sync {
    ghost use Rattle.std.specs.Prelude.{◌≡◌, ◌<◌};
    ghost use Rattle.lattice.specs.Family.{Covers};
    ghost use Rattle.node_store.specs.Stores.{Gives};
    ghost use Rattle.fork_branches.specs.Jobs.{Tasks, needed_by, KnowsUses};

    ghost tasks: { Self → Tasks };

    /// How many jobs there are.
    fn count(&self) -> u32
        ensures { result ≡ (tasks self.now).total };

    /// Runs the job of the number. Full where the store finds no slot.
    fn one<S: Store, O: SetOps<S>>(
        &self,
        store: &mut S,
        ops: &mut O,
        number: u32,
    ) -> Result<Handle, Full>
        requires ready { O.ready ops.old }
        requires below { number < (tasks self.now).total }
        requires vars { (S.state store.old).vars ≡ (tasks self.now).vars }
        requires uses { KnowsUses (tasks self.now) (S.state store.old) }
        requires planned { Covers (S.state store.old).plan (needed_by (tasks self.now) number) }
        ensures ready { O.ready ops.new }
        ensures result { Gives (S.state store.old) (S.state store.new) result
            ((tasks self.now).wanted number) (needed_by (tasks self.now) number) };
}
