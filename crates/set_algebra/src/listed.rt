//! The family of listed numbers.
ghost use Rattle.std.specs.Prelude.{◌<◌, ◌^◌};
ghost use Rattle.std.specs.List.{All};
ghost use Rattle.lattice.specs.Family.{has, family_where};
ghost use Rattle.node_store.specs.Stores.{Builds};
ghost use Rattle.node_store.specs.AnyFamily.{MayHoldAny};

use crate::pointwise::union;
use crate::single::one;
use lattice::Mono;
use node_store::{Full, Handle, Store};

/// The family of these numbers, in a store that may be asked for any family over so many variables.
pub fn family_of<S: Store>(store: &mut S, vars: u32, numbers: &[u64]) -> Result<Handle, Full>
    requires any { MayHoldAny vars (S.state store.old) }
    requires below { All (λ m. m < 2 ^ vars) numbers.now }
    ensures { Builds (S.state store.old) (S.state store.new) result
        (family_where vars (has numbers.now)) }
{
    let mut all = Handle(0);
    for &m in numbers {
        let next = one(store, Mono(m))?;
        all = union(store, all, next)?;
    }
    Ok(all)
}
