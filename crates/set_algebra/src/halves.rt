//! A family cut at its first variable.
ghost use Rattle.std.specs.Prelude.{◌<◌, IfSome, IfNone};
ghost use Rattle.node_store.specs.Stores.{Knows, Reads};
ghost use Rattle.set_algebra.specs.Halves.{AreHalves};

use node_store::{Handle, Store};

/// The halves of a family at its first variable: the members without it, and those with it, with
/// its weight taken away.
#[derive(Clone, Copy)]
pub struct Halves {
    pub weight: u64,
    pub low: Handle,
    pub high: Handle,
}

/// Cuts a family at its first variable; None exactly where it is a constant.
pub fn split<S: Store>(store: &mut S, a: Handle) -> Option<Halves>
    requires { Knows (S.state store.old) a }
    ensures reads { Reads (S.state store.old) (S.state store.new) }
    ensures constant { IfNone result (a.0 < 2) }
    ensures halves { IfSome result (AreHalves (S.state store.old) (S.state store.new) a) }
{
    let n = store.node(a)?;
    Some(Halves {
        weight: 1u64 << (store.vars() - n.var),
        low: n.lo,
        high: n.hi,
    })
}
