//! The least member of a family, by one way down its diagram.
ghost use Rattle.std.specs.Prelude.{◌≡◌};
ghost use Rattle.node_store.specs.Stores.{Knows, family, Reads};
ghost use Rattle.diagram_measures.specs.Measured.{least_member_of};

use lattice::Mono;
use node_store::{Handle, Store};

/// The least member of the family of `a`, where the first variable has the greatest weight; None
/// exactly where the family is empty. It takes time by the number of variables, and no memory.
pub fn least_member<S: Store>(store: &mut S, a: Handle) -> Option<Mono>
    requires { Knows (S.state store.old) a }
    ensures reads { Reads (S.state store.old) (S.state store.new) }
    ensures least { result ≡ least_member_of (family (S.state store.old) a) }
{
    let vars = store.vars();
    let mut rest = a;
    let mut above = 0;
    while let Some(node) = store.node(rest) {
        if node.lo.0 == 0 {
            above += 1u64 << (vars - node.var);
            rest = node.hi;
        } else {
            rest = node.lo;
        }
    }
    if rest.0 == 0 { None } else { Some(Mono(above)) }
}
