//! Two families cut at their first variable.
ghost use Rattle.std.specs.Prelude.{◌≡◌, ◌≤◌, ◌⊎◌, IsSome};
ghost use Rattle.node_store.specs.Stores.{Knows, Reads};
ghost use Rattle.set_algebra.specs.Pairs.{AreCofactors, IsFirstOf};

use node_store::{Handle, Node, Store, parts_of};

/// The parts of two families at the first variable of both: the members without it, and those with
/// it, with it taken away.
#[derive(Clone, Copy)]
pub struct Cofactors {
    pub var: u32,
    pub a_low: Handle,
    pub a_high: Handle,
    pub b_low: Handle,
    pub b_high: Handle,
}

/// The first variable of two families, by their nodes, one of which is there.
fn first_of(first: Option<Node>, second: Option<Node>) -> u32
    requires { IsSome first ⊎ IsSome second }
    ensures { IsFirstOf first second result }
{
    match (first, second) {
        (Some(m), Some(n)) => m.var.min(n.var),
        (Some(m), None) => m.var,
        (None, second) => second.unwrap().var,
    }
}

/// Cuts two families, which are not both constant, at the first variable of both.
pub fn cut<S: Store>(store: &mut S, a: Handle, b: Handle) -> Cofactors
    requires a { Knows (S.state store.old) a }
    requires b { Knows (S.state store.old) b }
    requires some { (2 ≤ a.0) ⊎ (2 ≤ b.0) }
    ensures reads { Reads (S.state store.old) (S.state store.new) }
    ensures cofactors { AreCofactors (S.state store.old) (S.state store.new) a b result }
{
    let first = store.node(a);
    let second = store.node(b);
    let var = first_of(first, second);
    let (a_low, a_high) = parts_of(a, first, var);
    let (b_low, b_high) = parts_of(b, second, var);
    Cofactors {
        var,
        a_low,
        a_high,
        b_low,
        b_high,
    }
}
