//! What a store of diagram nodes is.
ghost use Rattle.std.specs.Prelude.{◌≡◌, ◌<◌, ◌↔◌, IsNone, IfSome};
ghost use Rattle.lattice.specs.Family.{Has};

use lattice::Op;

/// The name of a family in a store: 0 the empty one, 1 the one whose one member is 0, and s + 2
/// that of the node in slot s.
#[derive(Clone, Copy, PartialEq, Eq, Hash, Debug)]
pub struct Handle(pub u32);

/// A node stands for the members of `lo`, and those of `hi` with variable `var` put in.
#[derive(Clone, Copy, PartialEq, Eq, Hash, Debug)]
pub struct Node {
    pub var: u32,
    pub lo: Handle,
    pub hi: Handle,
}

/// The store had no slot left.
#[derive(Clone, Copy, PartialEq, Eq, Hash, Debug)]
pub struct Full;

/// A store of diagram nodes, which knows the families of its handles. None of its calls takes
/// memory.
pub trait Store {
    ghost use Rattle.node_store.specs.Stores.{State, IsSound, IsNode, node_family, Knows, family};
    ghost use Rattle.node_store.specs.Stores.{AreOperands, IsResult, Builds, Reads};

    ghost state: { Self → State };

    /// The number of variables.
    fn vars(&self) -> u32
        ensures { result ≡ (state self.now).vars };

    /// The handle of a node over known handles, whose family is in the plan. It is Full only where
    /// the node has no slot and none is left for it.
    fn intern(&mut self, n: &Node) -> Result<Handle, Full>
        requires node { IsNode (state self.old) n.now }
        requires planned { Has (state self.old).plan (node_family (state self.old) n.now) }
        ensures { Builds (state self.old) (state self.new) result
            (node_family (state self.old) n.now) };

    /// The node of a known handle; None exactly for the two constants.
    fn node(&mut self, h: Handle) -> Option<Node>
        requires { Knows (state self.old) h }
        ensures reads { Reads (state self.old) (state self.new) }
        ensures constant { IsNone result ↔ (h.0 < 2) }
        ensures node { IfSome result (IsNode (state self.new)) }
        ensures family { IfSome result
            (λ n. node_family (state self.new) n ≡ family (state self.old) h) };

    /// The kept result of an operation on these operands. A store need not keep any: it may always
    /// answer None.
    fn look(&mut self, op: Op, a: Handle, b: u32) -> Option<Handle>
        requires { AreOperands (state self.old) op a b }
        ensures reads { Reads (state self.old) (state self.new) }
        ensures result { IfSome result (IsResult (state self.new) op a b) };

    /// Keeps the result `r` of an operation, or does not.
    fn keep(&mut self, op: Op, a: Handle, b: u32, r: Handle)
        requires { IsResult (state self.old) op a b r }
        ensures { state self.new ≡ state self.old };

    /// What is true of every store.
    ghost sound: { (s : Self) → IsSound (state s) };
}
