//! A way to do the set operations.
use crate::points;
use node_store::{Full, Handle, Store};

/// A way to do the set operations, each with the result of the plain call of its name. A caller
/// goes on with the state that is ready for the next operation.
pub trait SetOps<S: Store> {
    ghost use Rattle.lattice.specs.Family.{Covers, union_of, inter_of, minus_of, sum_of};
    ghost use Rattle.lattice.specs.Polynomial.{ones_of};
    ghost use Rattle.lattice.specs.declared.op.Op.TheVariants.{Ones};
    ghost use Rattle.node_store.specs.Stores.{Knows, family, IsPlanned, Builds, Gives, needs_of};

    ghost ready: { Self → Type 0 };

    /// The members of `a` or `b`.
    fn union(&mut self, store: &mut S, a: Handle, b: Handle) -> Result<Handle, Full>
        requires ready { ready self.old }
        requires a { Knows (S.state store.old) a }
        requires b { Knows (S.state store.old) b }
        requires planned { let s = S.state store.old in
            IsPlanned s (union_of s.vars (family s a) (family s b)) }
        ensures ready { ready self.new }
        ensures result { let s = S.state store.old in
            Builds s (S.state store.new) result (union_of s.vars (family s a) (family s b)) };

    /// The members of `a` and `b`.
    fn inter(&mut self, store: &mut S, a: Handle, b: Handle) -> Result<Handle, Full>
        requires ready { ready self.old }
        requires a { Knows (S.state store.old) a }
        requires b { Knows (S.state store.old) b }
        requires planned { let s = S.state store.old in
            IsPlanned s (inter_of s.vars (family s a) (family s b)) }
        ensures ready { ready self.new }
        ensures result { let s = S.state store.old in
            Builds s (S.state store.new) result (inter_of s.vars (family s a) (family s b)) };

    /// The members of `a` that are not in `b`.
    fn minus(&mut self, store: &mut S, a: Handle, b: Handle) -> Result<Handle, Full>
        requires ready { ready self.old }
        requires a { Knows (S.state store.old) a }
        requires b { Knows (S.state store.old) b }
        requires planned { let s = S.state store.old in
            IsPlanned s (minus_of s.vars (family s a) (family s b)) }
        ensures ready { ready self.new }
        ensures result { let s = S.state store.old in
            Builds s (S.state store.new) result (minus_of s.vars (family s a) (family s b)) };

    /// The members of exactly one of `a` and `b`.
    fn xor(&mut self, store: &mut S, a: Handle, b: Handle) -> Result<Handle, Full>
        requires ready { ready self.old }
        requires a { Knows (S.state store.old) a }
        requires b { Knows (S.state store.old) b }
        requires planned { let s = S.state store.old in
            IsPlanned s (sum_of s.vars (family s a) (family s b)) }
        ensures ready { ready self.new }
        ensures result { let s = S.state store.old in
            Builds s (S.state store.new) result (sum_of s.vars (family s a) (family s b)) };

    /// The members of `b` at which the polynomial `a` is 1.
    fn ones_of(&mut self, store: &mut S, a: Handle, b: Handle) -> Result<Handle, Full>
        requires ready { ready self.old }
        requires a { Knows (S.state store.old) a }
        requires b { Knows (S.state store.old) b }
        requires planned { let s = S.state store.old in Covers s.plan (needs_of s Ones a b.0) }
        ensures ready { ready self.new }
        ensures result { let s = S.state store.old in
            Gives s (S.state store.new) result (ones_of s.vars (family s a) (family s b))
            (needs_of s Ones a b.0) };
}

/// The operations one after the other, by the plain calls.
#[derive(Clone, Copy, Debug)]
pub struct Serial;

impl<S: Store> SetOps<S> for Serial {
    ghost ready = { λ _. Unit {0} };

    fn union(&mut self, store: &mut S, a: Handle, b: Handle) -> Result<Handle, Full> {
        set_algebra::union(store, a, b)
    }

    fn inter(&mut self, store: &mut S, a: Handle, b: Handle) -> Result<Handle, Full> {
        set_algebra::inter(store, a, b)
    }

    fn minus(&mut self, store: &mut S, a: Handle, b: Handle) -> Result<Handle, Full> {
        set_algebra::minus(store, a, b)
    }

    fn xor(&mut self, store: &mut S, a: Handle, b: Handle) -> Result<Handle, Full> {
        set_algebra::xor(store, a, b)
    }

    fn ones_of(&mut self, store: &mut S, a: Handle, b: Handle) -> Result<Handle, Full> {
        points::ones_of(store, a, b)
    }
}
