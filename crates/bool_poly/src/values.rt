//! The sum of two polynomials, and the greatest monomial and the values of one.
ghost use Rattle.std.specs.Prelude.{◌≡◌, ◌≢◌, ◌<◌, ◌^◌, ◌↔◌, [], IsTrue, IsNone, IfSome};
ghost use Rattle.lattice.specs.Family.{sum_of};
ghost use Rattle.lattice.specs.Polynomial.{IsGreatest, value};
ghost use Rattle.node_store.specs.Stores.{Knows, family, IsPlanned, Reads, Builds};

use lattice::Mono;
use node_store::{Full, Handle, Store};
use set_algebra::xor;

/// The sum modulo 2: the monomials of exactly one of `a` and `b`.
pub fn sum<S: Store>(store: &mut S, a: Handle, b: Handle) -> Result<Handle, Full>
    requires a { Knows (S.state store.old) a }
    requires b { Knows (S.state store.old) b }
    requires planned { let s = S.state store.old in
        IsPlanned s (sum_of s.vars (family s a) (family s b)) }
    ensures { let s = S.state store.old in
        Builds s (S.state store.new) result (sum_of s.vars (family s a) (family s b)) }
{
    xor(store, a, b)
}

/// The greatest monomial of a polynomial other than 0.
fn greatest<S: Store>(store: &mut S, a: Handle) -> u64
    requires known { Knows (S.state store.old) a }
    requires some { a.0 ≢ 0 }
    ensures reads { Reads (S.state store.old) (S.state store.new) }
    ensures greatest { IsGreatest (family (S.state store.old) a) result }
{
    match store.node(a) {
        None => 0,
        Some(n) => {
            let weight = 1u64 << (store.vars() - n.var);
            weight + greatest(store, n.hi)
        }
    }
}

/// The greatest monomial; None exactly for the polynomial 0.
pub fn lead<S: Store>(store: &mut S, a: Handle) -> Option<Mono>
    requires { Knows (S.state store.old) a }
    ensures reads { Reads (S.state store.old) (S.state store.new) }
    ensures none { IsNone result ↔ (family (S.state store.old) a ≡ []) }
    ensures greatest { IfSome result (IsGreatest (family (S.state store.old) a)) }
{
    if a.0 == 0 {
        return None;
    }
    Some(Mono(greatest(store, a)))
}

/// Whether the value at a point below 2^vars is 1. The number of steps grows with that of the
/// monomials that divide the point.
pub fn value_of<S: Store>(store: &mut S, a: Handle, point: u64) -> bool
    requires known { Knows (S.state store.old) a }
    requires below { point < 2 ^ (S.state store.old).vars }
    ensures reads { Reads (S.state store.old) (S.state store.new) }
    ensures value { IsTrue result ↔ (value (family (S.state store.old) a) point ≡ 1) }
{
    match store.node(a) {
        None => a.0 != 0,
        Some(n) => {
            let weight = Mono(1 << (store.vars() - n.var));
            let low = value_of(store, n.lo, point);
            if weight.divides(point) {
                low != value_of(store, n.hi, point)
            } else {
                low
            }
        }
    }
}
