ghost use Rattle.std.specs.Prelude.{◌≡◌, ◌↔◌, ℕ, ◌<◌, ◌^◌, IsTrue, true, List};
ghost use Rattle.std.specs.Ordering.{nat_cmp};
ghost use Rattle.lattice.specs.Family.{divides};
ghost use Rattle.lattice.specs.Polynomial.{value};

use std::cmp::Ordering;
use std::marker::Model;

/// A monomial: the sum of the weights of its variables.
#[derive(Clone, Copy, PartialEq, Eq, Debug)]
pub struct Mono(pub u64);

impl Model for Mono {
    ghost Value = { ℕ };

    ghost view = { λ m. m.0 };

    ghost invariant = { λ m. m.0 < 2 ^ 64 };

    ghost inverse = { λ m. record { 0 = m } };
}

impl Mono {
    /// Whether every bit of the monomial is in `a`.
    #[tactic(auto, unfolding(crate::specs::Family::divides))]
    pub fn divides(self, a: u64) -> bool
        ensures { result ≡ divides self a }
    {
        self.0 & a == self.0
    }

    /// The order of the two monomials, which is that of the numbers.
    pub fn compare(self, other: Mono) -> Ordering
        ensures { result ≡ nat_cmp self other }
    {
        self.0.cmp(&other.0)
    }
}

/// Whether an odd number of the terms divide `a`.
pub fn value_at(terms: &[Mono], a: u64) -> bool
    ensures { IsTrue result ↔ (value terms.now a ≡ 1) }
{
    let mut odd = false;
    for term in terms {
        if term.divides(a) {
            odd = !odd;
        }
    }
    odd
}
