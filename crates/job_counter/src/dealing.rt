//! How numbers are dealt to workers.
use lattice::Memory;
use std::alloc::Global;

/// What deals the numbers below a count to workers, each to one of them, once.
pub trait Dealing: Sync + Drop {
    /// What a worker takes numbers with. One hand has all shares of the dealing at first. It is
    /// halved for workers that start in halves, and the halves are united once these have ended.
    type Hand: Send + Drop;

    ghost use Rattle.std.specs.Prelude.{◌≡◌, ◌+◌, ◌^◌, ◌<◌, ◌≤◌, ℕ, List, [], ◌∷◌, ◌++◌, length};
    ghost use Rattle.std.specs.Prelude.{IfOk, IfSome, IfNone};
    ghost use Rattle.job_counter.specs.Numbers.{times, once_below};

    // How many numbers there are.
    ghost total: { Self → ℕ };

    // The hand is of the dealing.
    ghost is_of: { Self → Self.Hand → Type 0 };

    // Nothing was taken with the hand, and it can be halved.
    ghost is_fresh: { Self → Self.Hand → Type 0 };

    // The shares that there are, and those that the hand has.
    ghost whole: { Self → List ℕ };

    ghost shares: { Self.Hand → List ℕ };

    // How often the number was taken with the hand.
    ghost took: { Self → Self.Hand → ℕ → ℕ };

    /// A dealing of the numbers below the count to so many workers, and the hand that has all
    /// shares. All memory of the dealing is taken here.
    fn make(alloc: Global, count: u32, workers: u32) -> Result<(Self, Self::Hand), Memory>
        requires count { count < 2 ^ 30 }
        requires workers { (1 ≤ workers) × (workers ≤ 16) }
        ensures total { IfOk result (λ r. total r.0 ≡ count) }
        ensures of { IfOk result (λ r. is_of r.0 r.1) }
        ensures fresh { IfOk result (λ r. is_fresh r.0 r.1) }
        ensures whole { IfOk result (λ r. shares r.1 ≡ whole r.0) }
        ensures none { IfOk result (λ r. (x : ℕ) → took r.0 r.1 x ≡ 0) };

    /// Takes a number. None says that no number is left, if the hand has all shares, and says
    /// nothing else.
    fn take(&self, hand: &mut Self::Hand) -> Option<u32>
        requires { is_of self.now hand.old }
        ensures of { is_of self.now hand.new }
        ensures shares { shares hand.new ≡ shares hand.old }
        ensures below { IfSome result (λ n. n < total self.now) }
        ensures some { IfSome result (λ n. (x : ℕ) → took self.now hand.new x
            ≡ took self.now hand.old x + times x (n ∷ [])) }
        ensures once { IfSome result (λ _. (x : ℕ) → took self.now hand.new x
            ≤ once_below x (total self.now)) }
        ensures none { IfNone result ((x : ℕ) → took self.now hand.new x
            ≡ took self.now hand.old x) }
        ensures over { IfNone result (shares hand.new ≡ whole self.now → (x : ℕ)
            → took self.now hand.new x ≡ once_below x (total self.now)) };

    /// Two hands that have the shares of the one between them. Nothing was taken with it yet.
    fn halve(&self, hand: Self::Hand) -> (Self::Hand, Self::Hand)
        requires of { is_of self.now hand }
        requires fresh { is_fresh self.now hand }
        ensures of { is_of self.now result.0 × is_of self.now result.1 }
        ensures fresh { is_fresh self.now result.0 × is_fresh self.now result.1 }
        ensures took { (x : ℕ) → took self.now result.0 x + took self.now result.1 x
            ≡ took self.now hand x }
        ensures shares { shares result.0 ++ shares result.1 ≡ shares hand }
        ensures few { length (shares hand) ≤ length (whole self.now) };

    /// One hand with the shares of both, and with what both took.
    fn unite(&self, first: Self::Hand, second: Self::Hand) -> Self::Hand
        requires first { is_of self.now first }
        requires second { is_of self.now second }
        requires few { length (shares first ++ shares second) ≤ length (whole self.now) }
        ensures of { is_of self.now result }
        ensures shares { shares result ≡ shares first ++ shares second }
        ensures took { (x : ℕ) → took self.now result x
            ≡ took self.now first x + took self.now second x };
}
