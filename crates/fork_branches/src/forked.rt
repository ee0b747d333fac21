//! The set operations in branches.
ghost use Rattle.std.specs.Prelude.{◌≤◌};

use crate::combined::combine_in;
use crate::fork::Fork;
use crate::ones::ones_in;
use bool_poly::SetOps;
use computed_cache::CachedPass;
use lattice::Op;
use node_store::{Full, Handle};
use outside::Rendezvous;
use std::thread::Threads;

/// The set operations, each in as many branches as there are workers.
///
/// An operation forks where there are two workers or more, it goes on into two halves, and its
/// first variable is before the first variable of every operation that went on into halves before
/// it. So the first such operation forks, and few others do, at most one for each variable: a fork
/// costs as much as some thousand nodes. Of the workers the first half gets those that the second
/// half, with half of them rounded down, leaves. Each branch works on a pass of its own, which was
/// split from that of the caller and is joined to it after both branches, and enters the gate
/// first: place 0 in the first branch, and place 1 in the second. It takes no memory.
#[derive(Drop)]
pub struct Forked<'g, R> {
    fork: Fork<'g, R, Rendezvous>,
    workers: u32,
    first: u32,
    ghost some: { 1 ≤ workers },
}

impl<'g, R: Threads + Sync> Forked<'g, R> {
    ghost use Rattle.std.specs.Prelude.{◌≡◌};
    ghost use Rattle.fork_branches.specs.Forking.{workers_for, forks_before};

    /// The operations by 1 to 16 workers. The first one that goes on into two halves forks.
    pub fn new(rt: &'g R, gate: &'g Rendezvous, workers: u32) -> Forked<'g, R>
        requires { (1 ≤ workers) × (workers ≤ 16) }
        ensures workers { workers_for result ≡ workers }
        ensures first { forks_before result ≡ 4294967295 }
    {
        Forked {
            fork: Fork { rt, gate },
            workers,
            first: u32::MAX,
        }
    }
}

impl<'g, 't, R: Threads + Sync> SetOps<CachedPass<'t>> for Forked<'g, R> {
    ghost use Rattle.std.specs.Prelude.{◌≡◌, OnErr};
    ghost use Rattle.std.specs.Thread.{IsSync};
    ghost use Rattle.lattice.specs.Family.{Covers, union_of, inter_of, minus_of, sum_of};
    ghost use Rattle.lattice.specs.Polynomial.{ones_of};
    ghost use Rattle.lattice.specs.declared.op.Op.TheVariants.{Union, Inter, Minus, Xor, Ones};
    ghost use Rattle.node_store.specs.Stores.{Knows, family, IsPlanned, Builds, Gives, needs_of};
    ghost use Rattle.computed_cache.specs.Cached.{cached_state};
    ghost use Rattle.fork_branches.specs.Branches.{IsForkedCombining, IsForkedFinding};
    ghost use Rattle.fork_branches.specs.Forking.{workers_for, forks_before};

    ghost ready = { λ _. IsSync R.row };

    fn union(&mut self, store: &mut CachedPass<'t>, a: Handle, b: Handle) -> Result<Handle, Full>
        requires ready { IsSync R.row }
        requires a { Knows (cached_state store.old) a }
        requires b { Knows (cached_state store.old) b }
        requires planned { let s = cached_state store.old in
            IsPlanned s (union_of s.vars (family s a) (family s b)) }
        ensures ready { IsSync R.row }
        ensures result { let s = cached_state store.old in
            Builds s (cached_state store.new) result (union_of s.vars (family s a) (family s b)) }
        ensures full { OnErr result (IsForkedCombining Union (cached_state store.old)
            (cached_state store.new) a b (workers_for self.old) (forks_before self.old)) }
        ensures workers { workers_for self.new ≡ workers_for self.old }
        ensures first { forks_before self.new ≤ forks_before self.old }
    {
        combine_in(
            &self.fork,
            self.workers,
            &mut self.first,
            store,
            Op::Union,
            a,
            b,
        )
    }

    fn inter(&mut self, store: &mut CachedPass<'t>, a: Handle, b: Handle) -> Result<Handle, Full>
        requires ready { IsSync R.row }
        requires a { Knows (cached_state store.old) a }
        requires b { Knows (cached_state store.old) b }
        requires planned { let s = cached_state store.old in
            IsPlanned s (inter_of s.vars (family s a) (family s b)) }
        ensures ready { IsSync R.row }
        ensures result { let s = cached_state store.old in
            Builds s (cached_state store.new) result (inter_of s.vars (family s a) (family s b)) }
        ensures full { OnErr result (IsForkedCombining Inter (cached_state store.old)
            (cached_state store.new) a b (workers_for self.old) (forks_before self.old)) }
        ensures workers { workers_for self.new ≡ workers_for self.old }
        ensures first { forks_before self.new ≤ forks_before self.old }
    {
        combine_in(
            &self.fork,
            self.workers,
            &mut self.first,
            store,
            Op::Inter,
            a,
            b,
        )
    }

    fn minus(&mut self, store: &mut CachedPass<'t>, a: Handle, b: Handle) -> Result<Handle, Full>
        requires ready { IsSync R.row }
        requires a { Knows (cached_state store.old) a }
        requires b { Knows (cached_state store.old) b }
        requires planned { let s = cached_state store.old in
            IsPlanned s (minus_of s.vars (family s a) (family s b)) }
        ensures ready { IsSync R.row }
        ensures result { let s = cached_state store.old in
            Builds s (cached_state store.new) result (minus_of s.vars (family s a) (family s b)) }
        ensures full { OnErr result (IsForkedCombining Minus (cached_state store.old)
            (cached_state store.new) a b (workers_for self.old) (forks_before self.old)) }
        ensures workers { workers_for self.new ≡ workers_for self.old }
        ensures first { forks_before self.new ≤ forks_before self.old }
    {
        combine_in(
            &self.fork,
            self.workers,
            &mut self.first,
            store,
            Op::Minus,
            a,
            b,
        )
    }

    fn xor(&mut self, store: &mut CachedPass<'t>, a: Handle, b: Handle) -> Result<Handle, Full>
        requires ready { IsSync R.row }
        requires a { Knows (cached_state store.old) a }
        requires b { Knows (cached_state store.old) b }
        requires planned { let s = cached_state store.old in
            IsPlanned s (sum_of s.vars (family s a) (family s b)) }
        ensures ready { IsSync R.row }
        ensures result { let s = cached_state store.old in
            Builds s (cached_state store.new) result (sum_of s.vars (family s a) (family s b)) }
        ensures full { OnErr result (IsForkedCombining Xor (cached_state store.old)
            (cached_state store.new) a b (workers_for self.old) (forks_before self.old)) }
        ensures workers { workers_for self.new ≡ workers_for self.old }
        ensures first { forks_before self.new ≤ forks_before self.old }
    {
        combine_in(
            &self.fork,
            self.workers,
            &mut self.first,
            store,
            Op::Xor,
            a,
            b,
        )
    }

    fn ones_of(&mut self, store: &mut CachedPass<'t>, a: Handle, b: Handle) -> Result<Handle, Full>
        requires ready { IsSync R.row }
        requires a { Knows (cached_state store.old) a }
        requires b { Knows (cached_state store.old) b }
        requires planned { let s = cached_state store.old in Covers s.plan (needs_of s Ones a b.0) }
        ensures ready { IsSync R.row }
        ensures result { let s = cached_state store.old in
            Gives s (cached_state store.new) result (ones_of s.vars (family s a) (family s b))
            (needs_of s Ones a b.0) }
        ensures full { OnErr result (IsForkedFinding (cached_state store.old)
            (cached_state store.new) a b (workers_for self.old) (forks_before self.old)) }
        ensures workers { workers_for self.new ≡ workers_for self.old }
        ensures first { forks_before self.new ≤ forks_before self.old }
    {
        ones_in(&self.fork, self.workers, &mut self.first, store, a, b)
    }
}
