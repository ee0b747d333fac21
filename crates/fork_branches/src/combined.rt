//! The operations that tell for each number alone whether it is in the result, in two branches.
ghost use Rattle.std.specs.Prelude.{◌≡◌, ◌≤◌, ◌<◌, OnErr, true};
ghost use Rattle.std.specs.Thread.{IsSync};
ghost use Rattle.lattice.specs.Operations.{is_pointwise};
ghost use Rattle.set_algebra.specs.Pairs.{Asks};
ghost use Rattle.unique_table.specs.Passes.{token_state, IsOf};
ghost use Rattle.computed_cache.specs.Cached.{cached_state};
ghost use Rattle.fork_branches.specs.Branches.{Combines, CombinesBoth, ForksCombining};
ghost use Rattle.fork_branches.specs.Branches.{IsForkedCombining};

use crate::fork::Fork;
use crate::pairs::pair_of;
use computed_cache::CachedPass;
use lattice::Op;
use node_store::{Full, Handle};
use outside::Gate;
use set_algebra::{Begun, Cofactors, begin, combine, finish};
use std::thread::{Threads, join};
use unique_table::{Shared, Token};

// Both halves one after the other.
fn combine_in_row(store: &mut CachedPass, op: Op, c: Cofactors) -> Result<(Handle, Handle), Full>
    requires op { is_pointwise op ≡ true }
    requires low { Asks op (cached_state store.old) c.a_low c.b_low }
    requires high { Asks op (cached_state store.old) c.a_high c.b_high }
    ensures { CombinesBoth op (cached_state store.old) (cached_state store.new) c.a_low c.b_low
        c.a_high c.b_high result }
{
    let lo = combine(store, op, c.a_low, c.b_low)?;
    let hi = combine(store, op, c.a_high, c.b_high)?;
    Ok((lo, hi))
}

// Both halves beside each other. The pass is split before the branches start, and takes in what
// both know once they have ended, also where one of them is Full.
#[cycle(combined)]
fn combine_both<R: Threads + Sync, G: Gate + Sync>(
    fork: &Fork<R, G>,
    workers: u32,
    store: &mut CachedPass,
    op: Op,
    c: Cofactors,
) -> Result<(Handle, Handle), Full>
    requires workers { 2 ≤ workers }
    requires op { is_pointwise op ≡ true }
    requires low { Asks op (cached_state store.old) c.a_low c.b_low }
    requires high { Asks op (cached_state store.old) c.a_high c.b_high }
    ensures gives { CombinesBoth op (cached_state store.old) (cached_state store.new) c.a_low
        c.b_low c.a_high c.b_high result }
    ensures forks { ForksCombining op (cached_state store.old) (cached_state store.new) c.a_low
        c.b_low c.a_high c.b_high result }
{
    let (rt, gate) = (fork.rt, fork.gate);
    let table = store.table();
    let first = store.split().end().end();
    let second = store.split().end().end();
    let fewer = workers / 2;
    let more = workers - fewer;
    let (a_low, b_low, a_high, b_high) = (c.a_low, c.b_low, c.a_high, c.b_high);
    let front = move || -> (Token, Result<Handle, Full>)
        requires { IsSync R.row × IsSync G.row × (1 ≤ more) × (is_pointwise op ≡ true)
            × IsOf first table.now × Asks op (token_state first) a_low b_low }
        ensures { IsOf result.0 table.entry.now
            × Combines op (token_state first) (token_state result.0) a_low b_low result.1 }
    {
        gate.enter(0);
        combine_on(&Fork { rt, gate }, more, table, first, op, a_low, b_low)
    };
    let back = move || -> (Token, Result<Handle, Full>)
        requires { IsSync R.row × IsSync G.row × (1 ≤ fewer) × (is_pointwise op ≡ true)
            × IsOf second table.now × Asks op (token_state second) a_high b_high }
        ensures { IsOf result.0 table.entry.now
            × Combines op (token_state second) (token_state result.0) a_high b_high result.1 }
    {
        gate.enter(1);
        combine_on(&Fork { rt, gate }, fewer, table, second, op, a_high, b_high)
    };
    let ((first, lo), (second, hi)) = join(rt, front, back);
    store.join(CachedPass::new(table.pass(first)));
    store.join(CachedPass::new(table.pass(second)));
    pair_of(lo, hi)
}

// What a branch runs.
#[cycle(combined)]
fn combine_on<R: Threads + Sync, G: Gate + Sync>(
    fork: &Fork<R, G>,
    workers: u32,
    table: &Shared,
    token: Token,
    op: Op,
    a: Handle,
    b: Handle,
) -> (Token, Result<Handle, Full>)
    requires workers { 1 ≤ workers }
    requires op { is_pointwise op ≡ true }
    requires of { IsOf token table.now }
    requires asks { Asks op (token_state token) a b }
    ensures of { IsOf result.0 table.entry.now }
    ensures combines { Combines op (token_state token) (token_state result.0) a b result.1 }
{
    let mut pass = CachedPass::new(table.pass(token));
    let mut first = u32::MAX;
    let r = combine_in(fork, workers, &mut first, &mut pass, op, a, b);
    (pass.end().end(), r)
}

// Both halves: in two branches where there are workers for them and each operation before began at
// a later variable, and else one after the other.
#[cycle(combined)]
fn combine_halves<R: Threads + Sync, G: Gate + Sync>(
    fork: &Fork<R, G>,
    workers: u32,
    first: &mut u32,
    store: &mut CachedPass,
    op: Op,
    c: Cofactors,
) -> Result<(Handle, Handle), Full>
    requires workers { 1 ≤ workers }
    requires op { is_pointwise op ≡ true }
    requires low { Asks op (cached_state store.old) c.a_low c.b_low }
    requires high { Asks op (cached_state store.old) c.a_high c.b_high }
    ensures gives { CombinesBoth op (cached_state store.old) (cached_state store.new) c.a_low
        c.b_low c.a_high c.b_high result }
    ensures forks { 2 ≤ workers → c.var < first.old
        → ForksCombining op (cached_state store.old) (cached_state store.new) c.a_low c.b_low
        c.a_high c.b_high result }
    ensures first { first.new ≤ first.old }
{
    if workers < 2 || *first <= c.var {
        return combine_in_row(store, op, c);
    }
    *first = c.var;
    combine_both(fork, workers, store, op, c)
}

/// The result of a pointwise operation, by as many workers. It forks where its first variable is
/// before `first`, which it lowers to that variable then.
#[cycle(combined)]
pub(crate) fn combine_in<R: Threads + Sync, G: Gate + Sync>(
    fork: &Fork<R, G>,
    workers: u32,
    first: &mut u32,
    store: &mut CachedPass,
    op: Op,
    a: Handle,
    b: Handle,
) -> Result<Handle, Full>
    requires workers { 1 ≤ workers }
    requires op { is_pointwise op ≡ true }
    requires asks { Asks op (cached_state store.old) a b }
    ensures combines { Combines op (cached_state store.old) (cached_state store.new) a b result }
    ensures full { OnErr result (IsForkedCombining op (cached_state store.old)
        (cached_state store.new) a b workers first.old) }
    ensures first { first.new ≤ first.old }
{
    match begin(store, op, a, b) {
        Begun::Done(r) => Ok(r),
        Begun::Halves(halved) => {
            let (lo, hi) = combine_halves(fork, workers, first, store, op, halved.cofactors)?;
            finish(store, op, halved, lo, hi)
        }
    }
}
