//! The points where a polynomial is 1, in two branches.
ghost use Rattle.std.specs.Prelude.{◌≡◌, ◌≤◌, ◌<◌, OnErr};
ghost use Rattle.std.specs.Thread.{IsSync};
ghost use Rattle.bool_poly.specs.Parts.{AsksOnes, AsksWith};
ghost use Rattle.unique_table.specs.Passes.{token_state, IsOf};
ghost use Rattle.computed_cache.specs.Cached.{cached_state};
ghost use Rattle.fork_branches.specs.Branches.{FindsOnes, FindsWith, FindsBoth, ForksFinding};
ghost use Rattle.fork_branches.specs.Branches.{IsForkedFinding};

use crate::fork::Fork;
use crate::pairs::pair_of;
use bool_poly::{begin_ones, finish_ones, ones_of, part_with};
use computed_cache::CachedPass;
use node_store::{Full, Handle};
use outside::Gate;
use set_algebra::{Begun, Cofactors};
use std::thread::{Threads, join};
use unique_table::{Shared, Token};

// Both halves one after the other.
fn ones_in_row(store: &mut CachedPass, c: Cofactors) -> Result<(Handle, Handle), Full>
    requires low { AsksOnes (cached_state store.old) c.a_low c.b_low }
    requires high { AsksWith (cached_state store.old) c.a_low c.a_high c.b_high }
    ensures { FindsBoth (cached_state store.old) (cached_state store.new) c.a_low c.b_low c.a_high
        c.b_high result }
{
    let lo = ones_of(store, c.a_low, c.b_low)?;
    let with = part_with(store, c.a_low, c.a_high, c.b_high)?;
    let hi = ones_of(store, with, c.b_high)?;
    Ok((lo, hi))
}

// Both halves beside each other. The pass is split before the branches start, and takes in what
// both know once they have ended, also where one of them is Full.
#[cycle(ones)]
fn ones_both<R: Threads + Sync, G: Gate + Sync>(
    fork: &Fork<R, G>,
    workers: u32,
    store: &mut CachedPass,
    c: Cofactors,
) -> Result<(Handle, Handle), Full>
    requires workers { 2 ≤ workers }
    requires low { AsksOnes (cached_state store.old) c.a_low c.b_low }
    requires high { AsksWith (cached_state store.old) c.a_low c.a_high c.b_high }
    ensures gives { FindsBoth (cached_state store.old) (cached_state store.new) c.a_low c.b_low
        c.a_high c.b_high result }
    ensures forks { ForksFinding (cached_state store.old) (cached_state store.new) c.a_low c.b_low
        c.a_high c.b_high result }
{
    let (rt, gate) = (fork.rt, fork.gate);
    let table = store.table();
    let first = store.split().end().end();
    let second = store.split().end().end();
    let fewer = workers / 2;
    let more = workers - fewer;
    let (a_low, b_low, a_high, b_high) = (c.a_low, c.b_low, c.a_high, c.b_high);
    let front = move || -> (Token, Result<Handle, Full>)
        requires { IsSync R.row × IsSync G.row × (1 ≤ more) × IsOf first table.now
            × AsksOnes (token_state first) a_low b_low }
        ensures { IsOf result.0 table.entry.now
            × FindsOnes (token_state first) (token_state result.0) a_low b_low result.1 }
    {
        gate.enter(0);
        ones_on(&Fork { rt, gate }, more, table, first, a_low, b_low)
    };
    let back = move || -> (Token, Result<Handle, Full>)
        requires { IsSync R.row × IsSync G.row × (1 ≤ fewer) × IsOf second table.now
            × AsksWith (token_state second) a_low a_high b_high }
        ensures { IsOf result.0 table.entry.now
            × FindsWith (token_state second) (token_state result.0) a_low a_high b_high result.1 }
    {
        gate.enter(1);
        with_on(
            &Fork { rt, gate },
            fewer,
            table,
            second,
            a_low,
            a_high,
            b_high,
        )
    };
    let ((first, lo), (second, hi)) = join(rt, front, back);
    store.join(CachedPass::new(table.pass(first)));
    store.join(CachedPass::new(table.pass(second)));
    pair_of(lo, hi)
}

// What the first branch runs: the points without the variable.
#[cycle(ones)]
fn ones_on<R: Threads + Sync, G: Gate + Sync>(
    fork: &Fork<R, G>,
    workers: u32,
    table: &Shared,
    token: Token,
    h: Handle,
    set: Handle,
) -> (Token, Result<Handle, Full>)
    requires workers { 1 ≤ workers }
    requires of { IsOf token table.now }
    requires asks { AsksOnes (token_state token) h set }
    ensures of { IsOf result.0 table.entry.now }
    ensures finds { FindsOnes (token_state token) (token_state result.0) h set result.1 }
{
    let mut pass = CachedPass::new(table.pass(token));
    let mut first = u32::MAX;
    let r = ones_in(fork, workers, &mut first, &mut pass, h, set);
    (pass.end().end(), r)
}

// What the second branch runs: the points with the variable, at which the sum of both parts of the
// polynomial is 1.
#[cycle(ones)]
fn with_on<R: Threads + Sync, G: Gate + Sync>(
    fork: &Fork<R, G>,
    workers: u32,
    table: &Shared,
    token: Token,
    low: Handle,
    high: Handle,
    points: Handle,
) -> (Token, Result<Handle, Full>)
    requires workers { 1 ≤ workers }
    requires of { IsOf token table.now }
    requires asks { AsksWith (token_state token) low high points }
    ensures of { IsOf result.0 table.entry.now }
    ensures finds { FindsWith (token_state token) (token_state result.0) low high points result.1 }
{
    let mut pass = CachedPass::new(table.pass(token));
    let r = with_in(fork, workers, &mut pass, low, high, points);
    (pass.end().end(), r)
}

// The points with a variable at which the sum of both parts is 1, by as many workers.
#[cycle(ones)]
fn with_in<R: Threads + Sync, G: Gate + Sync>(
    fork: &Fork<R, G>,
    workers: u32,
    store: &mut CachedPass,
    low: Handle,
    high: Handle,
    points: Handle,
) -> Result<Handle, Full>
    requires workers { 1 ≤ workers }
    requires asks { AsksWith (cached_state store.old) low high points }
    ensures { FindsWith (cached_state store.old) (cached_state store.new) low high points result }
{
    let with = part_with(store, low, high, points)?;
    let mut first = u32::MAX;
    ones_in(fork, workers, &mut first, store, with, points)
}

// Both halves: in two branches where there are workers for them and each operation before began at
// a later variable, and else one after the other.
#[cycle(ones)]
fn ones_halves<R: Threads + Sync, G: Gate + Sync>(
    fork: &Fork<R, G>,
    workers: u32,
    first: &mut u32,
    store: &mut CachedPass,
    c: Cofactors,
) -> Result<(Handle, Handle), Full>
    requires workers { 1 ≤ workers }
    requires low { AsksOnes (cached_state store.old) c.a_low c.b_low }
    requires high { AsksWith (cached_state store.old) c.a_low c.a_high c.b_high }
    ensures gives { FindsBoth (cached_state store.old) (cached_state store.new) c.a_low c.b_low
        c.a_high c.b_high result }
    ensures forks { 2 ≤ workers → c.var < first.old
        → ForksFinding (cached_state store.old) (cached_state store.new) c.a_low c.b_low c.a_high
        c.b_high result }
    ensures first { first.new ≤ first.old }
{
    if workers < 2 || *first <= c.var {
        return ones_in_row(store, c);
    }
    *first = c.var;
    ones_both(fork, workers, store, c)
}

/// The points of `set` at which the polynomial `h` is 1, by as many workers. It forks where the
/// first variable of both is before `first`, which it lowers to that variable then.
#[cycle(ones)]
pub(crate) fn ones_in<R: Threads + Sync, G: Gate + Sync>(
    fork: &Fork<R, G>,
    workers: u32,
    first: &mut u32,
    store: &mut CachedPass,
    h: Handle,
    set: Handle,
) -> Result<Handle, Full>
    requires workers { 1 ≤ workers }
    requires asks { AsksOnes (cached_state store.old) h set }
    ensures finds { FindsOnes (cached_state store.old) (cached_state store.new) h set result }
    ensures full { OnErr result (IsForkedFinding (cached_state store.old) (cached_state store.new) h
        set workers first.old) }
    ensures first { first.new ≤ first.old }
{
    match begin_ones(store, h, set) {
        Begun::Done(r) => Ok(r),
        Begun::Halves(halved) => {
            let (lo, hi) = ones_halves(fork, workers, first, store, halved.cofactors)?;
            finish_ones(store, halved, lo, hi)
        }
    }
}
