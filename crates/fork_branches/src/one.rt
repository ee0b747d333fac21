//! One job by several workers, each of which does the whole of it.
ghost use Rattle.std.specs.Prelude.{◌≡◌, ◌≤◌, ◌<◌, ◌+◌};
ghost use Rattle.std.specs.Thread.{IsSync};
ghost use Rattle.unique_table.specs.Passes.{token_state, IsOf};
ghost use Rattle.computed_cache.specs.Cached.{cached_state};
ghost use Rattle.fork_branches.specs.Work.{MayWork};
ghost use Rattle.fork_branches.specs.Runs.{Runs, RunsTwice, ForksRunning, IsRunTwice};

use crate::fork::Fork;
use crate::jobs::Jobs;
use crate::pairs::pair_of;
use crate::turned::Turned;
use bool_poly::Serial;
use computed_cache::CachedPass;
use node_store::{Full, Handle};
use outside::{Gate, Rendezvous};
use std::thread::{Threads, join};
use unique_table::{Shared, Token};

// The job in two branches, each of which does the whole of it. The pass is split before the
// branches start, and takes in what both know once they have ended, also where one of them is Full.
#[cycle(one)]
fn run_both<R: Threads + Sync, J: Jobs>(
    fork: &Fork<R, Rendezvous>,
    workers: u32,
    place: u32,
    jobs: &J,
    pass: &mut CachedPass,
    number: u32,
) -> Result<(Handle, Handle), Full>
    requires workers { 2 ≤ workers }
    requires places { place + workers ≤ 16 }
    requires may { MayWork (J.tasks jobs.now) (cached_state pass.old) }
    requires below { number < (J.tasks jobs.now).total }
    ensures runs { RunsTwice (J.tasks jobs.now) number (cached_state pass.old)
        (cached_state pass.new) result }
    ensures forks { ForksRunning (J.tasks jobs.now) number (cached_state pass.old)
        (cached_state pass.new) result }
{
    let (rt, gate) = (fork.rt, fork.gate);
    let table = pass.table();
    let one = pass.split().end().end();
    let two = pass.split().end().end();
    let fewer = workers / 2;
    let more = workers - fewer;
    let next = place + more;
    let front = move || -> (Token, Result<Handle, Full>)
        requires { IsSync R.row × (1 ≤ more) × (place + more ≤ 16) × IsOf one table.now
            × MayWork (J.tasks jobs.now) (token_state one) × (number < (J.tasks jobs.now).total) }
        ensures { IsOf result.0 table.entry.now × Runs (J.tasks jobs.entry.now) number
            (token_state one) (token_state result.0) result.1 }
    {
        gate.enter(0);
        run_on(&Fork { rt, gate }, more, place, jobs, table, one, number)
    };
    let back = move || -> (Token, Result<Handle, Full>)
        requires { IsSync R.row × (1 ≤ fewer) × (next + fewer ≤ 16) × IsOf two table.now
            × MayWork (J.tasks jobs.now) (token_state two) × (number < (J.tasks jobs.now).total) }
        ensures { IsOf result.0 table.entry.now × Runs (J.tasks jobs.entry.now) number
            (token_state two) (token_state result.0) result.1 }
    {
        gate.enter(1);
        run_on(&Fork { rt, gate }, fewer, next, jobs, table, two, number)
    };
    let ((one, front), (two, back)) = join(rt, front, back);
    pass.join(CachedPass::new(table.pass(one)));
    pass.join(CachedPass::new(table.pass(two)));
    pair_of(front, back)
}

// What a branch runs.
#[cycle(one)]
fn run_on<R: Threads + Sync, J: Jobs>(
    fork: &Fork<R, Rendezvous>,
    workers: u32,
    place: u32,
    jobs: &J,
    table: &Shared,
    token: Token,
    number: u32,
) -> (Token, Result<Handle, Full>)
    requires workers { 1 ≤ workers }
    requires places { place + workers ≤ 16 }
    requires of { IsOf token table.now }
    requires may { MayWork (J.tasks jobs.now) (token_state token) }
    requires below { number < (J.tasks jobs.now).total }
    ensures of { IsOf result.0 table.entry.now }
    ensures runs { Runs (J.tasks jobs.now) number (token_state token) (token_state result.0)
        result.1 }
{
    let mut pass = CachedPass::new(table.pass(token));
    let result = run_in(fork, workers, place, jobs, &mut pass, number);
    (pass.end().end(), result)
}

/// The handle of a job, by as many workers, whose places begin at `place`. Each of them does the
/// whole job, with the halves of its operations in another order (`Turned`), on a pass of its own,
/// and so finds what the others kept.
#[cycle(one)]
pub fn run_in<R: Threads + Sync, J: Jobs>(
    fork: &Fork<R, Rendezvous>,
    workers: u32,
    place: u32,
    jobs: &J,
    pass: &mut CachedPass,
    number: u32,
) -> Result<Handle, Full>
    requires workers { 1 ≤ workers }
    requires places { place + workers ≤ 16 }
    requires may { MayWork (J.tasks jobs.now) (cached_state pass.old) }
    requires below { number < (J.tasks jobs.now).total }
    ensures runs { Runs (J.tasks jobs.now) number (cached_state pass.old) (cached_state pass.new)
        result }
    ensures forks { 2 ≤ workers
        → IsRunTwice (J.tasks jobs.now) number (cached_state pass.old) (cached_state pass.new) }
{
    if workers == 1 {
        return if place == 0 {
            jobs.one(pass, &mut Serial, number)
        } else {
            jobs.one(pass, &mut Turned::at(place), number)
        };
    }
    let (handle, _) = run_both(fork, workers, place, jobs, pass, number)?;
    Ok(handle)
}
