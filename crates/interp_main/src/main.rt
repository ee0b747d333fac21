//! `interp MODE [--workers N] [--nodes B] [--terms T] [--seed S] [--order NAMES]`: reads a
//! description from standard input, and writes least Boolean polynomials to standard output and a
//! line of progress for each of the first outputs to standard error.
#![tactic(auto)]

use fork_branches::Drawn;
use interp_run::Interp;
use outside::{Rendezvous, StdSink, StdSource};
use program::{alone, end_without_memory, start_program};
use std::process::ExitCode;
use watch::Lines;

/// There are lines of progress for so many outputs.
const PATIENCE: u32 = 16;

// Runs on the standard streams, with one watcher that writes lines of progress to standard error.
// Its branches wait at no gate.
fn main(rt: HostRuntime) -> ExitCode {
    let mut source = StdSource::new(rt.stdin());
    let mut out = StdSink::new(rt.stdout());
    let mut err = StdSink::new(rt.stderr());
    let mut pool = Drawn::new();
    let gate = Rendezvous::open();
    let mut interp = Interp {
        rt: &rt,
        alloc: rt.alloc(),
        pool: &mut pool,
        gate: &gate,
    };
    let lines = Lines::new(StdSink::new(rt.stderr()), PATIENCE);
    let Ok(lines) = Box::new(rt.alloc(), lines) else {
        return ExitCode::from(end_without_memory(&mut err, &interp));
    };
    let Ok(mut watchers) = alone(rt.alloc(), lines) else {
        return ExitCode::from(end_without_memory(&mut err, &interp));
    };
    ExitCode::from(start_program(
        &rt,
        rt.alloc(),
        &mut interp,
        &mut source,
        &mut out,
        &mut err,
        &mut watchers,
    ))
}
