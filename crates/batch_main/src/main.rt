//! `batch anf|basis [--workers N] [--nodes B] [--terms T] [--order NAMES]`: reads a stream of
//! descriptions from standard input, and writes a block of text for each to standard output.
#![tactic(auto)]

use batch_pipe::start_batch;
use outside::{StdSink, StdSource};
use std::process::ExitCode;

// Runs on the standard streams.
fn main(rt: HostRuntime) -> ExitCode {
    let mut source = StdSource::new(rt.stdin());
    let mut out = StdSink::new(rt.stdout());
    let mut err = StdSink::new(rt.stderr());
    ExitCode::from(start_batch(&rt, rt.alloc(), &mut source, &mut out, &mut err))
}
