//! `nfq reduce|union|meet`: reads a description from standard input, and in mode reduce the queries
//! behind it, and writes the answers or a reduced basis to standard output.
#![tactic(auto)]

use nf_run::start_nf_run;
use outside::{StdSink, StdSource};
use std::process::ExitCode;

/// A table has 2^BITS slots at most.
const BITS: u32 = 19;

// Runs on the standard streams.
fn main(rt: HostRuntime) -> ExitCode {
    let mut source = StdSource::new(rt.stdin());
    let mut out = StdSink::new(rt.stdout());
    let mut err = StdSink::new(rt.stderr());
    ExitCode::from(start_nf_run(&rt, rt.alloc(), BITS, &mut source, &mut out, &mut err))
}
