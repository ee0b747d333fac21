//! `circuit MODE [--nodes B] [--terms T] [--order NAMES] [--care NAME] [--invert NAMES]`: reads a
//! circuit from standard input, and writes the least Boolean polynomials of its outputs, or their
//! numbers of terms, to standard output; or reads two circuits, and writes where their outputs
//! differ.
#![tactic(auto)]

use circuit_run::start_circuit_run;
use outside::{StdSink, StdSource};
use std::process::ExitCode;

// Runs on the standard streams.
fn main(rt: HostRuntime) -> ExitCode {
    let mut source = StdSource::new(rt.stdin());
    let mut out = StdSink::new(rt.stdout());
    let mut err = StdSink::new(rt.stderr());
    ExitCode::from(start_circuit_run(&rt, rt.alloc(), &mut source, &mut out, &mut err))
}
