mod judged;
mod limited;
mod ordered;
mod refused;
mod stealing;
mod texts;
mod told;
mod workers;

use fork_branches::Drawn;
use interp_run::run;
use lattice::Words;
use outside::{MemSink, MemSource, Rendezvous};
use std::alloc::{AllocError, Global};
use std::process::Abort;
use std::test::Fail;
use std::thread::Threads;

pub(crate) const NEVER: u64 = 1_000_000;

pub(crate) const ADDER: &str =
    "# full adder\n.i 3\n.o 2\n.ilb a b cin\n.ob s c\n.p 7\n001 10\n010 10\n100 10\n111 11\n011 01\n101 01\n110 01\n.e\n";

// Two outputs, each with a care point of its own and one that both have.
pub(crate) const PAIR: &str = ".i 2\n.o 2\n.type fr\n11 1-\n00 00\n10 -1\n";

// The answer of the full adder.
pub(crate) const SUMS: &str = "s = a + b + cin\nc = a*b + a*cin + b*cin\n";

// The answer of the rows that meet.
pub(crate) const FIRST_INPUTS: &str =
    "f1 = x1\nf2 = x1\nf3 = x1\nf4 = x1\nf5 = x1\nf6 = x1\nf7 = x1\nf8 = x1\n";

// Rows over 20 inputs, two for each of 13 inputs behind the first: where it is 1, the eight outputs
// have the value of the first input. So many pairs of them meet that a run guesses that it needs
// more than 2^16 slots, and begins on a table of 2^17. Where this is the last one, the run has all
// its workers there.
pub(crate) fn meeting_rows(alloc: Global) -> Result<String, AllocError> {
    let mut text = String::from_str(alloc, ".i 20\n.o 8\n.type fr\n")?;
    for place in 1..14 {
        for first in ["0", "1"] {
            text.push_str(first)?;
            for other in 1..20 {
                text.push_str(if other == place { "1" } else { "-" })?;
            }
            for _ in 0..8 {
                text.push_str(first)?;
            }
            text.push_str("\n")?;
        }
    }
    Ok(text)
}

pub(crate) fn words_of(alloc: Global, line: &str) -> Result<Words, Fail> {
    let mut words = Words::new(alloc);
    for word in line.split(' ') {
        words.push(word).map_err(|_| "memory")?;
    }
    Ok(words)
}

// Runs the words on a text with a gate, where one read and one write may fail, and compares the
// status, the answer and the message.
pub(crate) fn check_at<R: Threads + Abort + Sync>(
    rt: &R,
    alloc: Global,
    gate: &Rendezvous,
    line: &str,
    text: &str,
    fails: (u64, u64),
    want: (u8, &str, &str),
) -> Result<(), Fail> {
    let words = words_of(alloc, line)?;
    let mut source = MemSource::make(alloc, text.as_bytes(), 4, &[fails.0]).map_err(|_| "memory")?;
    let mut out = MemSink::make(alloc, 400, 4, &[fails.1]).map_err(|_| "memory")?;
    let mut err = MemSink::make(alloc, 200, 7, &[]).map_err(|_| "memory")?;
    let status = run(
        rt,
        alloc,
        &words,
        &mut source,
        &mut out,
        &mut err,
        &mut Drawn::new(),
        gate,
        &mut Vec::new(alloc),
    );
    assert_eq!(rt; status, want.0, "{line} at {text}");
    assert_eq!(rt; out.bytes(), want.1.as_bytes(), "{line} at {text}");
    assert_eq!(rt; err.bytes(), want.2.as_bytes(), "{line} at {text}");
    Ok(())
}

// The same with a gate where nobody waits.
pub(crate) fn check<R: Threads + Abort + Sync>(
    rt: &R,
    alloc: Global,
    line: &str,
    text: &str,
    fails: (u64, u64),
    want: (u8, &str, &str),
) -> Result<(), Fail> {
    check_at(rt, alloc, &Rendezvous::open(), line, text, fails, want)
}

pub(crate) fn answers<R: Threads + Abort + Sync>(
    rt: &R,
    alloc: Global,
    line: &str,
    text: &str,
    answer: &str,
) -> Result<(), Fail> {
    check(rt, alloc, line, text, (NEVER, NEVER), (0, answer, ""))
}
