use batch_pipe::batch;
use batch_pipe::laws::{due_for_two_files, one_is_due};
use lattice::Words;
use outside::{MemSink, MemSource, Rendezvous};
use std::alloc::Global;
use std::process::Abort;
use std::sync::Wait;
use std::test::Fail;
use std::thread::Threads;

// No call of a device is this one.
const NEVER: u64 = 1_000_000;

const POINTS: &str = ".i 2\n.o 1\n.type fr\n11 1\n00 0\n";

const CONTRADICTION: &str = ".i 2\n.o 1\n.type fr\n1- 1\n-1 0\n";

const USAGE: &str =
    "batch: usage: batch anf|basis [--workers N] [--nodes B] [--terms T] [--order NAMES]\n";

fn words_of(alloc: Global, line: &str) -> Result<Words, Fail> {
    let mut words = Words::new(alloc);
    for word in line.split(' ') {
        words.push(word).map_err(|_| "memory")?;
    }
    Ok(words)
}

// These texts, one behind the other.
fn joined(alloc: Global, texts: &[&str]) -> Result<String, Fail> {
    let mut all = String::new(alloc);
    for text in texts {
        all.push_str(text).map_err(|_| "memory")?;
    }
    Ok(all)
}

// Runs the words on a stream, where one read and one write may fail, and compares the status, the
// blocks and the line.
fn check<R: Threads + Wait + Abort + Sync>(
    rt: &R,
    alloc: Global,
    line: &str,
    stream: &[&str],
    fails: (u64, u64),
    want: (u8, &str, &str),
) -> Result<(), Fail> {
    let words = words_of(alloc, line)?;
    let stream = joined(alloc, stream)?;
    let mut source = MemSource::make(alloc, stream.as_bytes(), 16, &[fails.0]).map_err(
        |_| "memory",
    )?;
    let mut out = MemSink::make(alloc, 400, 100, &[fails.1]).map_err(|_| "memory")?;
    let mut err = MemSink::make(alloc, 200, 7, &[]).map_err(|_| "memory")?;
    let gate = Rendezvous::open();
    let status = batch(rt, alloc, &words, &mut source, &mut out, &mut err, &gate);
    assert_eq!(rt; status, want.0);
    assert_eq!(rt; out.bytes(), want.1.as_bytes());
    assert_eq!(rt; err.bytes(), want.2.as_bytes());
    Ok(())
}

#[test]
fn files_are_answered_alone(rt: HostRuntime) -> Result<(), Fail> {
    let alloc = rt.alloc();
    let stream = [POINTS, ".e\n", CONTRADICTION, ".e\n", POINTS];
    let blocks = "file 1 0\nf1 = x2\nfile 2 4\nfile 3 0\nf1 = x2\n";
    check(
        &rt,
        alloc,
        "batch anf",
        &stream,
        (NEVER, NEVER),
        (0, blocks, ""),
    )?;
    let blocks = "file 1 0\nf1 = x2\n0 = x1 + x2\nfile 2 4\nfile 3 0\nf1 = x2\n0 = x1 + x2\n";
    check(
        &rt,
        alloc,
        "batch basis --workers 4",
        &stream,
        (NEVER, NEVER),
        (0, blocks, ""),
    )?;
    let blocks = "file 1 0\nf1 = x1\nfile 2 4\nfile 3 0\nf1 = x1\n";
    check(
        &rt,
        alloc,
        "batch anf --order x2,x1",
        &stream,
        (NEVER, NEVER),
        (0, blocks, ""),
    )?;
    check(&rt, alloc, "batch anf", &[""], (NEVER, NEVER), (0, "", ""))
}

#[test]
fn words_are_refused(rt: HostRuntime) -> Result<(), Fail> {
    let alloc = rt.alloc();
    for line in [
        "batch",
        "batch check",
        "batch gen --seed 1",
        "batch anf basis",
        "batch reduce",
    ] {
        check(&rt, alloc, line, &[POINTS], (NEVER, NEVER), (2, "", USAGE))?;
    }
    Ok(())
}

#[test]
fn faults_end_a_batch(rt: HostRuntime) -> Result<(), Fail> {
    let alloc = rt.alloc();
    let stream = [POINTS, ".e\n", POINTS, ".e\n", POINTS];
    check(
        &rt,
        alloc,
        "batch anf",
        &stream,
        (1, NEVER),
        (8, "", "batch: read fault\n"),
    )?;
    check(
        &rt,
        alloc,
        "batch anf",
        &stream,
        (NEVER, 1),
        (9, "", "batch: write fault\n"),
    )?;
    check(
        &rt,
        alloc,
        "batch anf",
        &stream,
        (2, 1),
        (8, "", "batch: read fault\n"),
    )?;
    let front = "file 1 0\nf1 = x2\nfile 2 0\n";
    check(
        &rt,
        alloc,
        "batch anf",
        &stream,
        (NEVER, 4),
        (9, front, "batch: write fault\n"),
    )
}

#[test]
fn laws_are_called(rt: HostRuntime) -> Result<(), Fail> {
    one_is_due();
    due_for_two_files(rt.alloc());
    Ok(())
}
