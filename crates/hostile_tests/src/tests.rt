ghost use Rattle.std.specs.Prelude.{◌≡◌, ◌≤◌, [], All, None, OnOk};
ghost use Rattle.watch.specs.Notes.{states_by};

use arrayvec::ArrayVec;
use fork_branches::Drawn;
use interp_run::run;
use lattice::{Memory, Words};
use outside::{Failed, MemSink, MemSource, Rendezvous, Sink, Source};
use std::alloc::{AllocError, Global};
use std::process::Abort;
use std::test::Fail;
use std::thread::Threads;
use watch::{Tally, Watch};

// The most bytes that one call is asked for, and that a run takes.
const BUFFER: usize = 4096;

const MOST: usize = 4_194_305;

// No call has this number.
const NEVER: u64 = 0;

const SUM: &str = ".i 2\n.o 1\n.type fd\n10 1\n01 1\n";

// Two outputs, whose texts in mode basis have 20 and 15 bytes.
const PAIR: &str = ".i 2\n.o 2\n.type fr\n11 1-\n00 00\n10 -1\n";

const TEXTS: &str = "f1 = x2\n0 = x1 + x2\nf2 = x1\n0 = x2\n";

// Runs in a mode, and answers the status.
fn run_in<R: Threads + Sync, S: Source, K: Sink, E: Sink>(
    rt: &R,
    alloc: Global,
    mode: &str,
    source: &mut S,
    out: &mut K,
    err: &mut E,
    watchers: &mut Vec<Box<dyn Watch>>,
) -> Result<u8, Memory>
    requires untold { All (λ s. s.told ≡ []) (states_by told patience watchers.old.items) }
{
    let mut words = Words::new(alloc);
    words.push("interp")?;
    words.push(mode)?;
    let gate = Rendezvous::open();
    let mut pool = Drawn::new();
    Ok(run(
        rt, alloc, &words, source, out, err, &mut pool, &gate, watchers,
    ))
}

// A run without watchers: its words beside the program's name, what it reads, and the calls that
// fail.
#[derive(Clone, Copy)]
struct Case<'a> {
    mode: &'a str,
    text: &'a [u8],
    failing_read: u64,
    failing_report: u64,
}

// Runs the case, reading by four bytes, and compares the status, the answer and the message.
fn check<R: Threads + Abort + Sync>(
    rt: &R,
    alloc: Global,
    case: &Case<'_>,
    want: (u8, &str, &str),
) -> Result<(), Memory> {
    let mut source = MemSource::make(alloc, case.text, 4, &[case.failing_read])?;
    let mut out = MemSink::make(alloc, 200, 200, &[])?;
    let mut err = MemSink::make(alloc, 200, 200, &[case.failing_report])?;
    let status = run_in(
        rt,
        alloc,
        case.mode,
        &mut source,
        &mut out,
        &mut err,
        &mut Vec::new(alloc),
    )?;
    assert_eq!(rt;
        status,
        want.0,
        "{} bytes, read {} fails",
        case.text.len(),
        case.failing_read
    );
    assert_eq!(rt; out.bytes(), want.1.as_bytes());
    assert_eq!(rt; err.bytes(), want.2.as_bytes());
    Ok(())
}

#[test]
fn each_of_nine_reads_fails(rt: HostRuntime) -> Result<(), Fail> {
    for call in 1..=10 {
        let case = Case {
            mode: "anf",
            text: SUM.as_bytes(),
            failing_read: call,
            failing_report: NEVER,
        };
        let want = if call <= 9 {
            (8, "", "interp: read fault\n")
        } else {
            (0, "f1 = x1 + x2\n", "")
        };
        check(&rt, rt.alloc(), &case, want)?;
    }
    Ok(())
}

// Checks the text when it is cut after each number of bytes from the first to the last.
fn check_cuts<R: Threads + Abort + Sync>(
    rt: &R,
    alloc: Global,
    cuts: (usize, usize),
    want: (u8, &str, &str),
) -> Result<(), Memory> {
    for cut in cuts.0..=cuts.1 {
        let case = Case {
            mode: "anf",
            text: &SUM.as_bytes()[..cut.min(SUM.len())],
            failing_read: NEVER,
            failing_report: NEVER,
        };
        check(rt, alloc, &case, want)?;
    }
    Ok(())
}

#[test]
fn the_text_is_cut(rt: HostRuntime) -> Result<(), Fail> {
    for (cuts, status, text, message) in [
        ((0, 0), 3, "", "interp: line 0: NoSize\n"),
        ((1, 1), 3, "", "interp: line 1: NoSize\n"),
        ((2, 3), 3, "", "interp: line 1: BadNumber\n"),
        ((4, 5), 3, "", "interp: line 1: NoSize\n"),
        ((6, 6), 3, "", "interp: line 2: NoSize\n"),
        ((7, 8), 3, "", "interp: line 2: BadNumber\n"),
        ((9, 14), 0, "f1 = 0\n", ""),
        ((15, 16), 3, "", "interp: line 3: BadType\n"),
        ((17, 19), 0, "f1 = 0\n", ""),
        ((20, 22), 3, "", "interp: line 4: RowLength\n"),
        ((23, 24), 0, "f1 = x1*x2 + x1\n", ""),
        ((25, 27), 3, "", "interp: line 5: RowLength\n"),
        ((28, 29), 0, "f1 = x1 + x2\n", ""),
    ] {
        check_cuts(&rt, rt.alloc(), cuts, (status, text, message))?;
    }
    Ok(())
}

#[test]
fn a_failed_report_changes_no_status(rt: HostRuntime) -> Result<(), Fail> {
    let case = Case {
        mode: "anf",
        text: b".i 2\n.o 1\n.type fr\n1- 1\n-1 0\n",
        failing_read: NEVER,
        failing_report: 1,
    };
    check(&rt, rt.alloc(), &case, (4, "", ""))?;
    Ok(())
}

// Puts one more watcher behind those that were told nothing either.
fn add(watchers: &mut Vec<Box<dyn Watch>>, watcher: Box<dyn Watch>) -> Result<(), AllocError>
    requires untold { All (λ s. s.told ≡ []) (states_by told patience watchers.old.items) }
    requires fresh { told watcher ≡ [] }
    ensures untold { OnOk result (All (λ s. s.told ≡ [])
        (states_by told patience watchers.new.items)) }
{
    watchers.push(watcher)?;
    Ok(())
}

// Runs on two outputs, where one write may fail, and compares the status, how many bytes were
// taken, and how many terms the watcher was told of: one for each output.
fn check_write<R: Threads + Abort + Sync>(
    rt: &R,
    alloc: Global,
    call: u64,
    want: (u8, usize, u64),
) -> Result<(), Fail> {
    let mut source = MemSource::make(alloc, PAIR.as_bytes(), BUFFER, &[])?;
    let mut out = MemSink::make(alloc, 200, 8, &[call])?;
    let mut err = MemSink::make(alloc, 200, 200, &[])?;
    let mut watchers = Vec::new(alloc);
    let tally = Box::new(alloc, Tally::new(5))?;
    add(&mut watchers, tally)?;
    let status = run_in(
        rt,
        alloc,
        "basis",
        &mut source,
        &mut out,
        &mut err,
        &mut watchers,
    )?;
    assert_eq!(rt; status, want.0, "write {call} fails");
    assert_eq!(rt; Some(out.bytes()), TEXTS.as_bytes().get(..want.1));
    assert_eq!(rt; watchers.len(), 1);
    assert_eq!(rt; watchers[0].terms(), want.2);
    Ok(())
}

#[test]
fn each_of_five_writes_fails(rt: HostRuntime) -> Result<(), Fail> {
    for (call, status, bytes, outputs) in [
        (1, 9, 0, 0),
        (2, 9, 8, 0),
        (3, 9, 16, 0),
        (4, 9, 20, 1),
        (5, 9, 28, 1),
        (6, 0, 35, 2),
    ] {
        check_write(&rt, rt.alloc(), call, (status, bytes, outputs))?;
    }
    Ok(())
}

#[test]
fn impatient_watchers_leave(rt: HostRuntime) -> Result<(), Fail> {
    let alloc = rt.alloc();
    let mut source = MemSource::make(alloc, PAIR.as_bytes(), BUFFER, &[])?;
    let mut out = MemSink::make(alloc, 200, 200, &[])?;
    let mut err = MemSink::make(alloc, 200, 200, &[])?;
    let mut watchers = Vec::new(alloc);
    let first = Box::new(alloc, Tally::new(0))?;
    add(&mut watchers, first)?;
    let second = Box::new(alloc, Tally::new(1))?;
    add(&mut watchers, second)?;
    let status = run_in(
        &rt,
        alloc,
        "basis",
        &mut source,
        &mut out,
        &mut err,
        &mut watchers,
    )?;
    assert_eq!(rt; status, 0);
    assert_eq!(rt; out.bytes(), TEXTS.as_bytes());
    assert!(rt; watchers.is_empty());
    Ok(())
}

// A source of so many line feeds, which counts its calls, those among them that came with a buffer
// of another length than is due, and those that came after a call had given none.
#[derive(Drop)]
struct Measured {
    length: usize,
    given: usize,
    ended: bool,
    calls: u32,
    others: u32,
    late: u32,
}

impl Measured {
    fn new(length: usize) -> Measured {
        Measured {
            length,
            given: 0,
            ended: false,
            calls: 0,
            others: 0,
            late: 0,
        }
    }
}

impl Source for Measured {
    ghost left = { λ s. None };

    ghost faults = { λ s. 0 };

    fn read(&mut self, buf: &mut [u8]) -> Result<usize, Failed> {
        self.calls = self.calls.saturating_add(1);
        if buf.len() != BUFFER.min(MOST.saturating_sub(self.given)) {
            self.others = self.others.saturating_add(1);
        }
        if self.ended {
            self.late = self.late.saturating_add(1);
        }
        buf.fill(b'\n');
        let count = buf.len().min(self.length.saturating_sub(self.given));
        self.ended = count == 0;
        self.given = self.given.saturating_add(count);
        Ok(count)
    }
}

#[test]
fn reads_have_a_buffer_and_an_end(rt: HostRuntime) -> Result<(), Fail> {
    let alloc = rt.alloc();
    for (length, calls, status) in [
        (0, 1, 3),
        (5000, 3, 3),
        (8192, 3, 3),
        (MOST - 1, 1025, 3),
        (MOST, 1025, 10),
        (MOST + 1, 1025, 10),
    ] {
        let mut source = Measured::new(length);
        let mut out = MemSink::make(alloc, 200, 200, &[])?;
        let mut err = MemSink::make(alloc, 200, 200, &[])?;
        let ended = run_in(
            &rt,
            alloc,
            "anf",
            &mut source,
            &mut out,
            &mut err,
            &mut Vec::new(alloc),
        )?;
        assert_eq!(rt; ended, status, "{length} bytes");
        assert_eq!(rt; source.calls, calls, "{length} bytes");
        assert_eq!(rt; source.given, length.min(MOST), "{length} bytes");
        assert_eq!(rt; source.others, 0, "{length} bytes");
        assert_eq!(rt; source.late, 0, "{length} bytes");
    }
    Ok(())
}

// A sink that takes at most eight bytes per call, and keeps the lengths of the pieces that it was
// given.
#[derive(Drop)]
struct Pieces {
    lengths: ArrayVec<usize, 8>,
}

impl Sink for Pieces {
    ghost held = { λ s. None };

    ghost faults = { λ s. 0 };

    fn write(&mut self, piece: &[u8]) -> Result<usize, Failed> {
        let _ = self.lengths.try_push(piece.len());
        Ok(piece.len().min(8))
    }
}

#[test]
fn writes_have_the_rest_of_one_text(rt: HostRuntime) -> Result<(), Fail> {
    let alloc = rt.alloc();
    let mut source = MemSource::make(alloc, PAIR.as_bytes(), BUFFER, &[])?;
    let mut out = Pieces {
        lengths: ArrayVec::new(),
    };
    let mut err = MemSink::make(alloc, 200, 200, &[])?;
    let status = run_in(
        &rt,
        alloc,
        "basis",
        &mut source,
        &mut out,
        &mut err,
        &mut Vec::new(alloc),
    )?;
    assert_eq!(rt; status, 0);
    assert_eq!(rt; out.lengths.as_slice(), [20, 12, 4, 15, 7].as_slice());
    Ok(())
}
