use crate::of_interp_run::{
    ADDER, FIRST_INPUTS, NEVER, PAIR, SUMS, answers, check_at, meeting_rows, words_of,
};
use fork_branches::{Deal, Drawn, Pool, Solved};
use interp_run::run;
use node_store::Handle;
use outside::{MemSink, MemSource, Rendezvous};
use std::alloc::Global;
use std::process::Abort;
use std::test::Fail;
use std::thread::Threads;

#[test]
fn any_number_of_workers(rt: HostRuntime) -> Result<(), Fail> {
    let alloc = rt.alloc();
    let meeting = meeting_rows(alloc)?;
    for line in [
        "interp anf --nodes 17 --workers 1",
        "interp anf --nodes 17 --workers 2",
        "interp anf --nodes 17 --workers 8",
        "interp anf --nodes 17 --workers 16",
    ] {
        answers(&rt, alloc, line, ADDER, SUMS)?;
        answers(&rt, alloc, line, meeting.as_str(), FIRST_INPUTS)?;
    }
    Ok(())
}

// With two workers both are at their starts at one time: each waits at the gate until it has seen
// the other. A body that runs both on one thread, or that drops the workers or the gate, gives the
// same text and fails here. On the tables of these files the polynomials alone have two workers:
// the first file has two polynomials, and the others one, which both workers find, with two covers
// before it or with one.
#[test]
fn branches_meet(rt: HostRuntime) -> Result<(), Fail> {
    let parity = ".i 3\n.o 1\n001 1\n010 1\n100 1\n111 1\n";
    let one_cover = ".i 3\n.o 1\n.type f\n001 1\n010 1\n100 1\n111 1\n";
    for (text, answer) in [
        (ADDER, SUMS),
        (parity, "f1 = x1 + x2 + x3\n"),
        (one_cover, "f1 = x1 + x2 + x3\n"),
    ] {
        let gate = Rendezvous::waiting(10_000_000_000);
        check_at(
            &rt,
            rt.alloc(),
            &gate,
            "interp anf --workers 2",
            text,
            (NEVER, NEVER),
            (0, answer, ""),
        )?;
        assert!(rt; gate.met(), "branches of {text}");
    }
    Ok(())
}

// A pool that counts the jobs that it answers, and passes on.
#[derive(Drop)]
struct Counting {
    jobs: usize,
    pool: Drawn,
}

impl Pool for Counting {
    ghost done = { λ pool. pool.pool.done };

    fn deal(&self) -> Deal {
        self.pool.deal()
    }

    fn answered(&mut self, solved: Solved) -> Vec<Handle> {
        let handles = self.pool.answered(solved);
        self.jobs = self.jobs.saturating_add(handles.len());
        handles
    }
}

// How many jobs a pool answers in a run of the words on a text.
fn jobs_of<R: Threads + Abort + Sync>(
    rt: &R,
    alloc: Global,
    line: &str,
    text: &str,
) -> Result<usize, Fail> {
    let words = words_of(alloc, line)?;
    let mut source = MemSource::make(alloc, text.as_bytes(), 4, &[]).map_err(|_| "memory")?;
    let mut out = MemSink::make(alloc, 200, 4, &[]).map_err(|_| "memory")?;
    let mut err = MemSink::make(alloc, 200, 7, &[]).map_err(|_| "memory")?;
    let mut pool = Counting {
        jobs: 0,
        pool: Drawn::new(),
    };
    let status = run(
        rt,
        alloc,
        &words,
        &mut source,
        &mut out,
        &mut err,
        &mut pool,
        &Rendezvous::open(),
        &mut Vec::new(alloc),
    );
    assert_eq!(rt; status, 0, "{line} at {text}");
    Ok(pool.jobs)
}

// A job for each polynomial, and in mode basis one for the leads of each output and one for each
// element besides. The two sets of each of two outputs are four covers, which are jobs too.
#[test]
fn jobs_are_answered_by_the_pool(rt: HostRuntime) -> Result<(), Fail> {
    assert!(rt; jobs_of(&rt, rt.alloc(), "interp anf", ADDER)? >= 4 + 2);
    assert!(rt; jobs_of(&rt, rt.alloc(), "interp basis", PAIR)? >= 4 + 2 + 2 + 2);
    Ok(())
}
