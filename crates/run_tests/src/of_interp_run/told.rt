ghost use Rattle.std.specs.Prelude.{◌≡◌, [], All, IfOk};
ghost use Rattle.watch.specs.Notes.{states_by};

use crate::of_interp_run::{NEVER, words_of};
use fork_branches::Drawn;
use interp_run::run;
use outside::{MemSink, MemSource, Rendezvous};
use std::alloc::{AllocError, Global};
use std::process::Abort;
use std::test::Fail;
use std::thread::Threads;
use watch::{Tally, Watch};

fn pair(
    alloc: Global,
    first: Box<dyn Watch>,
    second: Box<dyn Watch>,
) -> Result<Vec<Box<dyn Watch>>, AllocError>
    requires first { told first ≡ [] }
    requires second { told second ≡ [] }
    ensures { IfOk result (λ ws. All (λ s. s.told ≡ []) (states_by told patience ws.items)) }
{
    let mut watchers = Vec::with_capacity(alloc, 2)?;
    watchers.push(first)?;
    watchers.push(second)?;
    Ok(watchers)
}

// Runs on two outputs with two watchers, of which one has patience for one output and one for five,
// where one write may fail, and compares the status, the number of watchers that are left and the
// terms that the last of them was told.
fn check_told<R: Threads + Abort + Sync>(
    rt: &R,
    alloc: Global,
    fails: u64,
    want: (u8, usize, u64),
) -> Result<(), Fail> {
    let words = words_of(alloc, "interp basis")?;
    let text = b".i 2\n.o 2\n.type fr\n11 1-\n00 00\n10 -1\n";
    let mut source = MemSource::make(alloc, text, 100, &[]).map_err(|_| "memory")?;
    let mut out = MemSink::make(alloc, 200, 4, &[fails]).map_err(|_| "memory")?;
    let mut err = MemSink::make(alloc, 200, 100, &[]).map_err(|_| "memory")?;
    let first = Box::new(alloc, Tally::new(1))?;
    let second = Box::new(alloc, Tally::new(5))?;
    let mut watchers = pair(alloc, first, second)?;
    let status = run(
        rt,
        alloc,
        &words,
        &mut source,
        &mut out,
        &mut err,
        &mut Drawn::new(),
        &Rendezvous::open(),
        &mut watchers,
    );
    assert_eq!(rt; status, want.0);
    assert_eq!(rt; watchers.len(), want.1);
    if let Some(last) = watchers.last() {
        assert_eq!(rt; last.terms(), want.2);
    }
    Ok(())
}

#[test]
fn told_of_each_output(rt: HostRuntime) -> Result<(), Fail> {
    check_told(&rt, rt.alloc(), NEVER, (0, 1, 2))?;
    check_told(&rt, rt.alloc(), 7, (9, 2, 1))?;
    check_told(&rt, rt.alloc(), 3, (9, 2, 0))
}
