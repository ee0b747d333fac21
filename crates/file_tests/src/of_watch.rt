ghost use Rattle.std.specs.Prelude.{◌≡◌, ◌<◌, ◌-◌, ◌↔◌, ◌++◌, ◌∷◌, [], All, IfOk, IsTrue, length};
ghost use Rattle.watch.specs.Notes.{states_by};

use outside::MemSink;
use std::alloc::{AllocError, Global};
use std::cell::Cell;
use std::process::Abort;
use std::rc::Rc;
use std::test::Fail;
use watch::{Lines, Note, Tally, Watch, tell};

fn note(output: u32, terms: u64, basis: u64) -> Note {
    Note {
        output,
        terms,
        basis,
    }
}

fn expect_lines(rt: &impl Abort, lines: &Lines<MemSink>, wanted: &[u8]) {
    assert_eq!(rt; lines.sink().bytes(), wanted);
}

#[test]
fn lines_until_patience_ends(rt: HostRuntime) -> Result<(), Fail> {
    let sink = MemSink::make(rt.alloc(), 100, 7, &[]).map_err(|_| "memory")?;
    let mut lines = Lines::new(sink, 1);
    assert!(rt; lines.note(&note(1, 3, 0)));
    assert!(rt; !lines.note(&note(2, 1, 0)));
    expect_lines(&rt, &lines, b"output 1: 3 terms, 0 basis\n");
    assert_eq!(rt; lines.terms(), 4);
    Ok(())
}

#[test]
fn the_longest_line(rt: HostRuntime) -> Result<(), Fail> {
    let sink = MemSink::make(rt.alloc(), 100, 100, &[]).map_err(|_| "memory")?;
    let mut lines = Lines::new(sink, 16);
    assert!(rt; lines.note(&note(4294967295, 18446744073709551615, 18446744073709551615)));
    let wanted = b"output 4294967295: 18446744073709551615 terms, 18446744073709551615 basis\n";
    expect_lines(&rt, &lines, wanted);
    Ok(())
}

#[test]
fn a_failed_write_is_ignored(rt: HostRuntime) -> Result<(), Fail> {
    let sink = MemSink::make(rt.alloc(), 100, 100, &[1]).map_err(|_| "memory")?;
    let mut lines = Lines::new(sink, 2);
    assert!(rt; lines.note(&note(1, 3, 0)));
    assert!(rt; lines.note(&note(2, 1, 5)));
    expect_lines(&rt, &lines, b"output 2: 1 terms, 5 basis\n");
    assert_eq!(rt; lines.terms(), 4);
    Ok(())
}

#[test]
fn terms_stop_at_the_greatest_number(rt: HostRuntime) {
    let mut tally = Tally::new(0);
    assert!(rt; !tally.note(&note(1, 18446744073709551615, 0)));
    assert!(rt; !tally.note(&note(2, 1, 0)));
    assert_eq!(rt; tally.terms(), 18446744073709551615);
}

fn pair(
    alloc: Global,
    first: Box<dyn Watch>,
    second: Box<dyn Watch>,
) -> Result<Vec<Box<dyn Watch>>, AllocError>
    requires first { told first ≡ [] }
    requires second { told second ≡ [] }
    ensures { IfOk result (λ ws. All (λ s. s.told ≡ []) (states_by told patience ws.items)) }
{
    let mut watchers = Vec::with_capacity(alloc, 2)?;
    watchers.push(first)?;
    watchers.push(second)?;
    Ok(watchers)
}

#[test]
fn those_with_patience_are_left(rt: HostRuntime) -> Result<(), Fail> {
    let first = Box::new(rt.alloc(), Tally::new(1))?;
    let second = Box::new(rt.alloc(), Tally::new(5))?;
    let mut watchers = pair(rt.alloc(), first, second)?;
    tell(&mut watchers, &note(1, 1, 1));
    tell(&mut watchers, &note(2, 1, 1));
    assert_eq!(rt; watchers.len(), 1);
    assert_eq!(rt; watchers[0].terms(), 2);
    Ok(())
}

// A watcher that puts its digit behind those of a number that several watchers share.
#[derive(Drop)]
struct Numbered {
    tally: Tally,
    digit: u64,
    order: Rc<Cell<u64>>,
}

impl Watch for Numbered {
    ghost told = { λ w. w.tally.told };

    ghost patience = { λ w. w.tally.patience };

    fn note(&mut self, n: &Note) -> bool {
        self.order
            .set(self.order.get().wrapping_mul(10).wrapping_add(self.digit));
        self.tally.note(n)
    }

    fn terms(&self) -> u64 {
        self.tally.terms()
    }
}

fn make_numbered(
    alloc: Global,
    digit: u64,
    patience: u32,
    order: &Rc<Cell<u64>>,
) -> Result<Box<dyn Watch>, AllocError>
    ensures { IfOk result (λ w. told w ≡ []) }
{
    let watcher = Numbered {
        tally: Tally::new(patience),
        digit,
        order: order.clone()?,
    };
    Ok(Box::new(alloc, watcher)?)
}

#[test]
fn told_in_order_and_once(rt: HostRuntime) -> Result<(), Fail> {
    let order = Rc::new(rt.alloc(), Cell::new(0))?;
    let first = make_numbered(rt.alloc(), 1, 0, &order)?;
    let second = make_numbered(rt.alloc(), 2, 5, &order)?;
    let mut watchers = pair(rt.alloc(), first, second)?;
    tell(&mut watchers, &note(1, 1, 1));
    assert_eq!(rt; order.get(), 12);
    tell(&mut watchers, &note(2, 1, 1));
    assert_eq!(rt; order.get(), 122);
    Ok(())
}
