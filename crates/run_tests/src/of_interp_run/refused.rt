use crate::of_interp_run::{NEVER, check, words_of};
use fork_branches::Drawn;
use interp_run::run;
use outside::{MemSink, MemSource, Rendezvous};
use std::test::Fail;

#[test]
fn refusals(rt: HostRuntime) -> Result<(), Fail> {
    for (text, status, message) in [
        ("", 3, "interp: line 0: NoSize\n"),
        (
            ".i 2\n.o 1\n.type fd\n1-\n",
            3,
            "interp: line 4: RowLength\n",
        ),
        (
            ".i 2\n.o 1\n10 1\n.type fd\n",
            3,
            "interp: line 4: TypeLate\n",
        ),
        (".i 2\n.o 1\n10 1\n0", 3, "interp: line 4: RowLength\n"),
        (
            ".i 2\n.o 1 # one\n.type fr\n.topology x\n11\n1\n",
            3,
            "interp: line 5: RowLength\n",
        ),
        (
            ".i 2\n.o 1\n.type fr\n1- 1\n-1 0\n",
            4,
            "interp: output 1: on line 4, off line 5\n",
        ),
    ] {
        check(
            &rt,
            rt.alloc(),
            "interp anf",
            text,
            (NEVER, NEVER),
            (status, "", message),
        )?;
    }
    Ok(())
}

#[test]
fn words_and_faults(rt: HostRuntime) -> Result<(), Fail> {
    let alloc = rt.alloc();
    let sum = ".i 2\n.o 1\n.type fd\n10 1\n01 1\n";
    check(
        &rt,
        alloc,
        "interp anf",
        sum,
        (2, NEVER),
        (8, "", "interp: read fault\n"),
    )?;
    check(
        &rt,
        alloc,
        "interp anf",
        sum,
        (NEVER, 2),
        (9, "f1 =", "interp: write fault\n"),
    )?;
    let usage =
        "interp: usage: interp MODE [--workers N] [--nodes B] [--terms T] [--seed S] [--order NAMES]\n";
    for line in ["interp", "interp anf --nodes 3", "interp chec"] {
        check(&rt, alloc, line, sum, (NEVER, NEVER), (2, "", usage))?;
    }
    Ok(())
}

// More bytes than a run reads.
#[test]
fn too_long(rt: HostRuntime) -> Result<(), Fail> {
    let alloc = rt.alloc();
    let words = words_of(alloc, "interp anf")?;
    let bytes = Vec::from_elem(alloc, b'\n', 4_194_305)?;
    let mut source = MemSource::make(alloc, &bytes, 4_194_305, &[]).map_err(|_| "memory")?;
    let mut out = MemSink::make(alloc, 200, 4, &[]).map_err(|_| "memory")?;
    let mut err = MemSink::make(alloc, 200, 7, &[]).map_err(|_| "memory")?;
    assert_eq!(rt;
        run(
            &rt,
            alloc,
            &words,
            &mut source,
            &mut out,
            &mut err,
            &mut Drawn::new(),
            &Rendezvous::open(),
            &mut Vec::new(alloc)
        ),
        10
    );
    assert_eq!(rt; out.bytes(), b"".as_slice());
    assert_eq!(rt;
        err.bytes(),
        b"interp: longer than 4194304 bytes\n".as_slice()
    );
    Ok(())
}
