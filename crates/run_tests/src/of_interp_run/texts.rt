use crate::of_interp_run::{ADDER, NEVER, PAIR, SUMS, answers, check};
use cli_words::Job;
use fork_branches::Drawn;
use interp_run::answer_of;
use lattice::Mode;
use outside::Rendezvous;
use program::Outcome;
use std::test::Fail;
use watch::Note;

#[test]
fn single_outputs(rt: HostRuntime) -> Result<(), Fail> {
    for (kind, inputs, rows, answer) in [
        ("fd", "2", "10 1\n01 1\n", "f1 = x1 + x2\n"),
        ("fd", "2", "1- 1\n-1 1\n", "f1 = x1*x2 + x1 + x2\n"),
        ("fr", "2", "", "f1 = 0\n"),
        ("fr", "2", "11 1\n00 0\n", "f1 = x2\n"),
        ("fr", "3", "101 1\n", "f1 = 1\n"),
        ("fr", "2", "00 0\n10 1\n11 0\n", "f1 = x1 + x2\n"),
        ("fd", "2", "11 1\n10 -\n", "f1 = x1\n"),
        ("fdr", "2", "1- 1\n00 0\n01 -\n", "f1 = x1\n"),
        ("fdr", "2", "1- 1\n00 0\n01 -\n11 -\n", "f1 = x1\n"),
        ("fd", "2", "1-0\n", "f1 = 0\n"),
        ("f", "2", "1- 1\n11 0\n0- -\n", "f1 = x1\n"),
        ("fd", "2", "1- 1\n11 -\n", "f1 = x1\n"),
        ("f", "20", "1------------------- 1\n", "f1 = x1\n"),
        (
            "f",
            "62",
            "-------------------------------------------------------------1 1\n",
            "f1 = x62\n",
        ),
        (
            "fr",
            "62",
            "11111111111111111111111111111111111111111111111111111111111111 1\n",
            "f1 = 1\n",
        ),
    ] {
        let alloc = rt.alloc();
        let text = format!(in alloc; ".i {inputs}\n.o 1\n.type {kind}\n{rows}")?;
        answers(&rt, alloc, "interp anf", text.as_str(), answer)?;
    }
    Ok(())
}

#[test]
fn bases(rt: HostRuntime) -> Result<(), Fail> {
    for (kind, inputs, rows, answer) in [
        ("fd", "2", "10 1\n01 1\n", "f1 = x1 + x2\n"),
        ("fr", "2", "", "f1 = 0\n0 = 1\n"),
        ("fr", "2", "11 1\n00 0\n", "f1 = x2\n0 = x1 + x2\n"),
        (
            "fr",
            "3",
            "101 1\n",
            "f1 = 1\n0 = x3 + 1\n0 = x2\n0 = x1 + 1\n",
        ),
        (
            "fr",
            "2",
            "00 0\n10 1\n11 0\n",
            "f1 = x1 + x2\n0 = x1*x2 + x2\n",
        ),
        ("fd", "2", "11 1\n10 -\n", "f1 = x1\n0 = x1*x2 + x1\n"),
        ("fd", "2", "1- 1\n11 -\n", "f1 = x1\n0 = x1*x2\n"),
    ] {
        let alloc = rt.alloc();
        let text = format!(in alloc; ".i {inputs}\n.o 1\n.type {kind}\n{rows}")?;
        answers(&rt, alloc, "interp basis", text.as_str(), answer)?;
    }
    answers(
        &rt,
        rt.alloc(),
        "interp basis",
        PAIR,
        "f1 = x2\n0 = x1 + x2\nf2 = x1\n0 = x2\n",
    )
}

#[test]
fn names_and_many_outputs(rt: HostRuntime) -> Result<(), Fail> {
    let alloc = rt.alloc();
    let carriage_returns =
        "# full adder\r\n.i 3\r\n.o 2\r\n.ilb a b cin\r\n.ob s c\r\n.p 7\r\n001 10\r\n010 10\r\n100 10\r\n111 11\r\n011 01\r\n101 01\r\n110 01\r\n.e\r\n";
    for text in [ADDER, carriage_returns] {
        answers(&rt, alloc, "interp anf", text, SUMS)?;
    }
    answers(&rt, alloc, "interp anf", PAIR, "f1 = x2\nf2 = x1\n")?;
    let numbers = ".i 2\n.o 1\n.ilb 0 1\n10 1\n01 1\n";
    answers(&rt, alloc, "interp anf", numbers, "f1 = x1 + x2\n")?;
    let unknown = ".i 2\n.o 1 # one\n.type fr\n.topology x\n1 1 | 1\n";
    answers(&rt, alloc, "interp anf", unknown, "f1 = 1\n")
}

// Mode gen reads nothing and answers the same with any number of workers.
#[test]
fn generated_files(rt: HostRuntime) -> Result<(), Fail> {
    let alloc = rt.alloc();
    let first = "points 256\nf1 8\nf2 7\n";
    for line in [
        "interp gen",
        "interp gen --seed 0 --workers 8",
        "interp --workers 2 gen",
        "interp gen --order x2,x1",
    ] {
        check(&rt, alloc, line, "", (1, NEVER), (0, first, ""))?;
    }
    check(
        &rt,
        alloc,
        "interp gen",
        "",
        (NEVER, 1),
        (9, "", "interp: write fault\n"),
    )?;
    check(
        &rt,
        alloc,
        "interp gen --nodes 4",
        "",
        (NEVER, NEVER),
        (5, "", "interp: more than 16 nodes are needed\n"),
    )
}

#[test]
fn answers_as_values(rt: HostRuntime) -> Result<(), Fail> {
    let alloc = rt.alloc();
    let pair = b".i 2\n.o 2\n.type fr\n11 1-\n00 00\n10 -1\n";
    let mut job = Job {
        mode: Mode::Basis,
        workers: 2,
        nodes: 19,
        terms: 1_000_000,
        seed: 0,
        order: None,
    };
    let gate = Rendezvous::open();
    let answer = answer_of(&rt, alloc, &job, &mut Drawn::new(), pair, &gate).map_err(
        |_| "no answer",
    )?;
    assert_eq!(rt; answer.pages.len(), 2);
    assert_eq!(rt;
        answer.pages.as_slice()[0].as_slice(),
        b"f1 = x2\n0 = x1 + x2\n".as_slice()
    );
    assert_eq!(rt;
        answer.pages.as_slice()[1].as_slice(),
        b"f2 = x1\n0 = x2\n".as_slice()
    );
    let want = [
        Note {
            output: 1,
            terms: 1,
            basis: 1,
        },
        Note {
            output: 2,
            terms: 1,
            basis: 1,
        },
    ];
    assert_eq!(rt; answer.notes.as_slice(), want.as_slice());
    job.terms = 3;
    let refused = answer_of(&rt, alloc, &job, &mut Drawn::new(), pair, &gate);
    assert!(rt;
        matches!(refused, Err(Outcome::Terms { limit: 3 })),
        "terms"
    );
    let long = vec![in alloc; b'\n'; 4_194_305]?;
    let refused = answer_of(&rt, alloc, &job, &mut Drawn::new(), &long, &gate);
    assert!(rt;
        matches!(refused, Err(Outcome::TooLong { limit: 4_194_304 })),
        "bytes"
    );
    Ok(())
}
