mod joint;

ghost use Rattle.std.specs.Prelude.{◌<◌, length};

use lattice::{Mono, MonoLists, Words};
use nf_run::{QueryRefusal, QueryWhy, nf_run, read_queries, reduce};
use outside::{MemSink, MemSource};
use pla_reader::read;
use std::alloc::Global;
use std::process::Abort;
use std::test::Fail;

const FILE: &[u8] = b".i 2\n.o 2\n.ilb a b\n.ob s c\n.e\n";

// Two care points of one output; and three points, two of which are care points of each of two
// outputs.
const TWO_POINTS: &str = ".i 2\n.o 1\n.type fr\n11 1\n00 0\n.e\n";

const TWO_OUTPUTS: &str = ".i 2\n.o 2\n.type fr\n11 1-\n00 00\n10 -1\n.e\n";

// Why the queries on a file of two inputs and two outputs are refused, if they are.
fn refused(alloc: Global, text: &[u8]) -> Result<Option<QueryRefusal>, Fail>
    requires { length text.now < 100 }
{
    let (p, _) = read(alloc, FILE)?;
    Ok(read_queries(alloc, &p, text).err())
}

// Queries in any order, with an empty line and a carriage return; and the first check that a bad
// line fails.
#[test]
fn queries_of_texts(rt: HostRuntime) -> Result<(), Fail> {
    let (p, _) = read(rt.alloc(), FILE)?;
    let queries = read_queries(rt.alloc(), &p, b"c = a*b + b + 1\n\ns = 0\r\n")?;
    assert_eq!(rt; queries.len(), 2);
    let [first, second] = queries.as_slice() else {
        return Ok(());
    };
    assert_eq!(rt; first.output, 2);
    let terms: &[Mono] = &[Mono(3), Mono(1), Mono(0)];
    assert_eq!(rt; first.terms.as_slice(), terms);
    assert_eq!(rt; second.output, 1);
    assert!(rt; second.terms.is_empty());
    let cases: [(&[u8], u32, QueryWhy); 8] = [
        (b"s  = a\n", 1, QueryWhy::BadLine),
        (b"s = a\n\nq= a\n", 3, QueryWhy::BadLine),
        (b"0 = a\n", 1, QueryWhy::UnknownName),
        (b"f1 = b + a\n", 1, QueryWhy::UnknownName),
        (b"s = b + q\n", 1, QueryWhy::UnknownName),
        (b"s = b + a\n", 1, QueryWhy::TermOrder),
        (b"s = b*a\n", 1, QueryWhy::TermOrder),
        (b"s = a + a\ns a\n", 1, QueryWhy::TermOrder),
    ];
    for (text, line, why) in cases {
        assert!(rt; text.len() < 100);
        let refusal = refused(rt.alloc(), text)?;
        assert_eq!(rt; refusal, Some(QueryRefusal::Bad { line, why }));
    }
    Ok(())
}

// The terms of the answers to the queries behind the description.
fn answers_to(alloc: Global, bytes: &[u8]) -> Result<MonoLists, Fail>
    requires { length bytes.now < 200 }
{
    let (p, taken) = read(alloc, bytes)?;
    let Some(text) = bytes.get(taken..) else {
        return Ok(MonoLists::new(alloc));
    };
    let queries = read_queries(alloc, &p, text)?;
    let lists = reduce(alloc, 8, &p, queries.as_slice(), 100)?;
    Ok(lists)
}

// Two care points, 11 with the value 1 and 00 with the value 0: x1 and x2 have the same values
// there, and x2 is the less.
#[test]
fn least_with_the_values(rt: HostRuntime) -> Result<(), Fail> {
    let lists = answers_to(
        rt.alloc(),
        b".i 2\n.o 1\n.type fr\n11 1\n00 0\n.e\nf1 = x1\nf1 = x1*x2 + 1\nf1 = 0\nf1 = x1 + x2\n",
    )?;
    let expected: [&[Mono]; 4] = [&[Mono(1)], &[Mono(1), Mono(0)], &[], &[]];
    assert_eq!(rt; lists.len(), expected.len());
    for (terms, wanted) in lists.as_slice().iter().zip(expected) {
        assert_eq!(rt; terms.as_slice(), wanted);
    }
    Ok(())
}

// Outputs in any order: the care points of f1 are 11 and 00, and those of f2 are 00 and 10.
#[test]
fn outputs_in_any_order(rt: HostRuntime) -> Result<(), Fail> {
    let lists = answers_to(
        rt.alloc(),
        b".i 2\n.o 2\n.type fr\n11 1-\n00 00\n10 -1\n.e\nf2 = x1*x2 + x2\nf1 = x1 + 1\nf2 = x1 + x2\n",
    )?;
    let expected: [&[Mono]; 3] = [&[], &[Mono(1), Mono(0)], &[Mono(2)]];
    assert_eq!(rt; lists.len(), expected.len());
    for (terms, wanted) in lists.as_slice().iter().zip(expected) {
        assert_eq!(rt; terms.as_slice(), wanted);
    }
    Ok(())
}

const NEVER: u64 = 1_000_000;

// A run with the words on a text, where one read and one write may fail: its status, what it wrote
// and its message are these.
fn check<R: Abort>(
    rt: &R,
    alloc: Global,
    line: &str,
    text: &str,
    fails: (u64, u64),
    want: (u8, &str, &str),
) -> Result<(), Fail> {
    let mut words = Words::new(alloc);
    for word in line.split(' ') {
        words.push(word).map_err(|_| "memory")?;
    }
    let mut source = MemSource::make(alloc, text.as_bytes(), 4, &[fails.0]).map_err(|_| "memory")?;
    let mut out = MemSink::make(alloc, 200, 4, &[fails.1]).map_err(|_| "memory")?;
    let mut err = MemSink::make(alloc, 200, 7, &[]).map_err(|_| "memory")?;
    let status = nf_run(alloc, &words, 8, &mut source, &mut out, &mut err);
    assert_eq!(rt; status, want.0, "{line} at {text}");
    assert_eq!(rt; out.bytes(), want.1.as_bytes(), "{line} at {text}");
    assert_eq!(rt; err.bytes(), want.2.as_bytes(), "{line} at {text}");
    Ok(())
}

// Each line of queries after one description, and the status, answers and message.
#[test]
fn runs_of_mode_reduce(rt: HostRuntime) -> Result<(), Fail> {
    for (queries, status, answers, message) in [
        ("f1 = x1\nf1 = x1*x2 + 1\n", 0, "f1 = x2\nf1 = x2 + 1\n", ""),
        (
            "f1 = x1*x2 + 1\nf1 = x1\nf1 = 0",
            0,
            "f1 = x2 + 1\nf1 = x2\nf1 = 0\n",
            "",
        ),
        ("", 0, "", ""),
        ("f1 = x2 + x1\n", 3, "", "nfq: query line 1: TermOrder\n"),
        (
            "f1 = x1\n\nf2 = x1\n",
            3,
            "",
            "nfq: query line 3: UnknownName\n",
        ),
    ] {
        let alloc = rt.alloc();
        let text = format!(in alloc; "{TWO_POINTS}{queries}")?;
        check(
            &rt,
            alloc,
            "nfq reduce",
            text.as_str(),
            (NEVER, NEVER),
            (status, answers, message),
        )?;
    }
    Ok(())
}

// The other modes, the statuses of bad words and bad descriptions, and those of faults.
#[test]
fn other_runs(rt: HostRuntime) -> Result<(), Fail> {
    let usage = "nfq: usage: nfq reduce|union|meet\n";
    let clash = ".i 2\n.o 2\n.type fr\n1- 1-\n-1 0-\n";
    for (line, text, fails, want) in [
        (
            "nfq union",
            TWO_OUTPUTS,
            (NEVER, NEVER),
            (0, "0 = x1*x2 + x2\n", ""),
        ),
        (
            "nfq meet",
            TWO_OUTPUTS,
            (NEVER, NEVER),
            (0, "0 = x2\n0 = x1\n", ""),
        ),
        (
            "nfq meet",
            TWO_POINTS,
            (NEVER, NEVER),
            (3, "", "nfq: two outputs are needed\n"),
        ),
        ("nfq", TWO_OUTPUTS, (NEVER, NEVER), (2, "", usage)),
        ("nfq meets", TWO_OUTPUTS, (NEVER, NEVER), (2, "", usage)),
        ("nfq meet meet", TWO_OUTPUTS, (NEVER, NEVER), (2, "", usage)),
        (
            "nfq union",
            "",
            (NEVER, NEVER),
            (3, "", "nfq: line 0: NoSize\n"),
        ),
        (
            "nfq union",
            clash,
            (NEVER, NEVER),
            (4, "", "nfq: output 1: on line 4, off line 5\n"),
        ),
        (
            "nfq reduce",
            clash,
            (NEVER, NEVER),
            (4, "", "nfq: output 1: on line 4, off line 5\n"),
        ),
        (
            "nfq union",
            TWO_OUTPUTS,
            (2, NEVER),
            (8, "", "nfq: read fault\n"),
        ),
        (
            "nfq union",
            TWO_OUTPUTS,
            (NEVER, 2),
            (9, "0 = ", "nfq: write fault\n"),
        ),
    ] {
        check(&rt, rt.alloc(), line, text, fails, want)?;
    }
    Ok(())
}
