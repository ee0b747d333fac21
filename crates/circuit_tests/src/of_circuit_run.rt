use circuit_run::circuit_run;
use lattice::Words;
use outside::{Failed, MemSink, MemSource, Source};
use std::alloc::Global;
use std::process::Abort;
use std::test::Fail;

const NEVER: u64 = 1_000_000;

const MOST_BYTES: usize = 16_777_216;

// The sum and the carry of two bits.
const HALF_ADDER: &str =
    "aag 5 2 0 2 3\n2\n4\n10\n6\n6 2 4\n8 3 5\n10 7 9\ni0 a\ni1 b\no0 sum\no1 carry\n";

// The same over the same names, which stand in another order.
const CARRY_FIRST: &str =
    "aag 5 2 0 2 3\n2\n4\n6\n10\n6 2 4\n8 3 5\n10 7 9\ni0 b\ni1 a\no0 carry\no1 sum\n";

// The same but for the sum, which is 1 where either bit is.
const EITHER: &str =
    "aag 5 2 0 2 3\n2\n4\n9\n6\n6 2 4\n8 3 5\n10 7 9\ni0 a\ni1 b\no0 sum\no1 carry\n";

// The same but for the sum, which is 0.
const NO_SUM: &str = "aag 3 2 0 2 1\n2\n4\n0\n6\n6 2 4\ni0 a\ni1 b\no0 sum\no1 carry\n";

// The same but for the carry, which is 1.
const EVER_CARRIES: &str =
    "aag 5 2 0 2 3\n2\n4\n10\n1\n6 2 4\n8 3 5\n10 7 9\ni0 a\ni1 b\no0 sum\no1 carry\n";

// The same with another name of an output.
const OTHER_OUTPUT: &str =
    "aag 5 2 0 2 3\n2\n4\n10\n6\n6 2 4\n8 3 5\n10 7 9\ni0 a\ni1 b\no0 s\no1 carry\n";

// The same with no names.
const UNNAMED: &str = "aag 5 2 0 2 3\n2\n4\n10\n6\n6 2 4\n8 3 5\n10 7 9\n";

// The same in the binary form: the sum is the second gate's complement and the first's.
const BINARY: &[u8] = b"aig 5 2 0 2 3\n10\n6\n\x02\x02\x03\x02\x01\x02";

// The inner product of (x1, .., x4) and (x5, .., x8).
const INNER_PRODUCT: &str =
    "aag 21 8 0 1 13\n2\n4\n6\n8\n10\n12\n14\n16\n42\n18 2 10\n20 4 12\n22 6 14\n24 8 16\n26 18 20\n28 19 21\n30 27 29\n32 30 22\n34 31 23\n36 33 35\n38 36 24\n40 37 25\n42 39 41\n";

const USAGE: &str =
    "circuit: usage: circuit anf|basis|count|equal [--nodes B] [--terms T] [--order NAMES] [--care NAME] [--invert NAMES]\n";

// A run with the words on a file, where one read and one write may fail: its status, what it wrote
// and its message are these.
fn check<R: Abort>(
    rt: &R,
    alloc: Global,
    line: &str,
    file: &[u8],
    fails: (u64, u64),
    want: (u8, &str, &str),
) -> Result<(), Fail> {
    let mut words = Words::new(alloc);
    for word in line.split(' ') {
        words.push(word).map_err(|_| "memory")?;
    }
    let mut source = MemSource::make(alloc, file, 4, &[fails.0]).map_err(|_| "memory")?;
    let mut out = MemSink::make(alloc, 400, 8, &[fails.1]).map_err(|_| "memory")?;
    let mut err = MemSink::make(alloc, 200, 7, &[]).map_err(|_| "memory")?;
    let status = circuit_run(alloc, &words, &mut source, &mut out, &mut err);
    assert_eq!(rt; status, want.0, "{line}");
    assert_eq!(rt; out.bytes(), want.1.as_bytes(), "{line}");
    assert_eq!(rt; err.bytes(), want.2.as_bytes(), "{line}");
    Ok(())
}

// The half adder in each mode, with its names and without, in both forms.
#[test]
fn each_mode_and_form(rt: HostRuntime) -> Result<(), Fail> {
    for (line, file, text) in [
        (
            "circuit anf",
            HALF_ADDER.as_bytes(),
            "sum = a + b\ncarry = a*b\n",
        ),
        (
            "circuit basis",
            HALF_ADDER.as_bytes(),
            "sum = a + b\ncarry = a*b\n",
        ),
        (
            "circuit count",
            HALF_ADDER.as_bytes(),
            "sum: terms 2, degree 1, nodes 2\ncarry: terms 1, degree 2, nodes 2\n",
        ),
        (
            "circuit anf",
            UNNAMED.as_bytes(),
            "f1 = x1 + x2\nf2 = x1*x2\n",
        ),
        ("circuit anf", BINARY, "f1 = x1 + x2\nf2 = x1*x2\n"),
    ] {
        check(&rt, rt.alloc(), line, file, (NEVER, NEVER), (0, text, ""))?;
    }
    Ok(())
}

// Another order of the inputs, complemented inputs, and both.
#[test]
fn orders_and_complements(rt: HostRuntime) -> Result<(), Fail> {
    for (line, text) in [
        ("circuit anf --order b,a", "sum = b + a\ncarry = b*a\n"),
        (
            "circuit anf --invert a",
            "sum = ~a + b + 1\ncarry = ~a*b + b\n",
        ),
        (
            "circuit anf --invert b,a",
            "sum = ~a + ~b\ncarry = ~a*~b + ~a + ~b + 1\n",
        ),
        (
            "circuit anf --order b,a --invert a",
            "sum = b + ~a + 1\ncarry = b*~a + b\n",
        ),
    ] {
        check(
            &rt,
            rt.alloc(),
            line,
            HALF_ADDER.as_bytes(),
            (NEVER, NEVER),
            (0, text, ""),
        )?;
    }
    Ok(())
}

// An output that says which points are cared for: where the sum is 1, one of the bits is 1 and the
// other is 0; and where the carry is 1, both are 1.
#[test]
fn points_that_are_cared_for(rt: HostRuntime) -> Result<(), Fail> {
    for (line, text) in [
        ("circuit anf --care sum", "carry = 0\n"),
        ("circuit basis --care sum", "carry = 0\n0 = a + b + 1\n"),
        (
            "circuit basis --care carry",
            "sum = 0\n0 = b + 1\n0 = a + 1\n",
        ),
        (
            "circuit basis --care carry --invert a",
            "sum = 0\n0 = b + 1\n0 = ~a\n",
        ),
        (
            "circuit count --care carry",
            "sum: terms 0, degree 0, nodes 0\n",
        ),
    ] {
        check(
            &rt,
            rt.alloc(),
            line,
            HALF_ADDER.as_bytes(),
            (NEVER, NEVER),
            (0, text, ""),
        )?;
    }
    Ok(())
}

// Words that ask for nothing, and names that are not among those of the circuit: the order is seen
// before the complements, and these before the points that are cared for.
#[test]
fn words_that_are_refused(rt: HostRuntime) -> Result<(), Fail> {
    let order = "circuit: order must name every input once\n";
    let invert = "circuit: invert must name inputs, each once\n";
    let care = "circuit: care must name an output\n";
    for (line, status, message) in [
        ("circuit", 2, USAGE),
        ("circuit gen", 2, USAGE),
        ("circuit anf --nodes 24", 2, USAGE),
        ("circuit anf --order a", 12, order),
        ("circuit anf --order a,b,a", 12, order),
        ("circuit anf --invert a,a", 12, invert),
        ("circuit anf --invert sum", 12, invert),
        ("circuit anf --care a", 12, care),
        ("circuit anf --care a --invert sum --order a", 12, order),
        ("circuit anf --care a --invert sum", 12, invert),
    ] {
        check(
            &rt,
            rt.alloc(),
            line,
            HALF_ADDER.as_bytes(),
            (NEVER, NEVER),
            (status, "", message),
        )?;
    }
    Ok(())
}

// Files that are refused, before any name is looked up.
#[test]
fn files_that_are_refused(rt: HostRuntime) -> Result<(), Fail> {
    for (file, message) in [
        ("", "circuit: byte 0: NoFormat\n"),
        ("aag 1 1 0 1 0", "circuit: byte 13: Truncated\n"),
        ("aag 1 0 1 0 0\n2 2\n", "circuit: byte 8: Latch\n"),
        ("aag 0 0 0 1 0\n1\n", "circuit: there are no inputs\n"),
    ] {
        check(
            &rt,
            rt.alloc(),
            "circuit anf --order q",
            file.as_bytes(),
            (NEVER, NEVER),
            (3, "", message),
        )?;
    }
    Ok(())
}

// Limits of nodes and terms that are passed, and one that is just kept.
#[test]
fn limits(rt: HostRuntime) -> Result<(), Fail> {
    let nodes = "circuit: more than 16 nodes are needed\n";
    for (line, file, want) in [
        ("circuit anf --nodes 4", INNER_PRODUCT, (5, "", nodes)),
        ("circuit basis --nodes 4", INNER_PRODUCT, (5, "", nodes)),
        ("circuit count --nodes 4", INNER_PRODUCT, (5, "", nodes)),
        (
            "circuit anf --terms 4",
            INNER_PRODUCT,
            (0, "f1 = x1*x5 + x2*x6 + x3*x7 + x4*x8\n", ""),
        ),
        (
            "circuit anf --terms 3",
            INNER_PRODUCT,
            (6, "", "circuit: more than 3 terms\n"),
        ),
        (
            "circuit anf --terms 2",
            HALF_ADDER,
            (6, "", "circuit: more than 2 terms\n"),
        ),
    ] {
        check(&rt, rt.alloc(), line, file.as_bytes(), (NEVER, NEVER), want)?;
    }
    Ok(())
}

// Two files, one behind the other.
fn both(alloc: Global, first: &[u8], second: &[u8]) -> Result<Vec<u8>, Fail> {
    let mut file = Vec::from_slice(alloc, first).map_err(|_| "memory")?;
    file.extend_from_slice(second).map_err(|_| "memory")?;
    Ok(file)
}

// The half adder and a second circuit: outputs of the same name are compared, at all points or
// those that are cared for, and the point that is written is the least in the order of the inputs.
#[test]
fn circuits_that_are_compared(rt: HostRuntime) -> Result<(), Fail> {
    let alloc = rt.alloc();
    for (line, second, status, text) in [
        (
            "circuit equal",
            CARRY_FIRST,
            0,
            "sum: equal\ncarry: equal\n",
        ),
        (
            "circuit equal",
            EITHER,
            1,
            "sum: different at a=1 b=1\ncarry: equal\n",
        ),
        (
            "circuit equal",
            NO_SUM,
            1,
            "sum: different at a=0 b=1\ncarry: equal\n",
        ),
        (
            "circuit equal --order b,a",
            NO_SUM,
            1,
            "sum: different at b=0 a=1\ncarry: equal\n",
        ),
        (
            "circuit equal --invert a",
            NO_SUM,
            1,
            "sum: different at ~a=0 b=0\ncarry: equal\n",
        ),
        (
            "circuit equal",
            EVER_CARRIES,
            1,
            "sum: equal\ncarry: different at a=0 b=0\n",
        ),
        ("circuit equal --care carry", NO_SUM, 0, "sum: equal\n"),
        (
            "circuit equal --care carry",
            EITHER,
            1,
            "sum: different at a=1 b=1\n",
        ),
        (
            "circuit equal --care carry",
            EVER_CARRIES,
            0,
            "sum: equal\n",
        ),
        (
            "circuit equal --terms 1",
            EITHER,
            1,
            "sum: different at a=1 b=1\ncarry: equal\n",
        ),
    ] {
        let file = both(alloc, HALF_ADDER.as_bytes(), second.as_bytes())?;
        check(&rt, alloc, line, &file, (NEVER, NEVER), (status, text, ""))?;
    }
    let file = both(alloc, BINARY, UNNAMED.as_bytes())?;
    let same = "f1: equal\nf2: equal\n";
    check(
        &rt,
        alloc,
        "circuit equal",
        &file,
        (NEVER, NEVER),
        (0, same, ""),
    )
}

// Two circuits that are refused, and words that name what is not there: the names of the circuits
// are looked at first, then the output that is cared for, and then the order.
#[test]
fn circuits_that_are_not_compared(rt: HostRuntime) -> Result<(), Fail> {
    let alloc = rt.alloc();
    for (line, second, status, message) in [
        ("circuit equal", "", 3, "circuit: two circuits are needed\n"),
        (
            "circuit equal",
            "aag 1 0 1 0 0\n2 2\n",
            3,
            "circuit: byte 76: Latch\n",
        ),
        (
            "circuit equal --care q",
            UNNAMED,
            3,
            "circuit: the circuits must have the same inputs\n",
        ),
        (
            "circuit equal --care q",
            OTHER_OUTPUT,
            3,
            "circuit: the circuits must have the same outputs\n",
        ),
        (
            "circuit equal --care a --order a",
            EITHER,
            12,
            "circuit: care must name an output\n",
        ),
        (
            "circuit equal --order a --invert q",
            EITHER,
            12,
            "circuit: order must name every input once\n",
        ),
        (
            "circuit equal --invert q",
            EITHER,
            12,
            "circuit: invert must name inputs, each once\n",
        ),
    ] {
        let file = both(alloc, HALF_ADDER.as_bytes(), second.as_bytes())?;
        check(
            &rt,
            alloc,
            line,
            &file,
            (NEVER, NEVER),
            (status, "", message),
        )?;
    }
    let none = b"aag 0 0 0 1 0\n1\n";
    let file = both(alloc, none, none)?;
    let message = "circuit: there are no inputs\n";
    check(
        &rt,
        alloc,
        "circuit equal",
        &file,
        (NEVER, NEVER),
        (3, "", message),
    )?;
    let message = "circuit: byte 0: NoFormat\n";
    check(
        &rt,
        alloc,
        "circuit equal",
        b"",
        (NEVER, NEVER),
        (3, "", message),
    )?;
    let product = INNER_PRODUCT.as_bytes();
    let file = both(alloc, product, product)?;
    let message = "circuit: more than 16 nodes are needed\n";
    check(
        &rt,
        alloc,
        "circuit equal --nodes 4",
        &file,
        (NEVER, NEVER),
        (5, "", message),
    )
}

// A circuit of half as many gates as a circuit may have, each of which is the one before it.
fn half_a_million_gates(alloc: Global) -> Result<Vec<u8>, Fail> {
    let header = b"aig 500001 1 0 1 500000\n2\n";
    let mut file = Vec::from_slice(alloc, header).map_err(|_| "memory")?;
    for _ in 0..500_000 {
        file.extend_from_slice(&[2, 0]).map_err(|_| "memory")?;
    }
    Ok(file)
}

// Two of these have too many with the gates that compare them.
#[test]
fn too_many_gates_for_both(rt: HostRuntime) -> Result<(), Fail> {
    let alloc = rt.alloc();
    let half = half_a_million_gates(alloc)?;
    let file = both(alloc, &half, &half)?;
    let mut words = Words::new(alloc);
    words.push("circuit").map_err(|_| "memory")?;
    words.push("equal").map_err(|_| "memory")?;
    let mut source = MemSource::make(alloc, &file, 65_536, &[]).map_err(|_| "memory")?;
    let mut out = MemSink::make(alloc, 10, 8, &[]).map_err(|_| "memory")?;
    let mut err = MemSink::make(alloc, 200, 7, &[]).map_err(|_| "memory")?;
    let status = circuit_run(alloc, &words, &mut source, &mut out, &mut err);
    assert_eq!(rt; status, 3);
    let message = "circuit: more than 1000000 gates for both\n";
    assert_eq!(rt; err.bytes(), message.as_bytes());
    Ok(())
}

// Reads and writes that fail: nothing is written after a fault, and words that are refused read
// nothing.
#[test]
fn faults(rt: HostRuntime) -> Result<(), Fail> {
    let read = "circuit: read fault\n";
    let write = "circuit: write fault\n";
    for (line, fails, want) in [
        ("circuit anf", (1, NEVER), (8, "", read)),
        ("circuit count", (5, NEVER), (8, "", read)),
        ("circuit gen", (1, NEVER), (2, "", USAGE)),
        ("circuit anf", (NEVER, 1), (9, "", write)),
        ("circuit anf", (NEVER, 2), (9, "sum = a ", write)),
        ("circuit count", (NEVER, 2), (9, "sum: ter", write)),
        (
            "circuit anf --care q",
            (NEVER, 1),
            (12, "", "circuit: care must name an output\n"),
        ),
    ] {
        check(&rt, rt.alloc(), line, HALF_ADDER.as_bytes(), fails, want)?;
    }
    let file = both(rt.alloc(), HALF_ADDER.as_bytes(), EITHER.as_bytes())?;
    for (fails, want) in [
        ((20, NEVER), (8, "", read)),
        ((NEVER, 1), (9, "", write)),
        ((NEVER, 2), (9, "sum: dif", write)),
    ] {
        check(&rt, rt.alloc(), "circuit equal", &file, fails, want)?;
    }
    Ok(())
}

// A source of so many bytes, none of which begins a file.
#[derive(Drop)]
struct Blank {
    left: usize,
}

impl Source for Blank {
    ghost use Rattle.std.specs.Prelude.{None};

    ghost left = { λ s. None };

    ghost faults = { λ s. 0 };

    fn read(&mut self, buf: &mut [u8]) -> Result<usize, Failed> {
        let count = self.left.min(buf.len());
        self.left -= count;
        Ok(count)
    }
}

// The greatest number of bytes, and one more.
#[test]
fn as_many_bytes_as_a_file_may_have(rt: HostRuntime) -> Result<(), Fail> {
    let alloc = rt.alloc();
    for (bytes, status, message) in [
        (MOST_BYTES, 3, "circuit: byte 0: NoFormat\n"),
        (MOST_BYTES + 1, 10, "circuit: longer than 16777216 bytes\n"),
    ] {
        let mut words = Words::new(alloc);
        words.push("circuit").map_err(|_| "memory")?;
        words.push("anf").map_err(|_| "memory")?;
        let mut source = Blank { left: bytes };
        let mut out = MemSink::make(alloc, 10, 8, &[]).map_err(|_| "memory")?;
        let mut err = MemSink::make(alloc, 200, 7, &[]).map_err(|_| "memory")?;
        let ended = circuit_run(alloc, &words, &mut source, &mut out, &mut err);
        assert_eq!(rt; ended, status, "{bytes} bytes");
        assert_eq!(rt; err.bytes(), message.as_bytes(), "{bytes} bytes");
    }
    Ok(())
}
