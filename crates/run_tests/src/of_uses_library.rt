use interp_list::{are_care_points, least_list};
use lattice::{Memory, Mono, Words};
use outside::{MemSink, SureSource};
use program::run;
use set_algebra::TermsRefusal;
use std::alloc::{AllocError, Global};
use std::process::Abort;
use std::test::Fail;
use std::thread::Threads;
use uses_library::{RowCount, least_terms, run_on};

const TWO_POINTS: &str = ".i 2\n.o 1\n.type fr\n11 1\n00 0\n";

// Over two inputs x1 is 2 and x2 is 1; over three x1 is 4, x2 is 2 and x3 is 1. By hand: 0 at 00
// and 1 at 11 is x2, since x1 is greater; the sum of three bits is x1 + x2 + x3, and its carry
// x1*x2 + x1*x3 + x2*x3.
#[test]
fn points_by_hand(rt: HostRuntime) -> Result<(), Fail> {
    let cases: [(u32, &[u64], &[u64], &[Mono]); 5] = [
        (2, &[0], &[3], &[Mono(1)]),
        (2, &[0, 3], &[2], &[Mono(2), Mono(1)]),
        (2, &[], &[1], &[Mono(0)]),
        (
            3,
            &[0, 3, 5, 6],
            &[1, 2, 4, 7],
            &[Mono(4), Mono(2), Mono(1)],
        ),
        (
            3,
            &[0, 1, 2, 4],
            &[3, 5, 6, 7],
            &[Mono(6), Mono(5), Mono(3)],
        ),
    ];
    for (inputs, zeros, ones, want) in cases {
        assert!(rt; 1 <= inputs && inputs <= 12);
        assert!(rt; are_care_points(inputs, zeros, ones));
        let found = least_terms(rt.alloc(), inputs, zeros, ones, 3)?;
        assert_eq!(rt; found.as_slice(), want);
    }
    Ok(())
}

// The points with the value.
fn points_of(alloc: Global, values: &[u8], value: u8) -> Result<Vec<u64>, AllocError> {
    let mut points = Vec::new(alloc);
    for (a, v) in values.iter().enumerate() {
        if *v == value {
            points.push(a as u64)?;
        }
    }
    Ok(points)
}

// Each case has the values at the points 0 to 7 over three inputs, with '-' where there is none.
#[test]
fn as_by_lists(rt: HostRuntime) -> Result<(), Fail> {
    let cases = [
        "--------", "11111111", "00000000", "--0--1--", "01101001", "00010111", "01-1--0-",
        "-10--011",
    ];
    for case in cases {
        let zeros = points_of(rt.alloc(), case.as_bytes(), b'0')?;
        let ones = points_of(rt.alloc(), case.as_bytes(), b'1')?;
        assert!(rt; are_care_points(3, &zeros, &ones));
        let found = least_terms(rt.alloc(), 3, &zeros, &ones, 8)?;
        let want = least_list(rt.alloc(), 3, &zeros, &ones)?;
        assert_eq!(rt; found.as_slice(), want.as_slice(), "at {case}");
    }
    Ok(())
}

// The carry has three terms.
#[test]
fn one_term_too_many(rt: HostRuntime) {
    let (zeros, ones) = ([0, 1, 2, 4], [3, 5, 6, 7]);
    assert!(rt; are_care_points(3, &zeros, &ones));
    let found = least_terms(rt.alloc(), 3, &zeros, &ones, 2);
    assert_eq!(rt; found.err(), Some(TermsRefusal::Over));
}

// Runs the program on a file, and compares the status and the text.
fn check<R: Threads + Abort + Sync>(
    rt: &R,
    alloc: Global,
    mode: &str,
    want: (u8, &str),
) -> Result<(), Memory> {
    let mut words = Words::new(alloc);
    words.push("interp")?;
    words.push(mode)?;
    let ended = run_on(rt, alloc, &words, TWO_POINTS.as_bytes(), 100)?;
    assert_eq!(rt; ended.status, want.0);
    assert_eq!(rt; ended.out.bytes(), want.1.as_bytes());
    Ok(())
}

// By hand: x2 is 0 at 00 and 1 at 11, and x1 + x2 is 0 at both. There is no mode of the last name.
#[test]
fn a_file_in_memory(rt: HostRuntime) -> Result<(), Fail> {
    check(&rt, rt.alloc(), "anf", (0, "f1 = x2\n"))?;
    check(&rt, rt.alloc(), "basis", (0, "f1 = x2\n0 = x1 + x2\n"))?;
    check(&rt, rt.alloc(), "solve", (2, ""))?;
    Ok(())
}

// The status of the program that counts rows on a file, called with so many words, and what it
// wrote to both sinks.
fn count_rows(alloc: Global, count: u32, file: &str) -> Result<(u8, MemSink, MemSink), Memory> {
    let mut words = Words::new(alloc);
    for _ in 0..count {
        words.push("rows")?;
    }
    let mut out = MemSink::make(alloc, 64, 5, &[])?;
    let mut err = MemSink::make(alloc, 64, 64, &[])?;
    let status = run(
        alloc,
        &mut RowCount,
        &words,
        &mut SureSource::new(file.as_bytes()),
        &mut out,
        &mut err,
        &mut Vec::new(alloc),
    );
    Ok((status, out, err))
}

// The sinks have room for each text.
#[test]
fn rows_counted(rt: HostRuntime) -> Result<(), Fail> {
    let cases = [
        (1, TWO_POINTS, 0, "rows 2\n", ""),
        (1, ".i 2\n.o 1\n1 1\n", 3, "", "rows: line 3: RowLength\n"),
        (2, TWO_POINTS, 2, "", "rows: usage: rows\n"),
    ];
    for (count, file, status, text, line) in cases {
        let (found, out, err) = count_rows(rt.alloc(), count, file)?;
        assert_eq!(rt; found, status);
        assert_eq!(rt; out.bytes(), text.as_bytes());
        assert_eq!(rt; err.bytes(), line.as_bytes());
    }
    Ok(())
}
