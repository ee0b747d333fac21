use crate::of_interp_run::{NEVER, check};
use std::alloc::Global;
use std::process::Abort;
use std::test::Fail;
use std::thread::Threads;

#[test]
fn limits(rt: HostRuntime) -> Result<(), Fail> {
    let sixteen = ".i 16\n.o 1\n.type fd\n";
    let seventeen = ".i 17\n.o 1\n.type fd\n";
    let union = ".i 2\n.o 1\n.type fd\n1- 1\n-1 1\n";
    let graph = ".i 3\n.o 1\n.type fr\n101 1\n";
    let sum = ".i 2\n.o 1\n.type fd\n10 1\n01 1\n";
    for (line, text, status, answer, message) in [
        ("interp anf --nodes 4", sixteen, 0, "f1 = 0\n", ""),
        ("interp basis --nodes 4", sixteen, 0, "f1 = 0\n", ""),
        (
            "interp anf --nodes 4",
            seventeen,
            5,
            "",
            "interp: more than 16 nodes are needed\n",
        ),
        ("interp anf --nodes 23", sum, 0, "f1 = x1 + x2\n", ""),
        (
            "interp anf --terms 3",
            union,
            0,
            "f1 = x1*x2 + x1 + x2\n",
            "",
        ),
        (
            "interp anf --terms 2",
            union,
            6,
            "",
            "interp: more than 2 terms\n",
        ),
        (
            "interp basis --terms 6",
            graph,
            0,
            "f1 = 1\n0 = x3 + 1\n0 = x2\n0 = x1 + 1\n",
            "",
        ),
        (
            "interp basis --terms 5",
            graph,
            6,
            "",
            "interp: more than 5 terms\n",
        ),
        (
            "interp basis --terms 3",
            graph,
            6,
            "",
            "interp: more than 3 terms\n",
        ),
    ] {
        check(
            &rt,
            rt.alloc(),
            line,
            text,
            (NEVER, NEVER),
            (status, answer, message),
        )?;
    }
    Ok(())
}

// Runs the words with 1, 2 and 8 workers, and compares.
fn check_workers<R: Threads + Abort + Sync>(
    rt: &R,
    alloc: Global,
    words: &str,
    text: &str,
    want: (u8, &str, &str),
) -> Result<(), Fail> {
    for workers in ["1", "2", "8"] {
        let line = format!(in alloc; "interp {words} --workers {workers}")?;
        check(rt, alloc, line.as_str(), text, (NEVER, NEVER), want)?;
    }
    Ok(())
}

// One point over 16 inputs. In mode anf phase 1 has 16 nodes. In mode basis it has 31 and phase 2
// has 62, and the counts of terms are 17 and 33.
#[test]
fn limits_of_each_phase(rt: HostRuntime) -> Result<(), Fail> {
    let alloc = rt.alloc();
    let point = ".i 16\n.o 1\n.type fr\n1111111111111111 1\n";
    let basis =
        "f1 = 1\n0 = x16 + 1\n0 = x15 + 1\n0 = x14 + 1\n0 = x13 + 1\n0 = x12 + 1\n0 = x11 + 1\n0 = x10 + 1\n0 = x9 + 1\n0 = x8 + 1\n0 = x7 + 1\n0 = x6 + 1\n0 = x5 + 1\n0 = x4 + 1\n0 = x3 + 1\n0 = x2 + 1\n0 = x1 + 1\n";
    for (words, status, answer, message) in [
        ("anf --nodes 4", 0, "f1 = 1\n", ""),
        (
            "basis --nodes 4",
            5,
            "",
            "interp: more than 16 nodes are needed\n",
        ),
        (
            "basis --nodes 5",
            5,
            "",
            "interp: more than 32 nodes are needed\n",
        ),
        (
            "basis --nodes 5 --terms 16",
            6,
            "",
            "interp: more than 16 terms\n",
        ),
        ("basis --nodes 6", 0, basis, ""),
        (
            "basis --nodes 6 --terms 32",
            6,
            "",
            "interp: more than 32 terms\n",
        ),
    ] {
        check_workers(&rt, alloc, words, point, (status, answer, message))?;
    }
    Ok(())
}

// All points that begin with these ones and have nine more inputs, in ascending order: each of four
// outputs is 1 there.
fn ascending_points(alloc: Global, inputs: u32, ones: &str) -> Result<String, Fail> {
    let mut text = format!(in alloc; ".i {inputs}\n.o 4\n.type fr\n")?;
    for rest in 0..512u32 {
        let row = format!(in alloc; "{ones}{rest:09b} 1111\n")?;
        text.push_str(row.as_str())?;
    }
    Ok(text)
}

// The same on tables of 2^13 slots and more, where two workers find the polynomials, and three the
// 28 elements. Behind seven ones phase 1 has 8,183 nodes in mode anf: of the numbers over nine
// inputs 511 but 0 stand alone, and as many with all those below them, and there are seven nodes
// more for each of 512 cubes and of 511 covers. Behind eight ones it has 9,206. In mode basis it
// has 8,189 behind seven ones, and phase 2 has 8,202, as another program counts; the counts of
// terms are 32 and 60.
#[test]
fn limits_with_more_workers(rt: HostRuntime) -> Result<(), Fail> {
    let alloc = rt.alloc();
    let seven = ascending_points(alloc, 16, "1111111")?;
    let eight = ascending_points(alloc, 17, "11111111")?;
    let elements =
        "0 = x7 + 1\n0 = x6 + 1\n0 = x5 + 1\n0 = x4 + 1\n0 = x3 + 1\n0 = x2 + 1\n0 = x1 + 1\n";
    let bases = format!(in alloc;
        "f1 = 1\n{elements}f2 = 1\n{elements}f3 = 1\n{elements}f4 = 1\n{elements}"
    )?;
    let full = "interp: more than 8192 nodes are needed\n";
    let ones = "f1 = 1\nf2 = 1\nf3 = 1\nf4 = 1\n";
    check_workers(&rt, alloc, "anf --nodes 13", eight.as_str(), (5, "", full))?;
    for (words, status, answer, message) in [
        ("anf --nodes 13", 0, ones, ""),
        ("basis --nodes 13", 5, "", full),
        (
            "basis --nodes 13 --terms 31",
            6,
            "",
            "interp: more than 31 terms\n",
        ),
        ("basis --nodes 14", 0, bases.as_str(), ""),
        (
            "basis --nodes 14 --terms 59",
            6,
            "",
            "interp: more than 59 terms\n",
        ),
    ] {
        check_workers(&rt, alloc, words, seven.as_str(), (status, answer, message))?;
    }
    Ok(())
}

#[test]
fn limits_with_workers(rt: HostRuntime) -> Result<(), Fail> {
    let alloc = rt.alloc();
    let sixteen = ".i 16\n.o 1\n.type fd\n";
    let seventeen = ".i 17\n.o 1\n.type fd\n";
    let union = ".i 2\n.o 1\n.type fd\n1- 1\n-1 1\n";
    let exhausted = "interp: more than 16 nodes are needed\n";
    let many = "interp: more than 2 terms\n";
    check_workers(&rt, alloc, "anf --nodes 4", sixteen, (0, "f1 = 0\n", ""))?;
    check_workers(&rt, alloc, "anf --nodes 4", seventeen, (5, "", exhausted))?;
    check_workers(
        &rt,
        alloc,
        "anf --terms 3",
        union,
        (0, "f1 = x1*x2 + x1 + x2\n", ""),
    )?;
    check_workers(&rt, alloc, "anf --terms 2", union, (6, "", many))
}
