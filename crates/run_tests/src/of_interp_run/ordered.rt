use crate::of_interp_run::{ADDER, NEVER, check};
use std::test::Fail;

// By another order of the inputs, whose first name is that of the greatest variable.
#[test]
fn orders(rt: HostRuntime) -> Result<(), Fail> {
    let points = ".i 2\n.o 1\n.type fr\n11 1\n00 0\n";
    let clash = ".i 2\n.o 1\n.type fr\n1- 1\n-1 0\n";
    let sums = "s = cin + b + a\nc = cin*b + cin*a + b*a\n";
    let contradiction = "interp: output 1: on line 4, off line 5\n";
    for (line, text, status, answer, message) in [
        (
            "interp basis --order x2,x1",
            points,
            0,
            "f1 = x1\n0 = x2 + x1\n",
            "",
        ),
        (
            "interp basis --order x1,x2",
            points,
            0,
            "f1 = x2\n0 = x1 + x2\n",
            "",
        ),
        ("interp anf --order cin,b,a", ADDER, 0, sums, ""),
        ("interp anf --order=cin,b,a --workers 8", ADDER, 0, sums, ""),
        ("interp anf --order x2,x1", clash, 4, "", contradiction),
    ] {
        check(
            &rt,
            rt.alloc(),
            line,
            text,
            (NEVER, NEVER),
            (status, answer, message),
        )?;
    }
    Ok(())
}

#[test]
fn refused_orders(rt: HostRuntime) -> Result<(), Fail> {
    let points = ".i 2\n.o 1\n.type fr\n11 1\n00 0\n";
    let clash = ".i 2\n.o 1\n.type fr\n1- 1\n-1 0\n";
    let wide = ".i 15\n.o 1\n.type fr\n.e\n";
    let order = "interp: order must name every input once\n";
    for (line, text, status, message) in [
        ("interp basis --order x1", points, 12, order),
        ("interp basis --order x2,x2", points, 12, order),
        ("interp basis --order x1,x2,x3", points, 12, order),
        ("interp basis --order x1,x3", points, 12, order),
        ("interp basis --order x1,x2,", points, 12, order),
        ("interp basis --order=", points, 12, order),
        ("interp anf --order a,b", ADDER, 12, order),
        ("interp anf --order x1,x2,x3", ADDER, 12, order),
        ("interp anf --order x1", "", 3, "interp: line 0: NoSize\n"),
        ("interp anf --order x1", clash, 12, order),
        ("interp check --order x1", wide, 12, order),
    ] {
        check(
            &rt,
            rt.alloc(),
            line,
            text,
            (NEVER, NEVER),
            (status, "", message),
        )?;
    }
    Ok(())
}

// The factors and the terms of a judged answer stand by the order that is asked for.
#[test]
fn verdicts_by_an_order(rt: HostRuntime) -> Result<(), Fail> {
    let points = ".i 2\n.o 1\n.type fr\n11 1\n00 0\n.e\n";
    for (answer, status, text, message) in [
        (
            "f1 = x2\n0 = x1 + x2\n",
            3,
            "",
            "interp: answer line 2: TermOrder\n",
        ),
        ("f1 = x1\n0 = x2 + x1\n", 0, "yes\n", ""),
        ("f1 = x2\n0 = x2 + x1\n", 1, "no 1 Reducible\n", ""),
    ] {
        let alloc = rt.alloc();
        let both = format!(in alloc; "{points}{answer}")?;
        check(
            &rt,
            alloc,
            "interp check --order x2,x1",
            both.as_str(),
            (NEVER, NEVER),
            (status, text, message),
        )?;
    }
    Ok(())
}
