use crate::of_interp_run::{NEVER, check};
use std::test::Fail;

#[test]
fn verdicts(rt: HostRuntime) -> Result<(), Fail> {
    let points = ".i 2\n.o 1\n.type fr\n11 1\n00 0\n.e\n";
    let one = ".i 3\n.o 1\n.type fr\n101 1\n.e\n";
    let clash = ".i 2\n.o 1\n.type fr\n1- 1\n-1 0\n.e\n";
    for (file, answer, status, text, message) in [
        (points, "f1 = x2\n0 = x1 + x2\n", 0, "yes\n", ""),
        (points, "f1 = x1\n0 = x1 + x2\n", 1, "no 1 Reducible\n", ""),
        (points, "f1 = 1\n0 = x1 + x2\n", 1, "no 1 Value\n", ""),
        (points, "f1 = x2\n0 = x1\n", 1, "no 2 NotZero\n", ""),
        (
            points,
            "f1 = x2\n0 = x1 + x2\n0 = x1 + x2\n",
            1,
            "no 3 Leads\n",
            "",
        ),
        (points, "f1 = x2\n", 1, "no 1 Count\n", ""),
        (
            one,
            "f1 = 1\n0 = x2\n0 = x3 + 1\n0 = x1 + 1\n",
            1,
            "no 3 Order\n",
            "",
        ),
        (
            points,
            "f1 = x2\n0 = x3\n",
            3,
            "",
            "interp: answer line 2: UnknownName\n",
        ),
        (
            points,
            "f1= x2\n",
            3,
            "",
            "interp: answer line 1: BadLine\n",
        ),
        (points, "", 3, "", "interp: answer line 0: MissingOutput\n"),
        (
            points,
            "f1 = x2\n0 = x2 + x1\n",
            3,
            "",
            "interp: answer line 2: TermOrder\n",
        ),
        (
            ".i 15\n.o 1\n.type fr\n.e\n",
            "f1 = 0\n0 = 1\n",
            3,
            "",
            "interp: more than 14 inputs cannot be checked\n",
        ),
        (
            clash,
            "f1 = x1\n",
            4,
            "",
            "interp: output 1: on line 4, off line 5\n",
        ),
        (
            clash,
            "f1 = x3\n",
            3,
            "",
            "interp: answer line 1: UnknownName\n",
        ),
    ] {
        let alloc = rt.alloc();
        let both = format!(in alloc; "{file}{answer}")?;
        check(
            &rt,
            alloc,
            "interp check",
            both.as_str(),
            (NEVER, NEVER),
            (status, text, message),
        )?;
    }
    Ok(())
}

// A verdict that is written in part.
#[test]
fn verdict_cut_short(rt: HostRuntime) -> Result<(), Fail> {
    let text = ".i 2\n.o 1\n.type fr\n11 1\n00 0\n.e\nf1 = x1\n0 = x1 + x2\n";
    check(
        &rt,
        rt.alloc(),
        "interp check",
        text,
        (NEVER, 2),
        (9, "no 1", "interp: write fault\n"),
    )
}
