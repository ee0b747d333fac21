use cert_check::{AnswerRefusal, AnswerWhy, CheckRefusal, Fault, Verdict, check, read_answer};
use pla_reader::read;
use std::alloc::Global;
use std::process::Abort;
use std::test::Fail;

/// What comes of a description and the answer behind it.
#[derive(Clone, Copy, Debug, PartialEq, Eq)]
enum Outcome {
    Judged(Verdict),
    Refused(AnswerRefusal),
    Unjudged(CheckRefusal),
}

const RIGHT: Outcome = Outcome::Judged(Verdict::Yes);

const fn fault(line: u32, why: Fault) -> Outcome {
    Outcome::Judged(Verdict::No { line, why })
}

const fn bad(line: u32, why: AnswerWhy) -> Outcome {
    Outcome::Refused(AnswerRefusal::Bad { line, why })
}

fn outcome_of(alloc: Global, text: &[u8]) -> Result<Outcome, Fail> {
    if text.len() > 10_000_000 {
        return Err(Fail::new("length"));
    }
    let Ok((p, taken)) = read(alloc, text) else {
        return Err(Fail::new("description"));
    };
    let answer = text.get(taken..).ok_or("answer")?;
    match read_answer(alloc, &p, answer) {
        Err(refusal) => Ok(Outcome::Refused(refusal)),
        Ok(answer) => match check(alloc, &p, &answer) {
            Ok(verdict) => Ok(Outcome::Judged(verdict)),
            Err(refusal) => Ok(Outcome::Unjudged(refusal)),
        },
    }
}

/// Each answer behind the description comes to what is wanted.
fn compare(
    rt: &impl Abort,
    alloc: Global,
    description: &str,
    cases: &[(&str, Outcome)],
) -> Result<(), Fail> {
    for (answer, want) in cases {
        let text = format!(in alloc; "{description}{answer}")?;
        assert_eq!(rt; outcome_of(alloc, text.as_bytes())?, *want, "at {answer}");
    }
    Ok(())
}

#[test]
fn two_points(rt: HostRuntime) -> Result<(), Fail> {
    let description = ".i 2\n.o 1\n.type fr\n11 1\n00 0\n.e\n";
    let cases = [
        ("f1 = x2\n0 = x1 + x2\n", RIGHT),
        ("\r\nf1 = x2\r\n\n0 = x1 + x2", RIGHT),
        ("f1 = x1\n0 = x1 + x2\n", fault(1, Fault::Reducible)),
        ("", bad(0, AnswerWhy::MissingOutput)),
        ("f1 = x2\n", fault(1, Fault::Count)),
        ("f1 = x2\n0 = x2 + x1\n", bad(2, AnswerWhy::TermOrder)),
        ("f1 = 1\n0 = x1 + x2\n", fault(1, Fault::Value)),
        ("f1 = x2\n0 = x1\n", fault(2, Fault::NotZero)),
        (
            "f1 = x2\n0 = x1 + x2\n0 = x1 + x2\n",
            fault(3, Fault::Leads),
        ),
        ("f1 = x2\n0 = 0\n", fault(2, Fault::Leads)),
        ("f1 = x2\n0 = x3\n", bad(2, AnswerWhy::UnknownName)),
        ("f1= x2\n", bad(1, AnswerWhy::BadLine)),
        ("f1 =  x2\n", bad(1, AnswerWhy::BadLine)),
        ("f1  = x2\n", bad(1, AnswerWhy::BadLine)),
        ("f1 = x2 +\n", bad(1, AnswerWhy::BadLine)),
        ("f1 = x2 \n", bad(1, AnswerWhy::BadLine)),
        ("f1 = \n", bad(1, AnswerWhy::BadLine)),
        ("f1 = x3 + 0\n", bad(1, AnswerWhy::BadLine)),
        ("f1 = x1*1\n", bad(1, AnswerWhy::BadLine)),
        ("1 = x1\n", bad(1, AnswerWhy::BadLine)),
        ("f1 = x2 # one\n", bad(1, AnswerWhy::BadLine)),
        ("f1 = x2*x1\n", bad(1, AnswerWhy::TermOrder)),
        ("f1 = x1*x1\n", bad(1, AnswerWhy::TermOrder)),
        ("f1 = x1 + x1\n", bad(1, AnswerWhy::TermOrder)),
        ("f1 = x2*x1*y\n", bad(1, AnswerWhy::UnknownName)),
        ("f2 = x2\n", bad(1, AnswerWhy::UnknownName)),
        ("\n0 = x1\nf1 = x2\n", bad(2, AnswerWhy::MissingOutput)),
        ("f1 = x2\nf1 = x2\n", bad(2, AnswerWhy::MissingOutput)),
    ];
    compare(&rt, rt.alloc(), description, &cases)
}

#[test]
fn three_elements(rt: HostRuntime) -> Result<(), Fail> {
    let description = ".i 3\n.o 1\n.type fr\n101 1\n.e\n";
    let cases = [
        ("f1 = 1\n0 = x3 + 1\n0 = x2\n0 = x1 + 1\n", RIGHT),
        (
            "f1 = 1\n0 = x2\n0 = x3 + 1\n0 = x1 + 1\n",
            fault(3, Fault::Order),
        ),
        (
            "f1 = 1\n0 = x3 + 1\n0 = x2\n0 = x1 + x3\n",
            fault(4, Fault::Reducible),
        ),
    ];
    compare(&rt, rt.alloc(), description, &cases)
}

#[test]
fn two_outputs(rt: HostRuntime) -> Result<(), Fail> {
    let description = ".i 2\n.o 2\n.ilb a b\n.ob y z\n.type fr\n11 1-\n00 00\n10 -1\n.e\n";
    let cases = [
        ("y = b\n0 = a + b\nz = a\n0 = b\n", RIGHT),
        ("z = a\n", bad(1, AnswerWhy::MissingOutput)),
        ("y = b\n0 = a + b\n", bad(2, AnswerWhy::MissingOutput)),
        ("y = b\n0 = a + b\nz = a\n", fault(3, Fault::Count)),
        ("f1 = b\n", bad(1, AnswerWhy::UnknownName)),
    ];
    compare(&rt, rt.alloc(), description, &cases)
}

#[test]
fn other_descriptions(rt: HostRuntime) -> Result<(), Fail> {
    for (text, want) in [
        (
            ".i 15\n.o 1\n.type fr\n.e\nf1 = 0\n0 = 1\n",
            Outcome::Unjudged(CheckRefusal::TooWide),
        ),
        (".i 14\n.o 1\n.type fr\n.e\nf1 = 0\n0 = 1\n", RIGHT),
        (
            ".i 2\n.o 1\n.type fd\n10 1\n01 1\n.e\nf1 = x1 + x2\n",
            RIGHT,
        ),
        (
            ".i 2\n.o 1\n.type fr\n1- 1\n-1 0\n.e\nf1 = x1\n",
            fault(1, Fault::Value),
        ),
        (
            ".i 2\n.o 1\n.type fdr\n1- 1\n00 0\n01 -\n.e\nf1 = x1\n0 = x1*x2 + x2\n",
            RIGHT,
        ),
    ] {
        assert_eq!(rt; outcome_of(rt.alloc(), text.as_bytes())?, want, "at {text}");
    }
    Ok(())
}
