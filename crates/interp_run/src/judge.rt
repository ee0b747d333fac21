//! Mode check: an answer that stands after its description is judged.
ghost use Rattle.std.specs.Prelude.{◌≡◌, ◌≤◌, ◌∷◌, [], IfErr, IfOk, length};
ghost use Rattle.lattice.specs.declared.kind.Mode.TheVariants.{Check};
ghost use Rattle.program.specs.Runs.{EndsWithout};
ghost use Rattle.pla_reader.specs.declared.reading.TheConstants.{MOST_BYTES};
ghost use Rattle.interp_run.specs.Due.{IsDue, judged};
ghost use Rattle.interp_run.specs.Parts.{refused_outcome};

use crate::describe::describe;
use crate::ends::OwnEnd;
use arrayvec::ArrayString;
use cert_check::{AnswerRefusal, CheckRefusal, MOST_INPUTS, Verdict, check, read_answer};
use cli_words::Job;
use itoa::Buffer;
use program::{Outcome, behind, check_rows};
use std::alloc::Global;

// `no`, a line of 10 digits, a name of 9 letters, with what joins and ends them.
const LONGEST_VERDICT: usize = 24;

// How a run ends whose answer is refused.
fn end_refused(refusal: AnswerRefusal) -> Outcome<OwnEnd>
    ensures { result ≡ refused_outcome refusal }
{
    match refusal {
        AnswerRefusal::Bad { line, why } => Outcome::Own(OwnEnd::AnswerText { line, why }),
        AnswerRefusal::Memory => Outcome::Memory,
    }
}

/// The verdict on the answer that stands after the description, or how the run ends without it.
pub(crate) fn judge(alloc: Global, job: &Job, bytes: &[u8]) -> Result<Verdict, Outcome<OwnEnd>>
    requires mode { job.now.mode ≡ Check }
    requires few { length bytes.now ≤ MOST_BYTES }
    ensures ok { IfOk result (λ v. IsDue job.now bytes.now (judged v)) }
    ensures err { IfErr result (EndsWithout (IsDue job.now bytes.now)) }
{
    let (pla, taken) = describe(alloc, job, bytes)?;
    if pla.inputs > MOST_INPUTS {
        return Err(Outcome::Own(OwnEnd::TooWide));
    }
    let answer = match read_answer(alloc, &pla, behind(bytes, taken)) {
        Ok(answer) => answer,
        Err(refusal) => return Err(end_refused(refusal)),
    };
    check_rows(&pla)?;
    match check(alloc, &pla, &answer) {
        Ok(verdict) => Ok(verdict),
        Err(CheckRefusal::TooWide) => unreachable!(),
        Err(CheckRefusal::Memory) => Err(Outcome::Memory),
    }
}

/// What is written for a verdict, which takes no memory.
pub(crate) fn print_verdict(verdict: Verdict) -> ArrayString<LONGEST_VERDICT>
    ensures { (judged verdict).pages ≡ result.bytes ∷ [] }
{
    let mut text = ArrayString::new();
    match verdict {
        Verdict::Yes => text.push_str("yes\n"),
        Verdict::No { line, why } => {
            let mut digits = Buffer::new();
            text.push_str("no ");
            text.push_str(digits.format(line));
            text.push_str(" ");
            text.push_str(why.name());
            text.push_str("\n");
        }
    }
    text
}

/// How a run ends whose verdict was written.
pub(crate) fn end_after(verdict: Verdict) -> Outcome<OwnEnd>
    ensures { result ≡ (judged verdict).outcome }
{
    match verdict {
        Verdict::Yes => Outcome::Done,
        Verdict::No { line, why } => Outcome::Own(OwnEnd::No { line, why }),
    }
}
