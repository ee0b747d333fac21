//! Mode gen: the summary of the description that a seed makes.
ghost use Rattle.std.specs.Prelude.{◌≡◌, ◌≤◌, ◌++◌, [], IfErr, IfOk, OnOk};
ghost use Rattle.std.specs.Prelude.{codes, decimal, length, map};
ghost use Rattle.std.specs.List.{enumerate_from, flat_map};
ghost use Rattle.lattice.specs.declared.kind.Mode.TheVariants.{Gen};
ghost use Rattle.anf_printer.specs.Text.{shown_answer};
ghost use Rattle.cli_words.specs.CommandLine.{IsWithin};
ghost use Rattle.program.specs.Duties.{done};
ghost use Rattle.program.specs.Outcomes.{HasText};
ghost use Rattle.program.specs.Runs.{EndsWithout};
ghost use Rattle.interp_run.specs.Answers.{summary_line};
ghost use Rattle.interp_run.specs.Due.{IsDue};
ghost use Rattle.interp_run.specs.Ends.{end_way};

use crate::ends::OwnEnd;
use crate::means::Interp;
use crate::solve::solve;
use anf_printer::Shown;
use cli_words::Job;
use fork_branches::Pool;
use gen_pla::generate;
use itoa::Buffer;
use lattice::{Memory, Text};
use program::Outcome;
use std::alloc::{AllocError, Global};
use std::thread::Threads;

// Puts the number at the end of the text.
fn push_number(text: &mut Vec<u8>, number: u64) -> Result<(), AllocError>
    ensures { OnOk result (text.new.items ≡ text.old.items ++ decimal number) }
{
    let mut digits = Buffer::new();
    text.extend_from_slice(digits.format(number).as_bytes())
}

// Puts the line of an output at the end of the text.
fn push_line(text: &mut Vec<u8>, output: u64, terms: u64) -> Result<(), AllocError>
    ensures { OnOk result (text.new.items
        ≡ text.old.items ++ (codes "f" ++ decimal output ++ codes " " ++ decimal terms
        ++ codes "\n")) }
{
    text.push(b'f')?;
    push_number(text, output)?;
    text.push(b' ')?;
    push_number(text, terms)?;
    text.push(b'\n')?;
    Ok(())
}

// A summary with its first line.
fn begin_summary(alloc: Global, points: u64) -> Result<Vec<u8>, AllocError>
    ensures { IfOk result (λ text. text.items ≡ codes "points " ++ decimal points ++ codes "\n") }
{
    let mut text = Vec::new(alloc);
    text.extend_from_slice(b"points ")?;
    push_number(&mut text, points)?;
    text.push(b'\n')?;
    Ok(text)
}

// The summary of these answers.
fn print_summary(alloc: Global, points: u64, shown: &[Shown]) -> Result<Text, Memory>
    requires few { length shown.now ≤ 64 }
    ensures { IfOk result (λ text. text ≡ codes "points " ++ decimal points ++ codes "\n"
        ++ flat_map summary_line (enumerate_from 1 (map shown_answer shown.now))) }
{
    let mut text = begin_summary(alloc, points)?;
    for (before, output) in shown.iter().enumerate() {
        push_line(
            &mut text,
            before as u64 + 1,
            output.poly.as_slice().len() as u64,
        )?;
    }
    Ok(Text::from_vec(text))
}

/// The summary of the description that the job's seed makes, or how the run ends without it.
pub(crate) fn summarize<R: Threads + Sync, P: Pool>(
    interp: &mut Interp<'_, R, P>,
    job: &Job,
) -> Result<Text, Outcome<OwnEnd>>
    requires mode { job.now.mode ≡ Gen }
    requires within { IsWithin job.now }
    requires fresh { P.done interp.old.pool.now ≡ 0 }
    ensures same_pool { interp.new.pool.ghost_name ≡ interp.old.pool.ghost_name }
    ensures ok { IfOk result (λ text. IsDue job.now [] (done text)) }
    ensures jobs { OnOk result (2 ≤ P.done interp.new.pool.now) }
    ensures err { IfErr result (EndsWithout (IsDue job.now [])) }
    ensures unfinished { IfErr result (λ o. ¬ HasText end_way o) }
{
    let Ok(pla) = generate(interp.alloc, job.seed) else {
        return Err(Outcome::Memory);
    };
    let solution = solve(interp, &pla, job)?;
    match print_summary(interp.alloc, solution.points, &solution.shown) {
        Ok(text) => Ok(text),
        Err(Memory) => Err(Outcome::Memory),
    }
}
