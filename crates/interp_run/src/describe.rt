//! The description of a run, in the order that is asked for.
ghost use Rattle.std.specs.Prelude.{◌≡◌, ◌≤◌, ◌⊎◌, false, Err, IfOk, IfErr, Ok, length};
ghost use Rattle.pla_reader.specs.Reading.{bytes_taken, description};
ghost use Rattle.program.specs.Runs.{EndsWithout};
ghost use Rattle.pla_reader.specs.declared.reading.TheConstants.{MOST_BYTES};
ghost use Rattle.program.specs.declared.outcome.Outcome.TheVariants as outcomes;
ghost use Rattle.interp_run.specs.Due.{IsDue, file_of, in_order, is_gen};
ghost use Rattle.interp_run.specs.Parts.{disordered_outcome};

use crate::ends::OwnEnd;
use cli_words::Job;
use lattice::Memory;
use pla_reader::{OrderRefusal, Pla, arrange, read, read_order};
use program::Outcome;
use std::alloc::Global;

// How a run ends whose order is refused.
fn end_disordered(refusal: OrderRefusal) -> Outcome<OwnEnd>
    ensures { result ≡ disordered_outcome refusal }
{
    match refusal {
        OrderRefusal::Bad => Outcome::Own(OwnEnd::Order),
        OrderRefusal::Memory => Outcome::Memory,
    }
}

// The description in the order that the job asks for, or how the run ends without it.
fn arrange_as_asked(alloc: Global, job: &Job, pla: Pla) -> Result<Pla, Outcome<OwnEnd>>
    ensures ok { IfOk result (λ file. in_order job.now.order (Ok (description pla))
        ≡ Ok (description file)) }
    ensures err { IfErr result (λ o. (in_order job.now.order (Ok (description pla)) ≡ Err o)
        ⊎ (o ≡ outcomes.Memory)) }
{
    let Some(text) = &job.order else {
        return Ok(pla);
    };
    let order = match read_order(alloc, &pla, text.as_slice()) {
        Ok(order) => order,
        Err(refusal) => return Err(end_disordered(refusal)),
    };
    match arrange(alloc, &pla, &order) {
        Ok(file) => Ok(file),
        Err(Memory) => Err(Outcome::Memory),
    }
}

/// The description of the bytes, in the order that the job asks for, and the number of bytes that
/// it takes, or how the run ends without it.
pub(crate) fn describe(
    alloc: Global,
    job: &Job,
    bytes: &[u8],
) -> Result<(Pla, usize), Outcome<OwnEnd>>
    requires reads { is_gen job.now.mode ≡ false }
    requires few { length bytes.now ≤ MOST_BYTES }
    ensures ok { IfOk result (λ found. file_of job.now bytes.now ≡ Ok (description found.0)) }
    ensures taken { IfOk result (λ found. found.1 ≡ bytes_taken bytes.now) }
    ensures err { IfErr result (EndsWithout (IsDue job.now bytes.now)) }
{
    let (pla, taken) = read(alloc, bytes)?;
    let file = arrange_as_asked(alloc, job, pla)?;
    Ok((file, taken))
}
