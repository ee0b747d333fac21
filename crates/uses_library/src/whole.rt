//! A run of the program on bytes in memory.
ghost use Rattle.std.specs.Prelude.{◌≡◌, ◌≢◌, ◌⊎◌, [], List, IfOk};
ghost use Rattle.std.specs.List.{concat};
ghost use Rattle.cli_words.specs.declared.job.Job.{Job};
ghost use Rattle.program.specs.Duties.{IsDueFor};
ghost use Rattle.program.specs.Outcomes.{HasText, status_of};
ghost use Rattle.interp_run.specs.Due.{InterpDue};
ghost use Rattle.interp_run.specs.Duty.{IsAsked, interp_duty};
ghost use Rattle.interp_run.specs.Ends.{end_way};

use fork_branches::Drawn;
use interp_run::run;
use lattice::{Memory, Words};
use outside::{MemSink, Rendezvous, SureSink, SureSource};
use std::alloc::Global;
use std::thread::Threads;

/// How a run ended.
#[derive(Drop)]
pub struct Ended {
    pub status: u8,
    /// It holds the text.
    pub out: MemSink,
}

/// Does what the program does when it is called with these words, the program's name first, on a
/// file of these bytes. There is room for a text of so many bytes; messages are dropped.
pub fn run_on<R: Threads + Sync>(
    rt: &R,
    alloc: Global,
    words: &Words,
    file: &[u8],
    room: usize,
) -> Result<Ended, Memory>
    ensures due { IfOk result (λ e. (job : Job) (due : InterpDue) → IsAsked words.now job
        → IsDueFor interp_duty job file.now due → HasText end_way due.outcome
        → e.out.faults ≡ 0 → (e.status ≡ 7)
        ⊎ ((e.status ≡ status_of end_way due.outcome) × (e.out.held ≡ concat due.pages))) }
    ensures nothing { IfOk result
        (λ e. e.status ≢ 0 → e.status ≢ 1 → e.status ≢ 9 → e.out.held ≡ []) }
{
    let mut source = SureSource::new(file);
    let mut out = MemSink::make(alloc, room, 4096, &[])?;
    let status = run(
        rt,
        alloc,
        words,
        &mut source,
        &mut out,
        &mut SureSink::new(),
        &mut Drawn::new(),
        &Rendezvous::open(),
        &mut Vec::new(alloc),
    );
    Ok(Ended { status, out })
}
