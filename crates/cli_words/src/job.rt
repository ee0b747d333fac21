// What the words ask for.
ghost use Rattle.std.specs.Prelude.{◌≡◌, ◌≢◌, [], IfOk, IsErrOf, OnOk, Some, codes};
ghost use Rattle.clap.specs.Words.{fault_of, first_of, found_of, matches_of, rows_of};
ghost use Rattle.cli_words.specs.Arguments.{HasModeOf};
ghost use Rattle.cli_words.specs.CommandLine.{HasEach, IsJob, IsWithin, interp_command, mode_name};
ghost use Rattle.cli_words.specs.CommandLine.{modes};
ghost use Rattle.cli_words.specs.declared.job.WordsRefusal.TheVariants.{Memory};

use crate::declared::command;
use crate::found::{number, text};
use clap::ArgMatches;
use clap::error::ErrorKind;
use lattice::{Mode, Text, Words};
use std::alloc::{AllocError, Global};
use thiserror::Error;

/// What the words ask for: the mode, and the value of each option, which is its default where the
/// option is not given.
#[derive(Drop)]
pub struct Job {
    pub mode: Mode,
    /// The number of threads, from 1 to 16, by default 1.
    pub workers: u32,
    /// The store has room for 2 to this power of nodes; from 4 to 23, by default 19.
    pub nodes: u32,
    /// The greatest number of terms, from 1 to 1,000,000, by default 1,000,000.
    pub terms: u64,
    /// Any number, by default 0.
    pub seed: u64,
    /// The bytes of the text that the option asks for; none where it is not given.
    pub order: Option<Text>,
}

/// Why there is no job.
#[derive(Clone, Copy, Debug, Drop, Error, PartialEq, Eq)]
pub enum WordsRefusal {
    /// The declared command refuses the words; a request for help is refused too.
    #[error("faulty command line")]
    Usage,
    /// Memory ran out.
    #[error("out of memory")]
    Memory,
}

impl From<AllocError> for WordsRefusal {
    ghost from_gives = { λ _ e. e ≡ Memory };

    fn from(_: AllocError) -> Self {
        WordsRefusal::Memory
    }
}

// The mode that a parse found.
#[tactic(auto, using(crate::proofs::Taken::first_is))]
fn mode_of(matches: &ArgMatches<'_>) -> Mode
    requires { HasModeOf mode_name modes (found_of matches.now) }
    ensures { first_of (codes "mode") (rows_of (found_of matches.now)) ≡ Some (mode_name result) }
{
    match matches.get_str("mode") {
        Some("anf") => Mode::Anf,
        Some("basis") => Mode::Basis,
        Some("check") => Mode::Check,
        Some("gen") => Mode::Gen,
        _ => unreachable!(),
    }
}

// The job that a parse found.
fn job_of(alloc: Global, matches: &ArgMatches<'_>) -> Result<Job, AllocError>
    requires { HasEach (found_of matches.now) }
    ensures job { IfOk result (IsJob (rows_of (found_of matches.now))) }
    ensures within { IfOk result IsWithin }
{
    Ok(Job {
        mode: mode_of(matches),
        workers: number(matches, "workers") as u32,
        nodes: number(matches, "nodes") as u32,
        terms: number(matches, "terms"),
        seed: number(matches, "seed"),
        order: text(alloc, matches, "order")?,
    })
}

/// Reads the words, the program's name first, by the declared command `interp MODE [--workers N]
/// [--nodes B] [--terms T] [--seed S] [--order NAMES]`, where MODE is `anf`, `basis`, `check` or
/// `gen`. Which words it takes, and with which values, is the rule of `clap` for a simple command.
pub fn read_words(alloc: Global, words: &Words) -> Result<Job, WordsRefusal>
    ensures usage { IsErrOf result WordsRefusal.Usage → fault_of interp_command words.now ≢ [] }
    ensures taken { OnOk result (fault_of interp_command words.now ≡ []) }
    ensures job { IfOk result (IsJob (matches_of interp_command words.now)) }
    ensures within { IfOk result IsWithin }
{
    let command = command(alloc)?;
    match command.try_get_matches_from(words.all()) {
        Ok(matches) => Ok(job_of(alloc, &matches)?),
        Err(error) => match error.kind() {
            ErrorKind::OutOfMemory => Err(WordsRefusal::Memory),
            _ => Err(WordsRefusal::Usage),
        },
    }
}
