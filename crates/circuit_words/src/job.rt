// What the words ask for.
ghost use Rattle.std.specs.Prelude.{◌≡◌, [], IfOk, IsErrOf, OnOk, Some, codes};
ghost use Rattle.clap.specs.Words.{fault_of, first_of, found_of, matches_of, rows_of};
ghost use Rattle.cli_words.specs.Arguments.{HasModeOf};
ghost use Rattle.circuit_words.specs.CommandLine.{HasEach, IsJob, IsRefused, IsWithin};
ghost use Rattle.circuit_words.specs.CommandLine.{circuit_command, mode_name, modes};

use crate::declared::command;
use clap::ArgMatches;
use clap::error::ErrorKind;
use cli_words::{WordsRefusal, number, text};
use lattice::{Text, Words};
use std::alloc::{AllocError, Global};

/// What is printed of each output of a circuit, or of two circuits.
#[derive(Clone, Copy, PartialEq, Eq, Debug)]
pub enum CircuitMode {
    /// The least polynomial.
    Anf,
    /// The least polynomial, and behind all of them the reduced basis of the care points.
    Basis,
    /// Numbers of the least polynomial, whose terms are not listed.
    Count,
    /// Whether it is the same in a second circuit, or else the least point at which it is not.
    Equal,
}

/// What the words ask for: the mode, and the value of each option, which is its default where the
/// option is not given.
#[derive(Drop)]
pub struct CircuitJob {
    pub mode: CircuitMode,
    /// The store has room for 2 to this power of nodes; from 4 to 23, by default 19.
    pub nodes: u32,
    /// The greatest number of terms, from 1 to 1,000,000, by default 1,000,000.
    pub terms: u64,
    /// The bytes of the text that names the inputs in their order; none where it is not given.
    pub order: Option<Text>,
    /// The bytes of the text that names the output whose ones are the care points; none where it is
    /// not given.
    pub care: Option<Text>,
    /// The bytes of the text that names the inputs that are read as their complements; none where
    /// it is not given.
    pub invert: Option<Text>,
}

// The mode that a parse found.
#[tactic(auto, using(cli_words::proofs::Commands::first_is))]
fn mode_of(matches: &ArgMatches<'_>) -> CircuitMode
    requires { HasModeOf mode_name modes (found_of matches.now) }
    ensures { first_of (codes "mode") (rows_of (found_of matches.now)) ≡ Some (mode_name result) }
{
    match matches.get_str("mode") {
        Some("anf") => CircuitMode::Anf,
        Some("basis") => CircuitMode::Basis,
        Some("count") => CircuitMode::Count,
        Some("equal") => CircuitMode::Equal,
        _ => unreachable!(),
    }
}

// The job that a parse found.
fn job_of(alloc: Global, matches: &ArgMatches<'_>) -> Result<CircuitJob, AllocError>
    requires { HasEach (found_of matches.now) }
    ensures job { IfOk result (IsJob (rows_of (found_of matches.now))) }
    ensures within { IfOk result IsWithin }
{
    Ok(CircuitJob {
        mode: mode_of(matches),
        nodes: number(matches, "nodes") as u32,
        terms: number(matches, "terms"),
        order: text(alloc, matches, "order")?,
        care: text(alloc, matches, "care")?,
        invert: text(alloc, matches, "invert")?,
    })
}

/// Reads the words, the program's name first, by the declared command `circuit MODE [--nodes B]
/// [--terms T] [--order NAMES] [--care NAME] [--invert NAMES]`, where MODE is `anf`, `basis`,
/// `count` or `equal`. Which words it takes, and with which values, is the rule of `clap` for a
/// simple command.
pub fn read_circuit_words(alloc: Global, words: &Words) -> Result<CircuitJob, WordsRefusal>
    ensures usage { IsErrOf result WordsRefusal.Usage → IsRefused words.now }
    ensures taken { OnOk result (fault_of circuit_command words.now ≡ []) }
    ensures job { IfOk result (IsJob (matches_of circuit_command words.now)) }
    ensures within { IfOk result IsWithin }
{
    let command = command(alloc)?;
    match command.try_get_matches_from(words.all()) {
        Ok(matches) => Ok(job_of(alloc, &matches)?),
        Err(error) => match error.kind() {
            ErrorKind::OutOfMemory => Err(WordsRefusal::Memory),
            _ => Err(WordsRefusal::Usage),
        },
    }
}
