// The declared command.
ghost use Rattle.std.specs.Prelude.{◌≡◌, IfOk, false};
ghost use Rattle.clap.specs.Words.{app_of, rule_of};
ghost use Rattle.cli_words.specs.Arguments.{NameList, mode_rule};
ghost use Rattle.circuit_words.specs.CommandLine.{IsModeNames, circuit_command_at};

use clap::{Arg, Command};
use cli_words::{any_text, mode, nodes, terms};
use std::alloc::{AllocError, Global};

/// The values of MODE.
static MODES: [&str; 4] = ["anf", "basis", "count", "equal"];

fn one_of_modes<'a>(alloc: Global) -> Arg<'a>
    ensures rule { (list : NameList) × IsModeNames list × (rule_of result ≡ mode_rule list) }
    ensures local { result.global ≡ false }
{
    mode(alloc, MODES.as_slice())
}

/// `circuit MODE [--nodes B] [--terms T] [--order NAMES] [--care NAME] [--invert NAMES]`
pub(crate) fn command<'a>(alloc: Global) -> Result<Command<'a>, AllocError>
    ensures app { IfOk result (λ c. (list : NameList) × IsModeNames list
        × (app_of c ≡ circuit_command_at list)) }
{
    Command::new(alloc, "circuit")
        .arg(one_of_modes(alloc))?
        .arg(nodes(alloc))?
        .arg(terms(alloc))?
        .arg(any_text(alloc, "order"))?
        .arg(any_text(alloc, "care"))?
        .arg(any_text(alloc, "invert"))
}
