// The declared command.
ghost use Rattle.std.specs.Prelude.{◌≡◌, ◌∷◌, [], IfOk, Some, false, codes};
ghost use Rattle.clap.specs.Words.{app_of, rule_of};
ghost use Rattle.clap.specs.declared.builder.value_parser.ValueParser.TheVariants as parser;
ghost use Rattle.cli_words.specs.Arguments.{NameList, mode_rule, option_rule};
ghost use Rattle.cli_words.specs.CommandLine.{IsModeNames, interp_command_at};

use crate::arguments::{any_text, mode, nodes, option, terms};
use clap::{Arg, Command, value_parser};
use std::alloc::{AllocError, Global};

/// The values of MODE.
static MODES: [&str; 4] = ["anf", "basis", "check", "gen"];

fn one_of_modes<'a>(alloc: Global) -> Arg<'a>
    ensures rule { (list : NameList) × IsModeNames list × (rule_of result ≡ mode_rule list) }
    ensures local { result.global ≡ false }
{
    mode(alloc, MODES.as_slice())
}

fn workers<'a>(alloc: Global) -> Arg<'a>
    ensures rule { rule_of result ≡ option_rule (codes "workers") (Some (parser.Unsigned 1 16))
        (codes "1" ∷ []) }
    ensures local { result.global ≡ false }
{
    let parser = value_parser!(u64).range(1..=16);
    option(alloc, "workers", parser, "1")
}

fn seed<'a>(alloc: Global) -> Arg<'a>
    ensures rule { rule_of result
        ≡ option_rule (codes "seed") (Some (parser.Unsigned 0 18446744073709551615))
        (codes "0" ∷ []) }
    ensures local { result.global ≡ false }
{
    option(alloc, "seed", value_parser!(u64), "0")
}

/// `interp MODE [--workers N] [--nodes B] [--terms T] [--seed S] [--order NAMES]`
pub(crate) fn command<'a>(alloc: Global) -> Result<Command<'a>, AllocError>
    ensures app { IfOk result (λ c. (list : NameList) × IsModeNames list
        × (app_of c ≡ interp_command_at list)) }
{
    Command::new(alloc, "interp")
        .arg(one_of_modes(alloc))?
        .arg(workers(alloc))?
        .arg(nodes(alloc))?
        .arg(terms(alloc))?
        .arg(seed(alloc))?
        .arg(any_text(alloc, "order"))
}
