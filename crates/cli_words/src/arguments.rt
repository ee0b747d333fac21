// Arguments that command lines share, as they are declared.
ghost use Rattle.std.specs.Prelude.{◌≡◌, ◌∷◌, [], Some, false};
ghost use Rattle.clap.specs.Words.{rule_of};
ghost use Rattle.cli_words.specs.Arguments.{mode_rule, nodes_rule, option_rule, terms_rule};
ghost use Rattle.cli_words.specs.Arguments.{text_rule};

use clap::builder::ValueParser;
use clap::{Arg, ArgAction, value_parser};
use lattice::{MAX_BITS, MIN_BITS};
use std::alloc::Global;

/// MODE, a word that is required, and is one of the names.
pub fn mode<'a>(alloc: Global, names: &'a [&'a str]) -> Arg<'a>
    ensures rule { rule_of result ≡ mode_rule names.entry }
    ensures local { result.global ≡ false }
{
    Arg::new(alloc, "mode")
        .required(true)
        .action(ArgAction::Set)
        .value_parser(names)
}

// An option with one value and a default.
pub(crate) fn option<'a>(
    alloc: Global,
    name: &'a str,
    parser: ValueParser<'a>,
    default: &'a str,
) -> Arg<'a>
    ensures rule { rule_of result
        ≡ option_rule name.entry.now (Some parser.entry) (default.entry.now ∷ []) }
    ensures local { result.global ≡ false }
{
    Arg::new(alloc, name)
        .long(name)
        .action(ArgAction::Set)
        .value_parser(parser)
        .default_value(default)
}

/// `--nodes B`: the store has room for 2 to the power of B nodes; from 4 to 23, by default 19.
pub fn nodes<'a>(alloc: Global) -> Arg<'a>
    ensures rule { rule_of result ≡ nodes_rule }
    ensures local { result.global ≡ false }
{
    let parser = value_parser!(u64).range(MIN_BITS as i64..=MAX_BITS as i64);
    option(alloc, "nodes", parser, "19")
}

/// `--terms T`: the greatest number of terms, from 1 to 1,000,000, by default 1,000,000.
pub fn terms<'a>(alloc: Global) -> Arg<'a>
    ensures rule { rule_of result ≡ terms_rule }
    ensures local { result.global ≡ false }
{
    let parser = value_parser!(u64).range(1..=1_000_000);
    option(alloc, "terms", parser, "1000000")
}

/// An option of this name whose value is any text, without a default.
pub fn any_text<'a>(alloc: Global, name: &'a str) -> Arg<'a>
    ensures rule { rule_of result ≡ text_rule name.entry.now }
    ensures local { result.global ≡ false }
{
    Arg::new(alloc, name).long(name).action(ArgAction::Set)
}
