// What a parse found of the arguments.
ghost use Rattle.std.specs.Prelude.{◌≡◌, IfOk, Some};
ghost use Rattle.clap.specs.Words.{first_of, found_of, rows_of};
ghost use Rattle.cli_words.specs.Arguments.{HasNumber, number_of};

use clap::ArgMatches;
use lattice::Text;
use std::alloc::{AllocError, Global};

/// The number that a parse found as the value of the option of this name, which has a default and a
/// range.
pub fn number(matches: &ArgMatches<'_>, id: &str) -> u64
    requires { (low : _) × (high : _) × HasNumber (found_of matches.now) id.now low high }
    ensures { number_of id.now (rows_of (found_of matches.now)) ≡ Some result }
{
    matches.get_one::<u64>(id).unwrap()
}

/// The text that a parse found as the value of the option of this name, or none where it is not
/// given; or memory ran out.
#[tactic(auto, using(crate::proofs::Taken::first_is))]
pub fn text(alloc: Global, matches: &ArgMatches<'_>, id: &str) -> Result<Option<Text>, AllocError>
    ensures { IfOk result (λ text. first_of id.now (rows_of (found_of matches.now)) ≡ text) }
{
    let Some(value) = matches.get_str(id) else {
        return Ok(None);
    };
    let bytes = Vec::from_slice(alloc, value.as_bytes())?;
    Ok(Some(Text::from_vec(bytes)))
}
