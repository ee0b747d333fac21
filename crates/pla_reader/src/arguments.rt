//! What the commands of a description set.
ghost use Rattle.std.specs.Prelude.{◌≡◌, ◌+◌, ◌<◌, ◌≤◌, ◌^◌, true, false, length, min, Option};
ghost use Rattle.std.specs.Prelude.{Some, None, is_some, IfOk, MatchResult};
ghost use Rattle.std.specs.List.{list_all};
ghost use Rattle.std.specs.Char.{is_ascii_digit};
ghost use Rattle.std.specs.Str.Parse.{digits_value};
ghost use Rattle.pla_reader.specs.Lines.{words_of};
ghost use Rattle.pla_reader.specs.Grammar.{kind_named, number_in, kind_in, size_fault, kind_fault};
ghost use Rattle.pla_reader.specs.Grammar.{names_fault};
ghost use Rattle.pla_reader.specs.Parts.{Stops};

use crate::lines::{count_words, first_word, is_word, only_word};
use crate::refusal::{LineRefusal, Why};
use lattice::{Kind, Name, Names};
use std::alloc::Global;

/// Whether each byte of the word is a digit.
fn is_number(word: &[u8]) -> bool
    ensures { result ≡ list_all is_ascii_digit word.now }
{
    word.iter().all(|byte| b'0' <= *byte && *byte <= b'9')
}

/// The number that the digits write, or 1,000 where it is more.
fn number(digits: &[u8]) -> u32
    requires { list_all is_ascii_digit digits.now ≡ true }
    ensures { result ≡ min 1000 (digits_value 10 digits.now) }
{
    let mut value = 0u32;
    for digit in digits {
        value = (value * 10 + u32::from(*digit - b'0')).min(1000);
    }
    value
}

/// The size that a command with these arguments sets, which is at most `most`.
#[tactic(auto, unfolding(crate::specs::Grammar::size_fault))]
pub fn size_in(before: Option<u32>, most: u32, arguments: &[u8]) -> Result<u32, Why>
    requires { most < 1000 }
    ensures few { IfOk result (λ size. size ≤ most) }
    ensures answer { MatchResult result
        (λ size. (size_fault (is_some before) most (words_of arguments.now) ≡ None)
        × (number_in (words_of arguments.now) ≡ Some size))
        (λ why. size_fault (is_some before) most (words_of arguments.now) ≡ Some why) }
{
    if before.is_some() {
        return Err(Why::Twice);
    }
    let Some(word) = only_word(arguments) else {
        return Err(Why::BadNumber);
    };
    if !is_number(word) {
        return Err(Why::BadNumber);
    }
    let size = number(word);
    if size < 1 || most < size {
        return Err(Why::SizeRange);
    }
    Ok(size)
}

/// The type of this name.
#[tactic(auto, unfolding(crate::specs::Grammar::kind_named))]
fn kind_named(name: &[u8]) -> Option<Kind>
    ensures { result ≡ kind_named name.now }
{
    if is_word(name, "f") {
        Some(Kind::F)
    } else if is_word(name, "fd") {
        Some(Kind::Fd)
    } else if is_word(name, "fr") {
        Some(Kind::Fr)
    } else if is_word(name, "fdr") {
        Some(Kind::Fdr)
    } else {
        None
    }
}

/// The type that a command with these arguments sets, after so many rows.
#[tactic(auto, unfolding(crate::specs::Grammar::kind_fault))]
pub fn kind_in(before: Option<Kind>, rows: usize, arguments: &[u8]) -> Result<Kind, Why>
    ensures { MatchResult result
        (λ kind. (kind_fault (is_some before) rows (words_of arguments.now) ≡ None)
        × (kind_in (words_of arguments.now) ≡ Some kind))
        (λ why. kind_fault (is_some before) rows (words_of arguments.now) ≡ Some why) }
{
    if before.is_some() {
        return Err(Why::Twice);
    }
    if rows > 0 {
        return Err(Why::TypeLate);
    }
    let Some(word) = only_word(arguments) else {
        return Err(Why::BadType);
    };
    if is_word(word, "r") || is_word(word, "dr") {
        return Err(Why::Unsupported);
    }
    kind_named(word).ok_or(Why::BadType)
}

/// The words, as names.
fn names(alloc: Global, words: &[u8]) -> Result<Names, LineRefusal<Why>>
    ensures { MatchResult result (λ names. names ≡ words_of words.now)
        (λ e. e ≡ LineRefusal.Memory) }
{
    let mut names = Names::new(alloc);
    let mut rest = words;
    while let Some((word, after)) = first_word(rest) {
        names.push(Name::from_vec(Vec::from_slice(alloc, word)?))?;
        rest = after;
    }
    Ok(names)
}

/// The names that a command with these arguments sets, for so many inputs or outputs.
#[tactic(auto, unfolding(crate::specs::Grammar::names_fault))]
pub fn names_in(
    alloc: Global,
    before: &Option<Names>,
    count: Option<u32>,
    arguments: &[u8],
) -> Result<Names, LineRefusal<Why>>
    ensures { MatchResult result
        (λ names. (names_fault (is_some before.now) count (words_of arguments.now) ≡ None)
        × (names ≡ words_of arguments.now))
        (λ e. Stops e (names_fault (is_some before.now) count (words_of arguments.now))) }
{
    if before.is_some() {
        return Err(LineRefusal::Bad(Why::Twice));
    }
    let Some(count) = count else {
        return Err(LineRefusal::Bad(Why::NamesEarly));
    };
    if count_words(arguments) != count as usize {
        return Err(LineRefusal::Bad(Why::NameCount));
    }
    names(alloc, arguments)
}
