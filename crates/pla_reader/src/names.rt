//! Names that can be printed, and those that are printed.
ghost use Rattle.std.specs.Prelude.{◌≡◌, ◌==◌, ◌||◌, ◌↔◌, IsTrue, IfOk};
ghost use Rattle.std.specs.Char.{is_ascii_alphabetic};
ghost use Rattle.std.specs.List.{list_all};
ghost use Rattle.std.specs.Option.{unwrap_or};
ghost use Rattle.lattice.specs.Family.{includes, is_distinct};
ghost use Rattle.pla_reader.specs.PlainNames.{continues_name, is_plain, ArePlain};
ghost use Rattle.pla_reader.specs.PrintedNames.{numbered, printed_names};

use lattice::{Memory, Name, Names};
use std::alloc::Global;

/// Whether a plain name may begin with the byte.
fn begins_name(byte: u8) -> bool
    ensures { result ≡ (is_ascii_alphabetic byte || byte == 95) }
{
    byte.is_ascii_alphabetic() || byte == b'_'
}

/// Whether a plain name may go on with the byte.
fn continues_name(byte: u8) -> bool
    ensures { result ≡ continues_name byte }
{
    byte.is_ascii_alphanumeric() || b"_.[]<>".contains(&byte)
}

/// Whether a plain name may go on with the bytes.
fn all_continue(bytes: &[u8]) -> bool
    ensures { result ≡ list_all continues_name bytes.now }
{
    bytes.iter().all(|b| continues_name(*b))
}

/// Whether the name is plain: it has 1 to 32 bytes, begins with an ASCII letter or `_`, and goes on
/// with ASCII letters, digits and the bytes `_ . [ ] < >`.
#[tactic(auto, unfolding(crate::specs::PlainNames::is_plain))]
pub fn is_plain(name: &[u8]) -> bool
    ensures { result ≡ is_plain name.now }
{
    match name {
        [] => false,
        [first, rest @ ..] => rest.len() < 32 && begins_name(*first) && all_continue(rest),
    }
}

/// Whether the name is one of the names.
#[tactic(auto, unfolding(lattice::specs::Family::includes))]
pub fn includes(names: &[Name], name: &[u8]) -> bool
    ensures { result ≡ includes names.now name.now }
{
    names.iter().any(|other| other.as_slice() == name)
}

/// Whether no two of the names are the same.
fn are_distinct(names: &[Name]) -> bool
    ensures { result ≡ is_distinct names.now }
{
    let mut rest = names;
    while let [first, others @ ..] = rest {
        if includes(others, first.as_slice()) {
            return false;
        }
        rest = others;
    }
    true
}

/// Whether all the names are plain.
fn all_plain(names: &[Name]) -> bool
    ensures { result ≡ list_all is_plain names.now }
{
    names.iter().all(|name| is_plain(name.as_slice()))
}

/// Whether there are names, all of them plain (see `is_plain`) and no two of them the same.
#[tactic(auto, unfolding(crate::specs::PlainNames::are_plain))]
pub fn plain_names(names: &Names) -> bool
    ensures { IsTrue result ↔ ArePlain names.now }
{
    let names = names.as_slice();
    !names.is_empty() && all_plain(names) && are_distinct(names)
}

/// The letter with 1, 2 and so on.
#[tactic(auto, using(crate::proofs::Orders::numbered_steps))]
fn numbered(alloc: Global, letter: &str, count: u32) -> Result<Names, Memory>
    ensures { IfOk result (λ names. names ≡ numbered letter.now count) }
{
    let mut names = Names::new(alloc);
    for i in 0..count {
        let name = format!(in alloc; "{letter}{}", i + 1)?;
        names.push(Name::from_vec(name.into_bytes()))?;
    }
    Ok(names)
}

/// The names that are printed in place of the given ones: the letter with 1, 2 and so on, as many
/// as `count`. None where the given names are plain, and are printed themselves.
#[tactic(auto, unfolding(crate::specs::PrintedNames::printed_names))]
pub fn names_in_place(
    alloc: Global,
    letter: &str,
    count: u32,
    given: &Names,
) -> Result<Option<Names>, Memory>
    ensures { IfOk result (λ names. unwrap_or names given.now
        ≡ printed_names letter.now count given.now) }
{
    if plain_names(given) {
        Ok(None)
    } else {
        Ok(Some(numbered(alloc, letter, count)?))
    }
}

/// The names that are printed: those in place of the given ones, or else these.
pub fn printed<'a>(in_place: &'a Option<Names>, given: &'a Names) -> &'a [Name]
    ensures { result.now ≡ unwrap_or in_place.now given.now }
{
    match in_place {
        Some(names) => names.as_slice(),
        None => given.as_slice(),
    }
}
