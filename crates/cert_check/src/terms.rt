//! The terms on the right side of a line, as monomials.
ghost use Rattle.std.specs.Prelude.{◌≡◌, ◌+◌, ◌-◌, ◌^◌, ◌<◌, ◌≤◌, true, false, length, MatchOption};
ghost use Rattle.std.specs.Prelude.{MatchResult, Some, None, if◌then◌else◌};
ghost use Rattle.std.specs.List.{list_all};
ghost use Rattle.lattice.specs.Family.{includes};
ghost use Rattle.cert_check.specs.Reading.{parts, words, terms_in, factors_of, place_of};
ghost use Rattle.cert_check.specs.Reading.{factors_product, monomial_of, monomials_of, are_known};
ghost use Rattle.cert_check.specs.Reading.{ascends_from, are_ordered, right_fault};
ghost use Rattle.pla_reader.specs.Parts.{Stops};
ghost use Rattle.lattice.specs.declared.limits.TheConstants.{MAX_VARS};

use crate::form::is_term;
use crate::lines::split_first;
use crate::refusal::AnswerWhy;
use lattice::{Mono, Monos, Name};
use pla_reader::{LineRefusal, includes, is_word};
use std::alloc::Global;

/// The place of a name, or the number of names.
pub fn place_of(names: &[Name], name: &[u8]) -> usize
    ensures { result ≡ place_of names.now name.now }
{
    names
        .iter()
        .position(|other| other.as_slice() == name)
        .unwrap_or(names.len())
}

/// Whether each factor of the term is one of the names.
#[tactic(auto, unfolding(crate::specs::Reading::factors_of))]
fn is_known(names: &[Name], term: &[u8]) -> bool
    ensures { result ≡ list_all (includes names.now) (factors_of term.now) }
{
    is_word(term, "1")
        || term
            .split(|byte| *byte == b'*')
            .all(|name| includes(names, name))
}

/// Whether each factor on the right side of a line is one of the names.
pub fn are_known(names: &[Name], right: &[u8]) -> bool
    ensures { result ≡ are_known names.now (terms_in (words right.now)) }
{
    right
        .split(|byte| *byte == b' ')
        .all(|word| !is_term(word) || is_known(names, word))
}

/// The product of the factors that are joined by `*`; None where they do not ascend strictly.
fn product_of(names: &[Name], factors: &[u8]) -> Option<u64>
    requires few { length names.now ≤ MAX_VARS }
    requires known { list_all (includes names.now) (parts 42 factors.now) ≡ true }
    ensures { MatchOption result (ascends_from names.now 0 (parts 42 factors.now) ≡ false)
        (λ m. (ascends_from names.now 0 (parts 42 factors.now) ≡ true)
        × (m ≡ factors_product names.now (parts 42 factors.now))) }
{
    let mut product = 0;
    let mut least = 0;
    let mut rest = Some(factors);
    while let Some(text) = rest {
        let (name, after) = split_first(text, b'*');
        let place = place_of(names, name);
        if place < least {
            return None;
        }
        product += 1u64 << (names.len() - 1 - place);
        least = place + 1;
        rest = after;
    }
    Some(product)
}

/// The monomial of a term; None where its factors do not ascend strictly.
#[tactic(auto, unfolding(crate::specs::Reading::factors_of, crate::specs::Reading::monomial_of))]
fn monomial_of(names: &[Name], term: &[u8]) -> Option<u64>
    requires few { length names.now ≤ MAX_VARS }
    requires known { list_all (includes names.now) (factors_of term.now) ≡ true }
    ensures { MatchOption result (ascends_from names.now 0 (factors_of term.now) ≡ false)
        (λ m. (ascends_from names.now 0 (factors_of term.now) ≡ true)
        × (m ≡ monomial_of names.now term.now)) }
{
    if is_word(term, "1") {
        Some(0)
    } else {
        product_of(names, term)
    }
}

/// The monomials of the right side of a line, whose factors are all known.
pub fn monomials_of(
    alloc: Global,
    names: &[Name],
    right: &[u8],
) -> Result<Monos, LineRefusal<AnswerWhy>>
    requires few { length names.now ≤ MAX_VARS }
    requires known { are_known names.now (terms_in (words right.now)) ≡ true }
    ensures { MatchResult result
        (λ monos. (are_ordered names.now (2 ^ length names.now) (terms_in (words right.now)) ≡ true)
        × (monos ≡ monomials_of names.now (words right.now)))
        (λ e. Stops e (if are_ordered names.now (2 ^ length names.now) (terms_in (words right.now))
        then None else Some AnswerWhy.TermOrder)) }
{
    let mut monos = Monos::new(alloc);
    let mut limit = 1u64 << names.len();
    let mut rest = Some(right);
    while let Some(text) = rest {
        let (word, after) = split_first(text, b' ');
        if is_term(word) {
            let Some(m) = monomial_of(names, word) else {
                return Err(LineRefusal::Bad(AnswerWhy::TermOrder));
            };
            if m >= limit {
                return Err(LineRefusal::Bad(AnswerWhy::TermOrder));
            }
            monos.push(Mono(m))?;
            limit = m;
        }
        rest = after;
    }
    Ok(monos)
}

/// The monomials of the right side of a line.
#[tactic(auto, unfolding(crate::specs::Reading::right_fault))]
pub(crate) fn read_right(
    alloc: Global,
    names: &[Name],
    right: &[u8],
) -> Result<Monos, LineRefusal<AnswerWhy>>
    requires { length names.now ≤ MAX_VARS }
    ensures { MatchResult result
        (λ monos. (right_fault names.now (words right.now) ≡ None)
        × (monos ≡ monomials_of names.now (words right.now)))
        (λ e. Stops e (right_fault names.now (words right.now))) }
{
    if !are_known(names, right) {
        return Err(LineRefusal::Bad(AnswerWhy::UnknownName));
    }
    monomials_of(alloc, names, right)
}
