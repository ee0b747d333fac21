//! The form of a line: its two sides, and the terms on the right.
ghost use Rattle.std.specs.Prelude.{◌≡◌, ◌∷◌, true, false, codes, MatchOption};
ghost use Rattle.std.specs.List.{list_all};
ghost use Rattle.pla_reader.specs.PlainNames.{is_plain};
ghost use Rattle.cert_check.specs.Reading.{parts, words, is_term, is_sum, is_right, is_element};
ghost use Rattle.cert_check.specs.Reading.{is_left, is_line};

use crate::lines::split_first;
use pla_reader::{is_plain, is_word};

/// Whether the names that are joined by `*` are plain.
fn are_plain(factors: &[u8]) -> bool
    ensures { result ≡ list_all is_plain (parts 42 factors.now) }
{
    factors
        .split(|byte| *byte == b'*')
        .all(|name| is_plain(name))
}

/// Whether the word is a term: `1`, or plain names joined by `*`.
#[tactic(auto, unfolding(crate::specs::Reading::is_term))]
pub(crate) fn is_term(word: &[u8]) -> bool
    ensures { result ≡ is_term word.now }
{
    is_word(word, "1") || are_plain(word)
}

/// Whether the right side of a line is terms joined by ` + `.
#[tactic(auto, using(crate::proofs::LinesRead::no_sum, crate::proofs::LinesRead::sum_step), unfolding(crate::specs::Reading::is_sum))]
fn is_sum(right: &[u8]) -> bool
    ensures { result ≡ is_sum (words right.now) }
{
    let mut rest = Some(right);
    while let Some(text) = rest {
        let (term, after) = split_first(text, b' ');
        if !is_term(term) {
            return false;
        }
        let Some(after) = after else {
            return true;
        };
        let (joint, next) = split_first(after, b' ');
        if !is_word(joint, "+") {
            return false;
        }
        rest = next;
    }
    false
}

/// Whether the right side of a line is `0`, or terms joined by ` + `.
fn is_right(right: &[u8]) -> bool
    ensures { result ≡ is_right (words right.now) }
{
    is_word(right, "0") || is_sum(right)
}

/// Whether the left side of a line is that of a basis element.
pub(crate) fn is_element(left: &[u8]) -> bool
    ensures { result ≡ is_element left.now }
{
    is_word(left, "0")
}

/// Whether the left side of a line is `0` or a plain name.
fn is_left(left: &[u8]) -> bool
    ensures { result ≡ is_left left.now }
{
    is_element(left) || is_plain(left)
}

/// The left and the right side of a line; None where it is not of the form.
#[tactic(auto, unfolding(crate::specs::Reading::is_line))]
pub fn sides(line: &[u8]) -> Option<(&[u8], &[u8])>
    ensures { MatchOption result (is_line (words line.now) ≡ false)
        (λ r. (is_line (words line.now) ≡ true)
        × (words line.now ≡ r.0.now ∷ codes "=" ∷ words r.1.now)) }
{
    let (left, rest) = split_first(line, b' ');
    let (equals, right) = split_first(rest?, b' ');
    let right = right?;
    if is_left(left) && is_word(equals, "=") && is_right(right) {
        Some((left, right))
    } else {
        None
    }
}
