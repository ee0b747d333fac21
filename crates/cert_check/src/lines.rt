//! What stands on a line of an answer, and its words.
ghost use Rattle.std.specs.Prelude.{◌≡◌, ◌<◌, ◌∷◌, IfSome, length};
ghost use Rattle.cert_check.specs.Reading.{bare, parts};
ghost use Rattle.cert_check.specs.Parts.{parts_left};

use pla_reader::without_last;

/// What stands on a line: no line feed, and no carriage return before it.
#[tactic(auto, unfolding(crate::specs::Reading::bare))]
pub fn bare(line: &[u8]) -> &[u8]
    ensures { result.now ≡ bare line.now }
{
    without_last(without_last(line, b'\n'), b'\r')
}

/// The text up to the first such byte, and what follows it; None where there is no such byte.
pub(crate) fn split_first(text: &[u8], byte: u8) -> (&[u8], Option<&[u8]>)
    ensures first { parts byte text.now ≡ result.0.now ∷ parts_left byte result.1 }
    ensures less { IfSome result.1 (λ rest. length rest.now < length text.now) }
{
    match text.iter().position(|b| *b == byte) {
        Some(end) => (&text[..end], Some(&text[end + 1..])),
        None => (text, None),
    }
}
