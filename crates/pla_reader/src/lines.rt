//! The lines of a text, and the words that stand on a line.
ghost use Rattle.std.specs.Prelude.{◌≡◌, ◌+◌, ◌<◌, ◌≤◌, ◌==◌, true, not, [], ◌∷◌, length, take};
ghost use Rattle.std.specs.Prelude.{drop, Some, None, MatchOption};
ghost use Rattle.std.specs.List.{list_all, position_or_len};
ghost use Rattle.std.specs.Str.{bytes_eq};
ghost use Rattle.std.specs.Io.BufRead.{strip_last};
ghost use Rattle.pla_reader.specs.Lines.{lines_of, is_blank, is_printable, before_comment, content};
ghost use Rattle.pla_reader.specs.Lines.{words_of};
ghost use Rattle.pla_reader.specs.Parts.{BeginsWithWord, from_first_word};
ghost use Rattle.pla_reader.specs.Grammar.{only};

/// Whether the byte is a space or a tab.
pub fn is_blank(byte: u8) -> bool
    ensures { result ≡ is_blank byte }
{
    byte == b' ' || byte == b'\t'
}

/// Whether each byte is a tab or printable ASCII.
pub fn is_printable(line: &[u8]) -> bool
    ensures { result ≡ list_all is_printable line.now }
{
    line.iter()
        .all(|byte| *byte == b'\t' || (b' ' <= *byte && *byte <= b'~'))
}

/// The first line, with its line feed, and what follows it. The last line may lack its line feed.
#[tactic(auto, using(crate::proofs::Cuts::line_steps))]
pub fn split_line(bytes: &[u8]) -> (&[u8], &[u8])
    requires { 0 < length bytes.now }
    ensures first { lines_of bytes.now ≡ result.0.now ∷ lines_of result.1.now }
    ensures some { 0 < length result.0.now }
    ensures all { length result.0.now + length result.1.now ≡ length bytes.now }
{
    let feed = first_feed(bytes);
    if feed < bytes.len() {
        bytes.split_at(feed + 1)
    } else {
        bytes.split_at(feed)
    }
}

/// The place of the first line feed, or the length.
fn first_feed(bytes: &[u8]) -> usize
    ensures place { result ≡ position_or_len (λ b. b == 10) bytes.now }
    ensures within { result ≤ length bytes.now }
{
    bytes
        .iter()
        .position(|byte| *byte == b'\n')
        .unwrap_or(bytes.len())
}

/// The bytes, less the last one if it is `last`.
pub fn without_last(line: &[u8], last: u8) -> &[u8]
    ensures { result.now ≡ strip_last last line.now }
{
    match line {
        [front @ .., byte] if *byte == last => front,
        _ => line,
    }
}

/// The bytes before a comment. A `#` begins one where it comes first or follows a blank.
fn before_comment(line: &[u8]) -> &[u8]
    ensures { result.now ≡ before_comment true line.now }
{
    for (i, byte) in line.iter().enumerate() {
        if *byte == b'#' && (i == 0 || is_blank(line[i - 1])) {
            return &line[..i];
        }
    }
    line
}

/// What stands on a line: no line feed, no carriage return before it, and no comment.
#[tactic(auto, unfolding(crate::specs::Lines::content))]
pub fn content(line: &[u8]) -> &[u8]
    ensures { result.now ≡ content line.now }
{
    before_comment(without_last(without_last(line, b'\n'), b'\r'))
}

/// The place of the first byte that is no blank, or the length.
fn first_of_word(line: &[u8]) -> usize
    ensures place { result ≡ position_or_len (λ b. not (is_blank b)) line.now }
    ensures within { result ≤ length line.now }
{
    line.iter()
        .position(|byte| !is_blank(*byte))
        .unwrap_or(line.len())
}

/// The place of the first blank, or the length.
fn first_blank(line: &[u8]) -> usize
    ensures place { result ≡ position_or_len is_blank line.now }
    ensures within { result ≤ length line.now }
{
    line.iter()
        .position(|byte| is_blank(*byte))
        .unwrap_or(line.len())
}

/// A line without the blanks before its first word.
pub fn from_first_word(line: &[u8]) -> &[u8]
    ensures { result.now ≡ from_first_word line.now }
{
    let (_, words) = line.split_at(first_of_word(line));
    words
}

/// The word that a line begins with, and what follows it.
pub fn split_word(line: &[u8]) -> (&[u8], &[u8])
    ensures word { result.0.now ≡ take (position_or_len is_blank line.now) line.now }
    ensures rest { result.1.now ≡ drop (position_or_len is_blank line.now) line.now }
{
    line.split_at(first_blank(line))
}

/// The first word of a line, and what follows it.
pub fn first_word(line: &[u8]) -> Option<(&[u8], &[u8])>
    ensures { MatchOption result (words_of line.now ≡ [])
        (λ r. BeginsWithWord line.now r.0.now r.1.now) }
{
    match from_first_word(line) {
        [] => None,
        words => Some(split_word(words)),
    }
}

/// The number of words on a line.
pub fn count_words(line: &[u8]) -> usize
    ensures { result ≡ length (words_of line.now) }
{
    let mut count = 0;
    let mut rest = line;
    while let Some((_, after)) = first_word(rest) {
        count += 1;
        rest = after;
    }
    count
}

/// The word of a line that has just one.
pub fn only_word(line: &[u8]) -> Option<&[u8]>
    ensures { MatchOption result (only (words_of line.now) ≡ None)
        (λ r. only (words_of line.now) ≡ Some r.now) }
{
    let (word, rest) = first_word(line)?;
    match first_word(rest) {
        None => Some(word),
        Some(_) => None,
    }
}

/// Whether the word is the text.
pub fn is_word(word: &[u8], text: &str) -> bool
    ensures { result ≡ bytes_eq word.now text.now }
{
    word == text.as_bytes()
}
