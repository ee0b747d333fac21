//! What is kept of a line while it is read: a short line that stands for it. So a line may be of
//! any length.
//!
//! Blanks in front are dropped. Nothing more is taken once the short line begins with `#`, ends in
//! a blank, or is full: what follows is then a comment, or no part of the first word, or part of a
//! word that is too long to end a file.
ghost use Rattle.std.specs.Prelude.{◌≡◌, ◌≤◌, ◌++◌, ◌∷◌, [], List, ℕ, take};
ghost use Rattle.pla_reader.specs.Lines.{is_blank, content, words_of};
ghost use Rattle.file_stream.specs.Files.{closes, says};
ghost use Rattle.file_stream.specs.Digests.{IsShort, after_byte, at_most_one, begins_comment};

use pla_reader::{is_word, without_last};
use std::marker::Model;

// What ends a file is a word of 4 bytes at most. Of 7 bytes at least 5 belong to the word, whatever
// follows them, since a line feed and a carriage return before it do not.
const MOST_KEPT: usize = 7;

/// A short line that stands for a longer one. Contracts see it as its bytes.
#[derive(Drop)]
pub(crate) struct Digest {
    kept: [u8; MOST_KEPT],
    count: usize,
}

impl Model for Digest {
    ghost Value = { List ℕ };

    ghost view = { λ d. take d.count d.kept };

    ghost invariant = { λ d. d.count ≤ 7 };
}

fn is_blank(byte: u8) -> bool
    ensures { result ≡ is_blank byte }
{
    byte == b' ' || byte == b'\t'
}

impl Digest {
    /// The empty line.
    pub(crate) fn new() -> Digest
        ensures { result ≡ [] }
    {
        Digest {
            kept: [0; MOST_KEPT],
            count: 0,
        }
    }

    /// Takes one more byte of the line.
    pub(crate) fn push(&mut self, byte: u8)
        ensures { self.new ≡ after_byte self.old byte }
    {
        if self.count == 0 {
            if !is_blank(byte) {
                self.kept[0] = byte;
                self.count = 1;
            }
            return;
        }
        if self.count == MOST_KEPT || self.kept[0] == b'#' || is_blank(self.kept[self.count - 1]) {
            return;
        }
        self.kept[self.count] = byte;
        self.count += 1;
    }

    fn begins_comment(&self) -> bool
        ensures { result ≡ begins_comment self.now }
    {
        self.count > 0 && self.kept[0] == b'#'
    }

    // The word of the short line where a line feed follows it, or nothing.
    fn word(&self) -> &[u8]
        ensures { IsShort self.now
            → words_of (content (self.now ++ 10 ∷ [])) ≡ at_most_one result.now }
    {
        if self.begins_comment() {
            return &[];
        }
        let line = &self.kept[..self.count];
        without_last(without_last(without_last(line, b'\r'), b' '), b'\t')
    }

    /// Whether the line ends a file where a line feed follows.
    pub(crate) fn closes(&self) -> bool
        ensures { IsShort self.now → result ≡ closes (self.now ++ 10 ∷ []) }
    {
        let word = self.word();
        is_word(word, ".e") || is_word(word, ".end")
    }

    /// Whether something stands on the line where a line feed follows.
    pub(crate) fn says(&self) -> bool
        ensures { IsShort self.now → result ≡ says (self.now ++ 10 ∷ []) }
    {
        !self.word().is_empty()
    }
}
