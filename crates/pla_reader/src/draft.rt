//! What the lines read so far say.
ghost use Rattle.std.specs.Prelude.{◌≡◌, ◌≤◌, ◌||◌, codes};
ghost use Rattle.std.specs.Str.{bytes_eq};
ghost use Rattle.std.specs.Option.{ForSome};
ghost use Rattle.lattice.specs.declared.limits.TheConstants.{MAX_VARS};
ghost use Rattle.pla_reader.specs.Grammar.{is_unsupported};

use crate::arguments::{kind_in, names_in, size_in};
use crate::lines::{from_first_word, is_printable, is_word, split_word};
use crate::pla::Rows;
use crate::refusal::{LineRefusal, Why};
use crate::row::row_in;
use lattice::{Kind, MAX_VARS, Names};
use std::alloc::Global;

const MOST_OUTPUTS: u32 = 64;

/// Whether the command ends the description.
fn is_end_word(command: &[u8]) -> bool
    ensures { result ≡ (bytes_eq command.now (codes ".e") || bytes_eq command.now (codes ".end")) }
{
    is_word(command, ".e") || is_word(command, ".end")
}

/// Whether the command is one that is known and not supported.
fn is_unsupported(command: &[u8]) -> bool
    ensures { result ≡ is_unsupported command.now }
{
    is_word(command, ".mv")
        || is_word(command, ".kiss")
        || is_word(command, ".pair")
        || is_word(command, ".phase")
        || is_word(command, ".symbolic")
        || is_word(command, ".symbolic-output")
}

/// What the lines read so far say.
#[derive(Drop)]
pub struct Draft {
    pub inputs: Option<u32>,
    pub outputs: Option<u32>,
    pub kind: Option<Kind>,
    pub rows: Rows,
    pub in_names: Option<Names>,
    pub out_names: Option<Names>,
    pub ghost few_inputs: { ForSome inputs (λ n. n ≤ MAX_VARS) },
    pub ghost few_outputs: { ForSome outputs (λ n. n ≤ 64) },
}

impl Draft {
    ghost use Rattle.std.specs.Prelude.{◌≡◌, ℕ, ◌+◌, List, [], length};
    ghost use Rattle.std.specs.Option.{option_map, option_zip};
    ghost use Rattle.pla_reader.specs.Lines.{words_of};
    ghost use Rattle.pla_reader.specs.Draft.{IsDraftOf, IsCommandLine, AddsLine};

    /// Where no line was read.
    #[tactic(auto, unfolding(crate::specs::Grammar::arguments_of, crate::specs::Reading::rows_of))]
    pub fn new(alloc: Global) -> Draft
        ensures { IsDraftOf result [] }
    {
        Draft {
            inputs: None,
            outputs: None,
            kind: None,
            rows: Rows::new(alloc),
            in_names: None,
            out_names: None,
        }
    }

    /// The numbers of inputs and outputs, where both are given.
    pub fn sizes(&self) -> Option<(u32, u32)>
        ensures { result ≡ option_zip self.now.inputs self.now.outputs }
    {
        self.inputs.zip(self.outputs)
    }

    /// The number of inputs, where both numbers are given.
    fn sized_inputs(&self) -> Option<u32>
        ensures { result ≡ option_map (λ s. s.0) (option_zip self.now.inputs self.now.outputs) }
    {
        self.sizes().map(|sizes| sizes.0)
    }

    /// The number of outputs, where both numbers are given.
    fn sized_outputs(&self) -> Option<u32>
        ensures { result ≡ option_map (λ s. s.1) (option_zip self.now.inputs self.now.outputs) }
    {
        self.sizes().map(|sizes| sizes.1)
    }

    /// Adds what a line says, and answers whether it ends the description. After an `Err` nothing
    /// is said of the draft.
    pub fn add_line(
        &mut self,
        alloc: Global,
        number: u32,
        line: &[u8],
    ) -> Result<bool, LineRefusal<Why>>
        ensures { (earlier : List (List ℕ)) → length earlier + 1 ≡ number
            → IsDraftOf self.old earlier → AddsLine result self.new earlier line.now }
    {
        if !is_printable(line) {
            return Err(LineRefusal::Bad(Why::BadByte));
        }
        let words = from_first_word(line);
        if words.is_empty() {
            return Ok(false);
        }
        // Most lines are rows, and a row is not cut into words.
        if words[0] == b'.' {
            let (command, arguments) = split_word(words);
            return self.add_command(alloc, command, arguments);
        }
        let kind = self.kind.unwrap_or(Kind::Fd);
        let row = row_in(self.sizes(), kind, self.rows.len(), number, line)?;
        self.rows.push(row)?;
        Ok(false)
    }

    /// Adds what the command on a line says, and answers whether it ends the description.
    fn add_command(
        &mut self,
        alloc: Global,
        word: &[u8],
        arguments: &[u8],
    ) -> Result<bool, LineRefusal<Why>>
        ensures { (earlier : List (List ℕ)) (line : List ℕ)
            → IsCommandLine line word.now (words_of arguments.now) → IsDraftOf self.old earlier
            → AddsLine result self.new earlier line }
    {
        if is_word(word, ".i") {
            self.inputs = Some(size_in(self.inputs, MAX_VARS, arguments)?);
            Ok(false)
        } else if is_word(word, ".o") {
            self.outputs = Some(size_in(self.outputs, MOST_OUTPUTS, arguments)?);
            Ok(false)
        } else if is_word(word, ".type") {
            self.kind = Some(kind_in(self.kind, self.rows.len(), arguments)?);
            Ok(false)
        } else if is_word(word, ".ilb") {
            let count = self.sized_inputs();
            self.in_names = Some(names_in(alloc, &self.in_names, count, arguments)?);
            Ok(false)
        } else if is_word(word, ".ob") {
            let count = self.sized_outputs();
            self.out_names = Some(names_in(alloc, &self.out_names, count, arguments)?);
            Ok(false)
        } else if is_unsupported(word) {
            Err(LineRefusal::Bad(Why::Unsupported))
        } else {
            Ok(is_end_word(word))
        }
    }
}
