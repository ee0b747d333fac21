//! The symbol table of a file.
ghost use Rattle.std.specs.Prelude.{◌≡◌, ◌≤◌, List, ℕ, [], length, replicate, MatchResult};
ghost use Rattle.aig_reader.specs.declared.refusal.Stop.TheVariants.{Memory};
ghost use Rattle.aig_reader.specs.Fields.{Gives};
ghost use Rattle.aig_reader.specs.Reading.{Names, names, line_length, name_at, letter_why};
ghost use Rattle.aig_reader.specs.Reading.{symbol_at, are_over, symbols_at, no_names};

use crate::fields::{behind, fault_at, number_at};
use crate::header::Sizes;
use crate::refusal::{Stop, Why};
use lattice::Name;
use std::alloc::Global;

/// The names of the inputs and of the outputs, empty where none was given.
#[derive(Drop)]
pub struct Table {
    pub inputs: Vec<Name>,
    pub outputs: Vec<Name>,
}

/// So many empty names.
fn no_names(alloc: Global, count: u32) -> Result<Vec<Name>, Stop>
    ensures { MatchResult result (λ names. names.items ≡ replicate count []) (λ e. e ≡ Memory) }
{
    let mut names = Vec::new(alloc);
    for _ in 0..count {
        names.push(Name::new(alloc))?;
    }
    Ok(names)
}

/// The number of bytes on the line.
fn line_length(bytes: &[u8]) -> usize
    ensures count { result ≡ line_length bytes.now }
    ensures within { result ≤ length bytes.now }
{
    bytes
        .iter()
        .position(|byte| *byte == b'\n')
        .unwrap_or(bytes.len())
}

/// Gives one of the names what stands behind a symbol's letter, and answers what follows the
/// symbol.
#[tactic(auto, unfolding(crate::specs::Reading::name_at))]
fn name_at<'a>(alloc: Global, names: &mut Vec<Name>, bytes: &'a [u8]) -> Result<&'a [u8], Stop>
    ensures { Gives (λ rest. (names.new.items, rest.now)) result
        (name_at names.old.items bytes.now) }
{
    let (position, line) = number_at(bytes)?;
    let line = behind(b' ', line)?;
    let (name, rest) = line.split_at(line_length(line));
    let rest = behind(b'\n', rest)?;
    let position = position as usize;
    if position >= names.len() {
        return Err(fault_at(bytes, Why::SymbolRange));
    }
    if !names[position].is_empty() {
        return Err(fault_at(bytes, Why::Twice));
    }
    if name.is_empty() {
        return Err(fault_at(line, Why::BadSymbol));
    }
    names[position] = Name::from_vec(Vec::from_slice(alloc, name)?);
    Ok(rest)
}

/// What is wrong with a symbol of this letter, which is neither `i` nor `o`.
fn letter_why(letter: u8) -> Why
    ensures { result ≡ letter_why letter }
{
    match letter {
        b'l' => Why::Latch,
        b'b' | b'c' | b'f' | b'j' => Why::Property,
        _ => Why::BadSymbol,
    }
}

/// Whether the symbols are over: no byte is left, or a comment begins.
fn are_over(bytes: &[u8]) -> bool
    ensures { result ≡ are_over bytes.now }
{
    match bytes {
        [] => true,
        [b'c', next, ..] => !next.is_ascii_digit(),
        [letter, ..] => *letter == b'c',
    }
}

impl Table {
    /// The table where nothing is named.
    pub fn new(alloc: Global, sizes: Sizes) -> Result<Table, Stop>
        ensures { MatchResult result (λ t. names t ≡ no_names sizes) (λ e. e ≡ Memory) }
    {
        Ok(Table {
            inputs: no_names(alloc, sizes.inputs)?,
            outputs: no_names(alloc, sizes.outputs)?,
        })
    }

    /// Adds the symbol at the front, and answers what follows it.
    #[tactic(auto, unfolding(crate::specs::Reading::symbol_at))]
    fn add_symbol<'a>(&mut self, alloc: Global, bytes: &'a [u8]) -> Result<&'a [u8], Stop>
        ensures { Gives (λ rest. (names self.new, rest.now)) result
            (symbol_at (names self.old) bytes.now) }
    {
        match bytes {
            [] => Ok(bytes),
            [b'i', rest @ ..] => name_at(alloc, &mut self.inputs, rest),
            [b'o', rest @ ..] => name_at(alloc, &mut self.outputs, rest),
            [letter, ..] => Err(fault_at(bytes, letter_why(*letter))),
        }
    }

    /// Adds the symbols, up to the comment or the end.
    pub fn add_symbols(&mut self, alloc: Global, bytes: &[u8]) -> Result<(), Stop>
        ensures { Gives (λ _. names self.new) result
            (symbols_at (length bytes.now) (names self.old) bytes.now) }
    {
        let mut rest = bytes;
        // Each symbol takes a byte or more.
        for _ in 0..bytes.len() {
            if are_over(rest) {
                break;
            }
            rest = self.add_symbol(alloc, rest)?;
        }
        Ok(())
    }
}
