//! The rows of a description.
ghost use Rattle.std.specs.Prelude.{◌≡◌, ◌≤◌, ◌&&◌, ◌==◌, false, ℕ, codes, length, Option, Some};
ghost use Rattle.std.specs.Prelude.{None, IfSome, MatchOption, MatchResult, if◌then◌else◌};
ghost use Rattle.lattice.specs.declared.limits.TheConstants.{MAX_VARS};
ghost use Rattle.pla_reader.specs.declared.refusal.Why.TheVariants.{BadSymbol, RowLength};
ghost use Rattle.pla_reader.specs.Description.{has_off, has_dc};
ghost use Rattle.pla_reader.specs.Grammar.{is_symbol, symbols, is_one_of, row_fault};
ghost use Rattle.pla_reader.specs.Parts.{gives_inputs, gives_outputs, IsCubeOf};
ghost use Rattle.pla_reader.specs.Reading.{output_mask, row_of};

use crate::lines::is_blank;
use crate::refusal::Why;
use lattice::{Kind, Row};

const MOST_ROWS: usize = 8192;

/// Whether the byte is a symbol of a row, and neither a blank nor a bar.
fn is_symbol(byte: u8) -> bool
    ensures { result ≡ is_symbol byte }
{
    !is_blank(byte) && byte != b'|'
}

/// The number of symbols.
#[tactic(auto, using(crate::proofs::Symbols::count_is))]
fn count_symbols(line: &[u8]) -> usize
    ensures { result ≡ length (symbols line.now) }
{
    line.iter().filter(|byte| is_symbol(**byte)).count()
}

/// Whether the symbol may stand for an input.
fn is_input_symbol(byte: u8) -> bool
    ensures { result ≡ is_one_of (codes "01-2") byte }
{
    byte == b'0' || byte == b'1' || byte == b'-' || byte == b'2'
}

/// Whether the symbol may stand for an output.
fn is_output_symbol(byte: u8) -> bool
    ensures { result ≡ is_one_of (codes "01-~24") byte }
{
    is_input_symbol(byte) || byte == b'~' || byte == b'4'
}

/// The inputs that a row fixes, and those that it fixes to 1. The last input has weight 1.
#[derive(Clone, Copy)]
struct Cube {
    care: u64,
    value: u64,
}

/// Whether the symbol fixes its input.
fn is_fixed(symbol: u8) -> bool
    ensures { result ≡ is_one_of (codes "01") symbol }
{
    symbol == b'0' || symbol == b'1'
}

/// Whether the symbol fixes its input to 1.
fn fixes_to_one(symbol: u8) -> bool
    ensures { result ≡ is_one_of (codes "1") symbol }
{
    symbol == b'1'
}

/// The cube of the first symbols of a line, one for each input, and the rest of the line, where
/// there are so many and each may stand for an input.
#[tactic(auto, using(crate::proofs::Symbols::input_steps))]
fn cube_of(line: &[u8], inputs: u32) -> Option<(Cube, &[u8])>
    requires { inputs ≤ MAX_VARS }
    ensures { let all = symbols line.now in MatchOption result (gives_inputs inputs all ≡ false)
        (λ r. IsCubeOf inputs all r.0.care r.0.value (symbols r.1.now)) }
{
    let mut cube = Cube { care: 0, value: 0 };
    let mut seen = 0;
    let mut rest = line;
    while seen < inputs {
        let (byte, after) = rest.split_first()?;
        // Asked first, since nearly all bytes are such symbols.
        if is_input_symbol(*byte) {
            cube = Cube {
                care: 2 * cube.care + u64::from(is_fixed(*byte)),
                value: 2 * cube.value + u64::from(fixes_to_one(*byte)),
            };
            seen += 1;
        } else if is_symbol(*byte) {
            return None;
        }
        rest = after;
    }
    Some((cube, rest))
}

/// For each of ON, OFF and DC the outputs that have a cube or a point in it, as a mask. The first
/// output has weight 1.
#[derive(Clone, Copy)]
pub struct Marks {
    pub on: u64,
    pub off: u64,
    pub dc: u64,
}

/// Whether the symbol puts the cube into ON.
fn is_on(symbol: u8) -> bool
    ensures { result ≡ is_one_of (codes "14") symbol }
{
    symbol == b'1' || symbol == b'4'
}

/// Whether the symbol puts the cube into OFF, where the type has it.
fn is_off(kind: Kind, symbol: u8) -> bool
    ensures { result ≡ (has_off kind && is_one_of (codes "0") symbol) }
{
    matches!(kind, Kind::Fr | Kind::Fdr) && symbol == b'0'
}

/// Whether the symbol puts the cube into DC, where the type has it.
fn is_dc(kind: Kind, symbol: u8) -> bool
    ensures { result ≡ (has_dc kind && is_one_of (codes "-2") symbol) }
{
    matches!(kind, Kind::Fd | Kind::Fdr) && (symbol == b'-' || symbol == b'2')
}

/// The marks of the symbols of a line, where there is one for each output and each may stand for
/// an output.
#[tactic(auto, using(crate::proofs::Symbols::output_steps))]
fn marks_of(kind: Kind, line: &[u8], outputs: u32) -> Option<Marks>
    requires { outputs ≤ 64 }
    ensures { let all = symbols line.now in
        result ≡ (if gives_outputs outputs all then Some (record {
          on = output_mask (is_one_of (codes "14")) all;
          off = output_mask (λ symbol. has_off kind && is_one_of (codes "0") symbol) all;
          dc = output_mask (λ symbol. has_dc kind && is_one_of (codes "-2") symbol) all;
        }) else None) }
{
    let mut marks = Marks {
        on: 0,
        off: 0,
        dc: 0,
    };
    let mut place = 0;
    for byte in line {
        if is_output_symbol(*byte) {
            if place == outputs {
                return None;
            }
            marks = Marks {
                on: marks.on | u64::from(is_on(*byte)) << place,
                off: marks.off | u64::from(is_off(kind, *byte)) << place,
                dc: marks.dc | u64::from(is_dc(kind, *byte)) << place,
            };
            place += 1;
        } else if is_symbol(*byte) {
            return None;
        }
    }
    if place == outputs { Some(marks) } else { None }
}

/// What is wrong with the symbols of a row: their number, or else one of them.
fn symbols_fault(line: &[u8], count: u32) -> Why
    ensures { result ≡ (if length (symbols line.now) == count then BadSymbol else RowLength) }
{
    if count_symbols(line) == count as usize {
        Why::BadSymbol
    } else {
        Why::RowLength
    }
}

/// The row on a line that follows so many rows, by the numbers of inputs and outputs where they are
/// given.
#[tactic(auto, using(std::proofs::lemmas::Bool::Decides::nat_tests), unfolding(crate::specs::Grammar::row_fault, crate::specs::Reading::row_of))]
pub fn row_in(
    sizes: Option<(u32, u32)>,
    kind: Kind,
    rows: usize,
    number: u32,
    line: &[u8],
) -> Result<Row, Why>
    requires { IfSome sizes (λ s. (s.0 ≤ MAX_VARS) × (s.1 ≤ 64)) }
    ensures { MatchResult result
        (λ row. (row_fault sizes rows line.now ≡ None)
        × IfSome sizes (λ s. row ≡ row_of s.0 kind number line.now))
        (λ why. row_fault sizes rows line.now ≡ Some why) }
{
    let Some((inputs, outputs)) = sizes else {
        return Err(Why::RowBeforeSize);
    };
    if rows >= MOST_ROWS {
        return Err(Why::TooManyRows);
    }
    // The symbols are counted only where they are at fault.
    let Some((Cube { care, value }, rest)) = cube_of(line, inputs) else {
        return Err(symbols_fault(line, inputs + outputs));
    };
    let Some(Marks { on, off, dc }) = marks_of(kind, rest, outputs) else {
        return Err(symbols_fault(line, inputs + outputs));
    };
    Ok(Row {
        line: number,
        care,
        value,
        on,
        off,
        dc,
    })
}
