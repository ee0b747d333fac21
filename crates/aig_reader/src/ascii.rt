//! The lines of the ASCII form.
ghost use Rattle.std.specs.Prelude.{◌≡◌, ℕ, ◌+◌, ◌*◌, ◌-◌, ◌<◌, ◌≤◌, ◌^◌, length, slice_index};
ghost use Rattle.std.specs.Prelude.{replicate, MatchResult};
ghost use Rattle.aig_reader.specs.declared.refusal.Stop.TheVariants.{Memory};
ghost use Rattle.lattice.specs.declared.limits.TheConstants.{MAX_VARS};
ghost use Rattle.aig_reader.specs.Fields.{Gives, many, output_at, through};
ghost use Rattle.aig_reader.specs.Ascii.{variable_at, input_line_at, gate_line_at, renamed_at};
ghost use Rattle.aig_reader.specs.Ascii.{renamed_output_at, renamed_gate_at};
ghost use Rattle.aig_reader.specs.Ascii.{IsUpTo, renamed};

use crate::circuit::{Gate, MAX_GATES, MAX_VARIABLES};
use crate::fields::{behind, fault_at, literal_at};
use crate::refusal::{Stop, Why};
use std::alloc::Global;

/// So many zeros: a table where no variable has a number.
pub fn zeros(alloc: Global, count: u32) -> Result<Vec<u32>, Stop>
    ensures { MatchResult result (λ table. table.items ≡ replicate count 0) (λ e. e ≡ Memory) }
{
    Ok(vec![in alloc; 0; count as usize]?)
}

/// Gives the variable at the front this number in the table, and answers what follows it.
#[tactic(auto, unfolding(crate::specs::Ascii::variable_at))]
fn variable_at<'a>(number: u32, table: &mut [u32], bytes: &'a [u8]) -> Result<&'a [u8], Stop>
    requires some { 1 ≤ length table.old }
    requires few { length table.old ≤ MAX_VARIABLES + 1 }
    ensures { Gives (λ rest. (table.new, rest.now)) result
        (variable_at number table.old bytes.now) }
{
    let (literal, rest) = literal_at(table.len() as u32 - 1, bytes)?;
    if literal < 2 || literal % 2 == 1 {
        return Err(fault_at(bytes, Why::NoVariable));
    }
    let variable = literal as usize / 2;
    if table[variable] != 0 {
        return Err(fault_at(bytes, Why::DefinedTwice));
    }
    table[variable] = number;
    Ok(rest)
}

/// Reads the line of input k into the table, and answers what follows it.
#[tactic(auto, unfolding(crate::specs::Ascii::input_line_at))]
fn input_line_at<'a>(k: u32, table: &mut [u32], bytes: &'a [u8]) -> Result<&'a [u8], Stop>
    requires k { k < MAX_VARS }
    requires some { 1 ≤ length table.old }
    requires few { length table.old ≤ MAX_VARIABLES + 1 }
    ensures { Gives (λ rest. (table.new, rest.now)) result
        (input_line_at k table.old bytes.now) }
{
    let rest = variable_at(k + 1, table, bytes)?;
    behind(b'\n', rest)
}

/// Reads the lines of so many inputs into the table, and answers what follows them.
pub fn input_lines_at<'a>(count: u32, table: &mut [u32], bytes: &'a [u8]) -> Result<&'a [u8], Stop>
    requires count { count ≤ MAX_VARS }
    requires some { 1 ≤ length table.old }
    requires few { length table.old ≤ MAX_VARIABLES + 1 }
    ensures { Gives (λ rest. (table.new, rest.now)) result
        (through input_line_at 0 count table.old bytes.now) }
{
    let mut rest = bytes;
    for k in 0..count {
        rest = input_line_at(k, table, rest)?;
    }
    Ok(rest)
}

/// Reads the line of gate k behind so many inputs into the table, and answers what follows it.
#[tactic(auto, unfolding(crate::specs::Ascii::gate_line_at))]
fn gate_line_at<'a>(
    inputs: u32,
    k: u32,
    table: &mut [u32],
    bytes: &'a [u8],
) -> Result<&'a [u8], Stop>
    requires inputs { inputs ≤ MAX_VARS }
    requires k { k < MAX_GATES }
    requires some { 1 ≤ length table.old }
    requires few { length table.old ≤ MAX_VARIABLES + 1 }
    ensures { Gives (λ rest. (table.new, rest.now)) result
        (gate_line_at inputs k table.old bytes.now) }
{
    let variables = table.len() as u32 - 1;
    let rest = variable_at(inputs + 1 + k, table, bytes)?;
    let (_, rest) = literal_at(variables, behind(b' ', rest)?)?;
    let (_, rest) = literal_at(variables, behind(b' ', rest)?)?;
    behind(b'\n', rest)
}

/// Reads the lines of so many gates behind the inputs into the table, and answers what follows.
pub fn gate_lines_at<'a>(
    inputs: u32,
    count: u32,
    table: &mut [u32],
    bytes: &'a [u8],
) -> Result<&'a [u8], Stop>
    requires inputs { inputs ≤ MAX_VARS }
    requires count { count ≤ MAX_GATES }
    requires some { 1 ≤ length table.old }
    requires few { length table.old ≤ MAX_VARIABLES + 1 }
    ensures { Gives (λ rest. (table.new, rest.now)) result
        (through (gate_line_at inputs) 0 count table.old bytes.now) }
{
    let mut rest = bytes;
    for k in 0..count {
        rest = gate_line_at(inputs, k, table, rest)?;
    }
    Ok(rest)
}

/// The literal at the front, renamed by the table, and what follows it.
#[tactic(auto, unfolding(crate::specs::Ascii::renamed_at))]
fn renamed_at<'a>(table: &[u32], bytes: &'a [u8]) -> Result<(u32, &'a [u8]), Stop>
    requires some { 1 ≤ length table.now }
    requires few { length table.now ≤ MAX_VARIABLES + 1 }
    requires small { IsUpTo (MAX_VARS + MAX_GATES) table.now }
    ensures { Gives (λ x. (x.0, x.1.now)) result (renamed_at table.now bytes.now) }
{
    let (literal, rest) = literal_at(table.len() as u32 - 1, bytes)?;
    let number = table[literal as usize / 2];
    if literal >= 2 && number == 0 {
        return Err(fault_at(bytes, Why::NotDefined));
    }
    Ok((2 * number + literal % 2, rest))
}

/// The literal of the output on the line, renamed by the table, and what follows the line.
#[tactic(auto, unfolding(crate::specs::Ascii::renamed_output_at))]
fn renamed_output_at<'a>(table: &[u32], bytes: &'a [u8]) -> Result<(u32, &'a [u8]), Stop>
    requires some { 1 ≤ length table.now }
    requires few { length table.now ≤ MAX_VARIABLES + 1 }
    requires small { IsUpTo (MAX_VARS + MAX_GATES) table.now }
    ensures { Gives (λ x. (x.0, x.1.now)) result (renamed_output_at table.now bytes.now) }
{
    let (literal, rest) = renamed_at(table, bytes)?;
    Ok((literal, behind(b'\n', rest)?))
}

/// The literals of so many outputs, renamed by the table, and what follows their lines.
pub fn renamed_outputs_at<'a>(
    alloc: Global,
    table: &[u32],
    count: u32,
    bytes: &'a [u8],
) -> Result<(Vec<u32>, &'a [u8]), Stop>
    requires some { 1 ≤ length table.now }
    requires few { length table.now ≤ MAX_VARIABLES + 1 }
    requires small { IsUpTo (MAX_VARS + MAX_GATES) table.now }
    ensures { Gives (λ x. (x.0.items, x.1.now)) result
        (many (λ k. renamed_output_at table.now) 0 count bytes.now) }
{
    let mut literals = Vec::new(alloc);
    let mut rest = bytes;
    for _ in 0..count {
        let (literal, after) = renamed_output_at(table, rest)?;
        literals.push(literal)?;
        rest = after;
    }
    Ok((literals, rest))
}

/// The gate on the line, renamed by the table, and what follows the line.
#[tactic(auto, unfolding(crate::specs::Ascii::renamed_gate_at))]
fn renamed_gate_at<'a>(table: &[u32], bytes: &'a [u8]) -> Result<(Gate, &'a [u8]), Stop>
    requires some { 1 ≤ length table.now }
    requires few { length table.now ≤ MAX_VARIABLES + 1 }
    requires small { IsUpTo (MAX_VARS + MAX_GATES) table.now }
    ensures { Gives (λ x. (x.0, x.1.now)) result (renamed_gate_at table.now bytes.now) }
{
    let (_, rest) = literal_at(table.len() as u32 - 1, bytes)?;
    let (left, rest) = renamed_at(table, behind(b' ', rest)?)?;
    let (right, rest) = renamed_at(table, behind(b' ', rest)?)?;
    Ok((Gate { left, right }, behind(b'\n', rest)?))
}

/// So many gates, renamed by the table, and what follows their lines.
pub fn renamed_gates_at<'a>(
    alloc: Global,
    table: &[u32],
    count: u32,
    bytes: &'a [u8],
) -> Result<(Vec<Gate>, &'a [u8]), Stop>
    requires some { 1 ≤ length table.now }
    requires few { length table.now ≤ MAX_VARIABLES + 1 }
    requires small { IsUpTo (MAX_VARS + MAX_GATES) table.now }
    ensures { Gives (λ x. (x.0.items, x.1.now)) result
        (many (λ k. renamed_gate_at table.now) 0 count bytes.now) }
{
    let mut gates = Vec::new(alloc);
    let mut rest = bytes;
    for _ in 0..count {
        let (gate, after) = renamed_gate_at(table, rest)?;
        gates.push(gate)?;
        rest = after;
    }
    Ok((gates, rest))
}
