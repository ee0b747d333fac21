//! Reading a circuit from bytes.
ghost use Rattle.std.specs.Prelude.{◌≡◌, ◌+◌, ◌/◌, ◌<◌, ◌≤◌, length, map, MatchResult};
ghost use Rattle.std.specs.List.{All};
ghost use Rattle.lattice.specs.declared.limits.TheConstants.{MAX_VARS};
ghost use Rattle.aig_reader.specs.declared.circuit.TheConstants.{MAX_GATES, MAX_VARIABLES};
ghost use Rattle.aig_reader.specs.declared.refusal.Stop.TheVariants.{Memory};
ghost use Rattle.aig_reader.specs.Fields.{Gives, GivesAs};
ghost use Rattle.aig_reader.specs.Ascii.{IsUpTo};
ghost use Rattle.aig_reader.specs.Order.{ordered, renumbered};
ghost use Rattle.aig_reader.specs.Reading.{circuit, AreFew, binary_at, table_at, AreSound};
ghost use Rattle.aig_reader.specs.Reading.{ordered_at, on_itself_at, SaysByTable, SaysAscii, Says};
ghost use Rattle.aig_reader.specs.Reading.{GivesReading, IsReading};

use crate::ascii::{gate_lines_at, input_lines_at, renamed_gates_at, renamed_outputs_at, zeros};
use crate::circuit::{Aig, Gates, Literals};
use crate::fields::fault_at;
use crate::header::{Sizes, sizes_at};
use crate::lines::{gates_at, outputs_at};
use crate::order::{Order, Placing, place_all};
use crate::refusal::{ReadRefusal, Refusal, Stop, Why};
use crate::symbols::Table;
use lattice::Names;
use std::alloc::Global;

/// The most bytes of a file that a program takes.
pub const MOST_BYTES: usize = 16_777_216;

/// The circuit that a file in the binary form says, of which these bytes are the part behind `aig`.
#[tactic(auto, unfolding(crate::specs::Reading::binary_at))]
fn binary_at(alloc: Global, bytes: &[u8]) -> Result<Aig, Stop>
    ensures { Gives circuit result (binary_at bytes.now) }
{
    let (sizes, rest) = sizes_at(bytes)?;
    if sizes.variables != sizes.inputs + sizes.gates {
        return Err(fault_at(bytes, Why::VariableCount));
    }
    let (outputs, rest) = outputs_at(alloc, sizes.variables, sizes.outputs, rest)?;
    let (gates, rest) = gates_at(alloc, sizes.inputs, sizes.gates, rest)?;
    let mut names = Table::new(alloc, sizes)?;
    names.add_symbols(alloc, rest)?;
    Ok(Aig {
        inputs: sizes.inputs,
        gates: Gates::from_vec(gates),
        outputs: Literals::from_vec(outputs),
        in_names: Names::from_vec(names.inputs),
        out_names: Names::from_vec(names.outputs),
    })
}

/// Reads all lines behind the header of a file in the ASCII form into the table, and answers the
/// bytes from the lines of the outputs on.
#[tactic(auto, unfolding(crate::specs::Reading::table_at))]
fn fill_table<'a>(
    alloc: Global,
    sizes: Sizes,
    table: &mut [u32],
    bytes: &'a [u8],
) -> Result<&'a [u8], Stop>
    requires few { AreFew sizes }
    requires len { length table.old ≡ sizes.variables + 1 }
    ensures { Gives (λ rest. (table.new, rest.now)) result (table_at sizes table.old bytes.now) }
{
    let lines = input_lines_at(sizes.inputs, table, bytes)?;
    let (_, rest) = outputs_at(alloc, sizes.variables, sizes.outputs, lines)?;
    gate_lines_at(sizes.inputs, sizes.gates, table, rest)?;
    Ok(lines)
}

/// The literals of lines, in the variables of this order.
fn renumbered_all(
    alloc: Global,
    inputs: u32,
    order: &Order,
    literals: &[u32],
) -> Result<Vec<u32>, Stop>
    requires inputs { inputs ≤ MAX_VARS }
    requires small { IsUpTo (MAX_VARS + MAX_GATES) order.now.numbers.items }
    requires within { All (λ literal. literal / 2 < length order.now.numbers.items) literals.now }
    ensures { MatchResult result
        (λ outputs. outputs.items ≡ map (renumbered inputs (ordered order.now)) literals.now)
        (λ e. e ≡ Memory) }
{
    let mut outputs = Vec::new(alloc);
    for literal in literals {
        outputs.push(order.renumbered(inputs, *literal))?;
    }
    Ok(outputs)
}

/// The circuit of gates that are placed, with the outputs of the lines, and the symbols.
#[tactic(auto, unfolding(crate::specs::Reading::ordered_at))]
fn ordered_at(
    alloc: Global,
    sizes: Sizes,
    outputs: &[u32],
    order: Order,
    bytes: &[u8],
) -> Result<Aig, Stop>
    requires few { AreFew sizes }
    requires sound { AreSound sizes outputs.now (ordered order) }
    ensures { Gives circuit result (ordered_at sizes outputs.now (ordered order) bytes.now) }
{
    let outputs = renumbered_all(alloc, sizes.inputs, &order, outputs)?;
    let mut names = Table::new(alloc, sizes)?;
    names.add_symbols(alloc, bytes)?;
    Ok(Aig {
        inputs: sizes.inputs,
        gates: Gates::from_vec(order.gates),
        outputs: Literals::from_vec(outputs),
        in_names: Names::from_vec(names.inputs),
        out_names: Names::from_vec(names.outputs),
    })
}

/// The fault of line k of the gates, counted from 0, where the first of them is at the front.
#[tactic(auto, unfolding(crate::specs::Reading::on_itself_at))]
fn on_itself_at(alloc: Global, table: &[u32], k: u32, bytes: &[u8]) -> Result<Aig, Stop>
    requires some { 1 ≤ length table.now }
    requires few { length table.now ≤ MAX_VARIABLES + 1 }
    requires small { IsUpTo (MAX_VARS + MAX_GATES) table.now }
    ensures { Gives circuit result (on_itself_at table.now k bytes.now) }
{
    let (_, line) = renamed_gates_at(alloc, table, k, bytes)?;
    Err(fault_at(line, Why::OnItself))
}

/// The circuit that the lines from those of the outputs on say by the table.
fn by_table_at(alloc: Global, sizes: Sizes, table: &[u32], bytes: &[u8]) -> Result<Aig, Stop>
    requires few { AreFew sizes }
    requires len { length table.now ≡ sizes.variables + 1 }
    requires up_to { IsUpTo (sizes.inputs + sizes.gates) table.now }
    ensures { GivesAs circuit result (SaysByTable sizes table.now bytes.now) }
{
    let (outputs, lines) = renamed_outputs_at(alloc, table, sizes.outputs, bytes)?;
    let (gates, rest) = renamed_gates_at(alloc, table, sizes.gates, lines)?;
    match place_all(alloc, sizes.inputs, &gates)? {
        Placing::Placed(order) => ordered_at(alloc, sizes, &outputs, order, rest),
        Placing::OnItself(k) => on_itself_at(alloc, table, k, lines),
    }
}

/// The circuit that a file in the ASCII form says, of which these bytes are the part behind `aag`.
fn ascii_at(alloc: Global, bytes: &[u8]) -> Result<Aig, Stop>
    ensures { GivesAs circuit result (SaysAscii bytes.now) }
{
    let (sizes, rest) = sizes_at(bytes)?;
    let mut table = zeros(alloc, sizes.variables + 1)?;
    let lines = fill_table(alloc, sizes, &mut table, rest)?;
    by_table_at(alloc, sizes, &table, lines)
}

/// The circuit that the bytes say.
fn circuit_at(alloc: Global, bytes: &[u8]) -> Result<Aig, Stop>
    ensures { GivesAs circuit result (Says bytes.now) }
{
    match bytes {
        [b'a', b'i', b'g', rest @ ..] => binary_at(alloc, rest),
        [b'a', b'a', b'g', rest @ ..] => ascii_at(alloc, rest),
        _ => Err(fault_at(bytes, Why::NoFormat)),
    }
}

/// Reads the circuit that the bytes say, in the binary or the ASCII form.
///
/// `Bad` has the first fault from the left, and how many bytes stand before it. In the binary form
/// the number of variables is looked at once the sizes of the header are read. In the ASCII form
/// the lines are gone through twice, and that a literal's variable is defined is seen the second
/// time. Then, before the symbols are read, the gates are placed in the order of their lines, and
/// before each one those that it stands on: the first that cannot be placed is refused.
pub fn read(alloc: Global, bytes: &[u8]) -> Result<Aig, ReadRefusal>
    ensures { GivesReading result (IsReading bytes.now) }
{
    match circuit_at(alloc, bytes) {
        Ok(aig) => Ok(aig),
        Err(Stop::Bad(fault)) => Err(ReadRefusal::Bad(Refusal {
            byte: bytes.len().saturating_sub(fault.left),
            why: fault.why,
        })),
        Err(Stop::Memory) => Err(ReadRefusal::Memory),
    }
}
