//! What a job sees of a circuit.
ghost use Rattle.std.specs.Prelude.{◌≡◌, ◌<◌, ◌≤◌, ◌==◌, false, IfOk, OnOk, length};
ghost use Rattle.std.specs.Prelude.{position, replicate};
ghost use Rattle.std.specs.Option.{ForSome};
ghost use Rattle.std.specs.Str.{bytes_eq};
ghost use Rattle.lattice.specs.declared.limits.TheConstants.{MAX_VARS};
ghost use Rattle.pla_reader.specs.Orders.{IsOrder, file_order};
ghost use Rattle.aig_pairs.specs.Matching.{output_names};
ghost use Rattle.aig_reader.specs.Reading.{circuit};
ghost use Rattle.circuit_run.specs.Parts.{Finds, IsWhole, unnamed_outcome, view};
ghost use Rattle.circuit_run.specs.Views.{care_by, inverted_by, order_by, view_of};

use crate::ends::CircuitEnd;
use aig_inputs::{arrange_circuit, marked_names, read_inverted};
use aig_reader::Aig;
use circuit_words::CircuitJob;
use lattice::{Memory, Name, Names, Order, Text};
use pla_reader::{OrderRefusal, names_in_place, order_of, printed};
use program::Outcome;
use std::alloc::Global;

/// How a run of circuit ends.
pub(crate) type CircuitOutcome = Outcome<CircuitEnd>;

/// What a job sees of a circuit.
#[derive(Drop)]
pub(crate) struct Seen {
    /// The circuit over its inputs in the order that the job asks for, some of them complemented.
    pub aig: Aig,
    /// The names of its inputs that are printed.
    pub in_names: Names,
    /// The position, from 0, of the output that says which points are cared for: those at which it
    /// is 1, or all points where there is none.
    pub care: Option<usize>,
}

// The order of the file.
fn file_order(alloc: Global, inputs: u32) -> Result<Order, Memory>
    ensures order { IfOk result (λ order. order ≡ file_order inputs) }
    ensures good { OnOk result (IsOrder inputs (file_order inputs)) }
{
    let mut order = Order::new(alloc);
    for input in 0..inputs {
        order.push(input + 1)?;
    }
    Ok(order)
}

// None of so many inputs is complemented.
fn none_inverted(alloc: Global, inputs: usize) -> Result<Vec<bool>, Memory>
    ensures { IfOk result (λ inverted. inverted.items ≡ replicate inputs false) }
{
    Ok(vec![in alloc; false; inputs]?)
}

// How a run ends whose text of names is refused, for this end.
fn refuse(refusal: OrderRefusal, end: CircuitEnd) -> CircuitOutcome
    ensures { result ≡ unnamed_outcome end refusal }
{
    match refusal {
        OrderRefusal::Bad => Outcome::Own(end),
        OrderRefusal::Memory => Outcome::Memory,
    }
}

// The order of the inputs of these names that the text asks for; that of the file without a text.
fn order_by(alloc: Global, names: &[Name], text: &Option<Text>) -> Result<Order, CircuitOutcome>
    requires { length names.now ≤ MAX_VARS }
    ensures order { Finds (λ order. order) result (order_by names.now text.now) }
    ensures good { IfOk result (IsOrder (length names.now)) }
{
    let Some(text) = text else {
        return Ok(file_order(alloc, names.len() as u32)?);
    };
    match order_of(alloc, names, text.as_slice()) {
        Ok(order) => Ok(order),
        Err(refusal) => Err(refuse(refusal, CircuitEnd::Order)),
    }
}

// For each of the inputs of these names whether the text names it; none is named without a text.
fn inverted_by(
    alloc: Global,
    names: &[Name],
    text: &Option<Text>,
) -> Result<Vec<bool>, CircuitOutcome>
    requires { length names.now ≤ MAX_VARS }
    ensures inverted { Finds (λ inverted. inverted.items) result (inverted_by names.now text.now) }
    ensures count { IfOk result (λ inverted. length inverted.items ≡ length names.now) }
{
    let Some(text) = text else {
        return Ok(none_inverted(alloc, names.len())?);
    };
    match read_inverted(alloc, names, text.as_slice()) {
        Ok(inverted) => Ok(inverted),
        Err(refusal) => Err(refuse(refusal, CircuitEnd::Invert)),
    }
}

// The position, from 0, of the output of this name, of those of these names.
fn output_named(names: &[Name], name: &[u8]) -> Option<usize>
    ensures { result ≡ position (λ other. bytes_eq other name.now) names.now }
{
    names.iter().position(|other| other.as_slice() == name)
}

// The position of the output, of those of these names, whose name the text is.
fn care_by(names: &[Name], text: &Option<Text>) -> Result<Option<usize>, CircuitOutcome>
    ensures care { Finds (λ care. care) result (care_by names.now text.now) }
    ensures within { IfOk result (λ care. ForSome care (λ output. output < length names.now)) }
{
    let Some(text) = text else {
        return Ok(None);
    };
    match output_named(names, text.as_slice()) {
        Some(output) => Ok(Some(output)),
        None => Err(Outcome::Own(CircuitEnd::Care)),
    }
}

/// The position of the output that says which points are cared for, or how the run ends without it.
#[tactic(auto, using(crate::proofs::Seeing::count_names))]
pub(crate) fn care_of(
    alloc: Global,
    job: &CircuitJob,
    aig: &Aig,
) -> Result<Option<usize>, CircuitOutcome>
    ensures care { Finds (λ care. care) result
        (care_by (output_names (circuit aig.now)) job.now.care) }
    ensures within { IfOk result (λ care.
        ForSome care (λ output. output < length aig.now.outputs)) }
{
    let in_place = names_in_place(alloc, "f", aig.outputs.len() as u32, &aig.out_names)?;
    care_by(printed(&in_place, &aig.out_names), &job.care)
}

// Whether the circuit has no inputs.
fn has_no_inputs(aig: &Aig) -> bool
    ensures { result ≡ (aig.now.inputs == 0) }
{
    aig.inputs == 0
}

/// What the job sees of the circuit, or how the run ends that sees none.
#[tactic(auto, using(crate::proofs::Seeing::count_names))]
pub(crate) fn see(alloc: Global, job: &CircuitJob, aig: &Aig) -> Result<Seen, CircuitOutcome>
    ensures seen { Finds view result (view_of job.now (circuit aig.now)) }
    ensures whole { IfOk result (λ seen. IsWhole (view seen)) }
{
    if has_no_inputs(aig) {
        return Err(Outcome::Own(CircuitEnd::NoInputs));
    }
    let in_place = names_in_place(alloc, "x", aig.inputs, &aig.in_names)?;
    let names = printed(&in_place, &aig.in_names);
    let order = order_by(alloc, names, &job.order)?;
    let inverted = inverted_by(alloc, names, &job.invert)?;
    let care = care_of(alloc, job, aig)?;
    Ok(Seen {
        aig: arrange_circuit(alloc, aig, &order, &inverted)?,
        in_names: marked_names(alloc, names, &order, &inverted)?,
        care,
    })
}
