//! The miter of two circuits.
ghost use Rattle.std.specs.Prelude.{◌≡◌, ◌≤◌, ◌<◌, ◌++◌, ◌↔◌, IfOk, OnOk, IsErrOf, length};
ghost use Rattle.std.specs.Option.{ForSome};
ghost use Rattle.std.specs.List.{flat_map};
ghost use Rattle.lattice.specs.Family.{numbers_below};
ghost use Rattle.aig_reader.specs.declared.circuit.TheConstants.{MAX_GATES};
ghost use Rattle.aig_reader.specs.Reading.{circuit};
ghost use Rattle.aig_miter.specs.declared.refusal.MiterRefusal.TheVariants.{TooManyGates};
ghost use Rattle.aig_miter.specs.Miter.{first_variable, difference_at, is_care, miter_output};
ghost use Rattle.aig_miter.specs.Miter.{miter_gates, miter_outputs, miter};

use crate::differences::push_difference;
use crate::moving::{moved_literal, push_gates, push_moved};
use crate::refusal::MiterRefusal;
use aig_reader::{Aig, Gates, Literals, MAX_GATES};
use lattice::{Memory, Name, Names};
use std::alloc::Global;

/// The number of gates of the miter.
fn gates_of_miter(first: &Aig, second: &Aig) -> usize
    ensures { result ≡ length (miter_gates (circuit first.now) (circuit second.now)) }
{
    first.gates.len() + second.gates.len() + 3 * first.outputs.len()
}

/// The variable of the first gate at a position of the outputs.
fn first_variable(first: &Aig, second: &Aig, position: usize) -> u32
    requires { position ≤ length first.now.outputs }
    ensures { result ≡ first_variable (circuit first.now) (circuit second.now) position }
{
    let gates = first.gates.len() + second.gates.len() + 3 * position;
    first.inputs + 1 + gates as u32
}

/// Puts the gates behind the others that are 1 where the outputs differ, three for each position.
#[tactic(auto, using(crate::proofs::Joined::number_steps))]
fn push_differences(gates: &mut Gates, first: &Aig, second: &Aig) -> Result<(), Memory>
    requires outputs { length second.now.outputs ≡ length first.now.outputs }
    requires inputs { second.now.inputs ≡ first.now.inputs }
    ensures { OnOk result (gates.new ≡ gates.old
        ++ flat_map (difference_at (circuit first.now) (circuit second.now))
        (numbers_below (length first.now.outputs))) }
{
    let others = first.gates.len() as u32;
    let ours = first.outputs.as_slice();
    let theirs = second.outputs.as_slice();
    for position in 0..ours.len() {
        let variable = first_variable(first, second, position);
        let their = moved_literal(first.inputs, others, theirs[position]);
        push_difference(gates, variable, ours[position], their)?;
    }
    Ok(())
}

/// The gates of the miter.
#[tactic(auto, unfolding(crate::specs::Miter::miter_gates))]
fn miter_gates(alloc: Global, first: &Aig, second: &Aig) -> Result<Gates, Memory>
    requires inputs { second.now.inputs ≡ first.now.inputs }
    requires outputs { length second.now.outputs ≡ length first.now.outputs }
    ensures { IfOk result (λ gates. gates ≡ miter_gates (circuit first.now) (circuit second.now)) }
{
    let others = first.gates.len() as u32;
    let mut gates = Gates::new(alloc);
    push_gates(&mut gates, first.gates.as_slice())?;
    push_moved(&mut gates, first.inputs, others, second.gates.as_slice())?;
    push_differences(&mut gates, first, second)?;
    Ok(gates)
}

/// Whether the position is that of the care output.
fn is_care(care: Option<usize>, position: usize) -> bool
    ensures { result ≡ is_care care position }
{
    match care {
        Some(output) => output == position,
        None => false,
    }
}

/// The output of the miter at a position.
fn miter_output(first: &Aig, second: &Aig, care: Option<usize>, position: usize) -> u32
    requires { position < length first.now.outputs }
    ensures { result ≡ miter_output (circuit first.now) (circuit second.now) care position }
{
    if is_care(care, position) {
        first.outputs.as_slice()[position]
    } else {
        2 * (first_variable(first, second, position) + 2)
    }
}

/// The outputs of the miter.
#[tactic(auto, using(crate::proofs::Joined::number_steps), unfolding(crate::specs::Miter::miter_outputs))]
fn miter_outputs(
    alloc: Global,
    first: &Aig,
    second: &Aig,
    care: Option<usize>,
) -> Result<Literals, Memory>
    ensures { IfOk result (λ outputs. outputs
        ≡ miter_outputs (circuit first.now) (circuit second.now) care) }
{
    let mut outputs = Literals::new(alloc);
    for position in 0..first.outputs.len() {
        outputs.push(miter_output(first, second, care, position))?;
    }
    Ok(outputs)
}

/// A copy of the names.
fn copied(alloc: Global, names: &[Name]) -> Result<Names, Memory>
    ensures { IfOk result (λ copies. copies ≡ names.now) }
{
    let mut copies = Names::new(alloc);
    for name in names {
        copies.push(Name::from_vec(Vec::from_slice(alloc, name.as_slice())?))?;
    }
    Ok(copies)
}

/// The miter of circuits that are small enough.
fn small_miter(alloc: Global, first: &Aig, second: &Aig, care: Option<usize>) -> Result<Aig, Memory>
    requires inputs { second.now.inputs ≡ first.now.inputs }
    requires outputs { length second.now.outputs ≡ length first.now.outputs }
    requires few { length (miter_gates (circuit first.now) (circuit second.now)) ≤ MAX_GATES }
    ensures { IfOk result (λ answer. circuit answer
        ≡ miter (circuit first.now) (circuit second.now) care) }
{
    Ok(Aig {
        inputs: first.inputs,
        gates: miter_gates(alloc, first, second)?,
        outputs: miter_outputs(alloc, first, second, care)?,
        in_names: copied(alloc, first.in_names.as_slice())?,
        out_names: copied(alloc, first.out_names.as_slice())?,
    })
}

/// The miter of two circuits over the same inputs, with as many outputs: at each position an output
/// that is 1 where exactly one of theirs is, made by three gates, which are an exclusive or.
///
/// The gates of the first come first, then those of the second. The inputs and the names are the
/// first's. At the position `care`, if there is one, stands the output of the first. `TooManyGates`
/// says that the miter has more than `MAX_GATES` gates.
pub fn miter_of(
    alloc: Global,
    first: &Aig,
    second: &Aig,
    care: Option<usize>,
) -> Result<Aig, MiterRefusal>
    requires inputs { second.now.inputs ≡ first.now.inputs }
    requires outputs { length second.now.outputs ≡ length first.now.outputs }
    requires care { ForSome care (λ output. output < length first.now.outputs) }
    ensures miter { IfOk result (λ answer. circuit answer
        ≡ miter (circuit first.now) (circuit second.now) care) }
    ensures large { IsErrOf result TooManyGates
        ↔ (MAX_GATES < length (miter (circuit first.now) (circuit second.now) care).gates) }
{
    if gates_of_miter(first, second) > MAX_GATES as usize {
        return Err(MiterRefusal::TooManyGates);
    }
    Ok(small_miter(alloc, first, second, care)?)
}
