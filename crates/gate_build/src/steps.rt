//! The steps by which the polynomials of a circuit's gates are found.
ghost use Rattle.std.specs.Prelude.{◌≡◌, ◌+◌, ◌==◌, ◌/◌, ◌<◌, ◌^◌, ℕ, ◌||◌, false, length};
ghost use Rattle.std.specs.Prelude.{replicate, vec_len, IfOk};
ghost use Rattle.std.specs.List.{All, slice_index_or};
ghost use Rattle.aig_reader.specs.Reading.{circuit};
ghost use Rattle.gate_build.specs.Steps.{complement_of, inner_gate, between_complements, choice_of};
ghost use Rattle.gate_build.specs.Steps.{choice_step, step_of, literals_of, names, steps_of};
ghost use Rattle.gate_build.specs.Steps.{AreMarked};
ghost use Rattle.gate_build.specs.declared.steps.Step.TheVariants.{Skip};

use aig_reader::{Aig, Gate};
use lattice::Memory;
use std::alloc::Global;

/// Two literals.
#[derive(Clone, Copy, PartialEq, Eq, Debug)]
pub struct Pair {
    pub left: u32,
    pub right: u32,
}

/// The literal that chooses, the one that is taken where it is 1, and the one where it is 0.
#[derive(Clone, Copy, PartialEq, Eq, Debug)]
pub struct Choice {
    pub select: u32,
    pub one: u32,
    pub zero: u32,
}

/// How the polynomial of a gate is found.
#[derive(Clone, Copy, PartialEq, Eq, Debug)]
pub enum Step {
    /// Not at all: no output needs it.
    Skip,
    /// As the product of the polynomials of both operands.
    And(Gate),
    /// As the sum of the polynomials of two literals: three gates make their exclusive or.
    Xor(Pair),
    /// As the choice between two literals, a multiplexer, which three gates make.
    Mux(Choice),
}

/// The complement of a literal.
#[tactic(auto, unfolding(crate::specs::Steps::complement_of))]
fn complement_of(literal: u32) -> u32
    ensures { result ≡ complement_of literal }
{
    if literal % 2 == 0 {
        literal + 1
    } else {
        literal - 1
    }
}

/// The gate whose complement the literal is, if it is that of a gate.
#[tactic(auto, unfolding(crate::specs::Steps::inner_gate))]
fn inner_gate(inputs: u32, gates: &[Gate], literal: u32) -> Option<Gate>
    requires { inputs < 2 ^ 31 }
    ensures { result ≡ inner_gate inputs gates.now literal }
{
    let variable = literal / 2;
    if literal % 2 == 0 || variable <= inputs {
        return None;
    }
    gates.get((variable - (inputs + 1)) as usize).copied()
}

/// The choice between the complements of two literals.
fn between_complements(select: u32, one: u32, zero: u32) -> Choice
    ensures { result ≡ between_complements select one zero }
{
    Choice {
        select,
        one: complement_of(one),
        zero: complement_of(zero),
    }
}

/// The choice that is made where neither of two gates is 1, if an operand of the one is the
/// complement of an operand of the other.
#[tactic(auto, unfolding(crate::specs::Steps::choice_of))]
fn choice_of(u: Gate, w: Gate) -> Option<Choice>
    ensures { result ≡ choice_of u w }
{
    if complement_of(u.left) == w.left {
        Some(between_complements(u.left, u.right, w.right))
    } else if complement_of(u.left) == w.right {
        Some(between_complements(u.left, u.right, w.left))
    } else if complement_of(u.right) == w.left {
        Some(between_complements(u.right, u.left, w.right))
    } else if complement_of(u.right) == w.right {
        Some(between_complements(u.right, u.left, w.left))
    } else {
        None
    }
}

/// The step of a choice: one between two complements is an exclusive or.
fn choice_step(choice: Choice) -> Step
    ensures { result ≡ choice_step choice }
{
    if complement_of(choice.one) == choice.zero {
        Step::Xor(Pair {
            left: choice.select,
            right: choice.zero,
        })
    } else {
        Step::Mux(choice)
    }
}

/// How the polynomial of a gate is found, where it is needed.
#[tactic(auto, unfolding(crate::specs::Steps::step_of))]
fn step_of(inputs: u32, gates: &[Gate], gate: Gate) -> Step
    requires { inputs < 2 ^ 31 }
    ensures { result ≡ step_of inputs gates.now gate }
{
    let u = inner_gate(inputs, gates, gate.left);
    let w = inner_gate(inputs, gates, gate.right);
    let choice = match (u, w) {
        (Some(u), Some(w)) => choice_of(u, w),
        _ => None,
    };
    match choice {
        Some(choice) => choice_step(choice),
        None => Step::And(gate),
    }
}

/// Marks the variable of a literal.
fn mark(needed: &mut [bool], literal: u32)
    requires { literal / 2 < length needed.old }
    ensures { (v : ℕ) → slice_index_or needed.new v false
        ≡ (literal / 2 == v || slice_index_or needed.old v false) }
{
    needed[(literal / 2) as usize] = true;
}

/// Marks the variables of the literals that a step needs.
fn mark_step(needed: &mut [bool], step: Step)
    requires { All (λ literal. literal / 2 < length needed.old) (literals_of step) }
    ensures { (v : ℕ) → slice_index_or needed.new v false
        ≡ (names (literals_of step) v || slice_index_or needed.old v false) }
{
    match step {
        Step::Skip => {}
        Step::And(gate) => {
            mark(needed, gate.left);
            mark(needed, gate.right);
        }
        Step::Xor(pair) => {
            mark(needed, pair.left);
            mark(needed, pair.right);
        }
        Step::Mux(choice) => {
            mark(needed, choice.select);
            mark(needed, choice.one);
            mark(needed, choice.zero);
        }
    }
}

/// Marks the variables of the literals.
fn mark_all(needed: &mut [bool], literals: &[u32])
    requires { All (λ literal. literal / 2 < length needed.old) literals.now }
    ensures { (v : ℕ) → slice_index_or needed.new v false
        ≡ (names literals.now v || slice_index_or needed.old v false) }
{
    for literal in literals {
        mark(needed, *literal);
    }
}

/// The variables that the outputs name.
fn needed_by_outputs(alloc: Global, aig: &Aig) -> Result<Vec<bool>, Memory>
    ensures variables { IfOk result
        (λ needed. vec_len needed ≡ aig.now.inputs + 1 + length aig.now.gates) }
    ensures marked { IfOk result (λ needed. AreMarked needed.items aig.now.outputs) }
{
    let variables = aig.inputs as usize + 1 + aig.gates.len();
    let mut needed = vec![in alloc; false; variables]?;
    mark_all(&mut needed, aig.outputs.as_slice());
    Ok(needed)
}

/// Puts the steps of the needed gates into a list that has none: from the outputs back, a gate that
/// no output and no later step needs is skipped.
fn keep_needed(aig: &Aig, needed: &mut [bool], steps: &mut [Step])
    requires steps { steps.old ≡ replicate (length aig.now.gates) Skip }
    requires variables { length needed.old ≡ aig.now.inputs + 1 + length aig.now.gates }
    requires marked { AreMarked needed.old aig.now.outputs }
    ensures { steps.new ≡ steps_of (circuit aig.now) }
{
    let first = aig.inputs as usize + 1;
    let gates = aig.gates.as_slice();
    for k in (0..gates.len()).rev() {
        if needed[first + k] {
            let step = step_of(aig.inputs, gates, gates[k]);
            mark_step(needed, step);
            steps[k] = step;
        }
    }
}

/// The steps of a circuit, one for each gate, in order. Of three gates that make a multiplexer or
/// an exclusive or the last one is found as such, and a gate that no output and no other step needs
/// is skipped.
pub fn plan_steps(alloc: Global, aig: &Aig) -> Result<Vec<Step>, Memory>
    ensures { IfOk result (λ steps. steps.items ≡ steps_of (circuit aig.now)) }
{
    let mut needed = needed_by_outputs(alloc, aig)?;
    let mut steps = vec![in alloc; Step::Skip; aig.gates.len()]?;
    keep_needed(aig, &mut needed, &mut steps);
    Ok(steps)
}
