//! The polynomials of literals and steps, by the handles of the variables.
ghost use Rattle.std.specs.List.{All};
ghost use Rattle.node_store.specs.Stores.{IsPlanned, Builds};
ghost use Rattle.gate_build.specs.Steps.{literals_of};
ghost use Rattle.gate_build.specs.Built.{KnowsLiteral, PlansStep, GivesStep, literal_family};
ghost use Rattle.gate_build.specs.declared.steps.Step.TheVariants.{And, Xor, Mux};

use crate::steps::{Choice, Pair, Step};
use aig_reader::Gate;
use bool_poly::{SetOps, product};
use node_store::{Full, Handle, Store};

/// The polynomial of a literal: that of its variable, and 1 more where it is the complement.
pub fn literal_polynomial<S: Store, O: SetOps<S>>(
    store: &mut S,
    ops: &mut O,
    handles: &[Handle],
    literal: u32,
) -> Result<Handle, Full>
    requires known { KnowsLiteral (S.state store.old) handles.now literal }
    requires planned { let s = S.state store.old in
        IsPlanned s (literal_family s handles.now literal) }
    requires ready { O.ready ops.old }
    ensures result { let s = S.state store.old in
        Builds s (S.state store.new) result (literal_family s handles.now literal) }
    ensures ready { O.ready ops.new }
{
    let handle = handles[(literal / 2) as usize];
    if literal % 2 == 0 {
        return Ok(handle);
    }
    ops.xor(store, handle, Handle(1))
}

/// The product of the polynomials of a gate's operands.
fn conjunction<S: Store, O: SetOps<S>>(
    store: &mut S,
    ops: &mut O,
    handles: &[Handle],
    gate: Gate,
) -> Result<Handle, Full>
    requires left { KnowsLiteral (S.state store.old) handles.now gate.left }
    requires right { KnowsLiteral (S.state store.old) handles.now gate.right }
    requires planned { PlansStep (S.state store.old) handles.now (And gate) }
    requires ready { O.ready ops.old }
    ensures result { GivesStep (S.state store.old) (S.state store.new) result handles.now
        (And gate) }
    ensures ready { O.ready ops.new }
{
    let left = literal_polynomial(store, ops, handles, gate.left)?;
    let right = literal_polynomial(store, ops, handles, gate.right)?;
    product(store, left, right)
}

/// The sum of the polynomials of two literals.
fn exclusive_or<S: Store, O: SetOps<S>>(
    store: &mut S,
    ops: &mut O,
    handles: &[Handle],
    pair: Pair,
) -> Result<Handle, Full>
    requires left { KnowsLiteral (S.state store.old) handles.now pair.left }
    requires right { KnowsLiteral (S.state store.old) handles.now pair.right }
    requires planned { PlansStep (S.state store.old) handles.now (Xor pair) }
    requires ready { O.ready ops.old }
    ensures result { GivesStep (S.state store.old) (S.state store.new) result handles.now
        (Xor pair) }
    ensures ready { O.ready ops.new }
{
    let left = literal_polynomial(store, ops, handles, pair.left)?;
    let right = literal_polynomial(store, ops, handles, pair.right)?;
    ops.xor(store, left, right)
}

/// The polynomial of a choice: that of the literal for 0, and besides, where the choosing one is 1,
/// the sum of both.
fn multiplexer<S: Store, O: SetOps<S>>(
    store: &mut S,
    ops: &mut O,
    handles: &[Handle],
    choice: Choice,
) -> Result<Handle, Full>
    requires select { KnowsLiteral (S.state store.old) handles.now choice.select }
    requires one { KnowsLiteral (S.state store.old) handles.now choice.one }
    requires zero { KnowsLiteral (S.state store.old) handles.now choice.zero }
    requires planned { PlansStep (S.state store.old) handles.now (Mux choice) }
    requires ready { O.ready ops.old }
    ensures result { GivesStep (S.state store.old) (S.state store.new) result handles.now
        (Mux choice) }
    ensures ready { O.ready ops.new }
{
    let select = literal_polynomial(store, ops, handles, choice.select)?;
    let one = literal_polynomial(store, ops, handles, choice.one)?;
    let zero = literal_polynomial(store, ops, handles, choice.zero)?;
    let differ = ops.xor(store, one, zero)?;
    let chosen = product(store, select, differ)?;
    ops.xor(store, zero, chosen)
}

/// The polynomial that a step gives.
pub fn step_polynomial<S: Store, O: SetOps<S>>(
    store: &mut S,
    ops: &mut O,
    handles: &[Handle],
    step: Step,
) -> Result<Handle, Full>
    requires known { All (KnowsLiteral (S.state store.old) handles.now) (literals_of step) }
    requires planned { PlansStep (S.state store.old) handles.now step }
    requires ready { O.ready ops.old }
    ensures result { GivesStep (S.state store.old) (S.state store.new) result handles.now step }
    ensures ready { O.ready ops.new }
{
    match step {
        Step::Skip => Ok(Handle(0)),
        Step::And(gate) => conjunction(store, ops, handles, gate),
        Step::Xor(pair) => exclusive_or(store, ops, handles, pair),
        Step::Mux(choice) => multiplexer(store, ops, handles, choice),
    }
}
