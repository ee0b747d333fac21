//! Gates whose lines stand in any order, placed so that each stands only on what is before it.
ghost use Rattle.std.specs.Prelude.{◌≡◌, ◌+◌, ◌-◌, ◌/◌, ◌<◌, ◌≤◌, true, false, [], ◌∷◌, ◌++◌};
ghost use Rattle.std.specs.Prelude.{length, replicate, slice_set};
ghost use Rattle.std.specs.Prelude.{Ok, MatchResult, IfOk, IfErr, OnOk};
ghost use Rattle.lattice.specs.declared.limits.TheConstants.{MAX_VARS};
ghost use Rattle.aig_reader.specs.declared.refusal.Stop.TheVariants.{Memory};
ghost use Rattle.aig_reader.specs.declared.order.Placing.TheVariants.{Placed};
ghost use Rattle.aig_reader.specs.Ascii.{IsUpTo};
ghost use Rattle.aig_reader.specs.Order.{AreGates, IsGrounded, Places, IsResting, Visits};
ghost use Rattle.aig_reader.specs.Order.{IsPlacing, ordered, unplaced, is_open, open_operand};
ghost use Rattle.aig_reader.specs.Order.{number, renumbered, put};

use crate::circuit::{Gate, MAX_GATES};
use crate::refusal::Stop;
use std::alloc::Global;

/// The gates that are placed, with operands in the variables of this order; and the number of each
/// gate's variable among these: 0 where it is not placed.
#[derive(Drop)]
pub struct Order {
    pub numbers: Vec<u32>,
    pub gates: Vec<Gate>,
}

/// What placing gates gives.
#[derive(Drop)]
pub enum Placing {
    /// All are placed.
    Placed(Order),
    /// The gate of this line, counted from 0, is the first that stands on one that stands on
    /// itself.
    OnItself(u32),
}

/// The gates that are placed, which ones were seen, and those that are being placed, by their
/// variables: each stands on the next one.
#[derive(Drop)]
pub struct Walk {
    pub order: Order,
    pub seen: Vec<bool>,
    pub path: Vec<u32>,
}

impl Order {
    /// Places none of so many gates behind these inputs.
    fn new(alloc: Global, inputs: u32, count: usize) -> Result<Order, Stop>
        requires inputs { inputs ≤ MAX_VARS }
        requires count { count ≤ MAX_GATES }
        ensures { MatchResult result (λ order. ordered order ≡ unplaced inputs count)
            (λ e. e ≡ Memory) }
    {
        let numbers = vec![in alloc; 0; inputs as usize + 1 + count]?;
        let gates = Vec::new(alloc);
        Ok(Order { numbers, gates })
    }

    /// Whether the variable is a gate that is not placed.
    fn is_open(&self, inputs: u32, variable: u32) -> bool
        requires { variable < length self.now.numbers.items }
        ensures { result ≡ is_open inputs (ordered self.now) variable }
    {
        variable > inputs && self.numbers[variable as usize] == 0
    }

    /// The gate's first operand that is a gate that is not placed, by its variable.
    fn open_operand(&self, inputs: u32, gate: Gate) -> Option<u32>
        requires left { gate.left / 2 < length self.now.numbers.items }
        requires right { gate.right / 2 < length self.now.numbers.items }
        ensures { result ≡ open_operand inputs (ordered self.now) gate }
    {
        if self.is_open(inputs, gate.left / 2) {
            return Some(gate.left / 2);
        }
        if self.is_open(inputs, gate.right / 2) {
            return Some(gate.right / 2);
        }
        None
    }

    /// The number of the variable: the constant and the inputs keep theirs.
    fn number(&self, inputs: u32, variable: u32) -> u32
        requires inputs { inputs ≤ MAX_VARS }
        requires within { variable < length self.now.numbers.items }
        requires small { IsUpTo (MAX_VARS + MAX_GATES) self.now.numbers.items }
        ensures number { result ≡ number inputs (ordered self.now) variable }
        ensures small { result ≤ MAX_VARS + MAX_GATES }
    {
        if variable > inputs {
            self.numbers[variable as usize]
        } else {
            variable
        }
    }

    /// The literal of a line, in the variables of this order.
    pub fn renumbered(&self, inputs: u32, literal: u32) -> u32
        requires inputs { inputs ≤ MAX_VARS }
        requires within { literal / 2 < length self.now.numbers.items }
        requires small { IsUpTo (MAX_VARS + MAX_GATES) self.now.numbers.items }
        ensures { result ≡ renumbered inputs (ordered self.now) literal }
    {
        2 * self.number(inputs, literal / 2) + literal % 2
    }

    /// Puts the gate of the variable behind those that are placed.
    fn put(&mut self, inputs: u32, variable: u32, gate: Gate) -> Result<(), Stop>
        requires inputs { inputs ≤ MAX_VARS }
        requires room { length self.old.gates.items < MAX_GATES }
        requires small { IsUpTo (MAX_VARS + MAX_GATES) self.old.numbers.items }
        requires variable { variable < length self.old.numbers.items }
        requires left { gate.left / 2 < length self.old.numbers.items }
        requires right { gate.right / 2 < length self.old.numbers.items }
        ensures { MatchResult result
            (λ _. ordered self.new ≡ put inputs (ordered self.old) variable gate)
            (λ e. e ≡ Memory) }
    {
        let left = self.renumbered(inputs, gate.left);
        let right = self.renumbered(inputs, gate.right);
        let number = inputs + 1 + self.gates.len() as u32;
        self.gates.push(Gate { left, right })?;
        self.numbers[variable as usize] = number;
        Ok(())
    }
}

impl Walk {
    /// Places none of so many gates behind these inputs.
    fn new(alloc: Global, inputs: u32, count: usize) -> Result<Walk, Stop>
        requires inputs { inputs ≤ MAX_VARS }
        requires count { count ≤ MAX_GATES }
        ensures order { MatchResult result (λ walk. ordered walk.order ≡ unplaced inputs count)
            (λ e. e ≡ Memory) }
        ensures seen { IfOk result (λ walk. walk.seen.items ≡ replicate count false) }
        ensures path { IfOk result (λ walk. walk.path.items ≡ []) }
    {
        Ok(Walk {
            order: Order::new(alloc, inputs, count)?,
            seen: vec![in alloc; false; count]?,
            path: Vec::new(alloc),
        })
    }

    /// Puts the gate of the variable on the path.
    fn push(&mut self, inputs: u32, variable: u32) -> Result<(), Stop>
        requires inputs { inputs < variable }
        requires within { variable < inputs + 1 + length self.old.seen.items }
        ensures order { self.new.order ≡ self.old.order }
        ensures seen { OnOk result (self.new.seen.items
            ≡ slice_set self.old.seen.items (variable - (inputs + 1)) true) }
        ensures path { OnOk result (self.new.path.items ≡ self.old.path.items ++ variable ∷ []) }
        ensures memory { IfErr result (λ e. e ≡ Memory) }
    {
        self.seen[(variable - (inputs + 1)) as usize] = true;
        self.path.push(variable)?;
        Ok(())
    }

    /// Places the gate that was the last of the path; or puts it back, and behind it an operand
    /// that is not placed. Whether this operand was not on the path.
    fn visit(&mut self, inputs: u32, lines: &[Gate], last: u32) -> Result<bool, Stop>
        requires gates { AreGates inputs lines.now }
        requires last { (inputs < last) × (last < inputs + 1 + length lines.now) }
        requires room { length self.old.order.gates.items < MAX_GATES }
        requires small { IsUpTo (MAX_VARS + MAX_GATES) self.old.order.numbers.items }
        requires numbers { length self.old.order.numbers.items ≡ inputs + 1 + length lines.now }
        requires seen { length self.old.seen.items ≡ length lines.now }
        ensures visits { IfOk result (Visits inputs lines.now last self.old self.new) }
        ensures memory { IfErr result (λ e. e ≡ Memory) }
    {
        let gate = lines[(last - (inputs + 1)) as usize];
        let Some(below) = self.order.open_operand(inputs, gate) else {
            self.order.put(inputs, last, gate)?;
            return Ok(true);
        };
        if self.seen[(below - (inputs + 1)) as usize] {
            return Ok(false);
        }
        self.path.push(last)?;
        self.push(inputs, below)?;
        Ok(true)
    }

    /// Places the variable, and first all that it stands on. Whether it could be placed.
    fn place(&mut self, inputs: u32, lines: &[Gate], variable: u32) -> Result<bool, Stop>
        requires gates { AreGates inputs lines.now }
        requires variable { variable < inputs + 1 + length lines.now }
        requires resting { IsResting inputs lines.now self.old }
        ensures resting { IfOk result (λ placed. placed ≡ true
            → IsResting inputs lines.now self.new) }
        ensures placed { IfOk result (λ placed. placed ≡ true
            → Places inputs lines.now (ordered self.old.order) variable (ordered self.new.order)) }
        ensures on_itself { IfOk result (λ placed. placed ≡ false
            → IsGrounded inputs lines.now variable → ⊥) }
        ensures memory { IfErr result (λ e. e ≡ Memory) }
    {
        if !self.order.is_open(inputs, variable) {
            return Ok(true);
        }
        self.push(inputs, variable)?;
        while let Some(last) = self.path.pop() {
            if !self.visit(inputs, lines, last)? {
                return Ok(false);
            }
        }
        Ok(true)
    }
}

/// Places all gates behind these inputs, in the order of their lines, and before each one those
/// that it stands on.
pub fn place_all(alloc: Global, inputs: u32, lines: &[Gate]) -> Result<Placing, Stop>
    requires { AreGates inputs lines.now }
    ensures placed { MatchResult result (IsPlacing inputs lines.now) (λ e. e ≡ Memory) }
    ensures few { (order : Order) → result ≡ Ok (Placed order)
        → length order.gates.items ≤ length lines.now }
{
    let mut walk = Walk::new(alloc, inputs, lines.len())?;
    for k in 0..lines.len() as u32 {
        if !walk.place(inputs, lines, inputs + 1 + k)? {
            return Ok(Placing::OnItself(k));
        }
    }
    Ok(Placing::Placed(walk.order))
}
