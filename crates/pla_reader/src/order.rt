//! Orders of the inputs.
ghost use Rattle.std.specs.Prelude.{◌≡◌, ◌+◌, ◌≤◌, length, IfOk, OnOk, IsErrOf};
ghost use Rattle.lattice.specs.declared.limits.TheConstants.{MAX_VARS};
ghost use Rattle.pla_reader.specs.PrintedNames.{input_names};
ghost use Rattle.pla_reader.specs.Orders.{IsOrder, file_order, names_between, names_in_order};
ghost use Rattle.pla_reader.specs.Orders.{order_named, position_named};
ghost use Rattle.pla_reader.specs.declared.order.OrderRefusal.TheVariants.{Memory};

use crate::names::{names_in_place, printed};
use crate::pla::Pla;
use lattice::{Name, Order};
use std::alloc::{AllocError, Global};

/// Why a text gave no order: it does not name every input once, or there was no memory.
#[derive(Clone, Copy, Debug, PartialEq, Eq)]
pub enum OrderRefusal {
    Bad,
    Memory,
}

impl From<AllocError> for OrderRefusal {
    ghost from_gives = { λ _ e. e ≡ Memory };

    fn from(_e: AllocError) -> OrderRefusal {
        OrderRefusal::Memory
    }
}

impl From<lattice::Memory> for OrderRefusal {
    ghost from_gives = { λ _ e. e ≡ Memory };

    fn from(_e: lattice::Memory) -> OrderRefusal {
        OrderRefusal::Memory
    }
}

/// The order of the file: the positions of its inputs, 1, 2 and so on.
#[tactic(auto, using(crate::proofs::Orders::file_order_steps))]
pub fn file_order(alloc: Global, p: &Pla) -> Result<Order, lattice::Memory>
    ensures order { IfOk result (λ order. order ≡ file_order p.now.inputs) }
    ensures good { OnOk result (IsOrder p.now.inputs (file_order p.now.inputs)) }
{
    let mut order = Order::new(alloc);
    for i in 0..p.inputs {
        order.push(i + 1)?;
    }
    Ok(order)
}

/// The position of the input of this name, from 1. Where no input has it, one more than there are
/// inputs.
#[tactic(auto, unfolding(crate::specs::Orders::position_named))]
pub fn position_of(names: &[Name], name: &[u8]) -> u32
    requires { length names.now ≤ MAX_VARS }
    ensures { result ≡ position_named names.now name.now }
{
    let place = names
        .iter()
        .position(|other| other.as_slice() == name)
        .unwrap_or(names.len());
    place as u32 + 1
}

/// The order of the inputs of these names that the text asks for: the names, each once, with commas
/// between them, the greatest variable's first.
///
/// `Bad` says that the text, cut at its commas, is no list of all the names, each once.
pub fn order_of(alloc: Global, names: &[Name], text: &[u8]) -> Result<Order, OrderRefusal>
    requires { length names.now ≤ MAX_VARS }
    ensures order { IfOk result (λ order. order ≡ order_named names.now text.now) }
    ensures good { OnOk result (IsOrder (length names.now) (order_named names.now text.now)) }
    ensures names { IfOk result (λ order. names_in_order order names.now ≡ names_between text.now) }
    ensures bad { IsErrOf result OrderRefusal.Bad
        → IsOrder (length names.now) (order_named names.now text.now) → ⊥ }
{
    let mut order = Order::new(alloc);
    for name in text.split(|byte| *byte == b',') {
        let position = position_of(names, name);
        if position as usize > names.len() || order.as_slice().contains(&position) {
            return Err(OrderRefusal::Bad);
        }
        order.push(position)?;
    }
    if order.len() == names.len() {
        Ok(order)
    } else {
        Err(OrderRefusal::Bad)
    }
}

/// The order of the inputs that the text asks for: their printed names, each once, with commas
/// between them, the greatest variable's first.
///
/// `Bad` says that the text, cut at its commas, is no list of all printed names of the inputs, each
/// once.
pub fn read_order(alloc: Global, p: &Pla, text: &[u8]) -> Result<Order, OrderRefusal>
    ensures order { IfOk result (λ order. order ≡ order_named (input_names p.now) text.now) }
    ensures good { OnOk result (IsOrder p.now.inputs (order_named (input_names p.now) text.now)) }
    ensures names { IfOk result (λ order. names_in_order order (input_names p.now)
        ≡ names_between text.now) }
    ensures bad { IsErrOf result OrderRefusal.Bad
        → IsOrder p.now.inputs (order_named (input_names p.now) text.now) → ⊥ }
{
    let in_place = names_in_place(alloc, "x", p.inputs, &p.in_names)?;
    order_of(alloc, printed(&in_place, &p.in_names), text)
}
