//! Descriptions whose inputs are arranged by an order.
ghost use Rattle.std.specs.Prelude.{◌≡◌, ◌≤◌, IfOk, All, length, map};
ghost use Rattle.lattice.specs.declared.limits.TheConstants.{MAX_VARS};
ghost use Rattle.pla_reader.specs.Reading.{description};
ghost use Rattle.pla_reader.specs.Orders.{IsOrder, arranged, arranged_mask, arranged_row};
ghost use Rattle.pla_reader.specs.Orders.{names_in_order};

use crate::names::{names_in_place, printed};
use crate::pla::{Pla, Rows};
use lattice::{Memory, Mono, Name, Names, Order, Row};
use std::alloc::Global;

/// The variables whose inputs have their bit in the mask. The last variable has weight 1.
#[tactic(auto, using(crate::proofs::Orders::arranging_steps))]
fn arranged_mask(inputs: u32, order: &[u32], mask: u64) -> u64
    requires few { inputs ≤ MAX_VARS }
    requires order { IsOrder inputs order.now }
    ensures { result ≡ arranged_mask inputs order.now mask }
{
    let mut arranged = 0;
    for position in order {
        let weight = Mono(1 << (inputs - *position));
        arranged = 2 * arranged + u64::from(weight.divides(mask));
    }
    arranged
}

/// The row over the variables.
fn arranged_row(inputs: u32, order: &[u32], row: Row) -> Row
    requires few { inputs ≤ MAX_VARS }
    requires order { IsOrder inputs order.now }
    ensures { result ≡ arranged_row inputs order.now row }
{
    Row {
        care: arranged_mask(inputs, order, row.care),
        value: arranged_mask(inputs, order, row.value),
        ..row
    }
}

/// The rows over the variables.
fn arranged_rows(alloc: Global, inputs: u32, order: &[u32], rows: &[Row]) -> Result<Rows, Memory>
    requires few { inputs ≤ MAX_VARS }
    requires order { IsOrder inputs order.now }
    ensures { IfOk result (λ arranged. arranged ≡ map (arranged_row inputs order.now) rows.now) }
{
    let mut arranged = Rows::new(alloc);
    for row in rows {
        arranged.push(arranged_row(inputs, order, *row))?;
    }
    Ok(arranged)
}

/// A copy of the names.
fn copied(alloc: Global, names: &[Name]) -> Result<Names, Memory>
    ensures { IfOk result (λ copies. copies ≡ names.now) }
{
    let mut copies = Names::new(alloc);
    for name in names {
        copies.push(Name::from_vec(Vec::from_slice(alloc, name.as_slice())?))?;
    }
    Ok(copies)
}

/// The names of the inputs, in the order.
#[tactic(auto, using(crate::proofs::Orders::arranging_steps))]
pub fn names_in_order(alloc: Global, order: &[u32], names: &[Name]) -> Result<Names, Memory>
    requires { IsOrder (length names.now) order.now }
    ensures { IfOk result (λ arranged. arranged ≡ names_in_order order.now names.now) }
{
    let mut arranged = Names::new(alloc);
    for position in order {
        let name = names[*position as usize - 1].as_slice();
        arranged.push(Name::from_vec(Vec::from_slice(alloc, name)?))?;
    }
    Ok(arranged)
}

/// The description over the variables: variable i is the input at the order's i-th position.
///
/// In each row the variables have the bits of their inputs. The names of the inputs are the printed
/// ones, in the order. All else is as in `p`.
pub fn arrange(alloc: Global, p: &Pla, order: &Order) -> Result<Pla, Memory>
    requires { IsOrder p.now.inputs order.now }
    ensures { IfOk result (λ q. description q ≡ arranged (description p.now) order.now) }
{
    let order = order.as_slice();
    let in_place = names_in_place(alloc, "x", p.inputs, &p.in_names)?;
    let names = printed(&in_place, &p.in_names);
    Ok(Pla {
        inputs: p.inputs,
        outputs: p.outputs,
        kind: p.kind,
        rows: arranged_rows(alloc, p.inputs, order, p.rows.as_slice())?,
        in_names: names_in_order(alloc, order, names)?,
        out_names: copied(alloc, p.out_names.as_slice())?,
    })
}
