//! Orders in which names are those of another list.
ghost use Rattle.std.specs.Prelude.{◌≡◌, ◌≢◌, ◌≤◌, List, ℕ, IfOk, MatchOption, length, position};
ghost use Rattle.std.specs.List.{AllPairs};
ghost use Rattle.std.specs.Str.{bytes_eq};
ghost use Rattle.aig_reader.specs.declared.circuit.TheConstants.{MAX_OUTPUTS};
ghost use Rattle.pla_reader.specs.PrintedNames.{printed_names};
ghost use Rattle.aig_pairs.specs.Matching.{PutsInOrder};

use lattice::{Memory, Name, Names, Order};
use pla_reader::{names_in_place, printed};
use std::alloc::Global;

/// The place, from 0, of the name among the names.
fn place_of(names: &[Name], name: &[u8]) -> Option<usize>
    ensures { result ≡ position (λ other. bytes_eq other name.now) names.now }
{
    names.iter().position(|other| other.as_slice() == name)
}

/// The order of the names in which they are the wanted ones; none where no order makes them these.
fn order_of(alloc: Global, names: &[Name], wanted: &[Name]) -> Result<Option<Order>, Memory>
    requires few { length names.now ≤ MAX_OUTPUTS }
    requires distinct { AllPairs (λ name other. name ≢ other) wanted.now }
    ensures { IfOk result (λ found. MatchOption found
        ((order : List ℕ) → PutsInOrder names.now wanted.now order → ⊥)
        (PutsInOrder names.now wanted.now)) }
{
    if names.len() != wanted.len() {
        return Ok(None);
    }
    let mut order = Order::new(alloc);
    for name in wanted {
        match place_of(names, name.as_slice()) {
            Some(place) => order.push(place as u32 + 1)?,
            None => return Ok(None),
        }
    }
    Ok(Some(order))
}

/// The order of the second names, as they are printed, in which they are the first ones; none where
/// no order makes them these.
pub fn printed_order(
    alloc: Global,
    letter: &str,
    first: &Names,
    second: &Names,
) -> Result<Option<Order>, Memory>
    requires first { length first.now ≤ MAX_OUTPUTS }
    requires second { length second.now ≤ MAX_OUTPUTS }
    ensures { let wanted = printed_names letter.now (length first.now) first.now in
        let names = printed_names letter.now (length second.now) second.now in
        IfOk result (λ found. MatchOption found
        ((order : List ℕ) → PutsInOrder names wanted order → ⊥) (PutsInOrder names wanted)) }
{
    let first_in_place = names_in_place(alloc, letter, first.len() as u32, first)?;
    let second_in_place = names_in_place(alloc, letter, second.len() as u32, second)?;
    let wanted = printed(&first_in_place, first);
    order_of(alloc, printed(&second_in_place, second), wanted)
}
