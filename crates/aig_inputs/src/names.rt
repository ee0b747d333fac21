//! The names of inputs that are inverted.
ghost use Rattle.std.specs.Prelude.{◌≡◌, IfOk, length};
ghost use Rattle.pla_reader.specs.Orders.{IsOrder};
ghost use Rattle.aig_inputs.specs.Names.{marked_name, marked_names};

use lattice::{Memory, Name, Names, Order};
use std::alloc::Global;

/// The byte that stands before the name of an inverted input.
const MARK: u8 = b'~';

/// A copy of the names.
pub fn copied(alloc: Global, names: &[Name]) -> Result<Names, Memory>
    ensures { IfOk result (λ copies. copies ≡ names.now) }
{
    let mut copies = Names::new(alloc);
    for name in names {
        copies.push(marked_name(alloc, name.as_slice(), false)?)?;
    }
    Ok(copies)
}

/// The name, behind a `~` where it is inverted.
fn marked_name(alloc: Global, name: &[u8], inverted: bool) -> Result<Name, Memory>
    ensures { IfOk result (λ marked. marked ≡ marked_name inverted name.now) }
{
    let mut marked = Vec::new(alloc);
    if inverted {
        marked.push(MARK)?;
    }
    marked.extend_from_slice(name)?;
    Ok(Name::from_vec(marked))
}

/// The names of the inputs in the order, each behind a `~` where its input is inverted.
///
/// `inverted` says for each input, in the order of the file, whether it is.
#[tactic(auto, using(crate::proofs::Naming::naming_steps))]
pub fn marked_names(
    alloc: Global,
    names: &[Name],
    order: &Order,
    inverted: &[bool],
) -> Result<Names, Memory>
    requires order { IsOrder (length names.now) order.now }
    requires inverted { length inverted.now ≡ length names.now }
    ensures { IfOk result (λ marked. marked ≡ marked_names order.now inverted.now names.now) }
{
    let mut marked = Names::new(alloc);
    for position in order.as_slice() {
        let input = *position as usize - 1;
        marked.push(marked_name(alloc, names[input].as_slice(), inverted[input])?)?;
    }
    Ok(marked)
}
