//! The inputs that are inverted.
ghost use Rattle.std.specs.Prelude.{◌≡◌, ◌≤◌, length, vec_len, IfOk, OnOk, IsErrOf};
ghost use Rattle.lattice.specs.declared.limits.TheConstants.{MAX_VARS};
ghost use Rattle.pla_reader.specs.Orders.{order_named};
ghost use Rattle.pla_reader.specs.declared.order.OrderRefusal.TheVariants.{Bad};
ghost use Rattle.aig_inputs.specs.Names.{AreInputs, inverted_named};

use lattice::Name;
use pla_reader::{OrderRefusal, position_of};
use std::alloc::Global;

/// For each input, whether the text names it: it has names with commas between them.
///
/// `Bad` says that the text, cut at its commas, has a name of no input, or one twice.
#[tactic(auto, unfolding(pla_reader::specs::Orders::position_named))]
pub fn read_inverted(alloc: Global, names: &[Name], text: &[u8]) -> Result<Vec<bool>, OrderRefusal>
    requires { length names.now ≤ MAX_VARS }
    ensures named { IfOk result (λ inverted. inverted.items ≡ inverted_named names.now text.now) }
    ensures count { IfOk result (λ inverted. vec_len inverted ≡ length names.now) }
    ensures good { OnOk result (AreInputs (length names.now) (order_named names.now text.now)) }
    ensures bad { IsErrOf result Bad
        → AreInputs (length names.now) (order_named names.now text.now) → ⊥ }
{
    let mut inverted = vec![in alloc; false; names.len()]?;
    for name in text.split(|byte| *byte == b',') {
        let position = position_of(names, name) as usize;
        if position > names.len() || inverted[position - 1] {
            return Err(OrderRefusal::Bad);
        }
        inverted[position - 1] = true;
    }
    Ok(inverted)
}
