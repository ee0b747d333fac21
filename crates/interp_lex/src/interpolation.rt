//! The recursion on the variables.
ghost use Rattle.std.specs.Prelude.{◌≡◌, IfOk};
ghost use Rattle.lattice.specs.Family.{Covers, AreDisjoint};
ghost use Rattle.lattice.specs.Interpolation.{IsLeast, interpolate};
ghost use Rattle.lattice.specs.declared.op.Op.TheVariants.{Least};
ghost use Rattle.node_store.specs.Stores.{Knows, family, Gives, needs_of};

use crate::parts::{lower_part, upper_part};
use bool_poly::SetOps;
use lattice::Op;
use node_store::{Full, Handle, Store, grow};
use set_algebra::cut;

/// The least polynomial that is 0 on `zeros` and 1 on `ones`.
pub fn least<S: Store, O: SetOps<S>>(
    store: &mut S,
    ops: &mut O,
    zeros: Handle,
    ones: Handle,
) -> Result<Handle, Full>
    requires zeros { Knows (S.state store.old) zeros }
    requires ones { Knows (S.state store.old) ones }
    requires disjoint { let s = S.state store.old in AreDisjoint (family s zeros) (family s ones) }
    requires planned { let s = S.state store.old in Covers s.plan (needs_of s Least zeros ones.0) }
    requires ready { O.ready ops.old }
    ensures result { let s = S.state store.old in
        Gives s (S.state store.new) result (interpolate s.vars (family s zeros) (family s ones))
        (needs_of s Least zeros ones.0) }
    ensures least { let s = S.state store.old in
        IfOk result (λ r. IsLeast s.vars (family s zeros) (family s ones)
        (family (S.state store.new) r)) }
    ensures ready { O.ready ops.new }
{
    if ones.0 == 0 {
        return Ok(Handle(0));
    }
    if zeros.0 == 0 {
        return Ok(Handle(1));
    }
    if let Some(r) = store.look(Op::Least, zeros, ones.0) {
        return Ok(r);
    }
    let c = cut(store, zeros, ones);
    let upper = upper_part(store, ops, c)?;
    let h = least(store, ops, upper.zeros, upper.ones)?;
    let lower = lower_part(store, ops, c, h)?;
    let g = least(store, ops, lower.zeros, lower.ones)?;
    let r = grow(store, c.var, g, h)?;
    store.keep(Op::Least, zeros, ones.0, r);
    Ok(r)
}
