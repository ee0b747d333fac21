//! The pointwise operations as types.
ghost use Rattle.std.specs.Prelude.{◌≡◌, true, refl};
ghost use Rattle.lattice.specs.Operations.{is_pointwise};
ghost use Rattle.lattice.specs.declared.op.Op.{Op};
ghost use Rattle.lattice.specs.declared.op.Op.TheVariants as variants;

use lattice::Op;

/// A pointwise operation as a type, so that the compiler makes a recursion for each, in which the
/// operation is known.
pub(crate) trait Pointwise {
    ghost OP: { Op };

    const OP: Op;

    ghost pointwise: { is_pointwise OP ≡ true };
}

pub(crate) struct Union;

pub(crate) struct Inter;

pub(crate) struct Minus;

pub(crate) struct Xor;

impl Pointwise for Union {
    ghost OP = { variants.Union };

    const OP: Op = Op::Union;

    ghost pointwise = { refl };
}

impl Pointwise for Inter {
    ghost OP = { variants.Inter };

    const OP: Op = Op::Inter;

    ghost pointwise = { refl };
}

impl Pointwise for Minus {
    ghost OP = { variants.Minus };

    const OP: Op = Op::Minus;

    ghost pointwise = { refl };
}

impl Pointwise for Xor {
    ghost OP = { variants.Xor };

    const OP: Op = Op::Xor;

    ghost pointwise = { refl };
}
