//! Set operations with their halves in another order.
ghost use Rattle.std.specs.Prelude.{◌≡◌, true};
ghost use Rattle.lattice.specs.Operations.{is_pointwise};
ghost use Rattle.set_algebra.specs.Pairs.{Asks};
ghost use Rattle.bool_poly.specs.Parts.{AsksOnes, AsksWith};
ghost use Rattle.fork_branches.specs.Branches.{Combines, CombinesBoth, FindsOnes, FindsWith};
ghost use Rattle.fork_branches.specs.Branches.{FindsBoth};

use bool_poly::{SetOps, begin_ones, finish_ones, ones_of, part_with};
use lattice::Op;
use node_store::{Full, Handle, Store};
use set_algebra::{Begun, Cofactors, begin, combine, finish};

// So many cuts deep an operation is turned. Deeper halves are too small to be shared out.
const TURNED_CUTS: u32 = 16;

// For each place four bits, one for each remainder of a variable's number by 4: whether the half
// with the variable comes first there. Of two neighbours one does all the other way round.
const TURNS: [u32; 16] = [0, 15, 5, 10, 3, 12, 6, 9, 1, 14, 2, 13, 4, 11, 7, 8];

/// The set operations, one after the other, of one of several workers that all do the same job. At
/// some variables the half with the variable comes first: the worker's place says at which ones. So
/// the workers are at other parts of an operation, and each finds in the store what the others kept
/// there.
#[derive(Clone, Copy)]
pub struct Turned {
    turns: u32,
}

impl Turned {
    /// The operations of the worker at the place.
    pub fn at(place: u32) -> Turned {
        Turned {
            turns: TURNS[place as usize % TURNS.len()],
        }
    }

    // Whether the half with the variable comes first.
    fn has_high_first(self, var: u32) -> bool {
        (self.turns >> (var % 4)) % 2 == 1
    }
}

// Both halves of a pointwise operation.
#[cycle(turned)]
fn combine_halves<S: Store>(
    store: &mut S,
    turned: Turned,
    cuts: u32,
    op: Op,
    c: Cofactors,
) -> Result<(Handle, Handle), Full>
    requires op { is_pointwise op ≡ true }
    requires low { Asks op (S.state store.old) c.a_low c.b_low }
    requires high { Asks op (S.state store.old) c.a_high c.b_high }
    ensures { CombinesBoth op (S.state store.old) (S.state store.new) c.a_low c.b_low c.a_high
        c.b_high result }
{
    if turned.has_high_first(c.var) {
        let hi = combine_turned(store, turned, cuts, op, c.a_high, c.b_high)?;
        let lo = combine_turned(store, turned, cuts, op, c.a_low, c.b_low)?;
        return Ok((lo, hi));
    }
    let lo = combine_turned(store, turned, cuts, op, c.a_low, c.b_low)?;
    let hi = combine_turned(store, turned, cuts, op, c.a_high, c.b_high)?;
    Ok((lo, hi))
}

// The result of a pointwise operation, turned for so many cuts.
#[cycle(turned)]
fn combine_turned<S: Store>(
    store: &mut S,
    turned: Turned,
    cuts: u32,
    op: Op,
    a: Handle,
    b: Handle,
) -> Result<Handle, Full>
    requires op { is_pointwise op ≡ true }
    requires asks { Asks op (S.state store.old) a b }
    ensures { Combines op (S.state store.old) (S.state store.new) a b result }
{
    if cuts == 0 {
        return combine(store, op, a, b);
    }
    match begin(store, op, a, b) {
        Begun::Done(r) => Ok(r),
        Begun::Halves(halved) => {
            let (lo, hi) = combine_halves(store, turned, cuts - 1, op, halved.cofactors)?;
            finish(store, op, halved, lo, hi)
        }
    }
}

// The points with a variable at which the sum of both parts is 1.
#[cycle(turned_ones)]
fn with_turned<S: Store>(
    store: &mut S,
    turned: Turned,
    cuts: u32,
    low: Handle,
    high: Handle,
    points: Handle,
) -> Result<Handle, Full>
    requires asks { AsksWith (S.state store.old) low high points }
    ensures { FindsWith (S.state store.old) (S.state store.new) low high points result }
{
    let with = part_with(store, low, high, points)?;
    ones_turned(store, turned, cuts, with, points)
}

// Both halves of the points where a polynomial is 1.
#[cycle(turned_ones)]
fn ones_halves<S: Store>(
    store: &mut S,
    turned: Turned,
    cuts: u32,
    c: Cofactors,
) -> Result<(Handle, Handle), Full>
    requires low { AsksOnes (S.state store.old) c.a_low c.b_low }
    requires high { AsksWith (S.state store.old) c.a_low c.a_high c.b_high }
    ensures { FindsBoth (S.state store.old) (S.state store.new) c.a_low c.b_low c.a_high c.b_high
        result }
{
    if turned.has_high_first(c.var) {
        let hi = with_turned(store, turned, cuts, c.a_low, c.a_high, c.b_high)?;
        let lo = ones_turned(store, turned, cuts, c.a_low, c.b_low)?;
        return Ok((lo, hi));
    }
    let lo = ones_turned(store, turned, cuts, c.a_low, c.b_low)?;
    let hi = with_turned(store, turned, cuts, c.a_low, c.a_high, c.b_high)?;
    Ok((lo, hi))
}

// The points of `set` at which the polynomial `h` is 1, turned for so many cuts.
#[cycle(turned_ones)]
fn ones_turned<S: Store>(
    store: &mut S,
    turned: Turned,
    cuts: u32,
    h: Handle,
    set: Handle,
) -> Result<Handle, Full>
    requires asks { AsksOnes (S.state store.old) h set }
    ensures { FindsOnes (S.state store.old) (S.state store.new) h set result }
{
    if cuts == 0 {
        return ones_of(store, h, set);
    }
    match begin_ones(store, h, set) {
        Begun::Done(r) => Ok(r),
        Begun::Halves(halved) => {
            let (lo, hi) = ones_halves(store, turned, cuts - 1, halved.cofactors)?;
            finish_ones(store, halved, lo, hi)
        }
    }
}

impl<S: Store> SetOps<S> for Turned {
    ghost ready = { λ _. Unit {0} };

    fn union(&mut self, store: &mut S, a: Handle, b: Handle) -> Result<Handle, Full> {
        combine_turned(store, *self, TURNED_CUTS, Op::Union, a, b)
    }

    fn inter(&mut self, store: &mut S, a: Handle, b: Handle) -> Result<Handle, Full> {
        combine_turned(store, *self, TURNED_CUTS, Op::Inter, a, b)
    }

    fn minus(&mut self, store: &mut S, a: Handle, b: Handle) -> Result<Handle, Full> {
        combine_turned(store, *self, TURNED_CUTS, Op::Minus, a, b)
    }

    fn xor(&mut self, store: &mut S, a: Handle, b: Handle) -> Result<Handle, Full> {
        combine_turned(store, *self, TURNED_CUTS, Op::Xor, a, b)
    }

    fn ones_of(&mut self, store: &mut S, a: Handle, b: Handle) -> Result<Handle, Full> {
        ones_turned(store, *self, TURNED_CUTS, a, b)
    }
}
