//! The points of the rows that say the same of an output.
ghost use Rattle.std.specs.Prelude.{◌≡◌, ◌≤◌, ◌-◌, ◌^◌, true};
ghost use Rattle.lattice.specs.Family.{divides, Covers};
ghost use Rattle.lattice.specs.Rows.{cover};
ghost use Rattle.lattice.specs.WorkingLists.{working_set, cover_list};
ghost use Rattle.node_store.specs.Stores.{Gives};
ghost use Rattle.cube_build.specs.PointSets.{mask_of, set_rows, sets_of};
ghost use Rattle.cube_build.specs.UsedCubes.{AreCubes};

use crate::cubes::cube;
use lattice::{Kind, Row};
use node_store::{Full, Handle, Store};
use pla_reader::Pla;
use set_algebra::union;

/// A set of points of an output: what its rows say is 1, what they say is 0, or what they leave
/// open.
#[derive(Clone, Copy, PartialEq, Eq, Debug)]
pub enum PointSet {
    On,
    Off,
    Dc,
}

/// The sets that each output of a type has, at most three.
pub fn sets_of(kind: Kind) -> &'static [PointSet]
    ensures { result.now ≡ sets_of kind }
{
    match kind {
        Kind::F => &[PointSet::On],
        Kind::Fd => &[PointSet::On, PointSet::Dc],
        Kind::Fr => &[PointSet::On, PointSet::Off],
        Kind::Fdr => &[PointSet::On, PointSet::Off, PointSet::Dc],
    }
}

/// Whether the row's cube is in this set of the output.
fn is_in(row: &Row, set: PointSet, output: u32) -> bool
    requires { (1 ≤ output) × (output ≤ 64) }
    ensures { result ≡ divides (2 ^ (output - 1)) (mask_of set row.now) }
{
    let mask = match set {
        PointSet::On => row.on,
        PointSet::Off => row.off,
        PointSet::Dc => row.dc,
    };
    let bit = 1u64 << (output - 1);
    bit & mask == bit
}

/// The points of a set of the output, whose numbers begin with 1: the union of its rows' cubes, in
/// the order of the rows, from the cubes that `row_cubes` gives. It is Full only where the plan has
/// more families than the store has slots.
pub fn cover<S: Store>(
    store: &mut S,
    rows: &[Row],
    cubes: &[Handle],
    set: PointSet,
    output: u32,
) -> Result<Handle, Full>
    requires cubes { AreCubes (S.state store.old) rows.now cubes.now }
    requires output { (1 ≤ output) × (output ≤ 64) }
    requires planned { let s = S.state store.old in
        Covers s.plan (working_set s.vars (cover_list s.vars (set_rows set output rows.now))) }
    ensures { let s = S.state store.old in let chosen = set_rows set output rows.now in
        Gives s (S.state store.new) result (cover s.vars chosen)
        (working_set s.vars (cover_list s.vars chosen)) }
{
    let mut points = Handle(0);
    for (row, cube) in rows.iter().zip(cubes) {
        if is_in(row, set, output) {
            points = union(store, points, *cube)?;
        }
    }
    Ok(points)
}

/// The same, where no cubes are given: each is built when it is united, those of no other rows.
pub(crate) fn build_cover<S: Store>(
    store: &mut S,
    p: &Pla,
    set: PointSet,
    output: u32,
) -> Result<Handle, Full>
    requires output { (1 ≤ output) × (output ≤ 64) }
    requires vars { (S.state store.old).vars ≡ p.now.inputs }
    requires planned { let s = S.state store.old in
        Covers s.plan (working_set s.vars (cover_list s.vars (set_rows set output p.now.rows))) }
    ensures { let s = S.state store.old in let chosen = set_rows set output p.now.rows in
        Gives s (S.state store.new) result (cover s.vars chosen)
        (working_set s.vars (cover_list s.vars chosen)) }
{
    let mut points = Handle(0);
    for row in p.rows.as_slice() {
        if is_in(row, set, output) {
            let points_of_row = cube(store, row)?;
            points = union(store, points, points_of_row)?;
        }
    }
    Ok(points)
}
