//! The cubes of all rows, each built once.
ghost use Rattle.std.specs.Prelude.{◌≡◌, ◌<◌, ◌^◌, true, IfOk, OnOk, IsErrOf};
ghost use Rattle.std.specs.List.{flat_map};
ghost use Rattle.lattice.specs.Family.{divides, Covers};
ghost use Rattle.lattice.specs.WorkingLists.{working_set, care_list, output_numbers};
ghost use Rattle.node_store.specs.Stores.{IsPlanned, Builds, Grows, IsFull};
ghost use Rattle.cube_build.specs.UsedCubes.{names_output, used_cube, AreCubes};

use crate::cubes::cube;
use lattice::Row;
use node_store::{Full, Handle, SolveRefusal, Store};
use pla_reader::Pla;
use std::alloc::Global;

/// Whether the row says something of an output.
fn names_output(row: &Row) -> bool
    ensures { result ≡ names_output row.now }
{
    row.on != 0 || row.off != 0 || row.dc != 0
}

/// The row's cube, or no points where the row says nothing of any output.
fn used_cube<S: Store>(store: &mut S, row: &Row) -> Result<Handle, Full>
    requires care { row.now.care < 2 ^ (S.state store.old).vars }
    requires value { divides row.now.value row.now.care ≡ true }
    requires planned { let s = S.state store.old in IsPlanned s (used_cube s.vars row.now) }
    ensures { let s = S.state store.old in
        Builds s (S.state store.new) result (used_cube s.vars row.now) }
{
    if names_output(row) {
        cube(store, row)
    } else {
        Ok(Handle(0))
    }
}

/// The handle of each row's cube, in the order of the rows, in a store with a variable for each
/// input; Handle(0) for a row that says nothing of any output. `Full` comes only where the plan has
/// more families than the store has slots, and `Memory` where the list of handles found none.
pub fn row_cubes<S: Store>(
    alloc: Global,
    store: &mut S,
    p: &Pla,
) -> Result<Vec<Handle>, SolveRefusal>
    requires vars { (S.state store.old).vars ≡ p.now.inputs }
    requires planned { let d = p.now in
        Covers (S.state store.old).plan
        (working_set d.inputs (flat_map (care_list d.inputs d.kind d.rows)
        (output_numbers d.outputs))) }
    ensures grows { Grows (S.state store.old) (S.state store.new) }
    ensures cubes { IfOk result (λ cubes. AreCubes (S.state store.new) p.now.rows cubes.items) }
    ensures quiet { OnOk result ((S.state store.new).refusals ≡ (S.state store.old).refusals) }
    ensures full { IsErrOf result SolveRefusal.Full
        → IsFull (S.state store.old) (S.state store.new) }
{
    let mut cubes = Vec::new(alloc);
    for row in p.rows.as_slice() {
        cubes.push(used_cube(store, row)?)?;
    }
    Ok(cubes)
}
