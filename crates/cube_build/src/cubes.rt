//! The points of a row's cube.
ghost use Rattle.std.specs.Prelude.{◌≡◌, ◌<◌, ◌+◌, ◌^◌, true};
ghost use Rattle.lattice.specs.Family.{divides};
ghost use Rattle.lattice.specs.Cofactors.{low_cofactor, high_cofactor};
ghost use Rattle.lattice.specs.Rows.{cube};
ghost use Rattle.node_store.specs.Stores.{State, Denotes, IsSound, IsPlanned, Builds};
ghost use Rattle.cube_build.specs.PartialCubes.{cube_behind};

use lattice::Row;
use node_store::{Full, Handle, Store, grow};

/// The children of a cube's node, where `rest` is the cube over the `behind` variables that come
/// after the node's.
fn children(row: &Row, behind: u32, rest: Handle) -> (Handle, Handle)
    requires behind { behind < 64 }
    requires value { divides row.now.value row.now.care ≡ true }
    ensures low { (s : State) → IsSound s → Denotes s rest (cube_behind behind row.now)
        → Denotes s result.0 (low_cofactor behind (cube_behind (behind + 1) row.now)) }
    ensures high { (s : State) → IsSound s → Denotes s rest (cube_behind behind row.now)
        → Denotes s result.1 (high_cofactor behind (cube_behind (behind + 1) row.now)) }
{
    let weight = 1u64 << behind;
    if row.care & weight == 0 {
        (rest, rest)
    } else if row.value & weight == 0 {
        (rest, Handle(0))
    } else {
        (Handle(0), rest)
    }
}

/// The points of the row's cube. It interns a node for each variable that the row does not fix to
/// 0, and is Full only where the plan has more families than the store has slots.
pub fn cube<S: Store>(store: &mut S, row: &Row) -> Result<Handle, Full>
    requires care { row.now.care < 2 ^ (S.state store.old).vars }
    requires value { divides row.now.value row.now.care ≡ true }
    requires planned { let s = S.state store.old in IsPlanned s (cube s.vars row.now) }
    ensures { let s = S.state store.old in
        Builds s (S.state store.new) result (cube s.vars row.now) }
{
    let vars = store.vars();
    let mut points = Handle(1);
    for behind in 0..vars {
        let (lo, hi) = children(row, behind, points);
        points = grow(store, vars - behind, lo, hi)?;
    }
    Ok(points)
}
