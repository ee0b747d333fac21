//! The rows that may contradict a row at all, by the columns that every row fixes which gives a
//! value.
ghost use Rattle.std.specs.Prelude.{◌≡◌, ◌<◌, ◌%◌, false, bit_and, length};
ghost use Rattle.std.specs.List.{All};
ghost use Rattle.lattice.specs.declared.row.Row.{Row};
ghost use Rattle.cube_sets.specs.Buckets.{Fixes, IsMarked, MeetsNone};

use lattice::Row;

/// The greatest primes below 2^15. Of rows with one bucket by the one, few have one by the other.
pub(crate) const BUCKETS: usize = 32_749;

pub(crate) const OTHER_BUCKETS: usize = 32_719;

// The columns that the row fixes, and every column where it gives no value and so contradicts none.
fn fixed_by(row: &Row) -> u64
    ensures { Fixes result row.now }
{
    if row.on == 0 && row.off == 0 {
        u64::MAX
    } else {
        row.care
    }
}

/// The columns that every row fixes which gives a value.
pub(crate) fn common_care(rows: &[Row]) -> u64
    ensures { All (Fixes result) rows.now }
{
    let mut common = u64::MAX;
    for row in rows {
        common &= fixed_by(row);
    }
    common
}

// The bucket of a row, of so many. Rows that give values and share a point have the same values in
// the common columns, so they have one bucket.
fn bucket_of(row: &Row, common: u64, buckets: usize) -> usize
    requires { 0 < buckets }
    ensures { result ≡ bit_and row.now.value common % buckets }
{
    (row.value & common) as usize % buckets
}

/// Marks in each bucket the outputs that some row in it says to be 0.
pub(crate) fn mark_offs(offs: &mut [u64], rows: &[Row], common: u64)
    requires { 0 < length offs.old }
    ensures length { length offs.new ≡ length offs.old }
    ensures marked { All (IsMarked (length offs.old) common offs.new) rows.now }
{
    let buckets = offs.len();
    for row in rows {
        offs[bucket_of(row, common, buckets)] |= row.off;
    }
}

/// Whether the row may contradict one of the rows whose outputs of value 0 are marked.
pub(crate) fn may_clash(a: &Row, offs: &[u64], common: u64) -> bool
    requires some { 0 < length offs.now }
    requires fixed { Fixes common a.now }
    ensures { result ≡ false → (b : Row) → Fixes common b
        → IsMarked (length offs.now) common offs.now b → MeetsNone a.now b }
{
    a.on & offs[bucket_of(a, common, offs.len())] != 0
}
