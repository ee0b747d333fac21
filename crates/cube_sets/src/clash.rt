//! Rows that contradict each other.
ghost use Rattle.std.specs.Prelude.{◌≡◌, ◌↔◌, ◌^◌, ◌<◌, ℕ, true, IsTrue, IfSome, IsNone, length};
ghost use Rattle.std.specs.List.{All, Contains};
ghost use Rattle.lattice.specs.Family.{divides};
ghost use Rattle.lattice.specs.Rows.{IsConsistent};
ghost use Rattle.cube_sets.specs.Buckets.{Fixes, IsMarked};
ghost use Rattle.cube_sets.specs.Clashes.{SharePoint, IsClashOf, IsAmong, IsClash, IsLeastOf};
ghost use Rattle.cube_sets.specs.Clashes.{AnswersUpTo};

use crate::buckets::{BUCKETS, OTHER_BUCKETS, common_care, mark_offs, may_clash};
use lattice::{Kind, Row};
use pla_reader::Pla;

/// Two rows that contradict each other: the line of one that says that the output is 1, and the
/// line of one that says that it is 0.
#[derive(Clone, Copy, PartialEq, Eq, Debug)]
pub struct Clash {
    pub output: u32,
    pub on_line: u32,
    pub off_line: u32,
}

/// Whether the two cubes share a point. The value of each row is within its care.
pub fn meets(a: &Row, b: &Row) -> bool
    requires first { divides a.now.value a.now.care ≡ true }
    requires second { divides b.now.value b.now.care ≡ true }
    ensures { (n : ℕ) → a.now.care < 2 ^ n → b.now.care < 2 ^ n
        → (IsTrue result ↔ SharePoint n a.now b.now) }
{
    // A value has no bit outside its care, so the other care alone leaves the bits that both fix.
    a.value & b.care == b.value & a.care
}

/// The least clash of the on-row `a` with the off-row `b`, of those at an output up to `outputs`.
fn clash_of(a: &Row, b: &Row, outputs: u32) -> Option<Clash>
    requires first { divides a.now.value a.now.care ≡ true }
    requires second { divides b.now.value b.now.care ≡ true }
    ensures { (n : ℕ) → a.now.care < 2 ^ n → b.now.care < 2 ^ n
        → AnswersUpTo outputs (IsClashOf n a.now b.now) result }
{
    // Most pairs of cubes are apart, while the masks of as many agree as not: a processor guesses
    // the first test better.
    if !meets(a, b) {
        return None;
    }
    let both = a.on & b.off;
    if both == 0 {
        return None;
    }
    let output = both.trailing_zeros() + 1;
    if output > outputs {
        return None;
    }
    Some(Clash {
        output,
        on_line: a.line,
        off_line: b.line,
    })
}

/// The least clash of the on-row `a` with an off-row of `p`, of those at an output up to `outputs`.
/// The outputs of value 0 are marked twice, each time in other buckets of their rows.
fn least_with(
    p: &Pla,
    offs: &[u64],
    others: &[u64],
    common: u64,
    a: &Row,
    outputs: u32,
) -> Option<Clash>
    requires row { Contains p.now.rows a.now }
    requires some { (0 < length offs.now) × (0 < length others.now) }
    requires fixed { All (Fixes common) p.now.rows }
    requires marked { All (IsMarked (length offs.now) common offs.now) p.now.rows }
    requires marked_again { All (IsMarked (length others.now) common others.now) p.now.rows }
    ensures { AnswersUpTo outputs (IsAmong (IsClashOf p.now.inputs a.now) p.now.rows) result }
{
    if outputs == 0 || !may_clash(a, offs, common) || !may_clash(a, others, common) {
        return None;
    }
    let mut least = None;
    // Lines ascend, so after a clash only one at a lesser output can be less.
    let mut limit = outputs;
    for b in p.rows.as_slice() {
        if let Some(clash) = clash_of(a, b, limit) {
            limit = clash.output - 1;
            least = Some(clash);
        }
    }
    least
}

/// The least clash of two rows.
fn least_clash(p: &Pla) -> Option<Clash>
    ensures { AnswersUpTo p.now.outputs
        (IsAmong (λ a. IsAmong (IsClashOf p.now.inputs a) p.now.rows) p.now.rows) result }
{
    let common = common_care(p.rows.as_slice());
    let mut offs = [0; BUCKETS];
    mark_offs(&mut offs, p.rows.as_slice(), common);
    let mut others = [0; OTHER_BUCKETS];
    mark_offs(&mut others, p.rows.as_slice(), common);
    let mut least = None;
    // Lines ascend, so after a clash only one at a lesser output can be less.
    let mut outputs = p.outputs;
    for a in p.rows.as_slice() {
        if let Some(clash) = least_with(p, &offs, &others, common, a, outputs) {
            outputs = clash.output - 1;
            least = Some(clash);
        }
    }
    least
}

/// The clash of two rows that is least by output, then by the line of the on-row, then by that of
/// the off-row. None exactly where the description is consistent.
pub fn conflict(p: &Pla) -> Option<Clash>
    ensures none { IsNone result ↔ IsConsistent p.now.inputs p.now.outputs p.now.rows }
    ensures least { IfSome result
        (IsLeastOf (IsClash p.now.inputs p.now.outputs p.now.rows p.now.rows)) }
{
    match p.kind {
        Kind::F | Kind::Fd => None,
        Kind::Fr | Kind::Fdr => least_clash(p),
    }
}
