//! The care points of the outputs of a description, as tables over all points.
ghost use Rattle.std.specs.Prelude.{◌≡◌, ◌+◌, ◌-◌, ◌^◌, ◌<◌, ◌≤◌, List, ℕ, length, IfOk};
ghost use Rattle.lattice.specs.Family.{divides};
ghost use Rattle.lattice.specs.Rows.{care_zeros, care_ones};
ghost use Rattle.lattice.specs.declared.row.Row.{Row};
ghost use Rattle.cert_check.specs.Marks.{MarksPoint, MarksAll, MarksCare, care_by};

use lattice::{Kind, Mono, Row};
use pla_reader::Marks;
use std::alloc::{AllocError, Global};

/// Whether a point is a care point of value 0, and of value 1. Where rows contradict each other it
/// may be both.
#[derive(Clone, Copy)]
pub(crate) struct Care {
    pub zero: bool,
    pub one: bool,
}

/// What the rows say of the point `a`: the outputs that have it in ON, in OFF and in DC.
fn marks_of(rows: &[Row], a: u64) -> Marks
    ensures { MarksPoint rows.now a result }
{
    let mut marks = Marks {
        on: 0,
        off: 0,
        dc: 0,
    };
    for row in rows {
        if a & row.care == row.value {
            marks.on |= row.on;
            marks.off |= row.off;
            marks.dc |= row.dc;
        }
    }
    marks
}

/// What the rows say of each point over so many inputs.
pub(crate) fn marks_of_all(
    alloc: Global,
    inputs: u32,
    rows: &[Row],
) -> Result<Vec<Marks>, AllocError>
    requires { inputs ≤ 14 }
    ensures { IfOk result (λ marks. MarksAll inputs rows.now marks.items) }
{
    let mut all = Vec::new(alloc);
    for a in 0..1u64 << inputs {
        all.push(marks_of(rows, a))?;
    }
    Ok(all)
}

/// Whether the output's bit is set in a mask.
fn has_output(mask: u64, output: u32) -> bool
    requires first { 1 ≤ output }
    requires last { output ≤ 64 }
    ensures { result ≡ divides (2 ^ (output - 1)) mask }
{
    Mono(1 << (output - 1)).divides(mask)
}

/// Whether a point with these marks is a care point of the output, of value 0 and of value 1.
fn care_of_point(kind: Kind, marks: &Marks, output: u32) -> Care
    requires first { 1 ≤ output }
    requires last { output ≤ 64 }
    ensures { result ≡ care_by kind output marks.now }
{
    let on = has_output(marks.on, output);
    let off = has_output(marks.off, output);
    let dc = has_output(marks.dc, output);
    match kind {
        Kind::F => Care { zero: !on, one: on },
        Kind::Fd => Care {
            zero: !on && !dc,
            one: on && !dc,
        },
        Kind::Fr => Care { zero: off, one: on },
        Kind::Fdr => Care {
            zero: off && !dc,
            one: on && !dc,
        },
    }
}

/// The care points of the output, by the marks of all points.
pub(crate) fn care_of(
    alloc: Global,
    kind: Kind,
    marks: &[Marks],
    output: u32,
) -> Result<Vec<Care>, AllocError>
    requires first { 1 ≤ output }
    requires last { output ≤ 64 }
    ensures { IfOk result (λ care. (n : ℕ) (rows : List Row) → MarksAll n rows marks.now
        → MarksCare n (care_zeros n kind rows output) (care_ones n kind rows output) care.items) }
{
    marks
        .iter()
        .map(|mark| care_of_point(kind, mark, output))
        .collect(alloc)
}
