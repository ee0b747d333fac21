ghost use Rattle.std.specs.Prelude.{◌≡◌, ◌≤◌, ◌<◌, false, IsTrue, All, map};
ghost use Rattle.std.specs.List.Sorted.{IsStrictlyIncreasing};
ghost use Rattle.pla_reader.specs.Description.{has_off, has_dc, FitsSizes};

use cube_sets::{Clash, conflict, meets};
use lattice::{Kind, Names, Row};
use pla_reader::{Pla, Rows};
use std::alloc::Global;
use std::test::Fail;

// Whether rows of this type may say what the row says.
fn suits(row: &Row, kind: Kind) -> bool
    ensures off { IsTrue result → has_off kind ≡ false → row.now.off ≡ 0 }
    ensures dc { IsTrue result → has_dc kind ≡ false → row.now.dc ≡ 0 }
{
    match kind {
        Kind::F => row.off == 0 && row.dc == 0,
        Kind::Fd => row.off == 0,
        Kind::Fr => row.dc == 0,
        Kind::Fdr => true,
    }
}

// Whether the row is one over so many inputs and outputs, of this type.
#[tactic(auto, unfolding(lattice::specs::Family::divides))]
fn fits(row: &Row, inputs: u32, outputs: u32, kind: Kind) -> bool
    requires inputs { inputs ≤ 62 }
    requires outputs { outputs ≤ 63 }
    ensures { IsTrue result → FitsSizes inputs outputs kind row.now }
{
    let limit = 1u64 << outputs;
    if row.care >= 1 << inputs || row.value & row.care != row.value {
        return false;
    }
    if row.on >= limit || row.off >= limit || row.dc >= limit {
        return false;
    }
    if row.on & row.off != 0 || row.on & row.dc != 0 || row.off & row.dc != 0 {
        return false;
    }
    suits(row, kind)
}

fn all_fit(rows: &[Row], inputs: u32, outputs: u32, kind: Kind) -> bool
    requires inputs { inputs ≤ 62 }
    requires outputs { outputs ≤ 63 }
    ensures { IsTrue result → All (FitsSizes inputs outputs kind) rows.now }
{
    for row in rows {
        if !fits(row, inputs, outputs, kind) {
            return false;
        }
    }
    true
}

fn lines_ascend(rows: &[Row]) -> bool
    ensures { IsTrue result → IsStrictlyIncreasing (map (λ r. r.line) rows.now) }
{
    for (i, row) in rows.iter().enumerate() {
        if i > 0 && rows[i - 1].line >= row.line {
            return false;
        }
    }
    true
}

fn described(
    alloc: Global,
    kind: Kind,
    inputs: u32,
    outputs: u32,
    rows: Vec<Row>,
) -> Result<Pla, Fail> {
    if inputs == 0
        || inputs > 62
        || outputs == 0
        || outputs > 63
        || rows.len() > 8192
        || !lines_ascend(&rows)
        || !all_fit(&rows, inputs, outputs, kind)
    {
        return Err(Fail::new("no description"));
    }
    Ok(Pla {
        inputs,
        outputs,
        kind,
        rows: Rows::from_vec(rows),
        in_names: Names::new(alloc),
        out_names: Names::new(alloc),
    })
}

const fn row(line: u32, care: u64, value: u64, on: u64, off: u64, dc: u64) -> Row {
    Row {
        line,
        care,
        value,
        on,
        off,
        dc,
    }
}

fn clash(output: u32, on_line: u32, off_line: u32) -> Option<Clash> {
    Some(Clash {
        output,
        on_line,
        off_line,
    })
}

#[test]
fn cases(rt: HostRuntime) -> Result<(), Fail> {
    let alloc = rt.alloc();
    let first = row(4, 2, 2, 1, 0, 0);
    let cases: [(Kind, u32, &[Row], Option<Clash>); 8] = [
        // The cubes 1- and -1 share the point 11.
        (Kind::Fr, 1, &[first, row(5, 1, 1, 0, 1, 0)], clash(1, 4, 5)),
        (Kind::Fr, 1, &[first, row(5, 2, 0, 0, 1, 0)], None),
        (Kind::Fd, 1, &[first, row(5, 1, 1, 0, 0, 1)], None),
        // The clash of the second output has the earlier lines.
        (
            Kind::Fr,
            2,
            &[
                row(4, 3, 3, 2, 0, 0),
                row(5, 3, 3, 0, 2, 0),
                row(6, 3, 0, 1, 0, 0),
                row(7, 3, 0, 0, 1, 0),
            ],
            clash(1, 6, 7),
        ),
        // Several clashes of one output.
        (
            Kind::Fr,
            1,
            &[
                row(4, 0, 0, 0, 1, 0),
                row(5, 1, 1, 1, 0, 0),
                row(6, 1, 0, 1, 0, 0),
                row(7, 1, 1, 0, 1, 0),
            ],
            clash(1, 5, 4),
        ),
        // Two rows that clash at both outputs, and a row that says nothing.
        (
            Kind::Fr,
            2,
            &[
                row(4, 0, 0, 0, 0, 0),
                row(5, 3, 1, 3, 0, 0),
                row(6, 3, 1, 0, 3, 0),
            ],
            clash(1, 5, 6),
        ),
        // Two rows of one point that say 0 of different outputs.
        (
            Kind::Fr,
            2,
            &[
                row(4, 3, 3, 0, 1, 0),
                row(5, 3, 3, 0, 2, 0),
                row(6, 3, 3, 1, 0, 0),
            ],
            clash(1, 6, 4),
        ),
        // The shared point is in a row of don't cares.
        (
            Kind::Fdr,
            1,
            &[first, row(5, 1, 1, 0, 1, 0), row(6, 3, 3, 0, 0, 1)],
            clash(1, 4, 5),
        ),
    ];
    for (kind, outputs, rows, want) in cases {
        let p = described(alloc, kind, 2, outputs, Vec::from_slice(alloc, rows)?)?;
        assert_eq!(rt; conflict(&p), want);
    }
    Ok(())
}

// The cubes 1-, -1 and 01.
#[test]
#[tactic(auto, unfolding(lattice::specs::Family::divides))]
fn shared_points(rt: HostRuntime) {
    let mut a = row(4, 0, 0, 0, 0, 0);
    let mut b = a;
    a.care = 2;
    a.value = 2;
    b.care = 1;
    b.value = 1;
    assert!(rt; meets(&a, &b));
    b.care = 3;
    assert!(rt; !meets(&a, &b));
}
