ghost use Rattle.std.specs.Prelude.{◌≡◌, ◌≤◌, ◌<◌, ◌^◌, IfOk, true, [], ◌∷◌, length};
ghost use Rattle.std.specs.List.{flat_map};
ghost use Rattle.lattice.specs.Family.{divides};
ghost use Rattle.lattice.specs.Rows.{cube};
ghost use Rattle.lattice.specs.WorkingLists.{working_set, care_list, output_numbers};
ghost use Rattle.lattice.proofs.Diagrams.{working_set_is_node_list};
ghost use Rattle.node_store.specs.PlainOf.{state_of};
ghost use Rattle.pla_reader.specs.Reading.{description};
ghost use Rattle.cube_build.specs.CarePoints.{points_list};
ghost use Rattle.cube_build.specs.PointSets.{sets_of};

use cube_build::{care_points, cover, cube, ones, row_cubes, sets_of, zeros};
use lattice::{Memory, Mono, Monos, Planned, Row, plan_of};
use node_store::{Full, Handle, PlainStore, SolveRefusal};
use pla_reader::{Pla, read};
use set_algebra::walk_upto;
use std::alloc::Global;
use std::test::Fail;

// The cube of a row over so many variables.
#[derive(Drop)]
struct CubeOf(u32, Row);

impl Planned for CubeOf {
    ghost families = { λ c. working_set c.0 (cube c.0 c.1 ∷ []) };

    ghost node_list = { λ c. working_set_is_node_list c.0 (cube c.0 c.1 ∷ []) };
}

// The care sets of all outputs.
#[derive(Drop)]
struct AllCares<'a>(&'a Pla);

impl Planned for AllCares<'_> {
    ghost families = { λ c. let p = c.0.now in
        working_set p.inputs (flat_map (care_list p.inputs p.kind p.rows)
        (output_numbers p.outputs)) };

    ghost node_list = { λ c. let p = c.0.now in
        working_set_is_node_list p.inputs
        (flat_map (care_list p.inputs p.kind p.rows) (output_numbers p.outputs)) };
}

// The care points of an output.
#[derive(Drop)]
struct CaresOf<'a>(&'a Pla, u32);

impl Planned for CaresOf<'_> {
    ghost families = { λ c. working_set c.0.now.inputs (points_list (description c.0.now) c.1) };

    ghost node_list = { λ c. working_set_is_node_list c.0.now.inputs
        (points_list (description c.0.now) c.1) };
}

// A store of 2^bits slots with this plan.
pub(crate) fn store_for<P: Planned>(
    alloc: Global,
    bits: u32,
    vars: u32,
    plan: &P,
) -> Result<PlainStore, Memory>
    requires bits { (4 ≤ bits) × (bits ≤ 23) }
    requires few { (1 ≤ vars) × (vars ≤ 62) }
    ensures vars { IfOk result (λ s. (state_of s).vars ≡ vars) }
    ensures plan { IfOk result (λ s. (state_of s).plan ≡ P.families plan.now) }
{
    PlainStore::make(alloc, bits, vars, plan_of(plan))
}

// The points of the row's cube.
fn points_of(alloc: Global, vars: u32, row: &Row) -> Result<Monos, Fail>
    requires vars { (1 ≤ vars) × (vars ≤ 62) }
    requires care { row.now.care < 2 ^ vars }
    requires value { divides row.now.value row.now.care ≡ true }
{
    let mut store = store_for(alloc, 4, vars, &CubeOf(vars, *row))?;
    let points = cube(&mut store, row)?;
    let members = walk_upto(alloc, &mut store, points, 4)?;
    Ok(members)
}

// Cubes by their number of variables, care and value, and their points.
#[test]
fn points_of_cubes(rt: HostRuntime) -> Result<(), Fail> {
    let cases: [(u32, u64, u64, &[Mono]); 4] = [
        (3, 5, 4, &[Mono(6), Mono(4)]),
        (2, 0, 0, &[Mono(3), Mono(2), Mono(1), Mono(0)]),
        (3, 7, 0, &[Mono(0)]),
        (62, 4611686018427387903, 5, &[Mono(5)]),
    ];
    for (vars, care, value, points) in cases {
        assert!(rt; 1 <= vars && vars <= 62);
        assert!(rt; care < 1u64 << vars);
        assert!(rt; Mono(value).divides(care));
        let row = Row {
            line: 1,
            care,
            value,
            on: 1,
            off: 0,
            dc: 0,
        };
        let members = points_of(rt.alloc(), vars, &row)?;
        assert_eq!(rt; members.as_slice(), points);
    }
    Ok(())
}

// The care points of the output: those of value 0, those of value 1, and all of them.
fn care_points_of(alloc: Global, p: &Pla, output: u32) -> Result<(Monos, Monos, Monos), Fail>
    requires { (1 ≤ output) × (output ≤ p.now.outputs) }
{
    let mut store = store_for(alloc, 4, p.inputs, &CaresOf(p, output))?;
    let zeros = zeros(&mut store, p, output)?;
    let ones = ones(&mut store, p, output)?;
    let all = care_points(&mut store, p, output)?;
    let zero_points = walk_upto(alloc, &mut store, zeros, 4)?;
    let one_points = walk_upto(alloc, &mut store, ones, 4)?;
    let all_points = walk_upto(alloc, &mut store, all, 4)?;
    Ok((zero_points, one_points, all_points))
}

// Files of each type with an output, and its care points.
#[test]
fn points_of_outputs(rt: HostRuntime) -> Result<(), Fail> {
    let cases: [(&[u8], u32, &[Mono], &[Mono], &[Mono]); 6] = [
        (
            b".i 2\n.o 1\n.type f\n1- 1\n01 1\n",
            1,
            &[Mono(0)],
            &[Mono(3), Mono(2), Mono(1)],
            &[Mono(3), Mono(2), Mono(1), Mono(0)],
        ),
        (
            b".i 2\n.o 1\n.type fd\n1- 1\n11 -\n",
            1,
            &[Mono(1), Mono(0)],
            &[Mono(2)],
            &[Mono(2), Mono(1), Mono(0)],
        ),
        (
            b".i 2\n.o 1\n.type fd\n01 0\n1- 1\n11 -\n",
            1,
            &[Mono(1), Mono(0)],
            &[Mono(2)],
            &[Mono(2), Mono(1), Mono(0)],
        ),
        (
            b".i 2\n.o 1\n.type fr\n1- 1\n00 0\n",
            1,
            &[Mono(0)],
            &[Mono(3), Mono(2)],
            &[Mono(3), Mono(2), Mono(0)],
        ),
        (
            b".i 2\n.o 1\n.type fdr\n1- 1\n0- 0\n-1 -\n",
            1,
            &[Mono(0)],
            &[Mono(2)],
            &[Mono(2), Mono(0)],
        ),
        (
            b".i 2\n.o 2\n.type fr\n1- 10\n00 01\n",
            2,
            &[Mono(3), Mono(2)],
            &[Mono(0)],
            &[Mono(3), Mono(2), Mono(0)],
        ),
    ];
    for (bytes, output, zero_points, one_points, all_points) in cases {
        assert!(rt; bytes.len() < 100);
        let (p, _) = read(rt.alloc(), bytes)?;
        assert!(rt; 1 <= output && output <= p.outputs);
        let (zeros, ones, all) = care_points_of(rt.alloc(), &p, output)?;
        assert_eq!(rt; zeros.as_slice(), zero_points);
        assert_eq!(rt; ones.as_slice(), one_points);
        assert_eq!(rt; all.as_slice(), all_points);
    }
    Ok(())
}

// The points of a set of the first output, by its place among those that the type has.
fn points_of_set(alloc: Global, p: &Pla, place: usize) -> Result<Monos, Fail>
    requires { place < length (sets_of p.now.kind) }
{
    let mut store = store_for(alloc, 4, p.inputs, &AllCares(p))?;
    let cubes = row_cubes(alloc, &mut store, p)?;
    let set = sets_of(p.kind)[place];
    let points = cover(&mut store, p.rows.as_slice(), &cubes, set, 1)?;
    let members = walk_upto(alloc, &mut store, points, 4)?;
    Ok(members)
}

// A file of type fdr of which each set has a row or two, and one of type fd: its sets are ON and
// DC.
#[test]
fn points_of_sets(rt: HostRuntime) -> Result<(), Fail> {
    let cases: [(&[u8], usize, &[Mono]); 5] = [
        (
            b".i 2\n.o 1\n.type fdr\n1- 1\n00 0\n01 0\n-1 -\n",
            0,
            &[Mono(3), Mono(2)],
        ),
        (
            b".i 2\n.o 1\n.type fdr\n1- 1\n00 0\n01 0\n-1 -\n",
            1,
            &[Mono(1), Mono(0)],
        ),
        (
            b".i 2\n.o 1\n.type fdr\n1- 1\n00 0\n01 0\n-1 -\n",
            2,
            &[Mono(3), Mono(1)],
        ),
        (
            b".i 2\n.o 1\n.type fd\n1- 1\n01 -\n",
            0,
            &[Mono(3), Mono(2)],
        ),
        (b".i 2\n.o 1\n.type fd\n1- 1\n01 -\n", 1, &[Mono(1)]),
    ];
    for (bytes, place, points) in cases {
        assert!(rt; bytes.len() < 100);
        let (p, _) = read(rt.alloc(), bytes)?;
        assert!(rt; place < sets_of(p.kind).len());
        let members = points_of_set(rt.alloc(), &p, place)?;
        assert_eq!(rt; members.as_slice(), points);
    }
    Ok(())
}

// Why the cubes of the file's rows were not built, if they were not.
fn refused(alloc: Global, bytes: &[u8]) -> Result<Option<SolveRefusal>, Fail>
    requires { length bytes.now < 100 }
{
    let (p, _) = read(alloc, bytes)?;
    let mut store = store_for(alloc, 4, p.inputs, &AllCares(&p))?;
    Ok(row_cubes(alloc, &mut store, &p).err())
}

// A cube of one point needs as many families as the point has bits set, up to the last variable.
#[test]
fn cubes_one_slot_short(rt: HostRuntime) -> Result<(), Fail> {
    let fits = refused(rt.alloc(), b".i 16\n.o 1\n.type fr\n1111111111111111 1\n")?;
    assert_eq!(rt; fits, None);
    let unused = refused(rt.alloc(), b".i 17\n.o 1\n.type f\n11111111111111111 0\n")?;
    assert_eq!(rt; unused, None);
    let short = refused(rt.alloc(), b".i 17\n.o 1\n.type fr\n11111111111111111 1\n")?;
    assert_eq!(rt; short, Some(SolveRefusal::Full));
    Ok(())
}

// The zeros where the file has so many inputs and no rows: all points.
fn zeros_without_rows(alloc: Global, bytes: &[u8]) -> Result<Result<Handle, Full>, Fail>
    requires { length bytes.now < 100 }
{
    let (p, _) = read(alloc, bytes)?;
    let mut store = store_for(alloc, 4, p.inputs, &CaresOf(&p, 1))?;
    Ok(zeros(&mut store, &p, 1))
}

// All points over the last variables are needed: as many families as there are inputs.
#[test]
fn one_slot_short(rt: HostRuntime) -> Result<(), Fail> {
    let fits = zeros_without_rows(rt.alloc(), b".i 16\n.o 1\n.type fd\n")?;
    assert!(rt; fits.is_ok());
    let short = zeros_without_rows(rt.alloc(), b".i 17\n.o 1\n.type fd\n")?;
    assert_eq!(rt; short, Err(Full));
    Ok(())
}
