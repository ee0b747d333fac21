ghost use Rattle.std.specs.Prelude.{◌≤◌};

use aig_reader::{Aig, read};
use circuit_solve::{Solution, least_ones, measure_circuit, solve_circuit};
use lattice::{Mono, MonoLists};
use node_store::SolveRefusal;
use set_algebra::TermsRefusal;
use std::alloc::Global;
use std::test::Fail;

// The exclusive or of two inputs.
const XOR: &[u8] = b"aag 5 2 0 1 3\n2\n4\n10\n6 2 4\n8 3 5\n10 7 9\n";

// What most of three inputs are.
const MAJORITY: &[u8] = b"aag 7 3 0 1 4\n2\n4\n6\n15\n8 2 4\n10 3 5\n12 6 11\n14 9 13\n";

// Sum and carry of three inputs.
const ADDER: &[u8] =
    b"aag 12 3 0 2 9\n2\n4\n6\n20\n25\n8 2 4\n10 3 5\n12 9 11\n14 6 12\n16 7 13\n18 15 17\n20 18 18\n22 9 15\n24 22 22\n";

// x1 or x2, x1, and whether one of three inputs is 1 and no other is.
const ONE_HOT: &[u8] =
    b"aag 9 3 0 3 6\n2\n4\n6\n9\n2\n19\n8 3 5\n10 2 4\n12 6 8\n14 9 11\n16 7 14\n18 13 17\n";

// x1 + .. + x8.
const PARITY: &[u8] =
    b"aig 29 8 0 1 21\n59\n\x0d\x03\x10\x01\x01\x02\x01\x10\x04\x10\x01\x02\x01\x14\x04\x14\x01\x02\x01\x18\x04\x18\x01\x02\x01\x1c\x04\x1c\x01\x02\x01 \x04 \x01\x02\x01$\x04$\x01\x02";

// 0 and 1, of one input.
const CONSTANTS: &[u8] = b"aag 1 1 0 2 0\n2\n0\n1\n";

// The circuit that the bytes say.
fn circuit_of(alloc: Global, bytes: &[u8]) -> Result<Aig, Fail> {
    Ok(read(alloc, bytes).map_err(|_| "a circuit")?)
}

// What solves a circuit of which all points are cared for.
fn solved(
    alloc: Global,
    bytes: &[u8],
    bits: u32,
    with_basis: bool,
    limit: u64,
) -> Result<Result<Solution, TermsRefusal>, Fail>
    requires bits { (4 ≤ bits) × (bits ≤ 16) }
{
    let aig = circuit_of(alloc, bytes)?;
    if aig.inputs == 0 {
        return Err("an input".into());
    }
    Ok(solve_circuit(alloc, bits, &aig, None, with_basis, limit))
}

// What solves a circuit of which the points are cared for at which an output is 1.
fn solved_with_care(
    alloc: Global,
    bytes: &[u8],
    bits: u32,
    output: usize,
    with_basis: bool,
    limit: u64,
) -> Result<Result<Solution, TermsRefusal>, Fail>
    requires bits { (4 ≤ bits) × (bits ≤ 16) }
{
    let aig = circuit_of(alloc, bytes)?;
    if aig.inputs == 0 || output >= aig.outputs.len() {
        return Err("an input and the output".into());
    }
    Ok(solve_circuit(alloc, bits, &aig, Some(output), with_basis, limit))
}

// Whether the lists are the wanted ones.
fn are(lists: &MonoLists, wanted: &[&[Mono]]) -> bool {
    let lists = lists.as_slice();
    if lists.len() != wanted.len() {
        return false;
    }
    for place in 0..lists.len() {
        if lists[place].as_slice() != wanted[place] {
            return false;
        }
    }
    true
}

// Over two variables x1 is 2 and x2 is 1, and over three x1 is 4.
#[test]
fn all_points(rt: HostRuntime) -> Result<(), Fail> {
    let xor = solved(rt.alloc(), XOR, 8, false, 2)??;
    assert!(rt; are(&xor.polynomials, &[&[Mono(2), Mono(1)]]));
    let majority = solved(rt.alloc(), MAJORITY, 8, false, 3)??;
    assert!(rt; are(&majority.polynomials, &[&[Mono(6), Mono(5), Mono(3)]]));
    let adder = solved(rt.alloc(), ADDER, 8, false, 6)??;
    let digits: [&[Mono]; 2] = [&[Mono(4), Mono(2), Mono(1)], &[Mono(6), Mono(5), Mono(3)]];
    assert!(rt; are(&adder.polynomials, &digits));
    assert!(rt; are(&adder.basis, &[]));
    Ok(())
}

// Nothing but 0 vanishes at all points.
#[test]
fn all_points_with_a_basis(rt: HostRuntime) -> Result<(), Fail> {
    let solution = solved(rt.alloc(), ONE_HOT, 14, true, 8)??;
    let polynomials: [&[Mono]; 3] = [
        &[Mono(6), Mono(4), Mono(2)],
        &[Mono(4)],
        &[Mono(7), Mono(4), Mono(2), Mono(1)],
    ];
    assert!(rt; are(&solution.polynomials, &polynomials));
    assert!(rt; are(&solution.basis, &[]));
    Ok(())
}

// At 100, 010 and 001, with and without the basis: x2 x3 and x1 + x2 + x3 + 1 vanish there.
#[test]
fn points_by_an_output(rt: HostRuntime) -> Result<(), Fail> {
    let polynomials: [&[Mono]; 2] = [&[Mono(1), Mono(0)], &[Mono(2), Mono(1), Mono(0)]];
    let without = solved_with_care(rt.alloc(), ONE_HOT, 10, 2, false, 5)??;
    assert!(rt; are(&without.polynomials, &polynomials));
    assert!(rt; are(&without.basis, &[]));
    let solution = solved_with_care(rt.alloc(), ONE_HOT, 10, 2, true, 10)??;
    assert!(rt; are(&solution.polynomials, &polynomials));
    let basis: [&[Mono]; 2] = [&[Mono(3)], &[Mono(4), Mono(2), Mono(1), Mono(0)]];
    assert!(rt; are(&solution.basis, &basis));
    Ok(())
}

// The first output says it, and the others are answered in order: where x1 or x2 is 1, the point is
// of one 1 if x1 and x2 differ and x3 is 0.
#[test]
fn points_by_the_first_output(rt: HostRuntime) -> Result<(), Fail> {
    let solution = solved_with_care(rt.alloc(), ONE_HOT, 10, 0, false, 20)??;
    assert_eq!(rt; solution.polynomials.len(), 2);
    assert_eq!(rt;
        solution.polynomials.as_slice()[0].as_slice(),
        [Mono(4)].as_slice()
    );
    Ok(())
}

// The limits, each where it is just passed.
#[test]
fn limits(rt: HostRuntime) -> Result<(), Fail> {
    let full = solved(rt.alloc(), PARITY, 4, false, 8)?;
    assert!(rt; matches!(full, Err(TermsRefusal::Full)));
    let over = solved(rt.alloc(), PARITY, 10, false, 7)?;
    assert!(rt; matches!(over, Err(TermsRefusal::Over)));
    let full = solved(rt.alloc(), PARITY, 4, true, 8)?;
    assert!(rt; matches!(full, Err(TermsRefusal::Full)));
    for (with_basis, limit) in [(false, 4), (true, 6), (true, 9)] {
        let over = solved_with_care(rt.alloc(), ONE_HOT, 10, 2, with_basis, limit)?;
        assert!(rt; matches!(over, Err(TermsRefusal::Over)));
    }
    Ok(())
}

// The sum of three inputs, whose diagram has a node for each, and the carry: over the nodes of
// x2 + x3 and x3 its diagram has one for x2 x3, and one for the whole.
#[test]
fn measures(rt: HostRuntime) -> Result<(), Fail> {
    let aig = circuit_of(rt.alloc(), ADDER)?;
    assert!(rt; 1 <= aig.inputs);
    let measures = measure_circuit(rt.alloc(), 8, &aig, None)?;
    assert_eq!(rt; measures.len(), 2);
    assert_eq!(rt; measures[0].terms, 3);
    assert_eq!(rt; measures[0].degree, 1);
    assert_eq!(rt; measures[0].nodes, 3);
    assert_eq!(rt; measures[1].terms, 3);
    assert_eq!(rt; measures[1].degree, 2);
    assert_eq!(rt; measures[1].nodes, 4);
    Ok(())
}

// Nothing is listed, so there is no limit of terms, but the nodes have one.
#[test]
fn measures_that_need_many_nodes(rt: HostRuntime) -> Result<(), Fail> {
    let aig = circuit_of(rt.alloc(), PARITY)?;
    assert!(rt; 1 <= aig.inputs);
    let full = measure_circuit(rt.alloc(), 4, &aig, None);
    assert!(rt; matches!(full, Err(SolveRefusal::Full)));
    Ok(())
}

// The least points at which the outputs of a circuit are 1.
fn found_ones(
    alloc: Global,
    bytes: &[u8],
    bits: u32,
    care: Option<usize>,
) -> Result<Result<Vec<Option<Mono>>, SolveRefusal>, Fail>
    requires bits { (4 ≤ bits) × (bits ≤ 16) }
{
    let aig = circuit_of(alloc, bytes)?;
    if aig.inputs == 0 {
        return Err("an input".into());
    }
    if let Some(output) = care {
        if output >= aig.outputs.len() {
            return Err("the output".into());
        }
    }
    Ok(least_ones(alloc, bits, &aig, care))
}

// The first of 0, 1, 2 and so on at which the output is 1, where each point is cared for.
#[test]
fn least_ones_of_all_points(rt: HostRuntime) -> Result<(), Fail> {
    let xor = found_ones(rt.alloc(), XOR, 8, None)??;
    assert_eq!(rt; xor.as_slice(), [Some(Mono(1))].as_slice());
    let majority = found_ones(rt.alloc(), MAJORITY, 8, None)??;
    assert_eq!(rt; majority.as_slice(), [Some(Mono(3))].as_slice());
    let adder = found_ones(rt.alloc(), ADDER, 8, None)??;
    assert_eq!(rt; adder.as_slice(), [Some(Mono(1)), Some(Mono(3))].as_slice());
    let constants = found_ones(rt.alloc(), CONSTANTS, 8, None)??;
    assert_eq!(rt; constants.as_slice(), [None, Some(Mono(0))].as_slice());
    let parity = found_ones(rt.alloc(), PARITY, 10, None)??;
    assert_eq!(rt; parity.as_slice(), [Some(Mono(1))].as_slice());
    Ok(())
}

// At 010 to 111, at 100 to 111, at 001, 010 and 100, and at no point.
#[test]
fn least_ones_of_some_points(rt: HostRuntime) -> Result<(), Fail> {
    let ones = found_ones(rt.alloc(), ONE_HOT, 10, Some(0))??;
    assert_eq!(rt; ones.as_slice(), [Some(Mono(4)), Some(Mono(2))].as_slice());
    let ones = found_ones(rt.alloc(), ONE_HOT, 10, Some(1))??;
    assert_eq!(rt; ones.as_slice(), [Some(Mono(4)), Some(Mono(4))].as_slice());
    let ones = found_ones(rt.alloc(), ONE_HOT, 10, Some(2))??;
    assert_eq!(rt; ones.as_slice(), [Some(Mono(2)), Some(Mono(4))].as_slice());
    let ones = found_ones(rt.alloc(), CONSTANTS, 8, Some(0))??;
    assert_eq!(rt; ones.as_slice(), [None].as_slice());
    Ok(())
}

// The nodes have a limit.
#[test]
fn least_ones_that_need_many_nodes(rt: HostRuntime) -> Result<(), Fail> {
    let full = found_ones(rt.alloc(), PARITY, 4, None)?;
    assert!(rt; matches!(full, Err(SolveRefusal::Full)));
    Ok(())
}
