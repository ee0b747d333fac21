use aig_miter::{MiterRefusal, miter_of};
use aig_reader::{Aig, Gate, read};
use lattice::Names;
use std::alloc::{AllocError, Global};
use std::process::Abort;
use std::test::Fail;

// Two inputs, one gate and three outputs: the conjunction, its complement and the first input.
const FIRST: &[u8] = b"aag 3 2 0 3 1\n2\n4\n6\n7\n2\n6 2 4\ni0 a\ni1 b\no0 f\no2 h\n";

// Two gates: the disjunction, and twice the first input, by a gate on the disjunction.
const SECOND: &[u8] = b"aag 4 2 0 3 2\n2\n4\n7\n8\n8\n6 3 5\n8 7 2\ni0 x\no1 y\n";

// The points, in order.
const POINTS: [[bool; 2]; 4] = [[false, false], [false, true], [true, false], [true, true]];

fn circuit_of(alloc: Global, bytes: &[u8]) -> Result<Aig, Fail> {
    Ok(read(alloc, bytes).map_err(|_| "a circuit")?)
}

// The miter of two circuits, which may have it.
fn try_miter(
    rt: &impl Abort,
    alloc: Global,
    first: &Aig,
    second: &Aig,
    care: Option<usize>,
) -> Result<Aig, MiterRefusal> {
    assert_eq!(rt; second.inputs, first.inputs);
    assert_eq!(rt; second.outputs.len(), first.outputs.len());
    match care {
        Some(output) => {
            assert!(rt; output < first.outputs.len());
            miter_of(alloc, first, second, Some(output))
        }
        None => miter_of(alloc, first, second, None),
    }
}

// The miter of two texts.
fn miter(
    rt: &impl Abort,
    alloc: Global,
    first: &[u8],
    second: &[u8],
    care: Option<usize>,
) -> Result<Aig, Fail> {
    let first = circuit_of(alloc, first)?;
    let second = circuit_of(alloc, second)?;
    Ok(try_miter(rt, alloc, &first, &second, care).map_err(|_| "a miter")?)
}

// The value of a literal, by those of the variables.
fn value_of(values: &[bool], literal: u32) -> bool {
    match values.get(literal as usize / 2) {
        Some(value) => *value != (literal % 2 == 1),
        None => false,
    }
}

// The values of the outputs at a point.
fn outputs_at(alloc: Global, aig: &Aig, point: &[bool]) -> Result<Vec<bool>, AllocError> {
    let mut values = Vec::new(alloc);
    values.push(false)?;
    values.extend_from_slice(point)?;
    for gate in aig.gates.as_slice() {
        let value = value_of(&values, gate.left) && value_of(&values, gate.right);
        values.push(value)?;
    }
    let mut outputs = Vec::new(alloc);
    for literal in aig.outputs.as_slice() {
        outputs.push(value_of(&values, *literal))?;
    }
    Ok(outputs)
}

// The names are these.
fn expect_names(rt: &impl Abort, names: &Names, wanted: &[&[u8]]) {
    assert_eq!(rt; names.len(), wanted.len());
    for (name, bytes) in names.as_slice().iter().zip(wanted) {
        assert_eq!(rt; name.as_slice(), *bytes);
    }
}

fn gate(left: u32, right: u32) -> Gate {
    Gate { left, right }
}

// The gates of both circuits, and three for each pair of outputs, with the names of the first.
#[test]
fn gates_and_names(rt: HostRuntime) -> Result<(), Fail> {
    let alloc = rt.alloc();
    let gates = [
        gate(2, 4),
        gate(3, 5),
        gate(9, 2),
        gate(6, 9),
        gate(7, 8),
        gate(13, 15),
        gate(7, 10),
        gate(6, 11),
        gate(19, 21),
        gate(2, 10),
        gate(3, 11),
        gate(25, 27),
    ];
    let cases: [(Option<usize>, [u32; 3]); 4] = [
        (None, [16, 22, 28]),
        (Some(0), [6, 22, 28]),
        (Some(1), [16, 7, 28]),
        (Some(2), [16, 22, 2]),
    ];
    for (care, outputs) in cases {
        let aig = miter(&rt, alloc, FIRST, SECOND, care)?;
        assert_eq!(rt; aig.inputs, 2);
        assert_eq!(rt; aig.gates.as_slice(), gates.as_slice());
        assert_eq!(rt; aig.outputs.as_slice(), outputs.as_slice());
        expect_names(&rt, &aig.in_names, &[b"a", b"b"]);
        expect_names(&rt, &aig.out_names, &[b"f", b"", b"h"]);
    }
    Ok(())
}

// A care output, and the values of the miter's outputs at each point.
#[test]
fn values_at_points(rt: HostRuntime) -> Result<(), Fail> {
    let alloc = rt.alloc();
    let cases: [(Option<usize>, [[bool; 3]; 4]); 4] = [
        (
            None,
            [
                [false, true, false],
                [true, true, false],
                [true, false, false],
                [false, true, false],
            ],
        ),
        (
            Some(0),
            [
                [false, true, false],
                [false, true, false],
                [false, false, false],
                [true, true, false],
            ],
        ),
        (
            Some(1),
            [
                [false, true, false],
                [true, true, false],
                [true, true, false],
                [false, false, false],
            ],
        ),
        (
            Some(2),
            [
                [false, true, false],
                [true, true, false],
                [true, false, true],
                [false, true, true],
            ],
        ),
    ];
    for (care, wanted) in cases {
        let aig = miter(&rt, alloc, FIRST, SECOND, care)?;
        for (point, values) in POINTS.iter().zip(&wanted) {
            let outputs = outputs_at(alloc, &aig, point)?;
            assert_eq!(rt; outputs.as_slice(), values.as_slice());
        }
    }
    Ok(())
}

// A circuit does not differ from itself.
#[test]
fn circuit_with_itself(rt: HostRuntime) -> Result<(), Fail> {
    let alloc = rt.alloc();
    for text in [FIRST, SECOND] {
        let aig = miter(&rt, alloc, text, text, None)?;
        for point in &POINTS {
            let outputs = outputs_at(alloc, &aig, point)?;
            assert_eq!(rt; outputs.as_slice(), [false, false, false].as_slice());
        }
    }
    Ok(())
}

// A circuit of one input and one output, each of whose gates, so many, stands on the one before it.
fn chain(alloc: Global, header: &[u8], gates: u32) -> Result<Aig, Fail> {
    let mut bytes = Vec::new(alloc);
    bytes.extend_from_slice(header)?;
    for _ in 0..gates {
        bytes.extend_from_slice(b"\x02\x00")?;
    }
    circuit_of(alloc, &bytes)
}

// Two circuits whose miter has as many gates as a circuit may have, and two whose miter has more.
#[test]
fn limit_of_gates(rt: HostRuntime) -> Result<(), Fail> {
    let alloc = rt.alloc();
    let half = chain(alloc, b"aig 500001 1 0 1 500000\n2\n", 500_000)?;
    let less = chain(alloc, b"aig 499998 1 0 1 499997\n2\n", 499_997)?;
    let most = try_miter(&rt, alloc, &half, &less, None).map_err(|_| "a miter")?;
    assert_eq!(rt; most.gates.len(), 1_000_000);
    assert_eq!(rt; most.outputs.as_slice(), [2_000_002].as_slice());
    let refusal = try_miter(&rt, alloc, &half, &half, None).err();
    assert_eq!(rt; refusal, Some(MiterRefusal::TooManyGates));
    Ok(())
}
