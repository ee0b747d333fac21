use aig_pairs::{MatchRefusal, PairRefusal, match_circuit, read_pair};
use aig_reader::{Aig, Refusal, Why, read};
use lattice::Names;
use std::alloc::Global;
use std::process::Abort;
use std::test::Fail;

// Two inputs, and their conjunction, in the binary form.
const CONJUNCTION: &[u8] = b"aig 3 2 0 1 1\n6\n\x02\x02i0 a\ni1 b\no0 f\n";

// Two inputs and two outputs, of which the second is the complement of the first one's disjunction,
// in the ASCII form.
const TWO_OUTPUTS: &[u8] = b"aag 3 2 0 2 1\n2\n4\n7\n6\n6 3 5\ni0 a\ni1 b\no0 f\no1 g\n";

// The names are these.
fn expect_names(rt: &impl Abort, names: &Names, wanted: &[&[u8]]) {
    assert_eq!(rt; names.len(), wanted.len());
    for (name, bytes) in names.as_slice().iter().zip(wanted) {
        assert_eq!(rt; name.as_slice(), *bytes);
    }
}

// The bytes of one file behind those of another one.
fn joined(alloc: Global, first: &[u8], second: &[u8]) -> Result<Vec<u8>, Fail> {
    let mut bytes = Vec::from_slice(alloc, first)?;
    bytes.extend_from_slice(second)?;
    Ok(bytes)
}

// The outputs of the two circuits that the bytes say.
fn expect_pair(rt: &impl Abort, alloc: Global, bytes: &[u8], first: &[u32], second: &[u32]) {
    match read_pair(alloc, bytes) {
        Ok(pair) => {
            assert_eq!(rt; pair.0.outputs.as_slice(), first);
            assert_eq!(rt; pair.1.outputs.as_slice(), second);
        }
        Err(refusal) => assert_eq!(rt; refusal, PairRefusal::Alone),
    }
}

// A first file, a second one, and the outputs of both.
#[test]
fn pairs(rt: HostRuntime) -> Result<(), Fail> {
    let alloc = rt.alloc();
    let cases: [(&[u8], &[u8], &[u32], &[u32]); 8] = [
        // Two binary files; one in the ASCII form behind a binary one, and the other way round.
        (CONJUNCTION, CONJUNCTION, &[6], &[6]),
        (CONJUNCTION, TWO_OUTPUTS, &[6], &[7, 6]),
        (TWO_OUTPUTS, CONJUNCTION, &[7, 6], &[6]),
        // The first one ends with its last gate.
        (b"aig 3 2 0 1 1\n6\n\x02\x02", CONJUNCTION, &[6], &[6]),
        // A comment behind the first one, also one that has lines that only look like a beginning.
        (
            b"aag 1 1 0 1 0\n2\n3\nc\nmade by hand\n",
            CONJUNCTION,
            &[3],
            &[6],
        ),
        (
            b"aag 0 0 0 1 0\n1\nc\n aig 1\nx aag 1\naig\naagh\n",
            CONJUNCTION,
            &[1],
            &[6],
        ),
        // One behind the second one.
        (CONJUNCTION, b"aag 0 0 0 1 0\n0\nc\naig 1\n", &[6], &[0]),
        // A name that looks like a beginning, on a line of its own letter.
        (b"aag 1 1 0 1 0\n2\n2\ni0 aig \n", CONJUNCTION, &[2], &[6]),
    ];
    for (front, rest, first, second) in cases {
        let bytes = joined(alloc, front, rest)?;
        expect_pair(&rt, alloc, &bytes, first, second);
        assert!(rt; read_pair(alloc, &bytes).is_ok());
    }
    Ok(())
}

// Bytes that are not two circuits, how many of them stand before the fault, and what is wrong.
#[test]
fn refused_pairs(rt: HostRuntime) {
    let alloc = rt.alloc();
    let cases: [(&[u8], usize, Why); 8] = [
        (b"", 0, Why::NoFormat),
        (b"aig 1 1 0 1 0\n4\n", 14, Why::LiteralRange),
        // The second one is refused, at a byte of all of them.
        (
            b"aig 1 1 0 1 0\n2\naig 1 1 0 1 0\n4\n",
            30,
            Why::LiteralRange,
        ),
        (b"aag 0 0 0 1 0\n1\naag 1 0 1 0 0\n", 24, Why::Latch),
        // A line of a comment that begins as a circuit does parts the bytes before the second one.
        (
            b"aag 0 0 0 1 0\n1\nc\naag x\naag 0 0 0 1 0\n1\n",
            22,
            Why::BadNumber,
        ),
        // The first one is refused, and with it all of them.
        (
            b"aig 1 1 0 1 0\n4\naig 1 1 0 1 0\n2\n",
            14,
            Why::LiteralRange,
        ),
        (
            b"aig 1 1 0 1 0\n2\nx\naig 1 1 0 1 0\n2\n",
            16,
            Why::BadSymbol,
        ),
        // No space stands behind the second word.
        (b"aag 0 0 0 1 0\n1\naag\n", 16, Why::BadSymbol),
    ];
    for (bytes, byte, why) in cases {
        let refusal = read_pair(alloc, bytes).err();
        assert_eq!(rt; refusal, Some(PairRefusal::Bad(Refusal { byte, why })));
    }
    let alone: [&[u8]; 4] = [
        CONJUNCTION,
        TWO_OUTPUTS,
        b"aag 0 0 0 1 0\n1\nc\naag",
        b"aag 0 0 0 1 0\n1\nc\r aig 0 0 0 1 0\r1\r",
    ];
    for bytes in alone {
        assert_eq!(rt; read_pair(alloc, bytes).err(), Some(PairRefusal::Alone));
    }
}

// The circuit that the bytes say.
fn circuit_of(alloc: Global, bytes: &[u8]) -> Result<Aig, Fail> {
    Ok(read(alloc, bytes).map_err(|_| "a circuit")?)
}

// The second circuit over the first one's names has these gates' operands, outputs and names.
#[test]
fn matched_circuits(rt: HostRuntime) -> Result<(), Fail> {
    let alloc = rt.alloc();
    let first = circuit_of(alloc, TWO_OUTPUTS)?;
    let cases: [(&[u8], &[u32], &[u32]); 4] = [
        (TWO_OUTPUTS, &[3, 5], &[7, 6]),
        (
            b"aag 3 2 0 2 1\n2\n4\n6\n7\n6 3 5\ni0 a\ni1 b\no0 g\no1 f\n",
            &[3, 5],
            &[7, 6],
        ),
        (
            b"aag 3 2 0 2 1\n2\n4\n2\n7\n6 3 4\ni0 b\ni1 a\no0 f\no1 g\n",
            &[5, 2],
            &[4, 7],
        ),
        (
            b"aag 3 2 0 2 1\n2\n4\n2\n7\n6 3 4\ni0 b\ni1 a\no0 g\no1 f\n",
            &[5, 2],
            &[7, 4],
        ),
    ];
    for (bytes, operands, outputs) in cases {
        let second = circuit_of(alloc, bytes)?;
        let matched = match_circuit(alloc, &first, &second).map_err(|_| "a match")?;
        let gates = matched.gates.as_slice();
        assert_eq!(rt; gates.len(), 1);
        for gate in gates {
            assert_eq!(rt; [gate.left, gate.right].as_slice(), operands);
        }
        assert_eq!(rt; matched.outputs.as_slice(), outputs);
        expect_names(&rt, &matched.in_names, &[b"a", b"b"]);
        expect_names(&rt, &matched.out_names, &[b"f", b"g"]);
    }
    Ok(())
}

// Numbers are printed where there are no names, and are the names then.
#[test]
fn matched_numbers(rt: HostRuntime) -> Result<(), Fail> {
    let alloc = rt.alloc();
    let first = circuit_of(alloc, b"aag 2 2 0 2 0\n2\n4\n2\n5\n")?;
    let second = circuit_of(
        alloc,
        b"aag 2 2 0 2 0\n2\n4\n2\n5\ni0 x2\ni1 x1\no0 f2\no1 f1\n",
    )?;
    let matched = match_circuit(alloc, &first, &second).map_err(|_| "a match")?;
    assert_eq!(rt; matched.outputs.as_slice(), [3, 4].as_slice());
    Ok(())
}

// A second circuit whose names are not the first one's.
#[test]
fn other_names(rt: HostRuntime) -> Result<(), Fail> {
    let alloc = rt.alloc();
    let first = circuit_of(alloc, TWO_OUTPUTS)?;
    let cases: [(&[u8], MatchRefusal); 6] = [
        (
            b"aag 2 2 0 2 0\n2\n4\n2\n5\ni0 a\ni1 c\no0 f\no1 g\n",
            MatchRefusal::Inputs,
        ),
        (
            b"aag 1 1 0 2 0\n2\n2\n3\ni0 a\no0 f\no1 g\n",
            MatchRefusal::Inputs,
        ),
        (
            b"aag 3 3 0 2 0\n2\n4\n6\n2\n5\ni0 a\ni1 b\ni2 c\no0 f\no1 g\n",
            MatchRefusal::Inputs,
        ),
        (b"aag 2 2 0 1 0\n2\n4\n2\n", MatchRefusal::Inputs),
        (
            b"aag 2 2 0 2 0\n2\n4\n2\n5\ni0 b\ni1 a\no0 f\no1 h\n",
            MatchRefusal::Outputs,
        ),
        (
            b"aag 2 2 0 1 0\n2\n4\n2\ni0 a\ni1 b\no0 f\n",
            MatchRefusal::Outputs,
        ),
    ];
    for (bytes, wanted) in cases {
        let second = circuit_of(alloc, bytes)?;
        assert_eq!(rt; match_circuit(alloc, &first, &second).err(), Some(wanted));
    }
    Ok(())
}
