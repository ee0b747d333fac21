use aig_inputs::{arrange_circuit, marked_names, read_inverted};
use aig_reader::{Aig, Gate, read};
use lattice::{Name, Names};
use pla_reader::{OrderRefusal, order_of};
use std::alloc::{AllocError, Global};
use std::process::Abort;
use std::test::Fail;

// Three inputs, two gates and four outputs, of which the last is constant.
const THREE_INPUTS: &[u8] =
    b"aag 5 3 0 4 2\n2\n4\n6\n10\n3\n8\n1\n8 4 3\n10 8 6\ni0 a\ni1 b\ni2 c\no0 f\no2 h\n";

fn names_of(alloc: Global, texts: &[&[u8]]) -> Result<Names, AllocError> {
    let mut names = Vec::new(alloc);
    for text in texts {
        names.push(Name::from_vec(Vec::from_slice(alloc, text)?))?;
    }
    Ok(Names::from_vec(names))
}

// The names are these.
fn expect_names(rt: &impl Abort, names: &Names, wanted: &[&[u8]]) {
    assert_eq!(rt; names.len(), wanted.len());
    for (name, bytes) in names.as_slice().iter().zip(wanted) {
        assert_eq!(rt; name.as_slice(), *bytes);
    }
}

// The circuit above, arranged by the order of the text, with these inputs inverted.
fn arranged_by(
    rt: &impl Abort,
    alloc: Global,
    text: &[u8],
    inverted: &[bool],
) -> Result<Aig, Fail> {
    let aig = read(alloc, THREE_INPUTS).map_err(|_| "a circuit")?;
    let names = aig.in_names.as_slice();
    assert!(rt; names.len() <= 62);
    let order = order_of(alloc, names, text).map_err(|_| "an order")?;
    assert_eq!(rt; names.len(), aig.inputs as usize);
    assert_eq!(rt; inverted.len(), aig.inputs as usize);
    Ok(arrange_circuit(alloc, &aig, &order, inverted)?)
}

fn gate(left: u32, right: u32) -> Gate {
    Gate { left, right }
}

// An order, which inputs of the file are inverted, and the gates, the outputs and the names of the
// inputs of the arranged circuit.
#[test]
fn arranged_circuits(rt: HostRuntime) -> Result<(), Fail> {
    let alloc = rt.alloc();
    let cases: [(&[u8], &[bool], &[Gate], &[u32], &[&[u8]]); 6] = [
        (
            b"a,b,c",
            &[false, false, false],
            &[gate(4, 3), gate(8, 6)],
            &[10, 3, 8, 1],
            &[b"a", b"b", b"c"],
        ),
        (
            b"c,a,b",
            &[false, false, false],
            &[gate(6, 5), gate(8, 2)],
            &[10, 5, 8, 1],
            &[b"c", b"a", b"b"],
        ),
        (
            b"b,c,a",
            &[false, false, false],
            &[gate(2, 7), gate(8, 4)],
            &[10, 7, 8, 1],
            &[b"b", b"c", b"a"],
        ),
        (
            b"a,b,c",
            &[false, true, false],
            &[gate(5, 3), gate(8, 6)],
            &[10, 3, 8, 1],
            &[b"a", b"b", b"c"],
        ),
        (
            b"c,a,b",
            &[true, false, true],
            &[gate(6, 4), gate(8, 3)],
            &[10, 4, 8, 1],
            &[b"c", b"a", b"b"],
        ),
        (
            b"c,b,a",
            &[true, true, true],
            &[gate(5, 6), gate(8, 3)],
            &[10, 6, 8, 1],
            &[b"c", b"b", b"a"],
        ),
    ];
    for (text, inverted, gates, outputs, names) in cases {
        let aig = arranged_by(&rt, alloc, text, inverted)?;
        assert_eq!(rt; aig.inputs, 3);
        assert_eq!(rt; aig.gates.as_slice(), gates);
        assert_eq!(rt; aig.outputs.as_slice(), outputs);
        expect_names(&rt, &aig.in_names, names);
        expect_names(&rt, &aig.out_names, &[b"f", b"", b"h", b""]);
    }
    Ok(())
}

// The inputs that the text names are those that are wanted, or none are wanted and the text is
// refused.
fn expect_inverted(rt: &impl Abort, alloc: Global, names: &[Name], text: &[u8], wanted: &[bool]) {
    assert!(rt; names.len() <= 62);
    match read_inverted(alloc, names, text) {
        Ok(inverted) => {
            assert!(rt; !wanted.is_empty());
            assert_eq!(rt; inverted.as_slice(), wanted);
        }
        Err(refusal) => {
            assert_eq!(rt; refusal, OrderRefusal::Bad);
            assert!(rt; wanted.is_empty());
        }
    }
}

// A text, and which of three inputs it names.
#[test]
fn inverted_inputs(rt: HostRuntime) -> Result<(), Fail> {
    let alloc = rt.alloc();
    let cases: [(&[u8], &[bool]); 14] = [
        (b"a", &[true, false, false]),
        (b"b[0]", &[false, true, false]),
        (b"c,a", &[true, false, true]),
        (b"c,b[0],a", &[true, true, true]),
        (b"", &[]),
        (b"a,a", &[]),
        (b"c,a,b[0],c", &[]),
        (b"d", &[]),
        (b"a,d", &[]),
        (b"a,", &[]),
        (b",a", &[]),
        (b"a, c", &[]),
        (b"~a", &[]),
        (b"x1", &[]),
    ];
    let names = names_of(alloc, &[b"a", b"b[0]", b"c"])?;
    for (text, wanted) in cases {
        expect_inverted(&rt, alloc, names.as_slice(), text, wanted);
    }
    expect_inverted(&rt, alloc, &[], b"", &[]);
    Ok(())
}

// An order, which of three inputs are inverted, and the names with their marks.
#[test]
fn names_with_marks(rt: HostRuntime) -> Result<(), Fail> {
    let alloc = rt.alloc();
    let cases: [(&[u8], &[bool], &[&[u8]]); 4] = [
        (b"a,b,c", &[false, false, false], &[b"a", b"b", b"c"]),
        (b"a,b,c", &[false, true, false], &[b"a", b"~b", b"c"]),
        (b"c,a,b", &[true, false, false], &[b"c", b"~a", b"b"]),
        (b"b,c,a", &[true, true, true], &[b"~b", b"~c", b"~a"]),
    ];
    let names = names_of(alloc, &[b"a", b"b", b"c"])?;
    let names = names.as_slice();
    for (text, inverted, wanted) in cases {
        assert!(rt; names.len() <= 62);
        let order = order_of(alloc, names, text).map_err(|_| "an order")?;
        assert_eq!(rt; inverted.len(), names.len());
        let marked = marked_names(alloc, names, &order, inverted)?;
        expect_names(&rt, &marked, wanted);
    }
    Ok(())
}
