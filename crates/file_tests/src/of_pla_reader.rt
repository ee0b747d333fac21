use lattice::{Kind, Name, Names, Row};
use pla_reader::{
    OrderRefusal, Pla, ReadRefusal, Refusal, Why, arrange, file_order, plain_names, read,
    read_order,
};
use std::alloc::{AllocError, Global};
use std::process::Abort;
use std::test::Fail;

// The text is refused, for what is wrong with this line.
fn expect_refused(rt: &impl Abort, alloc: Global, text: &[u8], line: u32, why: Why) {
    assert!(rt; text.len() < 100_000);
    let refusal = read(alloc, text).err();
    assert_eq!(rt; refusal, Some(ReadRefusal::Bad(Refusal { line, why })));
}

// The description that the text is.
fn described(alloc: Global, text: &[u8]) -> Result<Pla, Fail> {
    if text.len() >= 100_000 {
        return Err(Fail::new("long"));
    }
    let (pla, _) = read(alloc, text).map_err(|_| "a description")?;
    Ok(pla)
}

// A text, its first bad line, and what is wrong with it.
#[test]
fn refusals(rt: HostRuntime) {
    let cases: [(&[u8], u32, Why); 32] = [
        (b".i 99999999999999999999\n", 1, Why::SizeRange),
        (b".i 0\n", 1, Why::SizeRange),
        (b".i 2 2\n", 1, Why::BadNumber),
        (b".i 2\n.i 2\n", 2, Why::Twice),
        (b".i 2\n.o 65\n", 2, Why::SizeRange),
        (b".i 2\n.ilb a b\n.o 1\n", 2, Why::NamesEarly),
        (b".i 2\n.o 1\n.ilb a\n", 3, Why::NameCount),
        (b".i 2\n.o 1\n.type dr\n", 3, Why::Unsupported),
        (b".i 2\n.o 1\n.type g\n", 3, Why::BadType),
        (b".i 2\n10 1\n", 2, Why::RowBeforeSize),
        (b".i 2\n.o 1\n1x 1\n", 3, Why::BadSymbol),
        (b".i 2\n.o 1\n\0\n", 3, Why::BadByte),
        (b".i 2\n.e\n", 2, Why::NoSize),
        (b".i 2\n.o 1\n.type fd\n1-\n", 4, Why::RowLength),
        (b".i 2\n.o 1\n10 1\n.type fd\n", 4, Why::TypeLate),
        (b"", 0, Why::NoSize),
        (b".i 2\n.o 1\n10 1\n0", 4, Why::RowLength),
        (
            b".i 2\n.o 1 # one\n.type fr\n.topology x\n11\n1\n",
            5,
            Why::RowLength,
        ),
        (b".i 63\n", 1, Why::SizeRange),
        (b".i\n", 1, Why::BadNumber),
        (b".i 2x\n", 1, Why::BadNumber),
        (
            b".i 340282366920938463463374607431768211458\n",
            1,
            Why::SizeRange,
        ),
        (b"\n# \n\r\n.i 2\n.kiss\n10 1\n", 5, Why::Unsupported),
        (b".i 2\n.o 1\n.ob f g\n", 3, Why::NameCount),
        (b".i 2\n.o 1\n.ob f\n.ob f g\n", 4, Why::Twice),
        (b".i 2\n.o 1\n.type f fd\n", 3, Why::BadType),
        (b".i 2\n.o 1\n11 1#\n", 3, Why::RowLength),
        (b".i 2\n.o 1\n~1 1\n", 3, Why::BadSymbol),
        (b".i 2\n.o 1\n11 3\n", 3, Why::BadSymbol),
        (b".i 2\n.o 1\n11 1\r\r\n", 3, Why::BadByte),
        (b".i 2\n.o 1\n\xc8# \n", 3, Why::BadByte),
        (b".i 2\n\n.end\n.o 1\n", 3, Why::NoSize),
    ];
    for (text, line, why) in cases {
        expect_refused(&rt, rt.alloc(), text, line, why);
    }
}

fn row(line: u32, care: u64, value: u64, on: u64, off: u64, dc: u64) -> Row {
    Row {
        line,
        care,
        value,
        on,
        off,
        dc,
    }
}

// A text of two inputs, the bytes that it takes, its type and its rows.
#[test]
fn rows(rt: HostRuntime) {
    let cases: [(&[u8], usize, Kind, &[Row]); 8] = [
        (
            b".i 2\n.o 1 # one\n.type fr\n.topology x\n1 1 | 1\n",
            45,
            Kind::Fr,
            &[row(5, 3, 3, 1, 0, 0)],
        ),
        (
            b".i 002\r\n.o 1\r\n# \xc8\r\n1-1\r\n.e 1\r\n.e\r\n",
            30,
            Kind::Fd,
            &[row(4, 2, 2, 1, 0, 0)],
        ),
        (
            b".o 4\n.i 2\n.type f\n012014\n-02~-1",
            31,
            Kind::F,
            &[row(4, 3, 1, 12, 0, 0), row(5, 1, 0, 8, 0, 0)],
        ),
        (
            b".o 4\n.i 2\n.type fd\n01 2014\n-0 2~-1\n",
            35,
            Kind::Fd,
            &[row(4, 3, 1, 12, 0, 1), row(5, 1, 0, 8, 0, 5)],
        ),
        (
            b".o 4\n.i 2\n.type fr\n01 2014\n-0 2~-1\n",
            35,
            Kind::Fr,
            &[row(4, 3, 1, 12, 2, 0), row(5, 1, 0, 8, 0, 0)],
        ),
        (
            b".o 4\n.i 2\n.type fdr\n01 2014\n-0 2~-1\n",
            36,
            Kind::Fdr,
            &[row(4, 3, 1, 12, 2, 1), row(5, 1, 0, 8, 0, 5)],
        ),
        (b"\t.i\t2 #.i 2\n .o 1\n .end\n\0\n", 24, Kind::Fd, &[]),
        (b".i 2\n.o 1\n.type#x fr\n.p\n", 24, Kind::Fd, &[]),
    ];
    for (text, taken, kind, rows) in cases {
        assert!(rt; text.len() < 100);
        let (pla, count) = read(rt.alloc(), text).expect(&rt, "a description");
        assert_eq!(rt; count, taken);
        assert_eq!(rt; pla.inputs, 2);
        assert_eq!(rt; pla.kind, kind);
        assert_eq!(rt; pla.rows.as_slice(), rows);
    }
}

// Names may come after rows.
#[test]
fn names(rt: HostRuntime) -> Result<(), Fail> {
    let text = b"# full adder\n.i 3\n.o 2\n.ilb a b cin\n001 10\n.ob s #c\n.e\n";
    expect_refused(&rt, rt.alloc(), text, 6, Why::NameCount);

    let text = b"# full adder\n.i 3\n.o 2\n.ilb a b cin\n001 10\n.ob s c#c\n.e\n";
    let pla = described(rt.alloc(), text)?;
    assert_eq!(rt; pla.in_names.len(), 3);
    assert_eq!(rt; pla.out_names.len(), 2);
    let known = pla
        .in_names
        .as_slice()
        .iter()
        .chain(pla.out_names.as_slice());
    let wanted: [&[u8]; 5] = [b"a", b"b", b"cin", b"s", b"c#c"];
    for (name, want) in known.zip(wanted) {
        assert_eq!(rt; name.as_slice(), want);
    }
    Ok(())
}

// So many rows are read, and one more is refused.
#[test]
fn most_rows(rt: HostRuntime) {
    let mut text = Vec::new(rt.alloc());
    text.extend_from_slice(b".i 1\n.o 1\n")
        .expect(&rt, "memory");
    for _ in 0..8192 {
        text.extend_from_slice(b"1 1\n").expect(&rt, "memory");
    }
    assert_eq!(rt; text.len(), 32778);
    let (pla, _) = read(rt.alloc(), &text).expect(&rt, "a description");
    assert_eq!(rt; pla.rows.len(), 8192);

    text.extend_from_slice(b"1 1\n").expect(&rt, "memory");
    assert_eq!(rt; text.len(), 32782);
    expect_refused(&rt, rt.alloc(), &text, 8195, Why::TooManyRows);
}

// Three inputs and one output, of type fr, with the rows `1-0 1` and `011 0`; the names of the
// inputs stand between.
fn three_inputs(alloc: Global, names: &[u8]) -> Result<Pla, Fail> {
    let mut text = Vec::from_slice(alloc, b".i 3\n.o 1\n.type fr\n.ob y\n")?;
    text.extend_from_slice(names)?;
    text.extend_from_slice(b"1-0 1\n011 0\n")?;
    described(alloc, &text)
}

// The order that the text asks for is the one that is wanted, or none is wanted and the text is
// refused.
fn expect_order(rt: &impl Abort, alloc: Global, p: &Pla, text: &[u8], wanted: &[u32]) {
    match read_order(alloc, p, text) {
        Ok(order) => {
            assert!(rt; !wanted.is_empty());
            assert_eq!(rt; order.as_slice(), wanted);
        }
        Err(refusal) => {
            assert_eq!(rt; refusal, OrderRefusal::Bad);
            assert!(rt; wanted.is_empty());
        }
    }
}

// The names that are given, an order, the masks of the two rows over its variables, and the names
// of the variables.
#[test]
fn arranged_inputs(rt: HostRuntime) -> Result<(), Fail> {
    let alloc = rt.alloc();
    let cases: [(&[u8], &[u8], [(u64, u64); 2], [&[u8]; 3]); 5] = [
        (
            b".ilb a b c\n",
            b"a,b,c",
            [(5, 4), (7, 3)],
            [b"a", b"b", b"c"],
        ),
        (
            b".ilb a b c\n",
            b"c,b,a",
            [(5, 1), (7, 6)],
            [b"c", b"b", b"a"],
        ),
        (
            b".ilb a b c\n",
            b"c,a,b",
            [(6, 2), (7, 5)],
            [b"c", b"a", b"b"],
        ),
        (b"", b"x3,x1,x2", [(6, 2), (7, 5)], [b"x3", b"x1", b"x2"]),
        (
            b".ilb 0 1 2\n",
            b"x2,x3,x1",
            [(3, 1), (7, 6)],
            [b"x2", b"x3", b"x1"],
        ),
    ];
    for (names, text, masks, in_names) in cases {
        let p = three_inputs(alloc, names)?;
        let order = read_order(alloc, &p, text).map_err(|_| "an order")?;
        let q = arrange(alloc, &p, &order)?;
        assert_eq!(rt; (q.inputs, q.outputs, q.kind), (3, 1, Kind::Fr));
        for (i, (care, value)) in masks.iter().enumerate() {
            let before = p.rows.as_slice().get(i).ok_or("row")?;
            let after = q.rows.as_slice().get(i).ok_or("row")?;
            let (care, value) = (*care, *value);
            assert_eq!(rt;
                *after,
                Row {
                    care,
                    value,
                    ..*before
                }
            );
        }
        for (i, want) in in_names.iter().enumerate() {
            let name = q.in_names.as_slice().get(i).ok_or("name")?;
            assert_eq!(rt; name.as_slice(), *want);
        }
        let output = q.out_names.as_slice().first().ok_or("name")?;
        assert_eq!(rt; output.as_slice(), b"y".as_slice());
    }
    Ok(())
}

// Whether the names are given, a text, and the positions that it asks for.
#[test]
fn orders(rt: HostRuntime) -> Result<(), Fail> {
    let alloc = rt.alloc();
    let given: &[u8] = b".ilb a b c\n";
    let cases: [(&[u8], &[u8], &[u32]); 14] = [
        (given, b"a,b,c", &[1, 2, 3]),
        (given, b"b,c,a", &[2, 3, 1]),
        (given, b"c,b,a", &[3, 2, 1]),
        (b"", b"x2,x1,x3", &[2, 1, 3]),
        (given, b"a,b", &[]),
        (given, b"a,b,b", &[]),
        (given, b"a,b,c,a", &[]),
        (given, b"a,b,d", &[]),
        (given, b"x1,x2,x3", &[]),
        (given, b"a,,b,c", &[]),
        (given, b"a,b,c,", &[]),
        (given, b"", &[]),
        (given, b"a, b,c", &[]),
        (given, b"abc", &[]),
    ];
    for (names, text, wanted) in cases {
        let p = three_inputs(alloc, names)?;
        expect_order(&rt, alloc, &p, text, wanted);
    }
    let p = three_inputs(alloc, given)?;
    let order = file_order(alloc, &p)?;
    assert_eq!(rt; order.as_slice(), [1, 2, 3].as_slice());
    Ok(())
}

// One input has one order.
#[test]
fn one_input(rt: HostRuntime) -> Result<(), Fail> {
    let alloc = rt.alloc();
    let p = described(alloc, b".i 1\n.o 1\n1 1\n")?;
    expect_order(&rt, alloc, &p, b"x1", &[1]);
    expect_order(&rt, alloc, &p, b"x1,x1", &[]);
    expect_order(&rt, alloc, &p, b"", &[]);
    Ok(())
}

fn names_of(alloc: Global, texts: &[&[u8]]) -> Result<Names, AllocError> {
    let mut names = Vec::new(alloc);
    for text in texts {
        names.push(Name::from_vec(Vec::from_slice(alloc, text)?))?;
    }
    Ok(Names::from_vec(names))
}

#[test]
fn plain_or_not(rt: HostRuntime) -> Result<(), Fail> {
    let longest = b"abcdefghijklmnopqrstuvwxyz012345";
    let too_long = b"abcdefghijklmnopqrstuvwxyz0123456";
    let cases: [(&[&[u8]], bool); 8] = [
        (&[b"a", b"b", b"cin"], true),
        (&[b"_x[0]", b"y<1>.z"], true),
        (&[longest], true),
        (&[too_long], false),
        (&[b"0", b"1"], false),
        (&[b"a", b"b-c"], false),
        (&[b"a", b"b", b"a"], false),
        (&[], false),
    ];
    for (texts, want) in cases {
        assert_eq!(rt; plain_names(&names_of(rt.alloc(), texts)?), want);
    }
    Ok(())
}
