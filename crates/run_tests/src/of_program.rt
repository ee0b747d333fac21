use pla_reader::{MOST_BYTES, Why, read};
use program::{NoEnd, Outcome, behind};
use std::test::Fail;

// A description, the bytes behind it, and two causes of a refusal; the second is found in the last
// line of as many bytes as a source may give.
#[test]
fn what_bytes_describe(rt: HostRuntime) -> Result<(), Fail> {
    let bytes = b".i 2\n.o 1\n11 1\n.e\nmore";
    let (pla, taken) = read(rt.alloc(), bytes)?;
    assert_eq!(rt; pla.inputs, 2);
    assert_eq!(rt; behind(bytes, taken), b"more".as_slice());
    let refused = read(rt.alloc(), b".i 2\n.o 1\n1 1\n").err();
    let want: Outcome<NoEnd> = Outcome::Text {
        line: 3,
        why: Why::RowLength,
    };
    assert_eq!(rt; refused.map(|refusal| Outcome::from(refusal)), Some(want));
    let full = vec![in rt.alloc(); 10u8; MOST_BYTES]?;
    let empty = read(rt.alloc(), &full).err();
    let want: Outcome<NoEnd> = Outcome::Text {
        line: 4194304,
        why: Why::NoSize,
    };
    assert_eq!(rt; empty.map(|refusal| Outcome::from(refusal)), Some(want));
    Ok(())
}
