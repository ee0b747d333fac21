ghost use Rattle.std.specs.Prelude.{◌<◌, ◌≤◌, length};

use lattice::{Mono, MonoLists};
use nf_run::{Joining, joint_basis};
use pla_reader::read;
use set_algebra::TermsRefusal;
use std::alloc::Global;
use std::test::Fail;

// The reduced basis for a file of two outputs.
fn basis_of(
    alloc: Global,
    bits: u32,
    file: &[u8],
    joining: Joining,
    limit: u64,
) -> Result<Result<MonoLists, TermsRefusal>, Fail>
    requires bits { (4 ≤ bits) × (bits ≤ 8) }
    requires file { length file.now < 200 }
{
    let (p, _) = read(alloc, file)?;
    if p.outputs != 2 {
        return Ok(Ok(MonoLists::new(alloc)));
    }
    Ok(joint_basis(alloc, bits, &p, joining, limit))
}

// Whether the lists are the wanted ones.
fn are(lists: &MonoLists, wanted: &[&[Mono]]) -> bool {
    let lists = lists.as_slice();
    if lists.len() != wanted.len() {
        return false;
    }
    for place in 0..lists.len() {
        if lists[place].as_slice() != wanted[place] {
            return false;
        }
    }
    true
}

// The care points of output 1 are 11 and 00, and those of output 2 are 00 and 10. Over two
// variables x1 is 2 and x2 is 1.
const SMALL: &[u8] = b".i 2\n.o 2\n.type fr\n11 1-\n00 00\n10 -1\n";

#[test]
fn both_joinings(rt: HostRuntime) -> Result<(), Fail> {
    let union = basis_of(rt.alloc(), 4, SMALL, Joining::Union, 2)??;
    assert!(rt; are(&union, &[&[Mono(3), Mono(1)]]));
    let meet = basis_of(rt.alloc(), 4, SMALL, Joining::Meet, 2)??;
    assert!(rt; are(&meet, &[&[Mono(1)], &[Mono(2)]]));
    Ok(())
}

// No care points of output 2 at all: the one polynomial 1 generates what vanishes on none.
#[test]
fn no_points(rt: HostRuntime) -> Result<(), Fail> {
    let file = b".i 2\n.o 2\n.type fr\n11 1-\n";
    let meet = basis_of(rt.alloc(), 4, file, Joining::Meet, 1)??;
    assert!(rt; are(&meet, &[&[Mono(0)]]));
    let union = basis_of(rt.alloc(), 4, file, Joining::Union, 4)??;
    assert!(rt; are(&union, &[&[Mono(1), Mono(0)], &[Mono(2), Mono(0)]]));
    Ok(())
}

// The common points are 101, 110 and 111, with 2 leads and 6 terms. Phase 1 needs 12 nodes, and
// phase 2 just 16.
#[test]
fn limits_of_terms(rt: HostRuntime) -> Result<(), Fail> {
    let file = b".i 3\n.o 2\n-00 -0\n0-- 0-\n";
    let whole = basis_of(rt.alloc(), 4, file, Joining::Meet, 6)??;
    let first: &[Mono] = &[Mono(3), Mono(2), Mono(1), Mono(0)];
    assert!(rt; are(&whole, &[first, &[Mono(4), Mono(0)]]));
    for limit in [0, 1, 2, 5] {
        let refused = basis_of(rt.alloc(), 4, file, Joining::Meet, limit)?.err();
        assert_eq!(rt; refused, Some(TermsRefusal::Over));
    }
    Ok(())
}

// The common points are 001, 011 and 101, with 2 leads. Phase 1 needs 16 nodes, and phase 2 needs
// 17.
#[test]
fn exhausted_second(rt: HostRuntime) -> Result<(), Fail> {
    let file = b".i 3\n.o 2\n11- 0-\n--0 0-\n";
    let refused = basis_of(rt.alloc(), 4, file, Joining::Meet, 2)?.err();
    assert_eq!(rt; refused, Some(TermsRefusal::Full));
    let counted = basis_of(rt.alloc(), 4, file, Joining::Meet, 1)?.err();
    assert_eq!(rt; counted, Some(TermsRefusal::Over));
    let whole = basis_of(rt.alloc(), 5, file, Joining::Meet, 3)??;
    assert!(rt; are(&whole, &[&[Mono(1), Mono(0)], &[Mono(6)]]));
    Ok(())
}

// All points but 1110, with one lead. Phase 1 needs 17 nodes, and phase 2 needs 22.
#[test]
fn exhausted_first(rt: HostRuntime) -> Result<(), Fail> {
    let file = b".i 4\n.o 2\n1110 1-\n";
    let refused = basis_of(rt.alloc(), 4, file, Joining::Meet, 0)?.err();
    assert_eq!(rt; refused, Some(TermsRefusal::Full));
    let counted = basis_of(rt.alloc(), 5, file, Joining::Meet, 0)?.err();
    assert_eq!(rt; counted, Some(TermsRefusal::Over));
    Ok(())
}
