use lattice::{Mono, MonoLists, Monos, Names, Pages, Text, Words, value_at};
use std::cmp::Ordering;
use std::test::Fail;

// x1*x2 + x1 + x2 + 1 at the four points over two variables.
#[test]
fn values_at_points(rt: HostRuntime) {
    let terms = [Mono(3), Mono(2), Mono(1), Mono(0)];
    for (point, want) in [(0, true), (1, false), (2, false), (3, false)] {
        assert_eq!(rt; value_at(&terms, point), want, "at {point}");
    }
    assert!(rt; Mono(2).divides(6));
    assert!(rt; !Mono(2).divides(5));
    assert_eq!(rt; Mono(2).compare(Mono(3)), Ordering::Less);
}

#[test]
fn words_in_order(rt: HostRuntime) -> Result<(), Fail> {
    let mut words = Words::new(rt.alloc());
    assert_eq!(rt; words.word(0), None);
    for word in ["interp", ""] {
        words.push(word).map_err(|_e| "memory")?;
    }
    assert_eq!(rt; words.count(), 2);
    for (i, wanted) in [(0, Some("interp")), (1, Some("")), (2, None)] {
        assert_eq!(rt; words.word(i), wanted, "at {i}");
    }
    Ok(())
}

#[test]
fn a_list_and_its_vector(rt: HostRuntime) -> Result<(), Fail> {
    let mut terms = Monos::new(rt.alloc());
    assert!(rt; terms.is_empty());
    terms.push(Mono(5)).map_err(|_e| "memory")?;
    assert_eq!(rt; terms.len(), 1);
    let again = Monos::from_vec(terms.into_vec());
    assert_eq!(rt; again.as_slice(), [Mono(5)].as_slice());
    Ok(())
}

// Takes what may go to another thread, and be shared with one.
fn carried<T: Send + Sync + Drop>(_value: T) {}

#[test]
fn lists_go_between_threads(rt: HostRuntime) {
    let alloc = rt.alloc();
    carried(Monos::new(alloc));
    carried(MonoLists::new(alloc));
    carried(Text::new(alloc));
    carried(Names::new(alloc));
    carried(Pages::new(alloc));
    carried(Words::new(alloc));
}
