ghost use Rattle.std.specs.Prelude.{◌≡◌, IsTrue, IfOk};
ghost use Rattle.probe_core.specs.Events.{start, is_store, MayTake, MayTakeAll, after, after_all};

use lattice::Memory;
use probe_core::{Core, Event, Seen, probe_place, run};
use std::alloc::Global;
use std::process::Abort;
use std::test::Fail;

// The words of nodes and the places where their paths begin are as Python computes them:
// word = var * 2**48 + lo * 2**24 + hi, and place = (word * 0x9E3779B97F4A7C15 % 2**64) // 2**60.
// A path goes on by 2 * ((word * 0x9E3779B97F4A7C15 % 2**64) // 2**20 % 2**20) + 1 lines.

// The word of the node of variable 3 over {0} twice, whose path begins at place 12.
const FIRST: u64 = 844424946909185;

// The words of three nodes with the places that they take; each path begins at place 12. They are
// the node of variable 3 over the handles 1 and 1, that of variable 2 over 14 and 14, and that of
// variable 1 over 0 and 15.
const NODES: [(u32, u64); 3] = [(12, FIRST), (13, 562950188302350), (14, 281474976710671)];

// The nodes of x3 and of x2*x3, each with the place where its path begins; the second one is over
// the first, Handle(3).
const X3: (u32, u64) = (1, 844424930131969);

const X2X3: (u32, u64) = (13, 562949953421315);

// The product of Handle(3) and variable 2, which is Handle(15), with the place of its key: that and
// the quotient are the upper and the lower digits of (10 * 2**48 + 3 * 2**24 + 2) *
// 0x9E3779B97F4A7C15 % 2**52, and the word is quotient * 2**24 + 15 + 1.
const PRODUCT: (u32, u64) = (3794, 0xE73D_94F8_2A00_0010);

// Whether the event stores a cache word.
fn is_store(e: &Event) -> bool
    ensures { result ≡ is_store e.now }
{
    matches!(e, Event::CacheStore { .. })
}

// The path of the word in a table of 32 places.
fn path_of(alloc: Global, word: u64) -> Result<Vec<usize>, Memory> {
    let mut path = Vec::new(alloc);
    for steps in 0..32usize {
        path.push(probe_place(5, word, steps))?;
    }
    Ok(path)
}

// Whether the event may be taken, and stores no cache word.
fn may_take(core: &Core, e: &Event) -> bool
    ensures { IsTrue result → MayTake core.now e.now }
{
    !is_store(e) && core.may(e)
}

// Takes an event that may be taken, and stores no cache word.
fn take(rt: &impl Abort, core: &mut Core, e: &Event) -> Result<Seen, Memory>
    ensures may { MayTake core.old e.now }
    ensures after { IfOk result (λ _. core.new ≡ after core.old e.now) }
{
    assert!(rt; may_take(core, e));
    core.step(e)
}

// Takes events that may be taken at their turns, and store no cache words, over 16 places and 3
// variables.
fn take_all(rt: &impl Abort, alloc: Global, events: &[Event]) -> Result<Core, Memory>
    ensures may { IfOk result (λ _. MayTakeAll (start 4 3) events.now) }
    ensures after { IfOk result (λ c. c ≡ after_all (start 4 3) events.now) }
{
    let mut core = Core::make(alloc, 4, 3)?;
    for e in events {
        take(rt, &mut core, e)?;
    }
    Ok(core)
}

// Three seats exchange the same nodes twice over, each after all have looked at its place. Then two
// join the first.
fn three_seats(alloc: Global) -> Result<Vec<Event>, Fail> {
    let mut events = Vec::new(alloc);
    events.push(Event::Split { seat: 0 })?;
    events.push(Event::Split { seat: 1 })?;
    for _ in 0..2 {
        for (place, word) in NODES {
            for seat in 0..3 {
                events.push(Event::Load { seat, place })?;
            }
            for seat in 0..3 {
                events.push(Event::Exchange { seat, place, word })?;
            }
        }
    }
    events.push(Event::Join { seat: 0, other: 1 })?;
    events.push(Event::Join { seat: 0, other: 2 })?;
    Ok(events)
}

// A path goes round the line where it starts, and on to the next line by its stride, which is 1 of
// four lines for X3, and 3 for X2X3.
#[test]
fn two_paths(rt: HostRuntime) -> Result<(), Fail> {
    let by_one = [
        2, 3, 4, 5, 6, 7, 0, 1, 10, 11, 12, 13, 14, 15, 8, 9, 18, 19, 20, 21, 22, 23, 16, 17, 26,
        27, 28, 29, 30, 31, 24, 25,
    ];
    let by_three = [
        26, 27, 28, 29, 30, 31, 24, 25, 18, 19, 20, 21, 22, 23, 16, 17, 10, 11, 12, 13, 14, 15, 8,
        9, 2, 3, 4, 5, 6, 7, 0, 1,
    ];
    let short = path_of(rt.alloc(), X3.1)?;
    assert_eq!(rt; short.as_slice(), by_one.as_slice());
    let long = path_of(rt.alloc(), X2X3.1)?;
    assert_eq!(rt; long.as_slice(), by_three.as_slice());
    Ok(())
}

// Of two seats that saw a vacant place and exchange one word there, the first has won, and the
// other one sees its word.
#[test]
fn one_exchange_wins(rt: HostRuntime) -> Result<(), Fail> {
    let events = [
        Event::Split { seat: 0 },
        Event::Load { seat: 0, place: 12 },
        Event::Load { seat: 1, place: 12 },
        Event::Exchange {
            seat: 0,
            place: 12,
            word: FIRST,
        },
        Event::Exchange {
            seat: 1,
            place: 12,
            word: FIRST,
        },
    ];
    let words = [0, 0, 0, FIRST, FIRST];
    let mut core = Core::make(rt.alloc(), 4, 3)?;
    for (k, e) in events.iter().enumerate() {
        let seen = take(&rt, &mut core, e)?;
        assert_eq!(rt; Some(&seen.word), words.get(k), "event {k}");
        assert_eq!(rt; seen.won, k == 3, "event {k}");
    }
    let at_once = take_all(&rt, rt.alloc(), &events)?;
    let by_run = run(rt.alloc(), 4, 3, &events)?;
    assert_eq!(rt; at_once.words(), core.words());
    assert_eq!(rt; by_run.words(), core.words());
    Ok(())
}

// Whoever exchanges the same three nodes, three slots are filled.
#[test]
fn three_slots_for_three_nodes(rt: HostRuntime) -> Result<(), Fail> {
    let events = three_seats(rt.alloc())?;
    assert_eq!(rt; events.len(), 40);
    let core = take_all(&rt, rt.alloc(), events.as_slice())?;
    assert_eq!(rt; core.words().iter().filter(|w| **w != 0).count(), 3);
    for (place, word) in NODES {
        assert_eq!(rt; core.words().get(place as usize), Some(&word));
    }
    let by_run = run(rt.alloc(), 4, 3, events.as_slice())?;
    assert_eq!(rt; by_run.words(), core.words());
    Ok(())
}

// Events that may not be taken after those of `three_seats`, each for one cause, and two that may.
#[test]
fn refused_events(rt: HostRuntime) -> Result<(), Fail> {
    let fresh = Core::make(rt.alloc(), 4, 3)?;
    assert!(rt; may_take(&fresh, &first_at(12)));
    assert!(rt;
        !may_take(&fresh, &first_at(13)),
        "not the next place of the path"
    );
    let events = three_seats(rt.alloc())?;
    let core = take_all(&rt, rt.alloc(), events.as_slice())?;
    assert!(rt; may_take(&core, &Event::Load { seat: 0, place: 15 }));
    assert!(rt;
        may_take(
            &core,
            &Event::CacheLoad {
                seat: 0,
                place: 4095
            }
        )
    );
    let refused = [
        ("an ended seat", Event::Load { seat: 1, place: 0 }),
        ("no such seat", Event::Load { seat: 3, place: 0 }),
        ("no such place", Event::Load { seat: 0, place: 16 }),
        (
            "no such cache word",
            Event::CacheLoad {
                seat: 0,
                place: 4096,
            },
        ),
        (
            "an ended seat looks at a cache word",
            Event::CacheLoad { seat: 1, place: 0 },
        ),
        ("an ended seat splits", Event::Split { seat: 2 }),
        ("an ended seat joins", Event::Join { seat: 0, other: 2 }),
        ("a seat joins itself", Event::Join { seat: 0, other: 0 }),
    ];
    for (why, e) in refused {
        assert!(rt; !may_take(&core, &e), "{why}");
    }
    Ok(())
}

// Words that the first seat may not exchange at the places given, each for one cause, and one that
// it may.
#[test]
fn refused_words(rt: HostRuntime) -> Result<(), Fail> {
    let events = three_seats(rt.alloc())?;
    let core = take_all(&rt, rt.alloc(), events.as_slice())?;
    let words = [
        (
            "variable 1 over the handles 14 and 15, past the word at place 14",
            15,
            281475211591695,
            true,
        ),
        ("its own word was met before", 15, 281474976710671, false),
        ("a child is not known", 8, 281475010265089, false),
        ("a child has the same variable", 7, 562950205079553, false),
        ("no high child", 10, 281475211591680, false),
        ("no variable", 5, 16777217, false),
        ("a variable too many", 4, 1125899923619841, false),
    ];
    for (why, place, word, may) in words {
        let e = Event::Exchange {
            seat: 0,
            place,
            word,
        };
        assert_eq!(rt; may_take(&core, &e), may, "{why}");
    }
    Ok(())
}

// The first seat exchanges FIRST at a place.
fn first_at(place: u32) -> Event {
    Event::Exchange {
        seat: 0,
        place,
        word: FIRST,
    }
}

// The first seat makes the nodes of x3 and of x2*x3 and keeps the product of x3 and x2. A seat that
// knows x3 learns x2*x3 from it, so that it may exchange a node over it, and a seat that does not
// know x3 learns nothing.
#[test]
fn a_kept_product_is_found(rt: HostRuntime) -> Result<(), Fail> {
    let events = [
        Event::Split { seat: 0 },
        Event::Exchange {
            seat: 0,
            place: X3.0,
            word: X3.1,
        },
        Event::Split { seat: 0 },
        Event::Exchange {
            seat: 0,
            place: X2X3.0,
            word: X2X3.1,
        },
        Event::CacheStore {
            seat: 0,
            place: PRODUCT.0,
            word: PRODUCT.1,
        },
    ];
    let mut core = run(rt.alloc(), 4, 3, &events)?;
    for seat in 1..3 {
        assert!(rt;
            !may_take(&core, &over_x2x3(seat)),
            "seat {seat} before its look"
        );
        let look = Event::CacheLoad {
            seat,
            place: PRODUCT.0,
        };
        let seen = take(&rt, &mut core, &look)?;
        assert_eq!(rt; seen.word, PRODUCT.1);
        assert!(rt; !seen.won);
        assert_eq!(rt; may_take(&core, &over_x2x3(seat)), seat == 2, "seat {seat}");
    }
    assert!(rt; take(&rt, &mut core, &over_x2x3(2))?.won);
    assert_eq!(rt; core.words().iter().filter(|w| **w != 0).count(), 3);
    assert_eq!(rt; core.cache().get(PRODUCT.0 as usize), Some(&PRODUCT.1));
    assert_eq!(rt; core.cache().iter().filter(|w| **w != 0).count(), 1);
    Ok(())
}

// The seat exchanges the node of variable 1 over Handle(0) and Handle(15).
fn over_x2x3(seat: u32) -> Event {
    Event::Exchange {
        seat,
        place: 12,
        word: 281474976710671,
    }
}
