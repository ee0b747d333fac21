ghost use Rattle.std.specs.Prelude.{◌≡◌, ◌≤◌};
ghost use Rattle.lattice.specs.Family.{power};
ghost use Rattle.node_store.specs.Stores.{Denotes, Builds};
ghost use Rattle.node_store.specs.AnyFamily.{MayHoldAny};

use node_store::{
    Full, Handle, Node, PlainStore, Store, any_plan, first_var, grow, pack, parts, unpack,
};
use std::test::Fail;

// All numbers over the last variables, so many of them.
fn all_over<S: Store>(store: &mut S, vars: u32, count: u32) -> Result<Handle, Full>
    requires any { MayHoldAny vars (S.state store.old) }
    requires count { count ≤ vars }
    ensures builds { Builds (S.state store.old) (S.state store.new) result (power count) }
    ensures any { MayHoldAny vars (S.state store.new) }
{
    if count == 0 {
        return Ok(Handle(1));
    }
    let rest = all_over(store, vars, count - 1)?;
    let var = store.vars() - (count - 1);
    store.intern(&Node {
        var,
        lo: rest,
        hi: rest,
    })
}

// The first variable of all numbers over the last two of three variables, their parts, and what is
// grown over them with nothing.
fn taken_apart<S: Store>(
    store: &mut S,
    all: Handle,
) -> (Option<u32>, (Handle, Handle), Result<Handle, Full>)
    requires vars { (S.state store.old).vars ≡ 3 }
    requires all { Denotes (S.state store.old) all (power 2) }
{
    let first = first_var(store, all);
    let halves = parts(store, all, 2);
    let grown = grow(store, 1, all, Handle(0));
    (first, halves, grown)
}

// A node is interned once, and its handle tells its slot.
#[test]
fn slots_in_order(rt: HostRuntime) -> Result<(), Fail> {
    let mut store = PlainStore::make(rt.alloc(), 4, 3, any_plan(3))?;
    assert_eq!(rt; all_over(&mut store, 3, 1), Ok(Handle(2)));
    assert_eq!(rt; all_over(&mut store, 3, 1), Ok(Handle(2)));
    let all = all_over(&mut store, 3, 2)?;
    assert_eq!(rt; all, Handle(3));
    let (first, halves, grown) = taken_apart(&mut store, all);
    assert_eq!(rt; first, Some(2));
    assert_eq!(rt; halves, (Handle(2), Handle(2)));
    assert_eq!(rt; grown, Ok(all));
    Ok(())
}

// Each slot takes a node; then the store is full, and still gives the handles of the nodes that it
// has.
#[test]
fn full_after_the_last_slot(rt: HostRuntime) -> Result<(), Fail> {
    let mut store = PlainStore::make(rt.alloc(), 4, 17, any_plan(17))?;
    assert_eq!(rt; all_over(&mut store, 17, 16), Ok(Handle(17)));
    assert_eq!(rt; all_over(&mut store, 17, 17), Err(Full));
    assert_eq!(rt; all_over(&mut store, 17, 16), Ok(Handle(17)));
    Ok(())
}

// The words as Python computes them: 3 * 2**48 + 1 * 2**24 + 1, and 62 * 2**48 + (2**23 + 1) *
// 2**24 + 2**23.
#[test]
fn words_of_nodes(rt: HostRuntime) {
    let node = Node {
        var: 3,
        lo: Handle(1),
        hi: Handle(1),
    };
    assert_eq!(rt; pack(&node), 844424946909185);
    assert_eq!(rt; unpack(844424946909185), Some(node));
    assert_eq!(rt; unpack(844424946909184), None);
    assert_eq!(rt; unpack(0), None);
    let last = Node {
        var: 62,
        lo: Handle(8388609),
        hi: Handle(8388608),
    };
    assert_eq!(rt; pack(&last), 17592186069581824);
    assert_eq!(rt; unpack(17592186069581824), Some(last));
}
