ghost use Rattle.std.specs.Prelude.{◌<◌, ◌^◌, IfOk};
ghost use Rattle.set_algebra.specs.ReadyStores.{IsReady};

use lattice::{Mono, Monos, Op};
use node_store::{Full, Handle, PlainStore, Store, any_plan};
use set_algebra::{
    WalkRefusal, contains, count_upto, inter, minus, one, power, union, walk_upto, xor,
};
use std::alloc::Global;
use std::test::Fail;

// The family of two numbers. The store goes on knowing `other`.
fn pair<S: Store>(store: &mut S, vars: u32, m: u64, n: u64, other: Handle) -> Result<Handle, Full>
    requires ready { IsReady vars (S.state store.old) other other }
    requires m { m < 2 ^ vars }
    requires n { n < 2 ^ vars }
    ensures { IfOk result (IsReady vars (S.state store.new) other) }
{
    let first = one(store, Mono(m))?;
    let second = one(store, Mono(n))?;
    union(store, first, second)
}

// The result of an operation.
fn combined<S: Store>(
    store: &mut S,
    vars: u32,
    op: Op,
    a: Handle,
    b: Handle,
) -> Result<Handle, Full>
    requires { IsReady vars (S.state store.old) a b }
    ensures ready { IsReady vars (S.state store.new) a b }
    ensures known { IfOk result (IsReady vars (S.state store.new) a) }
{
    match op {
        Op::Union => union(store, a, b),
        Op::Inter => inter(store, a, b),
        Op::Minus => minus(store, a, b),
        _ => xor(store, a, b),
    }
}

// The members of an operation's result.
fn members<S: Store>(
    alloc: Global,
    store: &mut S,
    op: Op,
    a: Handle,
    b: Handle,
) -> Result<Monos, WalkRefusal>
    requires { IsReady 2 (S.state store.old) a b }
    ensures { IsReady 2 (S.state store.new) a b }
{
    match combined(store, 2, op, a, b) {
        Ok(result) => walk_upto(alloc, store, result, 4),
        Err(_) => Err(WalkRefusal::Over),
    }
}

// The operations on {1, 2} and {2, 3}.
#[test]
fn two_families(rt: HostRuntime) -> Result<(), Fail> {
    let mut store = PlainStore::make(rt.alloc(), 8, 2, any_plan(2))?;
    let a = pair(&mut store, 2, 1, 2, Handle(0))?;
    let b = pair(&mut store, 2, 2, 3, a)?;
    let union = members(rt.alloc(), &mut store, Op::Union, a, b)?;
    assert_eq!(rt; union.as_slice(), [Mono(3), Mono(2), Mono(1)].as_slice());
    let inter = members(rt.alloc(), &mut store, Op::Inter, a, b)?;
    assert_eq!(rt; inter.as_slice(), [Mono(2)].as_slice());
    let minus = members(rt.alloc(), &mut store, Op::Minus, a, b)?;
    assert_eq!(rt; minus.as_slice(), [Mono(1)].as_slice());
    let xor = members(rt.alloc(), &mut store, Op::Xor, a, b)?;
    assert_eq!(rt; xor.as_slice(), [Mono(3), Mono(1)].as_slice());
    Ok(())
}

// All numbers over two variables, walked up to four and up to three of them.
#[test]
fn walked_to_the_limit(rt: HostRuntime) -> Result<(), Fail> {
    let mut store = PlainStore::make(rt.alloc(), 8, 2, any_plan(2))?;
    let all = power(&mut store)?;
    let members = walk_upto(rt.alloc(), &mut store, all, 4)?;
    assert_eq!(rt;
        members.as_slice(),
        [Mono(3), Mono(2), Mono(1), Mono(0)].as_slice()
    );
    let refused = walk_upto(rt.alloc(), &mut store, all, 3);
    assert_eq!(rt; refused.err(), Some(WalkRefusal::Over));
    Ok(())
}

// All numbers over 62 variables, and all of them but one.
#[test]
fn many_members(rt: HostRuntime) -> Result<(), Fail> {
    let mut store = PlainStore::make(rt.alloc(), 8, 62, any_plan(62))?;
    let all = power(&mut store)?;
    let five = one(&mut store, Mono(5))?;
    let rest = combined(&mut store, 62, Op::Minus, all, five)?;
    assert_eq!(rt; count_upto(&mut store, rest, 1000), None);
    assert_eq!(rt;
        walk_upto(rt.alloc(), &mut store, rest, 1000).err(),
        Some(WalkRefusal::Over)
    );
    assert!(rt; !contains(&mut store, rest, Mono(5)));
    assert!(rt; contains(&mut store, rest, Mono(4)));
    Ok(())
}

// The members of {5} over 62 variables.
#[test]
fn one_member(rt: HostRuntime) -> Result<(), Fail> {
    let mut store = PlainStore::make(rt.alloc(), 8, 62, any_plan(62))?;
    let five = one(&mut store, Mono(5))?;
    assert_eq!(rt; count_upto(&mut store, five, 1), Some(1));
    assert_eq!(rt; count_upto(&mut store, five, 0), None);
    Ok(())
}
