ghost use Rattle.std.specs.Prelude.{◌+◌, ◌<◌, ◌≤◌, ◌^◌, IfOk};
ghost use Rattle.set_algebra.specs.ReadyStores.{IsReady};

use bool_poly::{Serial, SetOps, above, lead, product, sum, times_var, value_of};
use lattice::Mono;
use node_store::{Full, Handle, PlainStore, Store, any_plan};
use set_algebra::{contains, one, power};
use std::alloc::Global;
use std::test::Fail;

// The monomial added to a polynomial.
fn more<S: Store>(store: &mut S, vars: u32, a: Handle, m: u64) -> Result<Handle, Full>
    requires ready { IsReady vars (S.state store.old) a a }
    requires below { m < 2 ^ vars }
    ensures { IfOk result (λ r. IsReady vars (S.state store.new) r a) }
{
    let other = one(store, Mono(m))?;
    sum(store, a, other)
}

// The product of two polynomials.
fn times<S: Store>(store: &mut S, vars: u32, a: Handle, b: Handle) -> Result<Handle, Full>
    requires { IsReady vars (S.state store.old) a b }
    ensures { IfOk result (λ r. IsReady vars (S.state store.new) r r) }
{
    product(store, a, b)
}

// The product of a polynomial with a variable.
fn times_one<S: Store>(store: &mut S, vars: u32, a: Handle, var: u32) -> Result<Handle, Full>
    requires ready { IsReady vars (S.state store.old) a a }
    requires var { (1 ≤ var) × (var ≤ vars) }
    ensures { IfOk result (λ r. IsReady vars (S.state store.new) r r) }
{
    times_var(store, a, var)
}

// The points at which a polynomial is 1.
fn points_at<S: Store>(store: &mut S, vars: u32, h: Handle, set: Handle) -> Result<Handle, Full>
    requires { IsReady vars (S.state store.old) h set }
    ensures { IfOk result (λ r. IsReady vars (S.state store.new) r r) }
{
    Serial.ones_of(store, h, set)
}

// Which of the first four numbers are members.
fn members<S: Store>(store: &mut S, vars: u32, a: Handle) -> [bool; 4]
    requires { IsReady vars (S.state store.old) a a }
{
    [
        contains(store, a, Mono(0)),
        contains(store, a, Mono(1)),
        contains(store, a, Mono(2)),
        contains(store, a, Mono(3)),
    ]
}

// The values at four points.
fn values<S: Store>(store: &mut S, vars: u32, a: Handle, from: u64) -> [bool; 4]
    requires ready { IsReady vars (S.state store.old) a a }
    requires below { from + 3 < 2 ^ vars }
    requires small { from ≤ 4 }
    ensures { IsReady vars (S.state store.new) a a }
{
    [
        value_of(store, a, from),
        value_of(store, a, from + 1),
        value_of(store, a, from + 2),
        value_of(store, a, from + 3),
    ]
}

// x1*x2 + x1 + x2 at all points, and its greatest monomial.
#[test]
fn values_of_a_sum(rt: HostRuntime) -> Result<(), Fail> {
    let mut store = PlainStore::make(rt.alloc(), 8, 2, any_plan(2))?;
    let first = more(&mut store, 2, Handle(0), 1)?;
    let second = more(&mut store, 2, first, 2)?;
    let all = more(&mut store, 2, second, 3)?;
    assert_eq!(rt; values(&mut store, 2, all, 0), [false, true, true, true]);
    assert_eq!(rt; lead(&mut store, all), Some(Mono(3)));
    Ok(())
}

// The points of {0, 1, 2, 3} that x1 divides.
#[test]
fn points_of_a_monomial(rt: HostRuntime) -> Result<(), Fail> {
    let mut store = PlainStore::make(rt.alloc(), 8, 2, any_plan(2))?;
    let all = power(&mut store)?;
    let points = above(&mut store, Mono(2), all)?;
    assert_eq!(rt; members(&mut store, 2, points), [false, false, true, true]);
    Ok(())
}

// The points of {0, 1, 2, 3} where x2 is 1.
#[test]
fn points_of_a_polynomial(rt: HostRuntime) -> Result<(), Fail> {
    let mut store = PlainStore::make(rt.alloc(), 8, 2, any_plan(2))?;
    let all = power(&mut store)?;
    let second = one(&mut store, Mono(1))?;
    let points = points_at(&mut store, 2, second, all)?;
    assert_eq!(rt; members(&mut store, 2, points), [false, true, false, true]);
    Ok(())
}

// (x1 + x2)*(x1 + x2 + x3) at all points.
#[test]
fn values_of_a_product(rt: HostRuntime) -> Result<(), Fail> {
    let mut store = PlainStore::make(rt.alloc(), 8, 3, any_plan(3))?;
    let first = more(&mut store, 3, Handle(0), 4)?;
    let two = more(&mut store, 3, first, 2)?;
    let three = more(&mut store, 3, two, 1)?;
    let all = times(&mut store, 3, three, two)?;
    assert_eq!(rt; values(&mut store, 3, all, 0), [false, false, true, false]);
    assert_eq!(rt; values(&mut store, 3, all, 4), [true, false, false, false]);
    Ok(())
}

// Which members x1*x2 + x1 + x2 has once it is multiplied by a variable.
fn sum_times(alloc: Global, var: u32) -> Result<[bool; 4], Fail>
    requires { (1 ≤ var) × (var ≤ 2) }
{
    let mut store = PlainStore::make(alloc, 8, 2, any_plan(2))?;
    let first = more(&mut store, 2, Handle(0), 1)?;
    let second = more(&mut store, 2, first, 2)?;
    let all = more(&mut store, 2, second, 3)?;
    let result = times_one(&mut store, 2, all, var)?;
    Ok(members(&mut store, 2, result))
}

#[test]
fn products_with_a_variable(rt: HostRuntime) -> Result<(), Fail> {
    assert_eq!(rt; sum_times(rt.alloc(), 1)?, [false, false, true, false]);
    assert_eq!(rt; sum_times(rt.alloc(), 2)?, [false, true, false, false]);
    Ok(())
}
