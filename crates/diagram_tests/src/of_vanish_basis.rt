ghost use Rattle.std.specs.Prelude.{◌<◌, ◌≤◌, ◌^◌, IfOk};
ghost use Rattle.std.specs.List.{All};
ghost use Rattle.lattice.specs.Family.{has, family_where};
ghost use Rattle.lattice.specs.Basis.{IsLead};
ghost use Rattle.node_store.specs.Stores.{Knows};
ghost use Rattle.node_store.specs.AnyFamily.{MayHoldAny};

use bool_poly::Serial;
use lattice::{Mono, Monos};
use node_store::{Full, Handle, PlainStore, Store, any_plan};
use set_algebra::{family_of, walk_upto};
use std::alloc::Global;
use std::test::Fail;
use vanish_basis::{basis_element, normal_form_of};

// The normal form of the monomial on the points.
fn normal_form_on<S: Store>(
    store: &mut S,
    vars: u32,
    points: &[u64],
    m: u64,
) -> Result<Handle, Full>
    requires any { MayHoldAny vars (S.state store.old) }
    requires points { All (λ a. a < 2 ^ vars) points.now }
    requires below { m < 2 ^ vars }
    ensures { IfOk result (Knows (S.state store.new)) }
{
    let points = family_of(store, vars, points)?;
    normal_form_of(store, &mut Serial, Mono(m), points)
}

// The element of the reduced basis with the lead.
fn element_on<S: Store>(store: &mut S, vars: u32, points: &[u64], lead: u64) -> Result<Handle, Full>
    requires any { MayHoldAny vars (S.state store.old) }
    requires points { All (λ a. a < 2 ^ vars) points.now }
    requires below { lead < 2 ^ vars }
    requires lead { IsLead vars (family_where vars (has points.now)) lead }
    ensures { IfOk result (Knows (S.state store.new)) }
{
    let points = family_of(store, vars, points)?;
    basis_element(store, &mut Serial, Mono(lead), points)
}

// The monomials of the normal form, from the greatest down.
fn normal_form(alloc: Global, vars: u32, points: &[u64], m: u64) -> Result<Monos, Fail>
    requires vars { (1 ≤ vars) × (vars ≤ 62) }
    requires points { All (λ a. a < 2 ^ vars) points.now }
    requires below { m < 2 ^ vars }
{
    let mut store = PlainStore::make(alloc, 8, vars, any_plan(vars))?;
    let found = normal_form_on(&mut store, vars, points, m)?;
    Ok(walk_upto(alloc, &mut store, found, 8)?)
}

// The monomials of the element, from the greatest down.
fn element(alloc: Global, vars: u32, points: &[u64], lead: u64) -> Result<Monos, Fail>
    requires vars { (1 ≤ vars) × (vars ≤ 62) }
    requires points { All (λ a. a < 2 ^ vars) points.now }
    requires below { lead < 2 ^ vars }
    requires lead { IsLead vars (family_where vars (has points.now)) lead }
{
    let mut store = PlainStore::make(alloc, 8, vars, any_plan(vars))?;
    let found = element_on(&mut store, vars, points, lead)?;
    Ok(walk_upto(alloc, &mut store, found, 8)?)
}

// Over two variables x1 is 2 and x2 is 1.
#[test]
fn two_variables(rt: HostRuntime) -> Result<(), Fail> {
    let alloc = rt.alloc();

    // At 00 and 11 x1 has the values of x2.
    let found = normal_form(alloc, 2, &[3, 0], 2)?;
    assert_eq!(rt; found.as_slice(), [Mono(1)].as_slice());
    let found = element(alloc, 2, &[3, 0], 2)?;
    assert_eq!(rt; found.as_slice(), [Mono(2), Mono(1)].as_slice());

    // At 00, 10 and 11 x1*x2 has the values of x2.
    let found = element(alloc, 2, &[0, 2, 3], 3)?;
    assert_eq!(rt; found.as_slice(), [Mono(3), Mono(1)].as_slice());

    // At all points each polynomial has values of its own, and at no points 1 vanishes.
    let found = normal_form(alloc, 2, &[0, 1, 2, 3], 3)?;
    assert_eq!(rt; found.as_slice(), [Mono(3)].as_slice());
    let found = element(alloc, 2, &[], 0)?;
    assert_eq!(rt; found.as_slice(), [Mono(0)].as_slice());
    Ok(())
}

// Over three variables x1 is 4, x2 is 2 and x3 is 1.
#[test]
fn one_point(rt: HostRuntime) -> Result<(), Fail> {
    let alloc = rt.alloc();
    let found = element(alloc, 3, &[5], 1)?;
    assert_eq!(rt; found.as_slice(), [Mono(1), Mono(0)].as_slice());
    let found = element(alloc, 3, &[5], 2)?;
    assert_eq!(rt; found.as_slice(), [Mono(2)].as_slice());
    let found = element(alloc, 3, &[5], 4)?;
    assert_eq!(rt; found.as_slice(), [Mono(4), Mono(0)].as_slice());
    Ok(())
}

// The points with an even number of ones, where x1 has the values of x2 + x3.
#[test]
fn even_points(rt: HostRuntime) -> Result<(), Fail> {
    let alloc = rt.alloc();
    let found = element(alloc, 3, &[0, 3, 5, 6], 4)?;
    assert_eq!(rt; found.as_slice(), [Mono(4), Mono(2), Mono(1)].as_slice());
    let found = normal_form(alloc, 3, &[0, 3, 5, 6], 5)?;
    assert_eq!(rt; found.as_slice(), [Mono(3), Mono(1)].as_slice());
    Ok(())
}
