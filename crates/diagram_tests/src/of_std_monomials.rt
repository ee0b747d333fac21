ghost use Rattle.std.specs.Prelude.{◌<◌, ◌≤◌, ◌^◌, IfOk};
ghost use Rattle.std.specs.List.{All};
ghost use Rattle.node_store.specs.Stores.{Knows};
ghost use Rattle.node_store.specs.AnyFamily.{MayHoldAny};

use lattice::{Mono, Monos};
use node_store::{Full, Handle, PlainStore, Store, any_plan};
use set_algebra::{family_of, walk_upto};
use std::alloc::Global;
use std::test::Fail;
use std_monomials::{leads, standard};

// The standard monomials of the points, and their leads.
fn both_of<S: Store>(store: &mut S, vars: u32, points: &[u64]) -> Result<(Handle, Handle), Full>
    requires any { MayHoldAny vars (S.state store.old) }
    requires below { All (λ m. m < 2 ^ vars) points.now }
    ensures { IfOk result (λ p. Knows (S.state store.new) p.0 × Knows (S.state store.new) p.1) }
{
    let points = family_of(store, vars, points)?;
    let monos = standard(store, points)?;
    let leads = leads(store, monos, 1)?;
    Ok((monos, leads))
}

// The standard monomials of the points and their leads, each list from the greatest down.
fn found(alloc: Global, vars: u32, points: &[u64]) -> Result<(Monos, Monos), Fail>
    requires vars { (1 ≤ vars) × (vars ≤ 62) }
    requires below { All (λ m. m < 2 ^ vars) points.now }
{
    let mut store = PlainStore::make(alloc, 8, vars, any_plan(vars))?;
    let (monos, leads) = both_of(&mut store, vars, points)?;
    let standards = walk_upto(alloc, &mut store, monos, 8)?;
    let leads = walk_upto(alloc, &mut store, leads, 8)?;
    Ok((standards, leads))
}

// Points over two and three variables. Over two, x1 is 2 and x2 is 1.
#[test]
fn small_sets(rt: HostRuntime) -> Result<(), Fail> {
    let (standards, leads) = found(rt.alloc(), 2, &[0, 2, 3])?;
    assert_eq!(rt;
        standards.as_slice(),
        [Mono(2), Mono(1), Mono(0)].as_slice()
    );
    assert_eq!(rt; leads.as_slice(), [Mono(3)].as_slice());

    let (standards, leads) = found(rt.alloc(), 2, &[0, 3])?;
    assert_eq!(rt; standards.as_slice(), [Mono(1), Mono(0)].as_slice());
    assert_eq!(rt; leads.as_slice(), [Mono(2)].as_slice());

    let (standards, leads) = found(rt.alloc(), 2, &[])?;
    assert!(rt; standards.as_slice().is_empty());
    assert_eq!(rt; leads.as_slice(), [Mono(0)].as_slice());

    let (standards, leads) = found(rt.alloc(), 2, &[0, 1, 2, 3])?;
    assert_eq!(rt;
        standards.as_slice(),
        [Mono(3), Mono(2), Mono(1), Mono(0)].as_slice()
    );
    assert!(rt; leads.as_slice().is_empty());

    let (standards, leads) = found(rt.alloc(), 3, &[5])?;
    assert_eq!(rt; standards.as_slice(), [Mono(0)].as_slice());
    assert_eq!(rt; leads.as_slice(), [Mono(4), Mono(2), Mono(1)].as_slice());
    Ok(())
}
