ghost use Rattle.std.specs.Prelude.{◌<◌, ◌≤◌, ◌^◌};
ghost use Rattle.std.specs.List.{All};

use diagram_measures::{Measures, least_member, measure};
use lattice::Mono;
use node_store::{PlainStore, any_plan};
use set_algebra::{family_of, power};
use std::alloc::Global;
use std::test::Fail;

// The measures of the polynomial with these terms.
fn measured(alloc: Global, vars: u32, terms: &[u64]) -> Result<Measures, Fail>
    requires vars { (1 ≤ vars) × (vars ≤ 62) }
    requires below { All (λ m. m < 2 ^ vars) terms.now }
{
    let mut store = PlainStore::make(alloc, 8, vars, any_plan(vars))?;
    let polynomial = family_of(&mut store, vars, terms)?;
    Ok(measure(alloc, &mut store, polynomial)?)
}

// The measures of (x1 + 1)*(x2 + 1)*.., in which each monomial is a term.
fn measured_product(alloc: Global, vars: u32) -> Result<Measures, Fail>
    requires { (1 ≤ vars) × (vars ≤ 62) }
{
    let mut store = PlainStore::make(alloc, 8, vars, any_plan(vars))?;
    let product = power(&mut store)?;
    Ok(measure(alloc, &mut store, product)?)
}

fn measures(terms: u64, degree: u32, nodes: u64) -> Measures {
    Measures {
        terms,
        degree,
        nodes,
    }
}

// Polynomials in four variables, of which x1 is 8 and x4 is 1.
#[test]
fn small_polynomials(rt: HostRuntime) -> Result<(), Fail> {
    // 0 and 1.
    assert_eq!(rt; measured(rt.alloc(), 4, &[])?, measures(0, 0, 0));
    assert_eq!(rt; measured(rt.alloc(), 4, &[0])?, measures(1, 0, 0));

    // x1*x3.
    assert_eq!(rt; measured(rt.alloc(), 4, &[10])?, measures(1, 2, 2));

    // x1 + x2 + x3 + x4.
    assert_eq!(rt; measured(rt.alloc(), 4, &[8, 4, 2, 1])?, measures(4, 1, 4));

    // x1*x4 + x2*x4: both parts at x1 have the node of x4.
    assert_eq!(rt; measured(rt.alloc(), 4, &[9, 5])?, measures(2, 2, 3));

    // x1 + x2*x3*x4 and x1*x2*x3 + x4: the term of greatest degree is in the one part at x1, or in
    // the other.
    assert_eq!(rt; measured(rt.alloc(), 4, &[8, 7])?, measures(2, 3, 4));
    assert_eq!(rt; measured(rt.alloc(), 4, &[14, 1])?, measures(2, 3, 4));
    Ok(())
}

// Products with more terms than could be listed.
#[test]
fn large_products(rt: HostRuntime) -> Result<(), Fail> {
    assert_eq!(rt;
        measured_product(rt.alloc(), 40)?,
        measures(1_099_511_627_776, 40, 40)
    );
    assert_eq!(rt;
        measured_product(rt.alloc(), 62)?,
        measures(4_611_686_018_427_387_904, 62, 62)
    );
    Ok(())
}

// The least of these numbers.
fn least_of(alloc: Global, vars: u32, numbers: &[u64]) -> Result<Option<Mono>, Fail>
    requires vars { (1 ≤ vars) × (vars ≤ 62) }
    requires below { All (λ m. m < 2 ^ vars) numbers.now }
{
    let mut store = PlainStore::make(alloc, 10, vars, any_plan(vars))?;
    let family = family_of(&mut store, vars, numbers)?;
    Ok(least_member(&mut store, family))
}

// Over four variables, and over the most.
#[test]
fn least_members(rt: HostRuntime) -> Result<(), Fail> {
    assert_eq!(rt; least_of(rt.alloc(), 4, &[])?, None);
    assert_eq!(rt; least_of(rt.alloc(), 4, &[0])?, Some(Mono(0)));
    assert_eq!(rt; least_of(rt.alloc(), 4, &[15, 0])?, Some(Mono(0)));
    assert_eq!(rt; least_of(rt.alloc(), 4, &[10])?, Some(Mono(10)));
    assert_eq!(rt; least_of(rt.alloc(), 4, &[8, 4, 2, 1])?, Some(Mono(1)));
    assert_eq!(rt; least_of(rt.alloc(), 4, &[12, 9, 5, 6])?, Some(Mono(5)));
    assert_eq!(rt; least_of(rt.alloc(), 4, &[14, 15, 13])?, Some(Mono(13)));
    assert_eq!(rt;
        least_of(rt.alloc(), 62, &[4_611_686_018_427_387_903])?,
        Some(Mono(4_611_686_018_427_387_903))
    );
    assert_eq!(rt;
        least_of(
            rt.alloc(),
            62,
            &[4_611_686_018_427_387_903, 2_305_843_009_213_693_952]
        )?,
        Some(Mono(2_305_843_009_213_693_952))
    );
    Ok(())
}
