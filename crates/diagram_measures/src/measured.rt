//! What is measured of a diagram, node by node.
ghost use Rattle.std.specs.Prelude.{◌≡◌, ◌≢◌, ℕ, ◌+◌, ◌<◌, ◌^◌, [], IfOk, OnOk, length};
ghost use Rattle.lattice.specs.Family.{Family, IsFamily};
ghost use Rattle.lattice.specs.Cofactors.{join};
ghost use Rattle.node_store.specs.Stores.{State, IsSound, Knows, family, Reads};
ghost use Rattle.diagram_measures.specs.Measured.{degree_of, nodes_of};
ghost use Rattle.diagram_measures.specs.Met.{AreCounts, AreMet, Meets, families_met};

use indexmap::IndexMap;
use lattice::Memory;
use node_store::{Handle, Store};
use std::alloc::Global;

/// How large a polynomial and its diagram are: the number of terms, the greatest number of
/// variables in a term, and the number of distinct nodes, the two constants not among them.
#[derive(Clone, Copy, PartialEq, Eq, Debug)]
pub struct Measures {
    pub terms: u64,
    pub degree: u32,
    pub nodes: u64,
}

// What is counted of a family.
#[derive(Clone, Copy)]
struct Counts {
    terms: u64,
    degree: u32,
}

impl Counts {
    // Of a constant.
    fn of_constant(a: Handle) -> Counts
        requires { a.0 < 2 }
        ensures { (s : State) → IsSound s → AreCounts (family s a) result }
    {
        if a.0 == 0 {
            Counts {
                terms: 0,
                degree: 0,
            }
        } else {
            Counts {
                terms: 1,
                degree: 0,
            }
        }
    }

    // Of a family with a variable, by those of its members without it and with it.
    fn of_parts(low: Counts, high: Counts) -> Counts
        requires terms { low.terms + high.terms < 2 ^ 64 }
        requires degree { high.degree + 1 < 2 ^ 32 }
        ensures { (d : ℕ) (lo hi : Family) → IsFamily d hi → hi ≢ [] → AreCounts lo low
            → AreCounts hi high → AreCounts (join d lo hi) result }
    {
        Counts {
            terms: low.terms + high.terms,
            degree: low.degree.max(high.degree + 1),
        }
    }
}

// The counts of the family of `a`. `met` has those of each node that was met before, and gets those
// of the other nodes of the diagram.
fn count_met<S: Store>(
    store: &mut S,
    a: Handle,
    met: &mut IndexMap<Handle, Counts>,
) -> Result<Counts, Memory>
    requires known { Knows (S.state store.old) a }
    requires met { AreMet (S.state store.old) met.old.entries }
    ensures reads { Reads (S.state store.old) (S.state store.new) }
    ensures counts { IfOk result (AreCounts (family (S.state store.old) a)) }
    ensures met { OnOk result (AreMet (S.state store.new) met.new.entries) }
    ensures nodes { let s = S.state store.old in OnOk result
        (Meets s.vars (family s a) (families_met s met.old.entries)
        (families_met (S.state store.new) met.new.entries)) }
{
    let Some(node) = store.node(a) else {
        return Ok(Counts::of_constant(a));
    };
    if let Some(counts) = met.get(&a) {
        return Ok(*counts);
    }
    let low = count_met(store, node.lo, met)?;
    let high = count_met(store, node.hi, met)?;
    let counts = Counts::of_parts(low, high);
    let _ = met.insert(a, counts)?;
    Ok(counts)
}

/// The measures of the polynomial of `a` and of its diagram. It looks at each node once, so it
/// takes time and memory by the number of nodes, and not by that of terms; it fails for want of
/// memory alone. After that too the store knows all that it knew.
pub fn measure<S: Store>(alloc: Global, store: &mut S, a: Handle) -> Result<Measures, Memory>
    requires { Knows (S.state store.old) a }
    ensures reads { Reads (S.state store.old) (S.state store.new) }
    ensures terms { IfOk result (λ m. m.terms ≡ length (family (S.state store.old) a)) }
    ensures degree { IfOk result (λ m. m.degree ≡ degree_of (family (S.state store.old) a)) }
    ensures nodes { let s = S.state store.old in
        IfOk result (λ m. m.nodes ≡ nodes_of s.vars (family s a)) }
{
    let mut met = IndexMap::new(alloc);
    let counts = count_met(store, a, &mut met)?;
    Ok(Measures {
        terms: counts.terms,
        degree: counts.degree,
        nodes: met.len() as u64,
    })
}
