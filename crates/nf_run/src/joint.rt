//! The reduced basis of the intersection or the sum of the ideals of two outputs' care points, with
//! both phases on one table, or each on its own.
ghost use Rattle.std.specs.Prelude.{◌≡◌, ◌≢◌, ◌<◌, ◌≤◌, ◌^◌, List, None, Some, IfErr, IfOk, map};
ghost use Rattle.std.specs.Prelude.{length, reverse};
ghost use Rattle.lattice.specs.Family.{Covers, Family};
ghost use Rattle.lattice.specs.WorkingLists.{working_set};
ghost use Rattle.lattice.specs.declared.limits.TheConstants.{MIN_BITS, MAX_BITS};
ghost use Rattle.node_store.specs.Stores.{Grows};
ghost use Rattle.pla_reader.specs.Reading.{description};
ghost use Rattle.set_algebra.specs.declared.refusal.TermsRefusal.TheVariants as refusals;
ghost use Rattle.nf_run.specs.Joint.{FindsBasis, FindsLeads, IsJointBasis, first_nodes};
ghost use Rattle.nf_run.specs.Joint.{first_phase_list, first_refused, joint_leads};
ghost use Rattle.nf_run.specs.Joint.{second_phase_list};

use crate::phases::{first_phase, second_phase};
use crate::plans::{Sought, plan_for};
use computed_cache::CachedPass;
use cube_build::Demand;
use lattice::{Mono, MonoLists, Monos};
use node_store::Store;
use pla_reader::Pla;
use set_algebra::{TermsRefusal, lists_upto, walk_upto};
use std::alloc::Global;
use unique_table::Shared;

/// How the care points of two outputs are put together.
#[derive(Clone, Copy, Debug, PartialEq, Eq)]
pub enum Joining {
    /// All of them. What vanishes there is what vanishes at the points of the one and at those of
    /// the other.
    Union,
    /// The common ones. What vanishes there is a sum of what vanishes at the points of the one and
    /// what does at those of the other.
    Meet,
}

/// Phase 1 in a store whose plan has its families: the leads, from the greatest to the least.
fn leads_in<S: Store>(
    alloc: Global,
    store: &mut S,
    p: &Pla,
    joining: Joining,
    limit: u64,
) -> Result<Monos, TermsRefusal>
    requires outputs { p.now.outputs ≡ 2 }
    requires vars { (S.state store.old).vars ≡ p.now.inputs }
    requires planned { Covers (S.state store.old).plan
        (working_set p.now.inputs (first_phase_list (description p.now) joining)) }
    ensures grows { Grows (S.state store.old) (S.state store.new) }
    ensures leads { let s = S.state store.old in
        FindsLeads (length s.plan) s.capacity limit (description p.now) joining result }
{
    let found = first_phase(store, p, joining)?;
    Ok(walk_upto(alloc, store, found.leads, limit)?)
}

/// Phase 2 in a store with its plan: the terms of the elements with these leads, which go from the
/// greatest to the least.
fn basis_in<S: Store>(
    alloc: Global,
    store: &mut S,
    p: &Pla,
    joining: Joining,
    leads: &[Mono],
    limit: u64,
) -> Result<MonoLists, TermsRefusal>
    requires outputs { p.now.outputs ≡ 2 }
    requires vars { (S.state store.old).vars ≡ p.now.inputs }
    requires leads { reverse leads.now ≡ joint_leads (description p.now) joining }
    requires plan { (S.state store.old).plan
        ≡ working_set p.now.inputs (second_phase_list (description p.now) joining) }
    ensures { FindsBasis (S.state store.old).capacity limit (description p.now) joining result }
{
    let elements = second_phase(alloc, store, p, joining, leads)?;
    Ok(lists_upto(alloc, store, &elements, limit)?)
}

/// Phase 1 on a table of its own, which is given up.
fn leads_on(
    alloc: Global,
    bits: u32,
    p: &Pla,
    joining: Joining,
    limit: u64,
) -> Result<Monos, TermsRefusal>
    requires bits { (MIN_BITS ≤ bits) × (bits ≤ MAX_BITS) }
    requires outputs { p.now.outputs ≡ 2 }
    ensures { FindsLeads (first_nodes (description p.now) joining) (2 ^ bits) limit
        (description p.now) joining result }
{
    let plan = plan_for(p, &Sought::Leads(joining));
    let (table, token) = Shared::make(alloc, bits, p.inputs, plan)?;
    let mut pass = CachedPass::new(table.pass(token));
    leads_in(alloc, &mut pass, p, joining, limit)
}

/// Phase 2 on a table of its own.
fn basis_on(
    alloc: Global,
    bits: u32,
    p: &Pla,
    joining: Joining,
    leads: &[Mono],
    limit: u64,
) -> Result<MonoLists, TermsRefusal>
    requires bits { (MIN_BITS ≤ bits) × (bits ≤ MAX_BITS) }
    requires outputs { p.now.outputs ≡ 2 }
    requires leads { reverse leads.now ≡ joint_leads (description p.now) joining }
    ensures { FindsBasis (2 ^ bits) limit (description p.now) joining result }
{
    let plan = plan_for(p, &Sought::Elements(joining));
    let (table, token) = Shared::make(alloc, bits, p.inputs, plan)?;
    let mut pass = CachedPass::new(table.pass(token));
    basis_in(alloc, &mut pass, p, joining, leads, limit)
}

/// Both phases, each on a table of 2^bits slots.
fn joint_basis_on(
    alloc: Global,
    bits: u32,
    p: &Pla,
    joining: Joining,
    limit: u64,
) -> Result<MonoLists, TermsRefusal>
    requires bits { (MIN_BITS ≤ bits) × (bits ≤ MAX_BITS) }
    requires outputs { p.now.outputs ≡ 2 }
    ensures basis { IfOk result (λ lists. IsJointBasis (description p.now) joining
        (map reverse lists)) }
    ensures within { IfOk result (λ lists. first_refused bits limit (description p.now) joining
        (map reverse lists) ≡ None) }
    ensures refused { IfErr result
        (λ e. e ≢ refusals.Memory → (basis : List Family)
        → IsJointBasis (description p.now) joining basis
        → first_refused bits limit (description p.now) joining basis ≡ Some e) }
{
    let leads = leads_on(alloc, bits, p, joining, limit)?;
    basis_on(alloc, bits, p, joining, leads.as_slice(), limit)
}

/// Both phases on one table of 2^bits slots, where phase 2 finds what phase 1 kept. Where it is
/// full, this says only that both phases together need more.
fn joint_basis_at_once(
    alloc: Global,
    bits: u32,
    p: &Pla,
    joining: Joining,
    limit: u64,
) -> Result<MonoLists, TermsRefusal>
    requires bits { (MIN_BITS ≤ bits) × (bits ≤ MAX_BITS) }
    requires outputs { p.now.outputs ≡ 2 }
    ensures basis { IfOk result (λ lists. IsJointBasis (description p.now) joining
        (map reverse lists)) }
    ensures within { IfOk result (λ lists. first_refused bits limit (description p.now) joining
        (map reverse lists) ≡ None) }
    ensures refused { IfErr result
        (λ e. e ≢ refusals.Memory → e ≢ refusals.Full → (basis : List Family)
        → IsJointBasis (description p.now) joining basis
        → first_refused bits limit (description p.now) joining basis ≡ Some e) }
{
    let plan = plan_for(p, &Sought::Elements(joining));
    let (table, token) = Shared::make(alloc, bits, p.inputs, plan)?;
    let mut pass = CachedPass::new(table.pass(token));
    let leads = leads_in(alloc, &mut pass, p, joining, limit)?;
    basis_in(alloc, &mut pass, p, joining, leads.as_slice(), limit)
}

/// What the basis asks of its tables.
fn demand_of(p: &Pla) -> Demand<'_> {
    Demand {
        pla: p,
        is_basis: true,
        besides: 0,
    }
}

/// The reduced basis of the intersection or of the sum of two ideals, those of the care points of
/// outputs 1 and 2: the terms of each element from the greatest to the least, the elements by
/// ascending lead. Each of two phases works on a table of 2^bits slots of its own: the first finds
/// the leads, which are counted and listed, and the second the elements, whose terms are counted.
/// The refusal is that of the first limit that is passed, `Full` for the slots of a table and
/// `Over` for the leads and the terms of the elements, or want of memory. Smaller tables are tried
/// first that the description may do with, each for both phases.
pub fn joint_basis(
    alloc: Global,
    bits: u32,
    p: &Pla,
    joining: Joining,
    limit: u64,
) -> Result<MonoLists, TermsRefusal>
    requires bits { (MIN_BITS ≤ bits) × (bits ≤ MAX_BITS) }
    requires outputs { p.now.outputs ≡ 2 }
    ensures basis { IfOk result (λ lists. IsJointBasis (description p.now) joining
        (map reverse lists)) }
    ensures within { IfOk result (λ lists. first_refused bits limit (description p.now) joining
        (map reverse lists) ≡ None) }
    ensures refused { IfErr result
        (λ e. e ≢ refusals.Memory → (basis : List Family)
        → IsJointBasis (description p.now) joining basis
        → first_refused bits limit (description p.now) joining basis ≡ Some e) }
{
    let demand = demand_of(p);
    let mut tried = demand.first_size(bits);
    while tried < bits {
        match joint_basis_at_once(alloc, tried, p, joining, limit) {
            Err(TermsRefusal::Full) => tried = demand.next_size(tried, bits),
            basis => return basis,
        }
    }
    joint_basis_on(alloc, bits, p, joining, limit)
}
