//! The store for one thread.
ghost use Rattle.std.specs.Prelude.{◌≡◌, ◌≤◌, ◌<◌, ◌+◌, ◌^◌, length, IfOk, []};
ghost use Rattle.indexmap.specs.IndexSet.{spare};
ghost use Rattle.indexmap.specs.IndexMap.{spare as map_spare};
ghost use Rattle.std.proofs.Props.{props};
ghost use Rattle.lattice.specs.declared.limits.TheConstants.{MIN_BITS, MAX_BITS, MAX_VARS};
ghost use Rattle.node_store.specs.Plain.{plain_state, IsTable, AreResults};

use crate::key::Key;
use crate::store::{Full, Handle, Node, Store};
use indexmap::{IndexMap, IndexSet};
use lattice::{Memory, Op, Plan};
use std::alloc::Global;

/// The store for one thread. Its handles are numbered in the order in which their nodes were first
/// interned.
#[derive(Drop)]
pub struct PlainStore {
    nodes: IndexSet<Node>,
    kept: IndexMap<Key, Handle>,
    vars: u32,
    capacity: usize,
    refused: u64,
    plan: Plan,
    ghost table: { IsTable (plain_state vars capacity plan.families refused nodes.keys)
        nodes.keys } by { Prim.hlevel props },
    ghost sizes: { (1 ≤ vars) × (vars ≤ MAX_VARS) × (capacity ≤ 2 ^ MAX_BITS) },
    ghost counted: { refused < 2 ^ 64 },
    ghost room: { length nodes.keys ≤ capacity },
    ghost results: { AreResults (plain_state vars capacity plan.families refused nodes.keys)
        kept.entries } by { Prim.hlevel props },
    ghost kept_spare: { capacity ≤ length kept.entries + map_spare kept },
    ghost spare: { capacity ≤ length nodes.keys + spare nodes },
}

impl PlainStore {
    ghost use Rattle.node_store.specs.PlainOf.{state_of, nodes_of, kept_of};

    /// A store of 2^bits slots over so many variables. It takes the room for all nodes and all kept
    /// results before it answers.
    pub fn make(alloc: Global, bits: u32, vars: u32, plan: Plan) -> Result<PlainStore, Memory>
        requires bits { (MIN_BITS ≤ bits) × (bits ≤ MAX_BITS) }
        requires vars { (1 ≤ vars) × (vars ≤ MAX_VARS) }
        ensures state { IfOk result (λ s. state_of s
            ≡ plain_state vars (2 ^ bits) plan.families 0 []) }
        ensures nodes { IfOk result (λ s. nodes_of s ≡ []) }
        ensures kept { IfOk result (λ s. kept_of s ≡ []) }
    {
        let capacity = 1usize << bits;
        let nodes = IndexSet::with_capacity(alloc, capacity)?;
        let kept = IndexMap::with_capacity(alloc, capacity)?;
        Ok(PlainStore {
            nodes,
            kept,
            vars,
            capacity,
            refused: 0,
            plan,
        })
    }
}

impl Store for PlainStore {
    ghost use Rattle.std.specs.Prelude.{◌↔◌, ◌++◌, ◌∷◌, ◌-◌, OnOk, OnErr, IfSome, IsOk, IsErr};
    ghost use Rattle.std.specs.Prelude.{IsSome, IsNone, Some, None, slice_get};
    ghost use Rattle.std.specs.List.{Contains};
    ghost use Rattle.lattice.specs.Family.{Has};
    ghost use Rattle.lattice.specs.Counts.{one_more};
    ghost use Rattle.node_store.specs.Stores.{IsNode, node_family, Knows, family, AreOperands};
    ghost use Rattle.node_store.specs.Stores.{IsResult, Builds, Reads};
    ghost use Rattle.node_store.specs.PlainLaws.{plain_sound};
    ghost use Rattle.node_store.specs.PlainOf.{state_of, nodes_of, kept_of, key_of, result_for};
    ghost use Rattle.node_store.specs.PlainOf.{IsUnchanged};

    ghost state = { state_of };

    ghost sound = { λ s. plain_sound s.vars s.capacity s.plan.families s.refused s.nodes.keys
        s.table s.sizes.0 s.sizes.1 s.room s.counted };

    fn vars(&self) -> u32 {
        self.vars
    }

    fn intern(&mut self, n: &Node) -> Result<Handle, Full>
        requires node { IsNode (state_of self.old) n.now }
        requires planned { Has (state_of self.old).plan (node_family (state_of self.old) n.now) }
        ensures builds { Builds (state_of self.old) (state_of self.new) result
            (node_family (state_of self.old) n.now) }

        // The handle's slot has the node, which takes the slot after the last one where it is new.
        ensures slot { IfOk result (λ h. (2 ≤ h.0)
            × (slice_get (nodes_of self.new) (h.0 - 2) ≡ Some n.now)) }
        ensures there { Contains (nodes_of self.old) n.now → IsUnchanged self.old self.new }
        ensures new { OnOk result (¬ Contains (nodes_of self.old) n.now
            → nodes_of self.new ≡ nodes_of self.old ++ n.now ∷ []) }

        // It is Full exactly where each slot has a node and none has this one. Then nothing but the
        // count of refusals changes.
        ensures full { IsErr result ↔
            ((length (nodes_of self.old) ≡ (state_of self.old).capacity)
            × (¬ Contains (nodes_of self.old) n.now)) }
        ensures counted { OnErr result
            ((state_of self.new).refusals ≡ one_more (state_of self.old).refusals) }
        ensures same_nodes { OnErr result (nodes_of self.new ≡ nodes_of self.old) }
        ensures fits { length (state_of self.old).plan ≤ (state_of self.old).capacity
            → IsOk result }
        ensures kept { kept_of self.new ≡ kept_of self.old }
    {
        if let Some(place) = self.nodes.get_index_of(n) {
            return Ok(Handle(place as u32 + 2));
        }
        let slot = self.nodes.len();
        if slot == self.capacity {
            self.refused = self.refused.saturating_add(1);
            return Err(Full);
        }
        self.nodes.insert(*n).unwrap();
        Ok(Handle(slot as u32 + 2))
    }

    fn node(&mut self, h: Handle) -> Option<Node>
        requires { Knows (state_of self.old) h }
        ensures reads { Reads (state_of self.old) (state_of self.new) }
        ensures constant { IsNone result ↔ (h.0 < 2) }
        ensures node { IfSome result (IsNode (state_of self.new)) }
        ensures family { IfSome result
            (λ n. node_family (state_of self.new) n ≡ family (state_of self.old) h) }
        ensures slot { 2 ≤ h.0 → result ≡ slice_get (nodes_of self.old) (h.0 - 2) }
        ensures same { IsUnchanged self.old self.new }
    {
        if h.0 < 2 {
            return None;
        }
        self.nodes.get_index(h.0 as usize - 2).copied()
    }

    fn look(&mut self, op: Op, a: Handle, b: u32) -> Option<Handle>
        requires { AreOperands (state_of self.old) op a b }
        ensures reads { Reads (state_of self.old) (state_of self.new) }
        ensures result { IfSome result (IsResult (state_of self.new) op a b) }
        ensures kept { result ≡ result_for (kept_of self.old) (key_of op a b) }
        ensures same { IsUnchanged self.old self.new }
    {
        self.kept.get(&Key { op, a, b }).copied()
    }

    fn keep(&mut self, op: Op, a: Handle, b: u32, r: Handle)
        requires { IsResult (state_of self.old) op a b r }
        ensures state { state_of self.new ≡ state_of self.old }
        ensures nodes { nodes_of self.new ≡ nodes_of self.old }

        // A new key goes last with its result, while there are fewer entries than slots.
        ensures new { let kept = kept_of self.old in length kept < (state_of self.old).capacity
            → result_for kept (key_of op a b) ≡ None
            → kept_of self.new ≡ kept ++ (key_of op a b, r) ∷ [] }
        ensures there { IsSome (result_for (kept_of self.old) (key_of op a b))
            → kept_of self.new ≡ kept_of self.old }
        ensures full { (state_of self.old).capacity ≤ length (kept_of self.old)
            → kept_of self.new ≡ kept_of self.old }
    {
        let key = Key { op, a, b };
        if self.kept.len() < self.capacity && self.kept.get(&key).is_none() {
            let _ = self.kept.insert(key, r).unwrap();
        }
    }
}
