//! A pass over a shared table, with the results that all its passes keep there.
ghost use Rattle.std.specs.Prelude.{◌≡◌, Some};
ghost use Rattle.unique_table.specs.PassOf.{pass_state, pass_steps};

use crate::slot::slot_of;
use lattice::{HANDLE_UNIT, Op};
use node_store::{Full, Handle, Node, Store};
use unique_table::{Pass, Shared};

/// A pass that keeps the results of operations in the cache words of its table, and finds those of
/// the other passes there.
#[derive(Drop)]
pub struct CachedPass<'t> {
    pass: Pass<'t>,
}

impl<'t> CachedPass<'t> {
    ghost use Rattle.unique_table.specs.Views.{after_split};
    ghost use Rattle.unique_table.specs.Passes.{table_name, IsJoined, twin_of};
    ghost use Rattle.computed_cache.specs.Cached.{cached_state, cached_steps};

    /// Keeps results in the table of the pass.
    pub fn new(pass: Pass<'t>) -> CachedPass<'t>
        ensures state { cached_state result ≡ pass_state pass.entry }
        ensures steps { cached_steps result ≡ pass_steps pass.entry }
    {
        CachedPass { pass }
    }

    /// Gives the pass back.
    pub fn end(self) -> Pass<'t>
        ensures state { pass_state result ≡ cached_state self.entry }
        ensures steps { pass_steps result ≡ cached_steps self.entry }
    {
        self.pass
    }

    /// The table of the pass.
    pub fn table(&self) -> &'t Shared
        ensures { (cached_state self.entry.now).table ≡ Some (table_name result.now) }
    {
        self.pass.table()
    }

    /// A second pass that knows what this one knows.
    pub fn split(&mut self) -> CachedPass<'t>
        ensures same { cached_state self.new ≡ cached_state self.old }
        ensures twin { cached_state result ≡ twin_of (cached_state self.old) }
        ensures steps { (cached_steps self.new ≡ after_split (cached_steps self.old))
            × (cached_steps result ≡ after_split (cached_steps self.old)) }
    {
        CachedPass {
            pass: self.pass.split(),
        }
    }

    /// Takes in all that the other pass of this table knows, and its history.
    pub fn join(&mut self, other: CachedPass<'t>)
        requires { (cached_state other).table ≡ (cached_state self.old).table }
        ensures joined { IsJoined (cached_state self.old) (cached_state other.entry)
            (cached_state self.new) }
        ensures steps { cached_steps self.new ≡ cached_steps self.old }
    {
        self.pass.join(other.pass);
    }
}

impl<'t> Store for CachedPass<'t> {
    ghost use Rattle.std.specs.Prelude.{◌↔◌, ◌<◌, MatchResult, IsNone, IfSome, IfOk, Some, ℕ};
    ghost use Rattle.lattice.specs.Family.{Has};
    ghost use Rattle.lattice.specs.NodeWords.{cache_place, cache_word};
    ghost use Rattle.lattice.specs.CacheWords.{key_for};
    ghost use Rattle.node_store.specs.Stores.{IsNode, node_family, family, Knows, AreOperands};
    ghost use Rattle.node_store.specs.Stores.{IsResult, Builds, Reads};
    ghost use Rattle.unique_table.specs.Views.{after_store};
    ghost use Rattle.unique_table.specs.Passes.{IsInterned, FindsFull, HasMet};
    ghost use Rattle.computed_cache.specs.Looks.{HasLooked};
    ghost use Rattle.computed_cache.specs.Cached.{cached_state, cached_steps, cached_sound};
    ghost use Rattle.computed_cache.specs.Cached.{cache_of};

    ghost state = { cached_state };

    ghost sound = { cached_sound };

    fn vars(&self) -> u32 {
        self.pass.vars()
    }

    fn intern(&mut self, n: &Node) -> Result<Handle, Full>
        requires node { IsNode (cached_state self.old) n.now }
        requires planned { Has (cached_state self.old).plan
            (node_family (cached_state self.old) n.now) }
        ensures builds { Builds (cached_state self.old) (cached_state self.new) result
            (node_family (cached_state self.old) n.now) }
        ensures same { IfOk result (λ h. (k : ℕ)
            → (cached_state self.old).known k ≡ Some (node_family (cached_state self.old) n.now)
            → h.0 ≡ k) }
        ensures steps { cached_steps self.new ≡ cached_steps self.old }
        ensures history { MatchResult result
            (IsInterned (cached_state self.old) (cached_state self.new) n.now)
            (λ _. FindsFull (cached_state self.old) (cached_state self.new) n.now) }
    {
        self.pass.intern(n)
    }

    fn node(&mut self, h: Handle) -> Option<Node>
        requires { Knows (cached_state self.old) h }
        ensures reads { Reads (cached_state self.old) (cached_state self.new) }
        ensures constant { IsNone result ↔ (h.0 < 2) }
        ensures node { IfSome result (IsNode (cached_state self.new)) }
        ensures family { IfSome result
            (λ n. node_family (cached_state self.new) n ≡ family (cached_state self.old) h) }
        ensures steps { cached_steps self.new ≡ cached_steps self.old }
        ensures met { IfSome result (HasMet (cached_state self.old) (cached_state self.new) h) }
        ensures nothing { IsNone result → cached_state self.new ≡ cached_state self.old }
    {
        self.pass.node(h)
    }

    /// Loads the one word at the place of the operation's key, and no other word.
    fn look(&mut self, op: Op, a: Handle, b: u32) -> Option<Handle>
        requires { AreOperands (cached_state self.old) op a b }
        ensures reads { Reads (cached_state self.old) (cached_state self.new) }
        ensures result { IfSome result (IsResult (cached_state self.new) op a b) }
        ensures looked { HasLooked (cached_steps self.old) (cached_steps self.new)
            (cache_of self.old) (key_for op a.0 b) result }

        // It loads no node word that tells it anything.
        ensures history { (cached_state self.new).history ≡ (cached_state self.old).history }
    {
        let slot = slot_of(self.pass.cache_bits(), op, a, b);
        let word = self.pass.cache_load(slot.place);
        // Of a vacant word, and of one of another key, this is no handle.
        let found = word.wrapping_sub(slot.base + 1);
        if found >= HANDLE_UNIT - 1 {
            return None;
        }
        Some(Handle(found as u32))
    }

    /// Stores one word, once, at the place of the operation's key.
    fn keep(&mut self, op: Op, a: Handle, b: u32, r: Handle)
        requires { IsResult (cached_state self.old) op a b r }
        ensures same { cached_state self.new ≡ cached_state self.old }
        ensures steps { cached_steps self.new
            ≡ after_store (cached_steps self.old)
            (cache_place (cache_of self.old) (key_for op a.0 b))
            (cache_word (cache_of self.old) (key_for op a.0 b) r.0) }
    {
        let target = slot_of(self.pass.cache_bits(), op, a, b);
        let word = target.base + u64::from(r.0) + 1;
        self.pass.cache_store(target.place, word);
    }
}
