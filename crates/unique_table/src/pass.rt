//! The table, and the passes over it.
ghost use Rattle.std.specs.Prelude.{◌≡◌, ◌≢◌, ◌==◌, ℕ, suc, List, ◌+◌, ◌<◌, ◌≤◌, ◌^◌, ◌⊎◌};
ghost use Rattle.std.specs.Prelude.{MatchBool, IsSome, IfSome, IfNone, IfOk, Some, None, true, []};
ghost use Rattle.std.specs.Prelude.{◌∷◌, ◌++◌};
ghost use Rattle.lattice.specs.Family.{Family};
ghost use Rattle.lattice.specs.NodeWords.{place, cache_bits};
ghost use Rattle.lattice.specs.declared.limits.TheConstants.{MAX_VARS, MIN_BITS, MAX_BITS};
ghost use Rattle.lattice.specs.declared.limits.TheConstants.{MIN_CACHE_BITS};
ghost use Rattle.lattice.specs.declared.entry.Entry.TheVariants.{Met};
ghost use Rattle.unique_table.specs.Views.{known_by};
ghost use Rattle.unique_table.specs.Rule.{first_view, second_view, joined_view, IsNew, IsSoundView};
ghost use Rattle.unique_table.specs.Told.{IsAsked, IsNext, EndsPath, Probed, Exchanged, Stands};
ghost use Rattle.unique_table.specs.Told.{Passes, Interned, AllOthers, Meets};
ghost use Rattle.unique_table.specs.PassLaws.{IsSoundView-prop};

use crate::plays::{Asked, CacheLoad, CacheStore, Check, Insert, Nodes, Probe, Twin, Union};
use crate::view::{About, View};
use crate::zeros::{spare_count, zeros_or};
use atomic_table::{Seat, Table};
use lattice::{MIN_CACHE_BITS, Memory, Op, Plan};
use node_store::{Full, Handle, Node, Store, node_of, pack};
use probe_core::{cache_size, probe_place};
use std::alloc::Global;
use std::marker::Brand;

/// A table of nodes that threads share. Its words change in single atomic steps, and nothing stands
/// under a lock.
#[derive(Drop)]
pub struct Shared {
    table: Table<(), View, About, Nodes, Global>,
}

/// A seat of a table, with all that it knows. It has no lifetime, so that a thread can be handed
/// one.
#[derive(Drop)]
pub struct Token {
    seat: Seat<(), View>,
    bits: u32,
    vars: u32,
    ghost bare: { seat.me.1 ≡ [] },
    ghost bits_range: { (MIN_BITS ≤ bits) × (bits ≤ MAX_BITS) },
    ghost sizes: { (seat.me.0.terms.bits ≡ bits) × (seat.me.0.terms.vars ≡ vars)
        × (seat.table_id.words ≡ 2 ^ bits + 2 ^ cache_bits bits) },
    ghost sound: { IsSoundView seat.me.0 } by { IsSoundView-prop seat.me.0 },
}

/// A token at its table: a store. It keeps the sizes of the table and of its cache at hand, since
/// each call needs one of them.
#[derive(Drop)]
pub struct Pass<'t> {
    table: &'t Shared,
    seat: Seat<(), View>,
    bits: u32,
    cache_log2: u32,
    slots: usize,
    vars: u32,
    ghost of: { seat.table_id ≡ table.now.table.shared.table_id },
    ghost bare: { seat.me.1 ≡ [] },
    ghost bits_range: { (MIN_BITS ≤ bits) × (bits ≤ MAX_BITS) },
    ghost sizes: { (seat.me.0.terms.bits ≡ bits) × (seat.me.0.terms.vars ≡ vars)
        × (seat.table_id.words ≡ 2 ^ bits + 2 ^ cache_bits bits) },
    ghost counts: { (cache_log2 ≡ cache_bits bits) × (slots ≡ 2 ^ bits) },
    ghost sound: { IsSoundView seat.me.0 } by { IsSoundView-prop seat.me.0 },
}

impl Shared {
    ghost use Rattle.unique_table.specs.Passes.{token_state, token_steps, token_table, first_state};
    ghost use Rattle.unique_table.specs.Passes.{no_steps, IsUntouched, IsOf};
    ghost use Rattle.unique_table.specs.PassOf.{pass_state, pass_steps};

    /// A vacant table of 2^bits slots and as many kept results, or 2^12 where these are more, over
    /// so many variables, and the token of its first seat, with which nothing was done to the table
    /// yet.
    pub fn make(alloc: Global, bits: u32, vars: u32, plan: Plan) -> Result<(Shared, Token), Memory>
        requires bits { (MIN_BITS ≤ bits) × (bits ≤ MAX_BITS) }
        requires vars { (1 ≤ vars) × (vars ≤ MAX_VARS) }
        ensures of { IfOk result (λ r. IsOf r.1 r.0) }
        ensures state { IfOk result (λ r. token_state r.1
            ≡ first_state (token_table r.1) bits vars plan.families) }
        ensures steps { IfOk result (λ r. token_steps r.1 ≡ no_steps) }
        ensures vacant { IfOk result (λ r. IsUntouched (token_state r.1) (token_steps r.1)) }
    {
        let count = (1usize << bits) + cache_size(bits);
        let spare = Vec::from_elem(alloc, 0u64, spare_count(count))?;
        let about = About { bits, vars, plan };
        let (table, seat) = Table::of_words(alloc, zeros_or(&spare, count), &about)?;
        Ok((Shared { table }, Token { seat, bits, vars }))
    }

    /// Joins a token to its table.
    pub fn pass<'t>(&'t self, token: Token) -> Pass<'t>
        requires { IsOf token self.now }
        ensures state { pass_state result ≡ token_state token }
        ensures steps { pass_steps result ≡ token_steps token }
    {
        let Token { seat, bits, vars } = token;
        Pass {
            table: self,
            seat,
            bits,
            cache_log2: bits.max(MIN_CACHE_BITS),
            slots: 1usize << bits,
            vars,
        }
    }
}

impl<'t> Pass<'t> {
    ghost use Rattle.node_store.specs.Stores.{Reads};
    ghost use Rattle.unique_table.specs.Kept.{IsShown, IsKept};
    ghost use Rattle.unique_table.specs.Views.{after_load, after_store, after_split};
    ghost use Rattle.unique_table.specs.Passes.{token_state, token_steps, table_name, IsJoined};
    ghost use Rattle.unique_table.specs.Passes.{IsUntouched, twin_of};
    ghost use Rattle.unique_table.specs.PassOf.{pass_state, pass_steps, bits_of, AreOfOne};
    ghost use Rattle.unique_table.specs.Walks.{Walked};

    /// Gives the token back with all that it knows.
    pub fn end(self) -> Token
        ensures state { token_state result ≡ pass_state self.entry }
        ensures steps { token_steps result ≡ pass_steps self.entry }
    {
        let Pass {
            table: _,
            seat,
            bits,
            cache_log2: _,
            slots: _,
            vars,
        } = self;
        Token { seat, bits, vars }
    }

    /// The table of the pass.
    pub fn table(&self) -> &'t Shared
        ensures { (pass_state self.entry.now).table ≡ Some (table_name result.now) }
    {
        self.table
    }

    // Looks at the word of a place.
    fn probe<J: Asked>(&mut self, place: usize) -> u64
        requires place { place < 2 ^ self.old.bits }
        requires end { EndsPath self.old.seat.me.0 J.asked place J.last }
        ensures same { AreOfOne self.old self.new }
        ensures told { Probed J.asked J.last place self.old.seat.me result self.new.seat.me }
    {
        self.table
            .table
            .shared
            .load::<Probe<J>>(&mut self.seat, place)
    }

    // Puts the word where the place is vacant, and answers what stood there.
    fn insert<J: Asked>(&mut self, place: usize, word: u64) -> u64
        requires place { place < 2 ^ self.old.bits }
        requires asked { IsAsked self.old.seat.me.0 word }
        requires next { (d : ℕ) × IsNext self.old.seat.me.0 word d place }
        requires end { EndsPath self.old.seat.me.0 word place J.last }
        ensures same { AreOfOne self.old self.new }
        ensures told { Exchanged J.last place word self.old.seat.me result self.new.seat.me }
    {
        let table = &self.table.table.shared;
        table.compare_exchange::<Insert<J>>(&mut self.seat, place, 0, word)
    }

    // Looks at the place that stands so many steps along the word's path, and puts the word there
    // where it is vacant. None where another word stands there. `bits` are the table's.
    fn visit<J: Asked>(&mut self, bits: u32, word: u64, steps: usize) -> Option<usize>
        requires bits { bits ≡ self.old.bits }
        requires word { J.asked ≡ word }
        requires last { J.last ≡ (steps + 1 == 2 ^ self.old.bits) }
        requires asked { IsAsked self.old.seat.me.0 word }
        requires next { IsNext self.old.seat.me.0 word steps (place self.old.bits word steps) }
        ensures same { AreOfOne self.old self.new }
        ensures some { IfSome result
            (λ at. (at ≡ place self.old.bits word steps)
            × Stands self.old.seat.me.0 at word self.new.seat.me.0) }
        ensures vacant { IsNew self.old.seat.me.0 → IsSome result }
        ensures none { IfNone result
            ((other : ℕ) × Passes self.old.seat.me.0 J.last (place self.old.bits word steps) other
            word self.new.seat.me.0) }
    {
        let place = probe_place(bits, word, steps);
        let found = self.probe::<J>(place);
        if found == word {
            return Some(place);
        }
        if found != 0 {
            return None;
        }
        let left = self.insert::<J>(place, word);
        if left == 0 || left == word {
            return Some(place);
        }
        None
    }

    // The slot of the word, which is looked for along its path and put where the path is vacant
    // first. None where all slots have other words.
    fn find(&mut self, word: u64) -> Option<usize>
        requires { IsAsked self.old.seat.me.0 word }
        ensures same { AreOfOne self.old self.new }
        ensures some { IfSome result
            (λ at. (at < 2 ^ self.old.bits)
            × Interned self.old.seat.me.0 word at self.new.seat.me.0) }
        ensures none { IfNone result (AllOthers self.old.seat.me.0 word self.new.seat.me.0) }
        ensures vacant { IsNew self.old.seat.me.0 → result ≡ Some (place self.old.bits word 0) }
    {
        // Most words stand at the first place of their path, which needs no more than its start.
        let first = self.visit::<Brand>(self.bits, word, 0);
        if first.is_some() {
            return first;
        }
        self.find_further(word)
    }

    // The slot of a word that does not stand at the first place of its path. (a function of its
    // own, so that a word that does stand there pays for no loop)
    #[inline(never)]
    fn find_further(&mut self, word: u64) -> Option<usize>
        requires asked { IsAsked self.old.seat.me.0 word }
        requires first { (p : Pass) × Walked p word 1 self.old }
        ensures same { AreOfOne self.old self.new }
        ensures some { IfSome result
            (λ at. (p : Pass) → Walked p word 1 self.old → (at < 2 ^ p.bits)
            × Interned p.seat.me.0 word at self.new.seat.me.0) }
        ensures none { IfNone result
            ((p : Pass) → Walked p word 1 self.old
            → AllOthers p.seat.me.0 word self.new.seat.me.0) }
    {
        // (read once: nothing that a step calls is known not to change it)
        let bits = self.bits;
        for steps in 1..self.slots {
            let slot = self.visit::<Brand>(bits, word, steps);
            if slot.is_some() {
                return slot;
            }
        }
        None
    }

    // The word of a known slot, whose children are known then.
    fn word_at(&mut self, slot: usize) -> u64
        requires { (f : Family) × (known_by self.old.seat.me.0.known (suc (suc slot)) ≡ Some f) }
        ensures same { AreOfOne self.old self.new }
        ensures meets { Meets self.old.seat.me.0 (Met (suc (suc slot)) result ∷ []) slot result
            self.new.seat.me.0 }
    {
        self.probe::<Brand>(slot)
    }

    /// The table has 2^bits slots.
    pub fn bits(&self) -> u32
        ensures range { (MIN_BITS ≤ result) × (result ≤ MAX_BITS) }
        ensures is { result ≡ bits_of self.entry.now }
        ensures slots { (pass_state self.entry.now).capacity ≡ 2 ^ result }
    {
        self.bits
    }

    /// The cache of the table has 2^cache_bits words.
    pub fn cache_bits(&self) -> u32
        ensures range { (MIN_CACHE_BITS ≤ result) × (result ≤ MAX_BITS) }
        ensures is { result ≡ cache_bits (bits_of self.entry.now) }
    {
        self.cache_log2
    }

    /// Loads the cache word of the place. It is vacant, as all are in a new table, or that of a key
    /// at this place: where the pass knows the handles of the key, it knows the result afterwards.
    pub fn cache_load(&mut self, place: usize) -> u64
        requires { place < 2 ^ cache_bits (bits_of self.old) }
        ensures reads { Reads (pass_state self.old) (pass_state self.new) }
        ensures history { (pass_state self.new).history ≡ (pass_state self.old).history }
        ensures vacant { IsUntouched (pass_state self.old) (pass_steps self.old) → result ≡ 0 }
        ensures word { (result ≡ 0) ⊎ IsKept (pass_state self.old) (pass_state self.new)
            (bits_of self.old) place result }
        ensures steps { pass_steps self.new ≡ after_load (pass_steps self.old) place result }
        ensures bits { bits_of self.new ≡ bits_of self.old }
    {
        let at = self.slots + place;
        self.table
            .table
            .shared
            .load::<CacheLoad>(&mut self.seat, at)
    }

    /// Stores the word of a result at its key's place.
    pub fn cache_store(&mut self, place: usize, word: u64)
        requires place { place < 2 ^ cache_bits (bits_of self.old) }
        requires word { IsShown (pass_state self.old) (bits_of self.old) place word }
        ensures same { pass_state self.new ≡ pass_state self.old }
        ensures steps { pass_steps self.new ≡ after_store (pass_steps self.old) place word }
        ensures bits { bits_of self.new ≡ bits_of self.old }
    {
        let at = self.slots + place;
        self.table
            .table
            .shared
            .store::<CacheStore>(&mut self.seat, at, word);
    }

    /// A second pass that knows what this one knows.
    pub fn split(&mut self) -> Pass<'t>
        ensures same { pass_state self.new ≡ pass_state self.old }
        ensures twin { pass_state result ≡ twin_of (pass_state self.old) }
        ensures steps { (pass_steps self.new ≡ after_split (pass_steps self.old))
            × (pass_steps result ≡ after_split (pass_steps self.old)) }
    {
        let seat = self.table.table.shared.split_seat::<Twin>(&mut self.seat);
        Pass {
            table: self.table,
            seat,
            bits: self.bits,
            cache_log2: self.cache_log2,
            slots: self.slots,
            vars: self.vars,
        }
    }

    /// Takes in all that the other pass of this table knows, and its history.
    pub fn join(&mut self, other: Pass<'t>)
        requires { (pass_state other).table ≡ (pass_state self.old).table }
        ensures joined { IsJoined (pass_state self.old) (pass_state other.entry)
            (pass_state self.new) }
        ensures steps { pass_steps self.new ≡ pass_steps self.old }
    {
        let Pass {
            table: _,
            seat,
            bits: _,
            cache_log2: _,
            slots: _,
            vars: _,
        } = other;
        let table = &self.table.table.shared;
        table.join_seat::<Union>(&mut self.seat, seat);
        // A load that changes nothing: only a step can tell that what both know fits together.
        table.load::<Check>(&mut self.seat, 0);
    }
}

impl<'t> Store for Pass<'t> {
    ghost use Rattle.std.specs.Prelude.{MatchResult, IsNone, IfSome, ◌↔◌};
    ghost use Rattle.lattice.specs.Family.{Has};
    ghost use Rattle.node_store.specs.Stores.{IsNode, node_family, family, Knows, AreOperands};
    ghost use Rattle.node_store.specs.Stores.{IsResult, Builds, Reads};
    ghost use Rattle.unique_table.specs.Passes.{IsUntouched, IsInterned, FindsFull, HasMet};
    ghost use Rattle.unique_table.specs.Passes.{word_of};
    ghost use Rattle.unique_table.specs.PassOf.{pass_state, pass_steps, pass_sound, bits_of};

    ghost state = { pass_state };

    ghost sound = { pass_sound };

    fn vars(&self) -> u32 {
        self.vars
    }

    fn intern(&mut self, n: &Node) -> Result<Handle, Full>
        requires node { IsNode (pass_state self.old) n.now }
        requires planned { Has (pass_state self.old).plan
            (node_family (pass_state self.old) n.now) }
        ensures builds { Builds (pass_state self.old) (pass_state self.new) result
            (node_family (pass_state self.old) n.now) }

        // A family that had a handle keeps it.
        ensures same { IfOk result (λ h. (k : ℕ)
            → (pass_state self.old).known k ≡ Some (node_family (pass_state self.old) n.now)
            → h.0 ≡ k) }

        ensures steps { pass_steps self.new ≡ pass_steps self.old }

        // In a new table a node takes the first slot of its path.
        ensures vacant { IsUntouched (pass_state self.old) (pass_steps self.old)
            → MatchResult result (λ h. h.0 ≡ suc (suc (place (bits_of self.old) (word_of n.now) 0)))
            (λ _. ⊥) }

        // What it adds to the history.
        ensures history { MatchResult result
            (IsInterned (pass_state self.old) (pass_state self.new) n.now)
            (λ _. FindsFull (pass_state self.old) (pass_state self.new) n.now) }
    {
        let word = pack(n);
        match self.find(word) {
            Some(place) => Ok(Handle(place as u32 + 2)),
            None => Err(Full),
        }
    }

    fn node(&mut self, h: Handle) -> Option<Node>
        requires { Knows (pass_state self.old) h }
        ensures reads { Reads (pass_state self.old) (pass_state self.new) }
        ensures constant { IsNone result ↔ (h.0 < 2) }
        ensures node { IfSome result (IsNode (pass_state self.new)) }
        ensures family { IfSome result
            (λ n. node_family (pass_state self.new) n ≡ family (pass_state self.old) h) }

        ensures steps { pass_steps self.new ≡ pass_steps self.old }

        // What it adds to the history: the node of the slot, and nothing for a constant.
        ensures met { IfSome result (HasMet (pass_state self.old) (pass_state self.new) h) }
        ensures nothing { IsNone result → pass_state self.new ≡ pass_state self.old }
    {
        if h.0 < 2 {
            return None;
        }
        let word = self.word_at(h.0 as usize - 2);
        Some(node_of(word))
    }

    /// None: it keeps no results.
    fn look(&mut self, op: Op, a: Handle, b: u32) -> Option<Handle>
        requires { AreOperands (pass_state self.old) op a b }
        ensures none { IsNone result }
        ensures same { pass_state self.new ≡ pass_state self.old }
        ensures steps { pass_steps self.new ≡ pass_steps self.old }
        ensures reads { Reads (pass_state self.old) (pass_state self.new) }
        ensures result { IfSome result (IsResult (pass_state self.new) op a b) }
    {
        let _ = (op, a, b);
        None
    }

    /// Does nothing: it keeps no results.
    fn keep(&mut self, op: Op, a: Handle, b: u32, r: Handle)
        requires { IsResult (pass_state self.old) op a b r }
        ensures same { pass_state self.new ≡ pass_state self.old }
        ensures steps { pass_steps self.new ≡ pass_steps self.old }
    {
        let _ = (op, a, b, r);
    }
}
