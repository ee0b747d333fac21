//! The machine: a table of node words, and seats that act on it one event at a time.
ghost use Rattle.std.specs.Prelude.{◌≡◌, ◌<◌, ◌≤◌, ◌^◌, ◌↔◌, false, length, IsTrue, IfOk, OnOk};
ghost use Rattle.std.specs.Prelude.{OnErr};
ghost use Rattle.lattice.specs.declared.limits.TheConstants.{MIN_BITS, MAX_BITS, MAX_VARS};
ghost use Rattle.lattice.specs.NodeWords.{cache_bits};
ghost use Rattle.lattice.specs.Tables.{var_at, KeepsWords};
ghost use Rattle.probe_core.specs.Machines.{Machine};
ghost use Rattle.probe_core.specs.Events.{start, seat_at, IsLive, IsOverKnown, MayExchange};
ghost use Rattle.probe_core.specs.Events.{is_store, MayTake, MayTakeAll, after, after_all, seen};
ghost use Rattle.probe_core.specs.Soundness.{IsSoundMachine, IsLawful};

use crate::cache::{cache_size, key_at, result_of};
use crate::event::{Event, Seen};
use crate::path::has_probed;
use crate::seat::{Seat, is_known};
use lattice::{Memory, TOP_UNIT};
use node_store::{Handle, unpack};
use std::alloc::Global;
use std::marker::Model;

/// A table of 2^bits node words over so many variables, its cache words, and its seats.
#[derive(Drop)]
pub struct Core {
    bits: u32,
    vars: u32,
    words: Vec<u64>,
    cache: Vec<u64>,
    seats: Vec<Seat>,
}

impl Model for Core {
    ghost Value = { Machine };

    ghost view = { λ c. record {
      bits = c.bits;
      vars = c.vars;
      words = c.words.items;
      cache = c.cache.items;
      seats = c.seats.items;
    } };

    ghost invariant = { λ c. (MIN_BITS ≤ c.bits) × (c.bits ≤ MAX_BITS) × (1 ≤ c.vars)
        × (c.vars ≤ MAX_VARS) × (length c.words.items ≡ 2 ^ c.bits)
        × (length c.cache.items ≡ 2 ^ cache_bits c.bits) };
}

impl Core {
    /// A machine with a vacant table of 2^bits words over so many variables, a vacant cache of 2^12
    /// words or as many as the table where these are more, and a seat that knows the two constants.
    pub fn make(alloc: Global, bits: u32, vars: u32) -> Result<Core, Memory>
        requires bits { (MIN_BITS ≤ bits) × (bits ≤ MAX_BITS) }
        requires vars { (1 ≤ vars) × (vars ≤ MAX_VARS) }
        ensures start { IfOk result (λ c. c ≡ start bits vars) }
        ensures sound { IfOk result IsSoundMachine }
    {
        let words = Vec::from_elem(alloc, 0u64, 1usize << bits)?;
        let cache = Vec::from_elem(alloc, 0u64, cache_size(bits))?;
        let first = Seat::first(alloc)?;
        let mut seats = Vec::new(alloc);
        seats.push(first)?;
        Ok(Core {
            bits,
            vars,
            words,
            cache,
            seats,
        })
    }

    /// The words of the table; 0 is a vacant place.
    pub fn words(&self) -> &[u64]
        ensures { result.now ≡ self.now.words }
    {
        self.words.as_slice()
    }

    /// The words of the cache; 0 is a vacant place.
    pub fn cache(&self) -> &[u64]
        ensures { result.now ≡ self.now.cache }
    {
        self.cache.as_slice()
    }

    /// Whether the event may be taken now, for an event that stores no cache word: whether a word
    /// is that of a result, no look at the machine can tell.
    pub fn may(&self, e: &Event) -> bool
        requires { is_store e.now ≡ false }
        ensures { IsTrue result ↔ MayTake self.now e.now }
    {
        match *e {
            Event::Load { seat, place } => {
                self.is_live(seat) && (place as usize) < self.words.len()
            }
            Event::Exchange { seat, place, word } => {
                self.is_live(seat) && self.may_exchange(seat, place, word)
            }
            Event::CacheLoad { seat, place } => {
                self.is_live(seat) && (place as usize) < self.cache.len()
            }
            Event::CacheStore { .. } => false,
            Event::Split { seat } => self.is_live(seat) && self.seats.len() < u32::MAX as usize,
            Event::Join { seat, other } => {
                self.is_live(seat) && self.is_live(other) && seat != other
            }
        }
    }

    /// Takes an event and answers what it shows. After Memory the machine is as before.
    pub fn step(&mut self, e: &Event) -> Result<Seen, Memory>
        requires { MayTake self.old e.now }
        ensures after { OnOk result (self.new ≡ after self.old e.now) }
        ensures seen { IfOk result (λ shown. shown ≡ seen self.old e.now) }
        ensures memory { OnErr result (self.new ≡ self.old) }

        // A sound machine stays sound, and each filled slot keeps its word.
        ensures sound { IsSoundMachine self.old → IsSoundMachine self.new }
        ensures keeps { KeepsWords self.old.words self.new.words }
    {
        match *e {
            Event::Load { seat, place } => self.load(seat, place),
            Event::Exchange { seat, place, word } => self.exchange(seat, place, word),
            Event::CacheLoad { seat, place } => self.cache_load(seat, place),
            Event::CacheStore { seat, place, word } => self.cache_store(seat, place, word),
            Event::Split { seat } => self.split(seat),
            Event::Join { seat, other } => self.join(seat, other),
        }
    }

    // Whether there is a live seat with this number.
    fn is_live(&self, id: u32) -> bool
        ensures { result ≡ (seat_at self.now id).live }
    {
        match self.seats.get(id as usize) {
            Some(seat) => seat.live,
            None => false,
        }
    }

    // Whether the seat may exchange the word at the place.
    fn may_exchange(&self, id: u32, at: u32, word: u64) -> bool
        requires { IsLive self.now id }
        ensures { IsTrue result ↔ MayExchange self.now (seat_at self.now id) at word }
    {
        let seat = &self.seats[id as usize];
        let known = seat.known.as_slice();
        is_over_known(self.vars, self.words.as_slice(), known, word)
            && has_probed(self.bits, seat.met.as_slice(), at, word)
    }

    // The seat looks at the word of the place.
    fn load(&mut self, id: u32, at: u32) -> Result<Seen, Memory>
        requires { MayTake self.old (Event.Load id at) }
        ensures after { OnOk result (self.new ≡ after self.old (Event.Load id at)) }
        ensures seen { IfOk result (λ shown. shown ≡ seen self.old (Event.Load id at)) }
        ensures memory { OnErr result (self.new ≡ self.old) }
    {
        let word = self.words[at as usize];
        if word != 0 {
            self.seats[id as usize].meet(at, word)?;
        }
        Ok(Seen { word, won: false })
    }

    // The place takes the word where it is vacant, and the seat meets it there. Else the exchange
    // is a load.
    fn exchange(&mut self, id: u32, at: u32, word: u64) -> Result<Seen, Memory>
        requires { MayTake self.old (Event.Exchange id at word) }
        ensures inside { at < 2 ^ self.old.bits }
        ensures after { OnOk result (self.new ≡ after self.old (Event.Exchange id at word)) }
        ensures seen { IfOk result (λ shown. shown ≡ seen self.old (Event.Exchange id at word)) }
        ensures memory { OnErr result (self.new ≡ self.old) }
    {
        let vacant = self.words[at as usize] == 0;
        if !vacant {
            return self.load(id, at);
        }
        self.seats[id as usize].meet(at, word)?;
        self.words[at as usize] = word;
        Ok(Seen { word, won: true })
    }

    // The seat looks at the cache word of the place.
    fn cache_load(&mut self, id: u32, at: u32) -> Result<Seen, Memory>
        requires { MayTake self.old (Event.CacheLoad id at) }
        ensures after { OnOk result (self.new ≡ after self.old (Event.CacheLoad id at)) }
        ensures seen { IfOk result (λ shown. shown ≡ seen self.old (Event.CacheLoad id at)) }
        ensures memory { OnErr result (self.new ≡ self.old) }
    {
        let word = self.cache[at as usize];
        if word != 0 {
            let key = key_at(self.bits, at, word);
            self.seats[id as usize].see(key, result_of(word))?;
        }
        Ok(Seen { word, won: false })
    }

    // The cache word of the place becomes this one.
    fn cache_store(&mut self, id: u32, at: u32, word: u64) -> Result<Seen, Memory>
        requires { MayTake self.old (Event.CacheStore id at word) }
        ensures after { OnOk result (self.new ≡ after self.old (Event.CacheStore id at word)) }
        ensures seen { IfOk result (λ shown. shown ≡ seen self.old (Event.CacheStore id at word)) }
        ensures memory { OnErr result (self.new ≡ self.old) }
    {
        self.cache[at as usize] = word;
        Ok(Seen { word, won: false })
    }

    // A new seat knows what this one knows.
    fn split(&mut self, id: u32) -> Result<Seen, Memory>
        requires { MayTake self.old (Event.Split id) }
        ensures after { OnOk result (self.new ≡ after self.old (Event.Split id)) }
        ensures seen { IfOk result (λ shown. shown ≡ seen self.old (Event.Split id)) }
        ensures memory { OnErr result (self.new ≡ self.old) }
    {
        let twin = self.seats[id as usize].twin()?;
        self.seats.push(twin)?;
        Ok(Seen {
            word: self.words[0],
            won: false,
        })
    }

    // The seat takes over what the other one knows and has met, and the other one ends.
    fn join(&mut self, id: u32, other: u32) -> Result<Seen, Memory>
        requires { MayTake self.old (Event.Join id other) }
        ensures after { OnOk result (self.new ≡ after self.old (Event.Join id other)) }
        ensures seen { IfOk result (λ shown. shown ≡ seen self.old (Event.Join id other)) }
        ensures memory { OnErr result (self.new ≡ self.old) }
    {
        let joined = self.seats[id as usize].joined(&self.seats[other as usize])?;
        self.seats[id as usize] = joined;
        self.seats[other as usize].end();
        Ok(Seen {
            word: self.words[0],
            won: false,
        })
    }
}

// Whether the word is that of a node over known children with later variables.
fn is_over_known(vars: u32, words: &[u64], known: &[Handle], word: u64) -> bool
    requires { vars ≤ MAX_VARS }
    ensures { IsTrue result ↔ IsOverKnown vars words.now known.now word }
{
    let Some(node) = unpack(word) else {
        return false;
    };
    if vars < node.var || !is_known(known, node.lo) || !is_known(known, node.hi) {
        return false;
    }
    node.var < variable_at(vars, words, node.lo) && node.var < variable_at(vars, words, node.hi)
}

// The variable of a handle; a constant counts as behind all variables.
fn variable_at(vars: u32, words: &[u64], h: Handle) -> u32
    requires { vars ≤ MAX_VARS }
    ensures { result ≡ var_at vars words.now h.0 }
{
    if h.0 < 2 {
        return vars + 1;
    }
    match words.get(h.0 as usize - 2) {
        Some(word) => (*word / TOP_UNIT) as u32,
        None => 0,
    }
}

/// The machine after the events in turn, from a vacant table of 2^bits words over so many variables
/// and one seat.
#[tactic(auto, using(crate::proofs::EventLemmas::run_lawful))]
pub fn run(alloc: Global, bits: u32, vars: u32, events: &[Event]) -> Result<Core, Memory>
    requires bits { (MIN_BITS ≤ bits) × (bits ≤ MAX_BITS) }
    requires vars { (1 ≤ vars) × (vars ≤ MAX_VARS) }
    requires events { MayTakeAll (start bits vars) events.now }
    ensures after { IfOk result (λ c. c ≡ after_all (start bits vars) events.now) }

    // The state is sound before the first event and after each one, and each filled slot keeps its
    // word.
    ensures lawful { IsLawful (start bits vars) events.now }
{
    let mut core = Core::make(alloc, bits, vars)?;
    for e in events {
        core.step(e)?;
    }
    Ok(core)
}
