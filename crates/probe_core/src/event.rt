//! The events of the machine.

/// What a seat may do in one step. Seats are numbered in the order in which they were made, from 0.
#[derive(Clone, Copy, PartialEq, Eq, Debug)]
pub enum Event {
    /// The seat looks at the word of the place.
    Load { seat: u32, place: u32 },
    /// The place takes the word where it is vacant, and the seat sees the word that stands there
    /// afterwards.
    Exchange { seat: u32, place: u32, word: u64 },
    /// The seat looks at the cache word of the place.
    CacheLoad { seat: u32, place: u32 },
    /// The cache word of the place becomes this one, which is that of a result.
    CacheStore { seat: u32, place: u32, word: u64 },
    /// A new seat knows what this one knows.
    Split { seat: u32 },
    /// The seat takes over what the other one knows and has met, and the other one ends.
    Join { seat: u32, other: u32 },
}

/// What an event shows: a word, and whether the place of an exchange was vacant.
#[derive(Clone, Copy, PartialEq, Eq, Debug)]
pub struct Seen {
    pub word: u64,
    pub won: bool,
}
