//! What the branches of an operation enter at their starts.
use std::sync::atomic::{AtomicU64, Ordering};

/// What a branch enters at its start. It changes nothing that a contract sees.
pub trait Gate {
    /// Enters the place: 0 is that of the first branch, and 1 that of the second.
    fn enter(&self, place: u32);
}

/// A gate that does nothing.
#[derive(Clone, Copy, Debug)]
pub struct OpenGate;

impl OpenGate {
    /// The gate that does nothing.
    pub fn new() -> OpenGate {
        OpenGate
    }
}

impl Gate for OpenGate {
    fn enter(&self, place: u32) {
        let _ = place;
    }
}

/// A gate where a first and a second branch wait for each other. Each sets a flag of its own, and
/// then looks at the other's until it is set, so many times at most.
#[derive(Drop)]
pub struct Rendezvous {
    first: AtomicU64,
    second: AtomicU64,
    missed: AtomicU64,
    looks: u64,
}

impl Rendezvous {
    /// A gate where nobody waits: it does nothing.
    pub fn open() -> Rendezvous {
        Rendezvous::waiting(0)
    }

    /// A gate where each branch looks for the other so many times at most.
    pub fn waiting(looks: u64) -> Rendezvous {
        Rendezvous {
            first: AtomicU64::new(0),
            second: AtomicU64::new(0),
            missed: AtomicU64::new(0),
            looks,
        }
    }

    /// Whether a first and a second branch came, and none went on without having seen the other: no
    /// thread that runs one branch after the other leaves it so.
    pub fn met(&self) -> bool {
        self.first.load(Ordering::SeqCst) != 0
            && self.second.load(Ordering::SeqCst) != 0
            && self.missed.load(Ordering::SeqCst) == 0
    }

    // Looks at the flag until it is set; false where it never was.
    fn sees(&self, flag: &AtomicU64) -> bool {
        for _ in 0..self.looks {
            if flag.load(Ordering::SeqCst) != 0 {
                return true;
            }
        }
        false
    }
}

impl Gate for Rendezvous {
    fn enter(&self, place: u32) {
        if self.looks == 0 {
            return;
        }
        let (own, other) = if place == 0 {
            (&self.first, &self.second)
        } else {
            (&self.second, &self.first)
        };
        own.store(1, Ordering::SeqCst);
        if !self.sees(other) {
            self.missed.store(1, Ordering::SeqCst);
        }
    }
}
