//! The sizes of the tables that a run tries: by a guess at how many nodes it needs, or by steps
//! where nothing is guessed. A wrong guess costs time or memory, and changes no answer.
ghost use Rattle.std.specs.Prelude.{◌≡◌, ◌⊎◌, ◌<◌, ◌≤◌};
ghost use Rattle.lattice.specs.declared.limits.TheConstants.{MIN_BITS, MAX_BITS};
ghost use Rattle.cube_build.specs.declared.tables.TheConstants.{LEAST_BITS, SMALL_BITS};

use crate::guess::{Guess, Trust, guess_run};
use pla_reader::Pla;

/// A small table has 2^SMALL_BITS slots. The greater a table is, the longer it takes to make, and
/// the slower it is where it does not fit the processor's own memory.
pub const SMALL_BITS: u32 = 12;

/// A guess is followed to tables of 2^LEAST_BITS slots, and to no smaller ones.
const LEAST_BITS: u32 = 13;

/// A table of 2^TRIAL_BITS slots is filled in two milliseconds, and a run for which it does not
/// suffice may take one of 2^MANY_BITS: with this a process takes no more than four times the
/// memory that it takes with the least one that suffices.
const TRIAL_BITS: u32 = 14;

/// A table of 2^MIDDLE_BITS slots is made in less than a millisecond, and fits the memory of one
/// processor. Filled in vain, it takes little time beside a run that needs a greater one.
pub const MIDDLE_BITS: u32 = 16;

/// A process with a table of 2^LIGHT_BITS slots takes less than three times the memory of one with
/// the least table. So a run may begin with it, however few it needs.
pub const LIGHT_BITS: u32 = 17;

/// What is tried in vain on tables of 2^MANY_BITS slots still takes little beside a run that needs
/// more than 2^MOST_AT_ONCE.
const MANY_BITS: u32 = 18;

/// Tables of at most so many slots are made at once where a run may need them.
const MOST_AT_ONCE: u32 = 19;

/// Small tables that were full are followed by ones of 2^STEP_BITS times as many slots.
const STEP_BITS: u32 = 4;

/// Other tables are followed by ones of 2^NEAR_BITS times as many slots. More are needed than they
/// had, so twice as many: the next ones have at most four times what is needed.
const NEAR_BITS: u32 = 3;

/// What a run asks of its tables, from which their sizes are guessed.
#[derive(Clone, Copy)]
pub struct Demand<'a> {
    /// The description, of each output of which something is found.
    pub pla: &'a Pla,
    /// Whether bases are found, whose elements need the most nodes.
    pub is_basis: bool,
    /// How many nodes are needed beside those that the rows ask for.
    pub besides: u64,
}

impl Demand<'_> {
    /// The most nodes that the covers may have, and what is needed beside them: each row may add a
    /// node for each input to the cover of each output.
    fn count_most(&self) -> u64 {
        let pla = self.pla;
        let nodes = pla.rows.len() as u64 * (pla.inputs * pla.outputs) as u64;
        nodes.saturating_add(self.besides)
    }

    /// Whether all rows fit a small table with what is needed beside them.
    fn is_small(&self) -> bool {
        self.count_most() < 1 << SMALL_BITS
    }

    /// Whether the rows are few, but not small: they fit an eighth of a light table with what is
    /// needed beside them.
    fn has_few_rows(&self) -> bool {
        let most = self.count_most();
        1 << SMALL_BITS <= most && most <= 1 << (LIGHT_BITS - 3)
    }

    /// A guess at the nodes of the run.
    fn guess(&self) -> Guess {
        let guess = guess_run(self.pla, self.is_basis);
        Guess {
            nodes: guess.nodes.saturating_add(self.besides),
            ..guess
        }
    }

    /// The size of the tables that a run begins with whose last ones have 2^most slots: small ones
    /// where all rows fit them, and else those that suffice by a guess, or, where the guess may be
    /// far too great, light ones, or smaller ones that show that so many are needed.
    pub fn first_size(&self, most: u32) -> u32
        requires { MIN_BITS ≤ most }
        ensures within { (MIN_BITS ≤ result) × (result ≤ most) }
        ensures least { (SMALL_BITS ≤ result) ⊎ (result ≡ most) }
    {
        let bits = if self.is_small() {
            SMALL_BITS
        } else {
            self.first_guessed(self.guess(), most)
        };
        bits.min(most)
    }

    /// The size of the tables that a run begins with where nothing is guessed, and the last ones
    /// have 2^most slots: small ones where all rows fit them, and else ones of 2^MIDDLE_BITS.
    pub fn first_bits(&self, most: u32) -> u32
        requires { MIN_BITS ≤ most }
        ensures { (MIN_BITS ≤ result) × (result ≤ most) }
    {
        if self.is_small() {
            most.min(SMALL_BITS)
        } else {
            most.min(MIDDLE_BITS)
        }
    }

    /// Whether a run may well need a light table, and so begins with one: from few rows a guess of
    /// up to twice as many nodes is too great as easily as too small.
    fn may_be_light(&self, guess: Guess) -> bool {
        !self.is_basis
            && self.has_few_rows()
            && 1 << TRIAL_BITS < guess.nodes
            && guess.nodes <= 1 << MANY_BITS
    }

    /// The size of the tables that a guess begins with, where the last ones have 2^most slots: what
    /// suffices by it, if it is sure, and else none that have more than four times the memory that
    /// the run may need. Of cubes, which need fewer than are guessed as easily as more, half are
    /// tried, or a quarter.
    fn first_guessed(&self, guess: Guess, most: u32) -> u32
        ensures { LEAST_BITS ≤ result }
    {
        let bits = bits_of(guess.nodes);
        let enough = size_for(bits, most);
        let at_most = enough.min(most);
        match guess.trust {
            Trust::Sure => enough.max(bits),
            _ if self.may_be_light(guess) => LIGHT_BITS,
            // Where nearly all slots are needed, the last ones take long to find.
            Trust::Points if bits <= LIGHT_BITS => {
                let spare = guess.nodes / 16;
                bits_of(guess.nodes.saturating_add(spare)).clamp(LEAST_BITS, MIDDLE_BITS)
            }
            // Most of these runs fit 2^MIDDLE_BITS slots, or do not fit 2^MANY_BITS.
            Trust::Cubes if !self.is_basis && bits == MANY_BITS => MIDDLE_BITS,
            _ if MIDDLE_BITS < at_most && at_most <= MANY_BITS => TRIAL_BITS,
            _ if bits <= MIDDLE_BITS => (enough - 1).max(LEAST_BITS),
            _ => MIDDLE_BITS,
        }
    }

    /// The size of the tables that are tried after those of 2^bits slots, where the last ones have
    /// 2^most: a step more, or what suffices by the guess where that is more than a step. Where all
    /// rows fit small tables too little is known for that, unless the guess is sure.
    pub fn next_size(&self, bits: u32, most: u32) -> u32
        requires { (bits < most) × (most ≤ MAX_BITS) }
        ensures { (bits < result) × (result ≤ most) }
    {
        let guess = self.guess();
        let guessed = bits_of(guess.nodes);
        let step = next_bits(bits, most);
        let next = match guess.trust {
            Trust::Sure => step.max(guessed),
            _ if self.is_small() => step,
            // Points seldom need more than is guessed.
            Trust::Points if bits < guessed && guessed <= LIGHT_BITS => guessed,
            _ => step.max(size_for(guessed, most)),
        };
        next.min(most)
    }
}

/// The size of the tables that suffice for 2^bits nodes, where the last ones have 2^most slots.
fn size_for(bits: u32, most: u32) -> u32
    ensures { LEAST_BITS ≤ result }
{
    if bits <= MIDDLE_BITS {
        bits.max(LEAST_BITS)
    } else if bits <= MANY_BITS || MOST_AT_ONCE < bits && MOST_AT_ONCE < most {
        MANY_BITS
    } else {
        most.clamp(MIDDLE_BITS, MOST_AT_ONCE)
    }
}

/// The bits of the least table that suffices for so many nodes.
fn bits_of(nodes: u64) -> u32 {
    u64::BITS.saturating_sub(nodes.saturating_sub(1).leading_zeros())
}

/// The size of the tables that are tried after those of 2^bits slots, where nothing is guessed and
/// the last ones have 2^most: a step more.
pub fn next_bits(bits: u32, most: u32) -> u32
    requires { bits < most }
    ensures { (bits < result) × (result ≤ most) }
{
    let step = if bits <= SMALL_BITS {
        STEP_BITS
    } else {
        NEAR_BITS
    };
    bits + step.min(most - bits)
}
