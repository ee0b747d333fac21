//! How many workers run the lists of jobs of a run.
ghost use Rattle.std.specs.Prelude.{◌≤◌};
ghost use Rattle.cli_words.specs.CommandLine.{IsWithin};

use cli_words::Job;
use cube_build::{LIGHT_BITS, MIDDLE_BITS, SMALL_BITS};
use lattice::Mode;
use pla_reader::Pla;

/// On a table that is not great a worker has so many elements of bases at the least, since fewer
/// take little longer than a thread takes to start.
const ELEMENTS_EACH: usize = 8;

/// How many workers run each list of jobs on one table: the covers of the outputs' sets, the tasks
/// of phase 1, and those of phase 2, the elements of bases.
#[derive(Clone, Copy)]
pub(crate) struct Workers {
    pub covers: u32,
    pub first: u32,
    second: u32,
    is_great: bool,
    ghost some: { (1 ≤ covers) × (1 ≤ first) × (1 ≤ second) },
    ghost few: { (covers ≤ 16) × (first ≤ 16) × (second ≤ 16) },
}

impl Workers {
    /// The workers on a table of 2^bits slots: on a great one as many as the job asks for. What a
    /// worker found on a table that fits the memory of its processor takes another one longer to
    /// fetch than to find, and the whole run takes little beside the start of a few threads. So on
    /// the others each list has one, but for the polynomials where they are the last list, which
    /// have two at most, and for elements on tables that are not small. A light table is great if
    /// it is the last one of the run, which else begins there however few nodes it needs.
    pub(crate) fn on(job: &Job, pla: &Pla, bits: u32) -> Workers
        requires { IsWithin job.now }
    {
        let great_bits = if job.nodes == LIGHT_BITS {
            MIDDLE_BITS
        } else {
            LIGHT_BITS
        };
        if great_bits < bits {
            return Workers {
                covers: job.workers,
                first: job.workers,
                second: job.workers,
                is_great: true,
            };
        }
        let is_small = bits <= SMALL_BITS;
        // Two that share one polynomial cost up to a tenth of the run where it is not the shortest.
        let most = if is_small { 2 } else { pla.outputs.min(2) };
        let first = match job.mode {
            Mode::Basis => 1,
            Mode::Anf | Mode::Check | Mode::Gen => job.workers.min(most),
        };
        Workers {
            covers: 1,
            first,
            second: if is_small { 1 } else { job.workers },
            is_great: false,
        }
    }

    /// The workers of phase 2, for so many elements.
    pub(crate) fn for_elements(&self, count: usize) -> u32
        ensures { (1 ≤ result) × (result ≤ 16) }
    {
        if self.is_great {
            self.second
        } else {
            self.second.min((count / ELEMENTS_EACH).clamp(1, 16) as u32)
        }
    }
}
