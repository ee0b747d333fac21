//! Zeros from which a vacant table is made, without an allocation of their own where they are few.
ghost use Rattle.std.specs.Prelude.{◌≡◌, ◌<◌, ◌≤◌, replicate, length, take};

/// As many words as a table of 2^19 slots with its kept results has.
const MOST_ZEROS: usize = 1 << 20;

static ZEROS: [u64; MOST_ZEROS] = [0; MOST_ZEROS];

// The first of the words.
fn front(words: &'static [u64], count: usize) -> &'static [u64]
    requires { count ≤ length words.now }
    ensures { result.now ≡ take count words.now }
{
    &words[..count]
}

// So many zeros, where the static has them.
fn zeros(count: usize) -> &'static [u64]
    requires { count ≤ MOST_ZEROS }
    ensures { result.now ≡ replicate count 0 }
{
    front(&ZEROS, count)
}

/// How many zeros the caller is to bring along: none where the static has enough.
pub(crate) fn spare_count(count: usize) -> usize
    ensures { MOST_ZEROS < count → result ≡ count }
{
    if count <= MOST_ZEROS { 0 } else { count }
}

/// So many zeros, which are those of `spare` where the static has not enough.
pub(crate) fn zeros_or<'a>(spare: &'a [u64], count: usize) -> &'a [u64]
    requires { MOST_ZEROS < count → spare.now ≡ replicate count 0 }
    ensures { result.now ≡ replicate count 0 }
{
    if count <= MOST_ZEROS {
        zeros(count)
    } else {
        spare
    }
}
