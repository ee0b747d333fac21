//! The limits of descriptions and tables, and the widths of what is packed in a word.

/// The greatest number of variables.
pub const MAX_VARS: u32 = 62;

/// The least number of bits of a table, which has 2^bits slots.
pub const MIN_BITS: u32 = 4;

/// The greatest number of bits of a table.
pub const MAX_BITS: u32 = 23;

/// The least number of bits of a cache, which has 2^bits words, and as many as its table where
/// these are more.
pub const MIN_CACHE_BITS: u32 = 12;

/// The number of words that stand together in a line of a processor's cache. The places of a table
/// are counted in lines of so many.
pub const LINE: usize = 8;

/// What a word counts for one in its upper handle: a handle in a word is below it.
pub const HANDLE_UNIT: u64 = 1 << 24;

/// What a word counts for one in what stands above its two handles: the variable of a node, or the
/// number of an operation.
pub const TOP_UNIT: u64 = 1 << 48;

/// The number of bits of the key of a kept result.
pub const KEY_BITS: u32 = 52;

/// The factor of the mixing: the odd number next to 2^64 divided by the golden ratio.
pub const MIXING: u64 = 0x9E37_79B9_7F4A_7C15;

/// The factor that takes the mixing of a key back to the key: its product with `MIXING` is 1 modulo
/// 2^KEY_BITS.
pub const UNMIXING: u64 = 0x000E_83E1_9937_733D;
