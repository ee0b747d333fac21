/// What a pass did: it met the slot of a handle with its word, it asked for a word and got its
/// handle, or it asked for a word and the table was full.
#[derive(Clone, Copy, PartialEq, Eq, Debug)]
pub enum Entry {
    Met { handle: u64, word: u64 },
    Ask { handle: u64, word: u64 },
    Full { word: u64 },
}
