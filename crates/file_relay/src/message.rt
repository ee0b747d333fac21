//! What the one thread sends the other.
use file_stream::Piece;

/// A message of the thread that reads.
#[derive(Drop)]
pub enum Message {
    /// A file, and its number in the stream.
    File { number: u64, file: Piece },
    /// No file follows.
    End,
}
