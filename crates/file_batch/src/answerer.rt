//! What answers a file.
use file_stream::Piece;
use lattice::{Memory, Pages};
use std::alloc::Global;

/// The answer to a file: a status, and the texts that follow the first line of its block.
#[derive(Drop)]
pub struct FileAnswer {
    pub status: u8,
    pub pages: Pages,
}

/// What answers each file of a stream by itself.
pub trait Answerer {
    ghost use Rattle.std.specs.Prelude.{ℕ, List, IfOk};
    ghost use Rattle.file_stream.specs.Files.{IsPiece};

    /// Whether it can answer: what its type cannot say of what it works with, as that threads may
    /// share it.
    ghost ready: { Self → Type 0 };

    /// Whether the file may be answered by this status and these texts.
    ghost answers: { Self → List ℕ → ℕ → List (List ℕ) → Type 0 };

    /// The answer to the file.
    fn answer(&self, alloc: Global, file: &Piece) -> Result<FileAnswer, Memory>
        requires ready { ready self.now }
        ensures { (bytes : List ℕ) → IsPiece file.now bytes
            → IfOk result (λ a. answers self.now bytes a.status a.pages) };
}
