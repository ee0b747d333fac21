//! A file of a stream, byte by byte.
//!
//! A cutter has the bytes of the file so far, whether something stood on one of its lines, and a
//! short line that stands for the line that is being read. At a line feed that one says whether
//! the file ends. So a cutter takes at most the memory of one file, however long the stream and its
//! lines.
ghost use Rattle.std.specs.Prelude.{◌≡◌, ◌++◌, ◌∷◌, false, [], List, ℕ, IfOk, OnOk, OnErr};
ghost use Rattle.std.specs.Prelude.{MatchOption};
ghost use Rattle.file_stream.specs.Files.{files_of, IsFirstFile, IsPiece};
ghost use Rattle.file_stream.specs.Cutters.{IsAt, Keeps};

use crate::digest::Digest;
use lattice::Text;
use pla_reader::MOST_BYTES;
use std::alloc::{AllocError, Global};

/// A file of a stream.
#[derive(Drop)]
pub enum Piece {
    /// Its bytes.
    Kept(Text),
    /// It has more than `MOST_BYTES` bytes, which are not kept.
    Long,
}

/// The file of a stream that is being read. It takes the stream byte by byte, and keeps at most one
/// file and a few bytes of a line. Contracts name the bytes that it took since the last file ended.
#[derive(Drop)]
pub struct Cutter {
    alloc: Global,
    file: Vec<u8>,
    long: bool,
    said: bool,
    digest: Digest,
}

impl Cutter {
    /// A cutter that has taken nothing.
    pub fn new(alloc: Global) -> Cutter
        ensures { IsAt result [] }
    {
        Cutter {
            alloc,
            file: Vec::new(alloc),
            long: false,
            said: false,
            digest: Digest::new(),
        }
    }

    // Keeps the byte, unless the file is too long.
    #[tactic(auto, using(crate::proofs::Keeping::kept_more, crate::proofs::Keeping::long_more, crate::proofs::Keeping::full_more))]
    fn keep(&mut self, byte: u8) -> Result<(), AllocError>
        ensures kept { (text : List ℕ) → Keeps self.old.long self.old.file.items text
            → OnOk result (Keeps self.new.long self.new.file.items (text ++ byte ∷ [])) }
        ensures same { (self.new.said ≡ self.old.said) × (self.new.digest ≡ self.old.digest) }
        ensures refused { OnErr result ((self.new.long ≡ self.old.long)
            × (self.new.file.items ≡ self.old.file.items)) }
    {
        if self.long {
            return Ok(());
        }
        if self.file.len() == MOST_BYTES {
            self.long = true;
            self.file = Vec::new(self.alloc);
            return Ok(());
        }
        self.file.push(byte)?;
        Ok(())
    }

    /// Takes one more byte of the stream, and gives the file that this byte ends. Where the memory
    /// for the byte is refused, it is not taken.
    pub fn feed(&mut self, byte: u8) -> Result<Option<Piece>, AllocError>
        ensures fed { (file : List ℕ) → IsAt self.old file → IfOk result (λ o. MatchOption o
            (IsAt self.new (file ++ byte ∷ []))
            (λ p. IsPiece p (file ++ byte ∷ []) × IsFirstFile (file ++ byte ∷ [])
            × IsAt self.new [])) }
        ensures refused { (file : List ℕ) → IsAt self.old file
            → OnErr result (IsAt self.new file) }
    {
        self.keep(byte)?;
        if byte != b'\n' {
            self.digest.push(byte);
            return Ok(None);
        }
        let closes = self.digest.closes();
        let says = self.digest.says();
        self.said = self.said || says;
        self.digest = Digest::new();
        if !closes {
            return Ok(None);
        }
        Ok(Some(self.take_file()))
    }

    // The file so far. The next one begins.
    fn take_file(&mut self) -> Piece
        ensures piece { (text : List ℕ) → Keeps self.old.long self.old.file.items text
            → IsPiece result text }
        ensures next { Keeps self.new.long self.new.file.items [] }
        ensures same { self.new.digest ≡ self.old.digest }
        ensures silent { self.new.said ≡ false }
    {
        let file = std::mem::replace(&mut self.file, Vec::new(self.alloc));
        let piece = if self.long {
            Piece::Long
        } else {
            Piece::Kept(Text::from_vec(file))
        };
        self.long = false;
        self.said = false;
        piece
    }

    /// At the end of the stream: the file behind the last line that ended one, where something
    /// stands on one of its lines.
    pub fn finish(self) -> Option<Piece>
        ensures { (file : List ℕ) → IsAt self file → MatchOption result
            (files_of file ≡ [])
            (λ p. IsPiece p file × (files_of file ≡ file ∷ [])) }
    {
        let mut cutter = self;
        let says = cutter.digest.says();
        if cutter.said || says {
            Some(cutter.take_file())
        } else {
            None
        }
    }
}
