//! Why a description was not read.
ghost use Rattle.std.specs.Prelude.{◌≡◌};
ghost use Rattle.pla_reader.specs.declared.refusal.LineRefusal.TheVariants.{Bad, Memory};
ghost use Rattle.pla_reader.specs.Causes.{why_name};
ghost use Rattle.pla_reader.specs.Parts.{read_refusal, text_refusal};
ghost use Rattle.pla_reader.specs.declared.refusal.TextRefusal.TheVariants as whole;

use std::alloc::{AllocError, AllocFailed};

/// What is wrong with a line, or with the description as a whole.
#[derive(Clone, Copy, Debug, PartialEq, Eq)]
pub enum Why {
    /// A byte outside comments is neither a tab nor printable ASCII.
    BadByte,
    /// A size is not one argument of digits.
    BadNumber,
    /// The number of inputs is not from 1 to 62, or that of outputs not from 1 to 64.
    SizeRange,
    /// A size, the type or a list of names was given before.
    Twice,
    /// The type comes after a row.
    TypeLate,
    /// The type is not one of the words `f`, `fd`, `fr` and `fdr`.
    BadType,
    /// Names come before both sizes.
    NamesEarly,
    /// There are more or fewer names than inputs or outputs.
    NameCount,
    /// The type or the command is known and is not supported.
    Unsupported,
    /// A row comes before both sizes.
    RowBeforeSize,
    /// A row has more or fewer symbols than there are inputs and outputs.
    RowLength,
    /// A symbol of a row is none that may stand in its place.
    BadSymbol,
    /// There are more than 8,192 rows.
    TooManyRows,
    /// The description ends without both sizes.
    NoSize,
}

impl Why {
    /// The name of the cause, by which a line of the status tells of it.
    pub fn name(self) -> &'static str
        ensures { result.now ≡ why_name self }
    {
        match self {
            Why::BadByte => "BadByte",
            Why::BadNumber => "BadNumber",
            Why::SizeRange => "SizeRange",
            Why::Twice => "Twice",
            Why::TypeLate => "TypeLate",
            Why::BadType => "BadType",
            Why::NamesEarly => "NamesEarly",
            Why::NameCount => "NameCount",
            Why::Unsupported => "Unsupported",
            Why::RowBeforeSize => "RowBeforeSize",
            Why::RowLength => "RowLength",
            Why::BadSymbol => "BadSymbol",
            Why::TooManyRows => "TooManyRows",
            Why::NoSize => "NoSize",
        }
    }
}

/// The first bad line of a description, counted from 1, and the first check that it fails.
///
/// For `NoSize` it is the line of the command that ended the description, else the number of lines.
#[derive(Clone, Copy, Debug, PartialEq, Eq)]
pub struct Refusal {
    pub line: u32,
    pub why: Why,
}

/// Why a description was not read: it is refused, or there was no memory.
#[derive(Clone, Copy, Debug, PartialEq, Eq)]
pub enum ReadRefusal {
    Bad(Refusal),
    Memory,
}

/// Why a line was not read: it has this fault, or there was no memory.
#[derive(Clone, Copy)]
pub enum LineRefusal<W: Copy> {
    Bad(W),
    Memory,
}

/// Why a text was not read that stands behind a description or answers one: its first bad line,
/// counted from 1, and the first check that it fails; or there was no memory.
#[derive(Clone, Copy, Debug, PartialEq, Eq)]
pub enum TextRefusal<W: Copy> {
    Bad { line: u32, why: W },
    Memory,
}

impl ReadRefusal {
    /// The refusal of the line of this number.
    pub fn of_line(refusal: LineRefusal<Why>, line: u32) -> ReadRefusal
        ensures { result ≡ read_refusal refusal line }
    {
        match refusal {
            LineRefusal::Bad(why) => ReadRefusal::Bad(Refusal { line, why }),
            LineRefusal::Memory => ReadRefusal::Memory,
        }
    }
}

impl<W: Copy> TextRefusal<W> {
    /// The refusal of the line of this number.
    pub fn of_line(refusal: LineRefusal<W>, line: u32) -> TextRefusal<W>
        ensures { result ≡ text_refusal refusal line }
    {
        match refusal {
            LineRefusal::Bad(why) => TextRefusal::Bad { line, why },
            LineRefusal::Memory => TextRefusal::Memory,
        }
    }
}

impl<W: Copy> From<lattice::Memory> for TextRefusal<W> {
    ghost from_gives = { λ _ e. e ≡ whole.Memory };

    fn from(_e: lattice::Memory) -> TextRefusal<W> {
        TextRefusal::Memory
    }
}

impl From<Why> for LineRefusal<Why> {
    ghost from_gives = { λ why e. e ≡ Bad why };

    fn from(why: Why) -> LineRefusal<Why> {
        LineRefusal::Bad(why)
    }
}

impl<W: Copy> From<AllocError> for LineRefusal<W> {
    ghost from_gives = { λ _ e. e ≡ Memory };

    fn from(_e: AllocError) -> LineRefusal<W> {
        LineRefusal::Memory
    }
}

impl<W: Copy, T: Drop> From<AllocFailed<T>> for LineRefusal<W> {
    ghost from_gives = { λ _ e. e ≡ Memory };

    fn from(_e: AllocFailed<T>) -> LineRefusal<W> {
        LineRefusal::Memory
    }
}

impl<W: Copy> From<lattice::Memory> for LineRefusal<W> {
    ghost from_gives = { λ _ e. e ≡ Memory };

    fn from(_e: lattice::Memory) -> LineRefusal<W> {
        LineRefusal::Memory
    }
}
