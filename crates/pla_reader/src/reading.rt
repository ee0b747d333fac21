//! Reading a description from bytes.
ghost use Rattle.std.specs.Prelude.{◌≡◌, ◌<◌, ◌≤◌, ◌^◌, [], length, IfOk, MatchResult};
ghost use Rattle.pla_reader.specs.Reading.{description_lines, first_fault, reading_of, bytes_taken};
ghost use Rattle.pla_reader.specs.Reading.{GivesReading};
ghost use Rattle.pla_reader.specs.Parts.{Refuses};
ghost use Rattle.pla_reader.specs.Draft.{AllRead};

use crate::draft::Draft;
use crate::lines::{content, split_line};
use crate::pla::Pla;
use crate::refusal::{ReadRefusal, Refusal, Why};
use lattice::{Kind, Names};
use std::alloc::Global;

/// The most bytes of a description that a program takes.
pub const MOST_BYTES: usize = 4_194_304;

/// The lines of a description, all read.
#[derive(Drop)]
struct Lines {
    draft: Draft,
    count: u32,
    taken: usize,
}

/// Reads the lines of the description.
fn read_lines(alloc: Global, bytes: &[u8]) -> Result<Lines, ReadRefusal>
    requires { length bytes.now < 2 ^ 32 }
    ensures { MatchResult result (λ lines. AllRead bytes.now lines.draft lines.count lines.taken)
        (λ e. Refuses e (first_fault [] (description_lines bytes.now))) }
{
    let mut draft = Draft::new(alloc);
    let mut count = 0;
    let mut rest = bytes;
    while !rest.is_empty() {
        let (line, after) = split_line(rest);
        count += 1;
        rest = after;
        match draft.add_line(alloc, count, content(line)) {
            Ok(false) => {}
            Ok(true) => {
                return Ok(Lines {
                    draft,
                    count,
                    taken: bytes.len() - rest.len(),
                });
            }
            Err(refusal) => return Err(ReadRefusal::of_line(refusal, count)),
        }
    }
    Ok(Lines {
        draft,
        count,
        taken: bytes.len(),
    })
}

/// Reads the description that the bytes begin with: the file, and the number of bytes that it
/// takes.
///
/// These are the bytes up to and with the line `.e` or `.end`, or all bytes where there is none.
/// `Bad` has the first bad line and the first check that it fails.
pub fn read(alloc: Global, bytes: &[u8]) -> Result<(Pla, usize), ReadRefusal>
    requires { length bytes.now < 2 ^ 32 }
    ensures reading { GivesReading result (reading_of bytes.now) }
    ensures taken { IfOk result (λ answer. answer.1 ≡ bytes_taken bytes.now) }
    ensures within { IfOk result (λ answer. answer.1 ≤ length bytes.now) }
{
    let Lines {
        draft,
        count,
        taken,
    } = read_lines(alloc, bytes)?;
    let Some((inputs, outputs)) = draft.sizes() else {
        return Err(ReadRefusal::Bad(Refusal {
            line: count,
            why: Why::NoSize,
        }));
    };
    let pla = Pla {
        inputs,
        outputs,
        kind: draft.kind.unwrap_or(Kind::Fd),
        rows: draft.rows,
        in_names: draft.in_names.unwrap_or(Names::new(alloc)),
        out_names: draft.out_names.unwrap_or(Names::new(alloc)),
    };
    Ok((pla, taken))
}
