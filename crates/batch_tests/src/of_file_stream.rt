use file_stream::{Cutter, Piece, files_are_the_stream, worked_streams};
use pla_reader::MOST_BYTES;
use std::alloc::{AllocError, Global};
use std::test::Fail;

// The length of each file of the stream, which is longer than the limit where a file is too long.
fn lengths(alloc: Global, stream: &[u8]) -> Result<Vec<usize>, AllocError> {
    let mut lengths = Vec::new(alloc);
    let mut cutter = Cutter::new(alloc);
    for byte in stream {
        if let Some(piece) = cutter.feed(*byte)? {
            lengths.push(length_of(&piece))?;
        }
    }
    if let Some(piece) = cutter.finish() {
        lengths.push(length_of(&piece))?;
    }
    Ok(lengths)
}

fn length_of(piece: &Piece) -> usize {
    match piece {
        Piece::Kept(bytes) => bytes.len(),
        Piece::Long => MOST_BYTES + 1,
    }
}

#[test]
fn streams_are_cut(rt: HostRuntime) -> Result<(), Fail> {
    let alloc = rt.alloc();
    let streams: [(&[u8], &[usize]); 16] = [
        (b"", &[]),
        (b"\n \t\n# a comment\n\r\n", &[]),
        (b"\t # .e\n", &[]),
        (b"1 1\n.e\n", &[7]),
        (b"1 1\n.end\n0 0\n", &[9, 4]),
        (b"1 1\r\n.e\r\n0 0\r\n.end\r\n", &[9, 11]),
        (b" \t.e\n.e", &[5, 2]),
        (b".e # 1\n.end 2\n", &[7, 7]),
        (b".e#\n.ex\n.ended\nx .e\n# .e\n", &[25]),
        (b".e\r", &[3]),
        (b".e\r \n1", &[6]),
        (b".e\n\n\n", &[3]),
        (b".e\n\n\n.e\n", &[3, 5]),
        (b".e\n# x\n\r", &[3]),
        (b"aaaaaaaaaaaaaaaaaaaa .e\n.e\n", &[27]),
        (b"                    .end\n.e\n", &[25, 3]),
    ];
    for (stream, wanted) in streams {
        let found = lengths(alloc, stream).map_err(|_| "memory")?;
        assert_eq!(rt; found.as_slice(), wanted);
    }
    Ok(())
}

#[test]
fn laws_are_called(_rt: HostRuntime) -> Result<(), Fail> {
    files_are_the_stream();
    worked_streams();
    Ok(())
}
