use file_batch::{Answerer, BatchStop, FileAnswer, write_alone, write_batch};
use file_stream::Piece;
use lattice::{Memory, Pages, Text};
use outside::{Failed, Gate, MemSink, MemSource, Rendezvous, Sink, Source};
use std::alloc::Global;
use std::test::Fail;

// It answers each file by itself.
struct Echo;

impl Answerer for Echo {
    ghost use Rattle.std.specs.Prelude.{⊤};

    ghost ready = { λ echo. ⊤ };

    ghost answers = { λ echo file status pages. ⊤ };

    fn answer(&self, alloc: Global, file: &Piece) -> Result<FileAnswer, Memory> {
        let mut pages = Pages::new(alloc);
        match file {
            Piece::Kept(bytes) => {
                pages.push(Text::from_vec(bytes.as_slice().to_vec(alloc)?))?;
                Ok(FileAnswer { status: 0, pages })
            }
            Piece::Long => Ok(FileAnswer { status: 10, pages }),
        }
    }
}

#[test]
fn blocks_are_written_in_order(rt: HostRuntime) -> Result<(), Fail> {
    let alloc = rt.alloc();
    let stream = b"1 1\n.e\n.end\n.e\n\n0 0\n.e\n# x\nlast";
    let wanted: &[u8] =
        b"file 1 0\n1 1\n.e\nfile 2 0\n.end\nfile 3 0\n.e\nfile 4 0\n\n0 0\n.e\nfile 5 0\n# x\nlast";
    let mut source = MemSource::make(alloc, stream, 5, &[]).map_err(|_| "memory")?;
    let mut out = MemSink::make(alloc, 200, 7, &[]).map_err(|_| "memory")?;
    assert!(rt; write_batch(&rt, alloc, &Echo, &mut source, &mut out).is_ok());
    assert_eq!(rt; out.bytes(), wanted);
    Ok(())
}

#[test]
fn one_thread_writes_the_same(rt: HostRuntime) -> Result<(), Fail> {
    let alloc = rt.alloc();
    let streams: [&[u8]; 5] = [
        b"",
        b"\n# none\n",
        b"1\n.e",
        b"1\r\n.end\r\n2",
        b".e\n.e\n.e\n.e\n.e\n.e\n \t\n",
    ];
    for stream in streams {
        let mut source = MemSource::make(alloc, stream, 4, &[]).map_err(|_| "memory")?;
        let mut one = MemSink::make(alloc, 200, 3, &[]).map_err(|_| "memory")?;
        assert!(rt; write_alone(alloc, &Echo, &mut source, &mut one).is_ok());
        let mut source = MemSource::make(alloc, stream, 4, &[]).map_err(|_| "memory")?;
        let mut two = MemSink::make(alloc, 200, 3, &[]).map_err(|_| "memory")?;
        assert!(rt; write_batch(&rt, alloc, &Echo, &mut source, &mut two).is_ok());
        assert_eq!(rt; one.bytes(), two.bytes());
    }
    Ok(())
}

#[test]
fn faults_stop_one_thread(rt: HostRuntime) -> Result<(), Fail> {
    let alloc = rt.alloc();
    let mut source = MemSource::make(alloc, b".e\n.e\n.e\n", 4, &[2]).map_err(|_| "memory")?;
    let mut out = MemSink::make(alloc, 200, 100, &[]).map_err(|_| "memory")?;
    let result = write_alone(alloc, &Echo, &mut source, &mut out);
    assert!(rt; result == Err(BatchStop::ReadFault));
    assert_eq!(rt; out.bytes(), b"file 1 0\n.e\n".as_slice());
    let mut source = MemSource::make(alloc, b".e\n.e\n.e\n", 4, &[]).map_err(|_| "memory")?;
    let mut out = MemSink::make(alloc, 200, 100, &[3]).map_err(|_| "memory")?;
    let result = write_alone(alloc, &Echo, &mut source, &mut out);
    assert!(rt; result == Err(BatchStop::WriteFault));
    assert_eq!(rt; out.bytes(), b"file 1 0\n.e\n".as_slice());
    Ok(())
}

#[test]
fn nothing_is_written_of_an_empty_stream(rt: HostRuntime) -> Result<(), Fail> {
    let alloc = rt.alloc();
    let mut source = MemSource::make(alloc, b"", 5, &[]).map_err(|_| "memory")?;
    let mut out = MemSink::make(alloc, 0, 7, &[]).map_err(|_| "memory")?;
    assert!(rt; write_batch(&rt, alloc, &Echo, &mut source, &mut out).is_ok());
    Ok(())
}

#[test]
fn faults_stop_a_batch(rt: HostRuntime) -> Result<(), Fail> {
    let alloc = rt.alloc();
    let stream = b".e\n.e\n.e\n.e\n.e\n.e\n.e\n.e\n.e\n.e\n.e\n.e\n";
    let mut source = MemSource::make(alloc, stream, 6, &[3]).map_err(|_| "memory")?;
    let mut out = MemSink::make(alloc, 200, 100, &[]).map_err(|_| "memory")?;
    let result = write_batch(&rt, alloc, &Echo, &mut source, &mut out);
    assert!(rt; result == Err(BatchStop::ReadFault));
    assert_eq!(rt; out.bytes().len(), 4 * 12);
    let mut source = MemSource::make(alloc, stream, 6, &[]).map_err(|_| "memory")?;
    let mut out = MemSink::make(alloc, 200, 100, &[4]).map_err(|_| "memory")?;
    let result = write_batch(&rt, alloc, &Echo, &mut source, &mut out);
    assert!(rt; result == Err(BatchStop::WriteFault));
    assert_eq!(rt; out.bytes(), b"file 1 0\n.e\nfile 2 0\n".as_slice());
    Ok(())
}

// How often each looks for the other at most: for some ten seconds, as a thread may begin late on a
// machine that has other work.
const LOOKS: u64 = 10_000_000_000;

// It gives two files, and waits before it gives the second.
#[derive(Drop)]
struct Giver<'a> {
    gate: &'a Rendezvous,
    reads: u32,
}

impl<'a> Source for Giver<'a> {
    ghost use Rattle.std.specs.Prelude.{None};

    ghost left = { λ s. None };

    ghost faults = { λ s. 0 };

    fn read(&mut self, buf: &mut [u8]) -> Result<usize, Failed> {
        self.reads = self.reads.saturating_add(1);
        if self.reads > 2 {
            return Ok(0);
        }
        if self.reads == 2 {
            self.gate.enter(1);
        }
        let count = buf.len().min(3);
        buf[..count].copy_from_slice(&b".e\n"[..count]);
        Ok(count)
    }
}

// It waits at the first write.
#[derive(Drop)]
struct Taker<'a> {
    gate: &'a Rendezvous,
    writes: u32,
}

impl<'a> Sink for Taker<'a> {
    ghost use Rattle.std.specs.Prelude.{None};

    ghost held = { λ s. None };

    ghost faults = { λ s. 0 };

    fn write(&mut self, piece: &[u8]) -> Result<usize, Failed> {
        self.writes = self.writes.saturating_add(1);
        if self.writes == 1 {
            self.gate.enter(0);
        }
        Ok(piece.len())
    }
}

#[test]
fn one_file_is_answered_while_the_next_is_read(rt: HostRuntime) -> Result<(), Fail> {
    let gate = Rendezvous::waiting(LOOKS);
    let mut source = Giver {
        gate: &gate,
        reads: 0,
    };
    let mut out = Taker {
        gate: &gate,
        writes: 0,
    };
    assert!(rt; write_batch(&rt, rt.alloc(), &Echo, &mut source, &mut out).is_ok());
    assert_eq!(rt; out.writes, 4);
    assert!(rt; gate.met());
    Ok(())
}
