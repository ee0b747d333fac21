ghost use Rattle.std.specs.Prelude.{◌≡◌, IfOk};

use outside::{
    Failed, Gate, MemSink, MemSource, OpenGate, ReadStop, Rendezvous, Sink, Source, StdSink,
    StdSource, SureSink, SureSource, read_up_to, write_whole,
};
use std::io::{Error, ErrorKind, Read, Result as IoResult, Write};
use std::process::Abort;
use std::test::Fail;
use std::thread::join;

// Reads once, into a buffer with room.
fn expect_read<S: Source>(
    rt: &impl Abort,
    source: &mut S,
    buf: &mut [u8],
    wanted: Result<usize, Failed>,
) {
    assert!(rt; !buf.is_empty());
    assert_eq!(rt; source.read(buf), wanted);
}

// Writes all of the bytes, or as many as the sink takes.
fn expect_written<K: Sink>(
    rt: &impl Abort,
    sink: &mut K,
    bytes: &[u8],
    wanted: Result<(), Failed>,
) {
    assert_eq!(rt; write_whole(sink, bytes), wanted);
}

// Compares what was read or written.
fn expect_bytes(rt: &impl Abort, found: &[u8], wanted: &[u8]) {
    assert_eq!(rt; found, wanted);
}

#[test]
fn reads_in_steps(rt: HostRuntime) -> Result<(), Fail> {
    let alloc = rt.alloc();
    let mut source = MemSource::make(alloc, b"0123456789", 4, &[2]).map_err(|_| "memory")?;
    let mut buf = [0; 8];
    expect_read(&rt, &mut source, &mut buf, Ok(4));
    expect_read(&rt, &mut source, &mut buf, Err(Failed));
    expect_read(&rt, &mut source, &mut buf[..3], Ok(3));
    expect_read(&rt, &mut source, &mut buf, Ok(3));
    expect_bytes(&rt, &buf[..3], b"789");
    expect_read(&rt, &mut source, &mut buf, Ok(0));
    Ok(())
}

#[test]
fn reads_whole(rt: HostRuntime) -> Result<(), Fail> {
    let alloc = rt.alloc();
    let mut sure = SureSource::new(b"0123456789");
    let bytes = read_up_to(alloc, &mut sure, 6).map_err(|_| "memory")?;
    expect_bytes(&rt, &bytes, b"012345");
    let mut source = MemSource::make(alloc, b"0123456789", 4, &[3]).map_err(|_| "memory")?;
    assert!(rt; read_up_to(alloc, &mut source, 100).err() == Some(ReadStop::Fault));
    Ok(())
}

#[test]
fn writes_whole(rt: HostRuntime) -> Result<(), Fail> {
    let alloc = rt.alloc();
    let mut sink = MemSink::make(alloc, 100, 4, &[2]).map_err(|_| "memory")?;
    expect_written(&rt, &mut sink, b"f1 = x2", Err(Failed));
    expect_bytes(&rt, sink.bytes(), b"f1 =");
    expect_written(&rt, &mut sink, b" x2", Ok(()));
    expect_bytes(&rt, sink.bytes(), b"f1 = x2");
    let mut small = MemSink::make(alloc, 3, 4, &[]).map_err(|_| "memory")?;
    expect_written(&rt, &mut small, b"f1 = x2", Err(Failed));
    expect_bytes(&rt, small.bytes(), b"f1 ");
    expect_written(&rt, &mut SureSink::new(), b"f1 = x2", Ok(()));
    Ok(())
}

// It interrupts so many calls, and then gives or takes one byte per call, up to `left`.
#[derive(Drop)]
struct Flaky {
    interrupts: u32,
    left: u32,
}

impl Flaky {
    fn turn(&mut self) -> IoResult<usize>
        ensures one { IfOk result (λ n. n ≡ 1) }
    {
        if self.interrupts > 0 {
            self.interrupts -= 1;
            return Err(Error::from(ErrorKind::Interrupted));
        }
        if self.left == 0 {
            return Err(Error::from(ErrorKind::BrokenPipe));
        }
        self.left -= 1;
        Ok(1)
    }
}

impl Read for Flaky {
    fn read(&mut self, buf: &mut [u8]) -> IoResult<usize> {
        if buf.is_empty() {
            return Ok(0);
        }
        self.turn()
    }
}

impl Write for Flaky {
    fn write(&mut self, buf: &[u8]) -> IoResult<usize> {
        if buf.is_empty() {
            return Ok(0);
        }
        self.turn()
    }

    fn flush(&mut self) -> IoResult<()> {
        Ok(())
    }
}

#[test]
fn reads_from_std(rt: HostRuntime) {
    let mut buf = [0; 8];
    let mut source = StdSource::new(Flaky {
        interrupts: 1000,
        left: 1,
    });
    expect_read(&rt, &mut source, &mut buf, Ok(1));
    expect_read(&rt, &mut source, &mut buf, Err(Failed));
    let mut source = StdSource::new(Flaky {
        interrupts: 1001,
        left: 1,
    });
    expect_read(&rt, &mut source, &mut buf, Err(Failed));
}

#[test]
fn writes_to_std(rt: HostRuntime) {
    let mut sink = StdSink::new(Flaky {
        interrupts: 1000,
        left: 2,
    });
    expect_written(&rt, &mut sink, b"ab", Ok(()));
    expect_written(&rt, &mut sink, b"c", Err(Failed));
    let mut sink = StdSink::new(Flaky {
        interrupts: 1001,
        left: 1,
    });
    expect_written(&rt, &mut sink, b"a", Err(Failed));
}

// Takes what may go to another thread.
fn carried<T: Send + Drop>(_value: T) {}

#[test]
fn sources_go_between_threads(rt: HostRuntime) -> Result<(), Fail> {
    let alloc = rt.alloc();
    carried(MemSource::make(alloc, b"0", 4, &[]).map_err(|_| "memory")?);
    carried(MemSink::make(alloc, 1, 4, &[]).map_err(|_| "memory")?);
    carried(StdSource::new(Flaky {
        interrupts: 0,
        left: 0,
    }));
    carried(StdSink::new(Flaky {
        interrupts: 0,
        left: 0,
    }));
    Ok(())
}

// A writer that takes nothing, and one whose flush fails.
#[derive(Drop)]
struct Stuck {
    takes: bool,
}

impl Write for Stuck {
    fn write(&mut self, buf: &[u8]) -> IoResult<usize> {
        if self.takes && !buf.is_empty() {
            Ok(1)
        } else {
            Ok(0)
        }
    }

    fn flush(&mut self) -> IoResult<()> {
        Err(Error::from(ErrorKind::BrokenPipe))
    }
}

#[test]
fn stuck_writers_fail(rt: HostRuntime) {
    for takes in [false, true] {
        let mut sink = StdSink::new(Stuck { takes });
        expect_written(&rt, &mut sink, b"a", Err(Failed));
    }
}

// A pipe that was read to its end: it gives its bytes, then none once, and a read after that fails.
#[derive(Drop)]
struct Pipe {
    left: usize,
    ended: bool,
}

impl Read for Pipe {
    fn read(&mut self, buf: &mut [u8]) -> IoResult<usize> {
        if self.ended {
            return Err(Error::from(ErrorKind::BrokenPipe));
        }
        let given = self.left.min(buf.len());
        self.left -= given;
        self.ended = given == 0;
        Ok(given)
    }
}

#[test]
fn a_pipe_is_read_to_its_end_and_not_again(rt: HostRuntime) -> Result<(), Fail> {
    for (left, most, want) in [
        (0, 4, 0),
        (5000, 10000, 5000),
        (5000, 5000, 5000),
        (5000, 10, 10),
    ] {
        let mut source = StdSource::new(Pipe { left, ended: false });
        let bytes = read_up_to(rt.alloc(), &mut source, most).map_err(|_| "fault")?;
        assert_eq!(rt; bytes.len(), want);
    }
    Ok(())
}

// Two branches meet, and one thread that runs one branch after the other does not, however often it
// comes.
#[test]
fn branches_meet(rt: HostRuntime) {
    let gate = Rendezvous::waiting(10_000_000_000);
    join(&rt, || gate.enter(0), || gate.enter(1));
    assert!(rt; gate.met());
    let alone = Rendezvous::waiting(10);
    for _ in 0..2 {
        alone.enter(0);
        alone.enter(1);
    }
    assert!(rt; !alone.met());
}

#[test]
fn open_gates_do_nothing(rt: HostRuntime) {
    OpenGate::new().enter(0);
    let gate = Rendezvous::open();
    gate.enter(0);
    gate.enter(1);
    assert!(rt; !gate.met());
}
