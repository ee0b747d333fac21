use super::{ADDER, FIRST_INPUTS, SUMS, meeting_rows, words_of};
use interp_run::run;
use outside::{MemSink, MemSource, Rendezvous};
use std::test::Fail;
use steal_pool::Stealing;

// Runs with workers that steal jobs from each other write what all others write.
#[test]
fn stolen_jobs(rt: HostRuntime) -> Result<(), Fail> {
    let alloc = rt.alloc();
    let generated = "points 256\nf1 8\nf2 7\n";
    let meeting = meeting_rows(alloc)?;
    for (line, text, answer) in [
        ("steal anf --workers 8", ADDER, SUMS),
        (
            "steal anf --nodes 17 --workers 8",
            meeting.as_str(),
            FIRST_INPUTS,
        ),
        ("steal gen --seed 0 --workers 1", "", generated),
        ("steal gen --seed 0 --workers 8", "", generated),
    ] {
        let words = words_of(alloc, line)?;
        let mut source = MemSource::make(alloc, text.as_bytes(), 4, &[]).map_err(|_| "memory")?;
        let mut out = MemSink::make(alloc, 400, 4, &[]).map_err(|_| "memory")?;
        let mut err = MemSink::make(alloc, 200, 7, &[]).map_err(|_| "memory")?;
        let status = run(
            &rt,
            alloc,
            &words,
            &mut source,
            &mut out,
            &mut err,
            &mut Stealing::new(),
            &Rendezvous::open(),
            &mut Vec::new(alloc),
        );
        assert_eq!(rt; status, 0, "{line}");
        assert_eq!(rt; out.bytes(), answer.as_bytes(), "{line}");
        assert_eq!(rt; err.bytes(), b"".as_slice(), "{line}");
    }
    Ok(())
}
