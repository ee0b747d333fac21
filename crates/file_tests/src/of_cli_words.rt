use cli_words::{Job, WordsRefusal, read_words};
use lattice::{Mode, Words};
use std::alloc::Global;
use std::test::Fail;

// The job that a line of words is to ask for.
#[derive(Clone, Copy)]
struct Wanted {
    mode: Mode,
    workers: u32,
    nodes: u32,
    terms: u64,
    seed: u64,
    order: Option<&'static str>,
}

impl Wanted {
    fn is(&self, job: &Job) -> bool {
        let same_order = match (&job.order, self.order) {
            (Some(text), Some(order)) => text.as_slice() == order.as_bytes(),
            (None, None) => true,
            _ => false,
        };
        job.mode == self.mode
            && job.workers == self.workers
            && job.nodes == self.nodes
            && job.terms == self.terms
            && job.seed == self.seed
            && same_order
    }
}

static PLAIN: Wanted = Wanted {
    mode: Mode::Anf,
    workers: 1,
    nodes: 19,
    terms: 1_000_000,
    seed: 0,
    order: None,
};

fn read(alloc: Global, line: &str) -> Result<Result<Job, WordsRefusal>, Fail> {
    let mut words = Words::new(alloc);
    for word in line.split(' ') {
        words.push(word).map_err(|_| "memory")?;
    }
    Ok(read_words(alloc, &words))
}

#[test]
fn words_that_are_taken(rt: HostRuntime) -> Result<(), Fail> {
    let plain = PLAIN;
    let eight = Wanted {
        workers: 8,
        ..plain
    };
    let large = Wanted { nodes: 23, ..plain };
    let basis = Wanted {
        mode: Mode::Basis,
        ..plain
    };
    let check = Wanted {
        mode: Mode::Check,
        ..plain
    };
    let generated = Wanted {
        mode: Mode::Gen,
        seed: 12_345,
        ..plain
    };
    let each = Wanted {
        mode: Mode::Basis,
        workers: 16,
        nodes: 4,
        terms: 1,
        seed: 18_446_744_073_709_551_615,
        order: Some("b,a"),
    };
    let rows = [
        ("interp anf", plain),
        (" anf", plain),
        ("interp -- anf", plain),
        ("interp anf --", plain),
        ("interp basis", basis),
        ("interp check", check),
        ("interp gen --seed 12345", generated),
        ("interp anf --nodes 23", large),
        ("interp anf --workers 8", eight),
        ("interp anf --workers=8", eight),
        ("interp --workers 8 anf", eight),
        ("interp --workers 8 -- anf", eight),
        ("interp anf --workers 08", eight),
        ("interp anf --workers 0000000000000000000000000008", eight),
        ("interp anf --workers +8", eight),
        (
            "interp --terms 1 basis --seed 18446744073709551615 --order b,a --nodes=4 --workers 16",
            each,
        ),
    ];
    for (line, wanted) in rows.iter() {
        let job = read(rt.alloc(), *line)?.map_err(|_| "refused")?;
        assert!(rt; wanted.is(&job), "{line}");
    }
    Ok(())
}

// The value of the order is any text.
#[test]
fn orders(rt: HostRuntime) -> Result<(), Fail> {
    let rows: &[(&str, &str)] = &[
        ("interp anf --order x2,x1", "x2,x1"),
        ("interp anf --order=x2,x1", "x2,x1"),
        ("interp --order anf anf", "anf"),
        ("interp anf --order ,,", ",,"),
        ("interp anf --order=", ""),
        ("interp anf --order=--nodes", "--nodes"),
    ];
    for (line, order) in rows {
        let wanted = Wanted {
            order: Some(*order),
            ..PLAIN
        };
        let job = read(rt.alloc(), *line)?.map_err(|_| "refused")?;
        assert!(rt; wanted.is(&job), "{line}");
    }
    Ok(())
}

#[test]
fn words_that_are_refused(rt: HostRuntime) -> Result<(), Fail> {
    let lines: &[&str] = &[
        "interp",
        "",
        "interp ANF",
        "interp an",
        "interp chec",
        "interp generate",
        "interp anf basis",
        "interp anf --nodes 3",
        "interp anf --nodes 24",
        "interp anf --workers 0",
        "interp anf --workers 17",
        "interp anf --workers -1",
        "interp anf --workers=-1",
        "interp anf --workers=",
        "interp anf --workers",
        "interp anf --workers 4 --workers 4",
        "interp anf --work 4",
        "interp anf -w 4",
        "interp anf -workers 4",
        "interp anf --terms 0",
        "interp anf --terms 1000001",
        "interp anf --terms 0x10",
        "interp anf --seed 18446744073709551616",
        "interp anf --order",
        "interp anf --order a,b --order a,b",
        "interp anf --ord a,b",
        "interp anf --order --nodes 4",
        "interp -h",
        "interp --help",
        "interp anf --help",
        "interp help",
        "interp --version",
        "interp -V",
        "interp anf -",
        "interp anf ",
        "interp -- --workers 8 anf",
    ];
    for line in lines {
        let refusal = read(rt.alloc(), *line)?.err();
        assert_eq!(rt; refusal, Some(WordsRefusal::Usage), "{line}");
    }
    Ok(())
}

#[test]
fn no_words_at_all(rt: HostRuntime) {
    let words = Words::new(rt.alloc());
    let refusal = read_words(rt.alloc(), &words).err();
    assert_eq!(rt; refusal, Some(WordsRefusal::Usage));
}
