use circuit_words::{CircuitJob, CircuitMode, read_circuit_words};
use cli_words::WordsRefusal;
use lattice::{Text, Words};
use std::alloc::Global;
use std::test::Fail;

// The job that a line of words is to ask for.
#[derive(Clone, Copy)]
struct Wanted {
    mode: CircuitMode,
    nodes: u32,
    terms: u64,
    order: Option<&'static str>,
    care: Option<&'static str>,
    invert: Option<&'static str>,
}

impl Wanted {
    fn is(&self, job: &CircuitJob) -> bool {
        job.mode == self.mode
            && job.nodes == self.nodes
            && job.terms == self.terms
            && is_text(&job.order, self.order)
            && is_text(&job.care, self.care)
            && is_text(&job.invert, self.invert)
    }
}

fn is_text(given: &Option<Text>, wanted: Option<&str>) -> bool {
    match (given, wanted) {
        (Some(text), Some(wanted)) => text.as_slice() == wanted.as_bytes(),
        (None, None) => true,
        _ => false,
    }
}

static PLAIN: Wanted = Wanted {
    mode: CircuitMode::Anf,
    nodes: 19,
    terms: 1_000_000,
    order: None,
    care: None,
    invert: None,
};

fn read(alloc: Global, line: &str) -> Result<Result<CircuitJob, WordsRefusal>, Fail> {
    let mut words = Words::new(alloc);
    for word in line.split(' ') {
        words.push(word).map_err(|_| "memory")?;
    }
    Ok(read_circuit_words(alloc, &words))
}

#[test]
fn words_that_are_taken(rt: HostRuntime) -> Result<(), Fail> {
    let plain = PLAIN;
    let basis = Wanted {
        mode: CircuitMode::Basis,
        ..plain
    };
    let equal = Wanted {
        mode: CircuitMode::Equal,
        ..plain
    };
    let count = Wanted {
        mode: CircuitMode::Count,
        ..plain
    };
    let seven = Wanted { nodes: 7, ..plain };
    let few = Wanted { terms: 1, ..plain };
    let each = Wanted {
        mode: CircuitMode::Count,
        nodes: 23,
        terms: 5,
        order: Some("b,a"),
        care: Some("f1"),
        invert: Some("a"),
    };
    let rows = [
        ("circuit anf", plain),
        ("circuit basis", basis),
        ("circuit count", count),
        ("circuit equal", equal),
        (" count", count),
        ("circuit -- basis", basis),
        ("circuit anf --nodes=7", seven),
        ("circuit anf --nodes 7", seven),
        ("circuit --nodes 7 anf", seven),
        ("circuit --nodes +07 -- anf", seven),
        ("circuit anf --terms 1", few),
        ("circuit anf --terms 1000000 --nodes 19", plain),
        (
            "circuit --invert a --terms=5 count --care f1 --nodes 23 --order=b,a",
            each,
        ),
    ];
    for (line, wanted) in rows.iter() {
        let job = read(rt.alloc(), *line)?.map_err(|_| "refused")?;
        assert!(rt; wanted.is(&job), "{line}");
    }
    Ok(())
}

// The values of the order, of the care and of the inverted inputs are any texts.
#[test]
fn texts(rt: HostRuntime) -> Result<(), Fail> {
    let ordered = |text| Wanted {
        order: Some(text),
        ..PLAIN
    };
    let careful = |text| Wanted {
        care: Some(text),
        ..PLAIN
    };
    let inverted = |text| Wanted {
        invert: Some(text),
        ..PLAIN
    };
    let rows = [
        ("circuit anf --order x2,x1", ordered("x2,x1")),
        ("circuit anf --order=--care", ordered("--care")),
        ("circuit anf --care anf", careful("anf")),
        ("circuit --care count anf", careful("count")),
        ("circuit anf --care=", careful("")),
        ("circuit anf --invert ,,", inverted(",,")),
        ("circuit anf --invert=x1=x2", inverted("x1=x2")),
    ];
    for (line, wanted) in rows.iter() {
        let job = read(rt.alloc(), *line)?.map_err(|_| "refused")?;
        assert!(rt; wanted.is(&job), "{line}");
    }
    Ok(())
}

#[test]
fn words_that_are_refused(rt: HostRuntime) -> Result<(), Fail> {
    let lines: &[&str] = &[
        "circuit",
        "",
        "circuit ANF",
        "circuit coun",
        "circuit check",
        "circuit gen",
        "circuit anf count",
        "circuit anf --nodes 3",
        "circuit anf --nodes 24",
        "circuit anf --nodes=-7",
        "circuit anf --nodes",
        "circuit anf --nodes=",
        "circuit anf --nodes 7 --nodes 7",
        "circuit anf --terms 0",
        "circuit anf --terms 1000001",
        "circuit anf --terms 1e3",
        "circuit anf --order",
        "circuit anf --order --nodes 7",
        "circuit anf --care",
        "circuit anf --care f --care=f",
        "circuit anf --cares f",
        "circuit anf --invert",
        "circuit anf --invert a --invert b",
        "circuit anf --inv a",
        "circuit anf --workers 1",
        "circuit anf --seed 0",
        "circuit anf -n 7",
        "circuit -h",
        "circuit --help",
        "circuit help",
        "circuit --version",
        "circuit anf -",
        "circuit anf ",
        "circuit -- --nodes 7 anf",
    ];
    for line in lines {
        let refusal = read(rt.alloc(), *line)?.err();
        assert_eq!(rt; refusal, Some(WordsRefusal::Usage), "{line}");
    }
    Ok(())
}

#[test]
fn no_words_at_all(rt: HostRuntime) {
    let words = Words::new(rt.alloc());
    let refusal = read_circuit_words(rt.alloc(), &words).err();
    assert_eq!(rt; refusal, Some(WordsRefusal::Usage));
}
