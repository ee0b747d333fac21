//! A guess at how many nodes a run on a description needs.
ghost use Rattle.std.specs.Prelude.{◌<◌, ◌≤◌};

use lattice::{Kind, Row};
use pla_reader::Pla;

/// So many rows are compared with each other.
const SAMPLE: usize = 64;

/// So many words have a bit for each value that is told apart.
const VALUE_WORDS: usize = 128;

/// The polynomial of an output needs so many nodes for each node of its cover.
const NODES_OF_COVER: u64 = 4;

/// And so many where the rows are points whose values hardly repeat, as those of random functions,
/// or cubes of which no two meet.
const NODES_OF_MANY: u64 = 6;

/// Where points lie apart, all outputs together need so many nodes for each node of the cover of
/// the points, and each output as many again.
const NODES_APART: u64 = 2;

/// So many elements of a basis need as many nodes as a polynomial, as they share most of theirs.
const SHARING_ELEMENTS: u64 = 8;

/// Points lie apart where there are 2^APART_BITS times as many in all.
const APART_BITS: u32 = 6;

/// What a guess is made from, which tells how far it is followed.
#[derive(Clone, Copy)]
pub(crate) enum Trust {
    /// Points that lie apart share few nodes, so that it is hardly ever far too great.
    Sure,
    /// Points that may share many.
    Points,
    /// Of cubes, what they say may be short.
    Cubes,
}

/// A guess at the nodes of a run.
#[derive(Clone, Copy)]
pub(crate) struct Guess {
    /// So many nodes are needed.
    pub(crate) nodes: u64,
    pub(crate) trust: Trust,
}

/// What the rows say of one output, in the mean over all.
#[derive(Clone, Copy)]
struct Named {
    /// How many rows name the output.
    rows: u64,
    /// How many of them tell which points are its care points.
    care_rows: u64,
    /// Whether all outputs have the same care points, and with these the same basis.
    is_shared: bool,
}

/// The outputs that the row names.
fn outputs_of(row: &Row) -> u64 {
    row.on | row.off | row.dc
}

/// The outputs of which the row tells care points. In type f all points are care points, and in
/// type fd all but those of the rows that say don't care.
fn cared_by(kind: Kind, row: &Row) -> u64 {
    match kind {
        Kind::F => 0,
        Kind::Fd => row.dc,
        Kind::Fr | Kind::Fdr => outputs_of(row),
    }
}

/// What the rows say of one output.
fn count_named(pla: &Pla) -> Named {
    let every = u64::MAX >> (64 - pla.outputs);
    let mut named = 0u64;
    let mut cared = 0u64;
    let mut is_shared = true;
    for row in pla.rows.as_slice() {
        let care = cared_by(pla.kind, row);
        named = named.saturating_add(u64::from(outputs_of(row).count_ones()));
        cared = cared.saturating_add(u64::from(care.count_ones()));
        is_shared = is_shared && (care == 0 || care == every);
    }
    let outputs = u64::from(pla.outputs);
    Named {
        rows: named / outputs,
        care_rows: cared / outputs,
        is_shared,
    }
}

/// The outputs of which the row says what it says of this one, and those of which it says the
/// opposite. An output is a bit.
fn alike_in(row: &Row, output: u64) -> (u64, u64) {
    if row.on & output != 0 {
        (row.on, row.off)
    } else if row.off & output != 0 {
        (row.off, row.on)
    } else if row.dc & output != 0 {
        (row.dc, row.dc)
    } else {
        let unnamed = !outputs_of(row);
        (unnamed, unnamed)
    }
}

/// Whether all rows say of an output, before which there are so many, what they say of one of
/// these, or the opposite.
fn is_alike(pla: &Pla, before: u32) -> bool
    requires { before < 64 }
{
    let output = 1u64 << before;
    let mut same = output - 1;
    let mut opposite = output - 1;
    // (in a table of a function of numbers the first rows, of small ones, tell fewer apart)
    for row in pla.rows.as_slice().iter().rev() {
        if same | opposite == 0 {
            return false;
        }
        let (own, other) = alike_in(row, output);
        same &= own;
        opposite &= other;
    }
    same | opposite != 0
}

/// How many outputs there are of which the rows say neither the same nor the opposite. Two that are
/// alike share their cover, and all nodes of their polynomials but a few.
fn count_different(pla: &Pla) -> u32 {
    let mut different = 0u32;
    for before in 0..pla.outputs {
        different = different.saturating_add(u32::from(!is_alike(pla, before)));
    }
    different
}

/// How many nodes a tree of so many rows has at most, one for each of their fronts.
fn count_fronts(rows: u64, inputs: u32) -> u64
    requires { inputs ≤ 64 }
{
    let mut fronts = 0u64;
    for place in 0..inputs {
        fronts = fronts.saturating_add(rows.min(1 << place));
    }
    fronts
}

/// Whether a point is in both rows.
fn meet(a: &Row, b: &Row) -> bool {
    a.care & b.care & (a.value ^ b.value) == 0
}

/// Whether all points of the row are in the other one.
fn lies_in(row: &Row, other: &Row) -> bool {
    row.care & other.care == other.care && row.value & other.care == other.value
}

/// What the first rows say of all of them.
#[derive(Clone, Copy)]
struct First {
    /// How many they are.
    rows: u64,
    /// How many of them lie in none before them.
    apart: u64,
    /// How many pairs these are in that meet.
    pairs: u64,
}

/// What the first rows say.
fn look_at_first(pla: &Pla) -> First {
    let rows = &pla.rows.as_slice()[..pla.rows.len().min(SAMPLE)];
    let mut apart = 0u64;
    let mut pairs = 0u64;
    for (before, row) in rows.iter().enumerate() {
        if rows[..before].iter().any(|other| lies_in(row, other)) {
            continue;
        }
        apart = apart.saturating_add(1);
        for other in &rows[..before] {
            pairs = pairs.saturating_add(u64::from(meet(row, other)));
        }
    }
    First {
        rows: rows.len() as u64,
        apart,
        pairs,
    }
}

/// A guess at the nodes of the cover of one output that so many rows name, as the first rows have
/// it: one for each front of a row, one for each input of two rows that meet, and no more than
/// there are points. Where most rows lie in others, those that come later are taken to meet no new
/// ones.
fn guess_cover(pla: &Pla, first: First, named: u64) -> u64 {
    let all = pla.rows.len() as u64;
    let sample = first.rows.max(1);
    let rows = named.saturating_mul(first.apart) / sample;
    let pairs = if first.apart < sample / 2 {
        first.pairs
    } else {
        (first.pairs.saturating_mul(all) / sample).saturating_mul(all) / sample
    };
    let fronts = count_fronts(rows, pla.inputs);
    fronts
        .saturating_add(pairs.saturating_mul(u64::from(pla.inputs)))
        .min(1 << pla.inputs.min(32))
}

/// Whether each row fixes all inputs.
fn are_points(pla: &Pla) -> bool {
    let every = u64::MAX >> (64 - pla.inputs);
    pla.rows.as_slice().iter().all(|row| row.care == every)
}

/// Whether the rows are cubes of which no two meet, as the first ones have it.
fn are_scattered(pla: &Pla, first: First) -> bool {
    first.pairs == 0 && !are_points(pla)
}

/// Whether the rows are points of which few are next to each other.
fn lie_apart(pla: &Pla) -> bool {
    pla.rows.len() as u64 <= 1 << pla.inputs.saturating_sub(APART_BITS) && are_points(pla)
}

/// Which values were met of those that are told apart.
#[derive(Drop)]
struct Met([u64; VALUE_WORDS]);

impl Met {
    /// Marks a value as met; whether it was not before.
    fn add(&mut self, value: usize) -> bool {
        let place = value % (64 * VALUE_WORDS);
        let bit = 1u64 << (place % 64);
        let is_new = self.0[place / 64] & bit == 0;
        self.0[place / 64] |= bit;
        is_new
    }
}

/// Whether the rows are points, with half as many values as rows or more, by the first outputs.
fn has_many_values(pla: &Pla) -> bool {
    let mut met = Met([0; VALUE_WORDS]);
    let mut values = 0usize;
    for row in pla.rows.as_slice() {
        values = values.saturating_add(usize::from(met.add(row.on as usize)));
    }
    pla.rows.len() / 2 <= values && are_points(pla)
}

/// Whether the rows are the points of a function of the last inputs: these have each of their
/// values in just one row. Then the leads of a basis are the other inputs.
fn is_graph(pla: &Pla) -> bool {
    let count = pla.rows.len();
    if count > 64 * VALUE_WORDS || count & count.saturating_sub(1) != 0 {
        return false;
    }
    let mut met = Met([0; VALUE_WORDS]);
    for row in pla.rows.as_slice() {
        if !met.add(row.value as usize % count) {
            return false;
        }
    }
    are_points(pla)
}

/// A guess at the elements of a basis of which so many rows tell the care points: one for each
/// point of a row, but for a graph.
fn guess_elements(pla: &Pla, care_rows: u64) -> u64 {
    if is_graph(pla) {
        u64::from(pla.inputs.saturating_sub(pla.rows.len().trailing_zeros()))
    } else {
        care_rows
    }
}

/// How many polynomials need as many nodes as so many elements of a basis. Where points lie apart,
/// the elements share more of their nodes the more there are: what they need grows with the root of
/// their number.
fn count_shares(elements: u64, are_apart: bool) -> u64 {
    let shares = elements.div_ceil(SHARING_ELEMENTS);
    if are_apart {
        shares.min(elements.saturating_add(elements / 2).isqrt())
    } else {
        shares
    }
}

/// A guess at the nodes of a run that finds the polynomials of all outputs, and their bases too, if
/// these are asked for.
pub(crate) fn guess_run(pla: &Pla, is_basis: bool) -> Guess {
    let named = count_named(pla);
    let first = look_at_first(pla);
    let cover = guess_cover(pla, first, named.rows);
    let outputs = u64::from(count_different(pla));
    let are_apart = lie_apart(pla);
    let polynomials = if are_apart {
        NODES_APART * (outputs + 1)
    } else if has_many_values(pla) || are_scattered(pla, first) {
        NODES_OF_MANY * outputs
    } else {
        NODES_OF_COVER * outputs
    };
    let shares = if is_basis {
        let bases = if named.is_shared { 1 } else { outputs };
        let elements = guess_elements(pla, named.care_rows);
        count_shares(elements, are_apart).saturating_mul(bases)
    } else {
        0
    };
    let covers = shares
        .saturating_mul(NODES_OF_COVER)
        .saturating_add(polynomials);
    Guess {
        nodes: cover.saturating_mul(covers),
        trust: if are_apart && !is_graph(pla) {
            Trust::Sure
        } else if are_points(pla) {
            Trust::Points
        } else {
            Trust::Cubes
        },
    }
}
