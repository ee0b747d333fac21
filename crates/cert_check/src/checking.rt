//! Judging an answer.
ghost use Rattle.std.specs.Prelude.{not, ◌||◌, ◌∷◌, ◌≡◌, ◌+◌, ◌^◌, ◌<◌, ◌≤◌, ◌↔◌, ◌++◌, [], List};
ghost use Rattle.std.specs.Prelude.{ℕ, length, map, take, drop, MatchResult, IfOk, OnOk};
ghost use Rattle.std.specs.List.{All, list_any};
ghost use Rattle.lattice.specs.Family.{Family, IsFamily, divides, family_where, has, union_of};
ghost use Rattle.lattice.specs.declared.row.Row.{Row};
ghost use Rattle.lattice.specs.Rows.{care_zeros, care_ones};
ghost use Rattle.lattice.specs.WorkingLists.{care_set};
ghost use Rattle.pla_reader.specs.Reading.{description};
ghost use Rattle.cert_check.specs.Marks.{MarksAll, MarksCare, CountsDivisors};
ghost use Rattle.cert_check.specs.Right.{polynomial, IsOutputOver, IsAnswerFor, IsRight};
ghost use Rattle.cert_check.specs.Faults.{first_verdict, misses, is_one_in, greatest_of};
ghost use Rattle.cert_check.specs.Faults.{is_comparable, is_below_last, is_divided, miscounts};
ghost use Rattle.cert_check.specs.Faults.{element_checks, basis_checks, reduced_checks};
ghost use Rattle.cert_check.specs.Faults.{output_checks, checks_from, verdict_on};
ghost use Rattle.cert_check.specs.Parts.{Judges};

use crate::answer::{Given, GivenAnswer, GivenOutput};
use crate::care::{Care, care_of, marks_of_all};
use crate::counts::counts_of;
use crate::refusal::{CheckRefusal, Fault, Stop, Verdict};
use lattice::Mono;
use pla_reader::Pla;
use std::alloc::Global;

/// An answer is judged for so many inputs.
pub const MOST_INPUTS: u32 = 14;

/// Whether a polynomial with these counts is not 0 at a care point of value 0, or not 1 at one of
/// value 1.
fn misses(care: &[Care], counts: &[u16]) -> bool
    ensures { (n : ℕ) (zeros ones terms : Family) → MarksCare n zeros ones care.now
        → CountsDivisors n terms counts.now → result ≡ misses zeros ones terms }
{
    care.iter().zip(counts).any(|(point, count)| {
        if *count % 2 == 1 {
            point.zero
        } else {
            point.one
        }
    })
}

/// Whether a polynomial with these counts is 1 at a care point.
fn is_one_in(care: &[Care], counts: &[u16]) -> bool
    ensures { (n : ℕ) (zeros ones terms : Family) → MarksCare n zeros ones care.now
        → CountsDivisors n terms counts.now → result ≡ is_one_in (union_of n zeros ones) terms }
{
    care.iter().zip(counts).any(|(point, count)| *count % 2 == 1 && (point.zero || point.one))
}

/// The number of care points.
fn count_care(care: &[Care]) -> usize
    ensures { (n : ℕ) (zeros ones : Family) → MarksCare n zeros ones care.now
        → result ≡ length (union_of n zeros ones) }
{
    care.iter().filter(|point| point.zero || point.one).count()
}

/// The number of points that nothing divides.
fn count_free(counts: &[u16]) -> usize
    ensures { (n : ℕ) (tops : List ℕ) → CountsDivisors n (family_where n (has tops)) counts.now
        → result ≡ length (family_where n (λ m. not (is_divided tops m))) }
{
    counts.iter().filter(|count| **count == 0).count()
}

/// Whether the number of points that nothing divides differs from that of the care points.
#[tactic(auto, unfolding(crate::specs::Faults::miscounts))]
fn miscounts(care: &[Care], counts: &[u16]) -> bool
    ensures { (n : ℕ) (zeros ones : Family) (tops : List ℕ) → MarksCare n zeros ones care.now
        → CountsDivisors n (family_where n (has tops)) counts.now
        → result ≡ miscounts n (union_of n zeros ones) tops }
{
    count_free(counts) != count_care(care)
}

/// Whether one of the terms is divided, by the counts of what divides each.
fn is_reducible(counts: &[u16], terms: &[Mono]) -> bool
    requires { All (λ m. m < length counts.now) terms.now }
    ensures { (n : ℕ) (tops : List ℕ) → CountsDivisors n (family_where n (has tops)) counts.now
        → result ≡ list_any (is_divided tops) terms.now }
{
    terms.iter().any(|m| counts[m.0 as usize] != 0)
}

/// Whether the monomial divides one of the others, or is divided by it.
#[tactic(auto, unfolding(crate::specs::Faults::is_comparable))]
fn is_comparable(others: &[Mono], m: Mono) -> bool
    ensures { result ≡ is_comparable others.now m }
{
    others
        .iter()
        .any(|other| other.divides(m.0) || m.divides(other.0))
}

/// Whether the monomial is less than the last of the others.
fn is_below_last(others: &[Mono], m: Mono) -> bool
    ensures { result ≡ is_below_last others.now m }
{
    match others {
        [.., last] => m.0 < last.0,
        [] => false,
    }
}

/// Judges an element that follows those with these greatest monomials, and answers its own.
fn judge_element(
    alloc: Global,
    inputs: u32,
    care: &[Care],
    earlier: &[Mono],
    element: &Given,
) -> Result<Mono, Stop>
    requires few { inputs ≤ 14 }
    requires family { IsFamily inputs (polynomial element.now) }
    ensures top { IfOk result (λ top. take 1 element.now.terms ≡ top ∷ []) }
    ensures checks { (zeros ones : Family) → MarksCare inputs zeros ones care.now
        → Judges result (first_verdict
        (element_checks (union_of inputs zeros ones) earlier.now element.now)) }
{
    let terms = element.terms.as_slice();
    let counts = counts_of(alloc, inputs, terms)?;
    if is_one_in(care, &counts) {
        return Err(element.fault(Fault::NotZero));
    }
    let [top, ..] = terms else {
        return Err(element.fault(Fault::Leads));
    };
    if is_comparable(earlier, *top) {
        return Err(element.fault(Fault::Leads));
    }
    if is_below_last(earlier, *top) {
        return Err(element.fault(Fault::Order));
    }
    Ok(*top)
}

/// Judges the elements of a basis one by one, and answers their greatest monomials.
fn judge_elements(
    alloc: Global,
    inputs: u32,
    care: &[Care],
    elements: &[Given],
) -> Result<Vec<Mono>, Stop>
    requires few { inputs ≤ 14 }
    requires families { All (λ element. IsFamily inputs (polynomial element)) elements.now }
    ensures tops { IfOk result (λ tops. tops.items ≡ greatest_of elements.now) }
    ensures checks { (zeros ones : Family) → MarksCare inputs zeros ones care.now
        → Judges result (first_verdict
        (basis_checks (union_of inputs zeros ones) [] elements.now)) }
{
    let mut tops = Vec::new(alloc);
    for element in elements {
        let top = judge_element(alloc, inputs, care, &tops, element)?;
        tops.push(top)?;
    }
    Ok(tops)
}

/// The terms but the greatest.
fn tail_of(terms: &[Mono]) -> &[Mono]
    ensures { result.now ≡ drop 1 terms.now }
{
    match terms {
        [_, tail @ ..] => tail,
        [] => terms,
    }
}

/// Judges that no monomial is divided by a greatest one, but the greatest of each element by
/// itself.
#[tactic(auto, using(crate::proofs::RightAnswers::tail_below, crate::proofs::RightAnswers::tail_here, crate::proofs::RightAnswers::tails_fine), unfolding(crate::specs::Faults::first_verdict, crate::specs::Faults::reduced_checks))]
fn judge_reduced(counts: &[u16], given: &GivenOutput) -> Result<(), Stop>
    requires poly { All (λ m. m < length counts.now) given.now.poly.terms }
    requires basis { All (λ element. All (λ m. m < length counts.now) element.terms)
        given.now.basis }
    ensures { (n : ℕ) (tops : List ℕ) → CountsDivisors n (family_where n (has tops)) counts.now
        → Judges result (first_verdict (reduced_checks tops given.now)) }
{
    if is_reducible(counts, given.poly.terms.as_slice()) {
        return Err(given.poly.fault(Fault::Reducible));
    }
    for element in given.basis.as_slice() {
        if is_reducible(counts, tail_of(element.terms.as_slice())) {
            return Err(element.fault(Fault::Reducible));
        }
    }
    Ok(())
}

/// Judges what is given for an output with these care points.
fn judge_output(alloc: Global, inputs: u32, care: &[Care], given: &GivenOutput) -> Result<(), Stop>
    requires few { inputs ≤ 14 }
    requires over { IsOutputOver inputs given.now }
    ensures { (zeros ones : Family) → MarksCare inputs zeros ones care.now
        → Judges result (first_verdict
        (output_checks inputs zeros ones (union_of inputs zeros ones) given.now)) }
{
    let values = counts_of(alloc, inputs, given.poly.terms.as_slice())?;
    if misses(care, &values) {
        return Err(given.poly.fault(Fault::Value));
    }
    let tops = judge_elements(alloc, inputs, care, given.basis.as_slice())?;
    let counts = counts_of(alloc, inputs, &tops)?;
    if miscounts(care, &counts) {
        return Err(given.poly.fault(Fault::Count));
    }
    judge_reduced(&counts, given)
}

/// Judges all outputs in turn.
fn judge(alloc: Global, p: &Pla, answer: &[GivenOutput]) -> Result<(), Stop>
    requires few { p.now.inputs ≤ 14 }
    requires answer { IsAnswerFor (description p.now) answer.now }
    ensures { Judges result (verdict_on (description p.now) answer.now) }
{
    let marks = marks_of_all(alloc, p.inputs, p.rows.as_slice())?;
    let mut output = 0;
    for given in answer {
        output += 1;
        let care = care_of(alloc, p.kind, &marks, output)?;
        judge_output(alloc, p.inputs, &care, given)?;
    }
    Ok(())
}

/// Judges an answer: `Yes` where the polynomial of each output is least and its list is the reduced
/// basis of the care points, and else `No` with the first fault.
///
/// The outputs are looked at in order. For each of them these are the faults, in their order: a
/// value of the polynomial; of each element in turn a value, its greatest monomial beside those of
/// the earlier ones, and its order; the number of monomials that no greatest monomial divides; a
/// monomial of the polynomial, and then of each element, that can be reduced. `TooWide` comes where
/// there are more than 14 inputs.
pub fn check(alloc: Global, p: &Pla, a: &GivenAnswer) -> Result<Verdict, CheckRefusal>
    requires { IsAnswerFor (description p.now) a.now }
    ensures right { IfOk result (λ verdict. (verdict ≡ Verdict.Yes)
        ↔ IsRight (description p.now) a.now) }
    ensures first { IfOk result (λ verdict. verdict ≡ verdict_on (description p.now) a.now) }
    ensures wide { (result ≡ Err CheckRefusal.TooWide) ↔ (14 < p.now.inputs) }
{
    if p.inputs > MOST_INPUTS {
        return Err(CheckRefusal::TooWide);
    }
    match judge(alloc, p, a.as_slice()) {
        Ok(()) => Ok(Verdict::Yes),
        Err(Stop::Fault { line, why }) => Ok(Verdict::No { line, why }),
        Err(Stop::Memory) => Err(CheckRefusal::Memory),
    }
}
