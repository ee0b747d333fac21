//! What is printed, from its diagrams.
ghost use Rattle.std.specs.Prelude.{◌≡◌, ◌<◌, ◌≤◌, IfOk, IsErrOf, OnOk, length, map, sum_by};
ghost use Rattle.std.specs.List.{All};
ghost use Rattle.anf_printer.specs.Text.{shown_answer};
ghost use Rattle.interp_run.specs.Phases.{KnowsOutput, answer_in, by_output, second_terms};

use anf_printer::Shown;
use lattice::Monos;
use node_store::{Handle, Store};
use set_algebra::{WalkRefusal, lists_of, terms_of};
use std::alloc::Global;

/// What is printed of each output, where no more than `limit` terms are printed: its polynomial,
/// and of the elements as many as it has leads.
pub(crate) fn list_shown<S: Store>(
    alloc: Global,
    store: &mut S,
    polynomials: &[Handle],
    leads: &[Monos],
    elements: &[Handle],
    limit: u64,
) -> Result<Vec<Shown>, WalkRefusal>
    requires polynomials { length leads.now ≤ length polynomials.now }
    requires elements { length elements.now ≡ sum_by length leads.now }
    requires known { All (KnowsOutput (S.state store.old))
        (by_output leads.now polynomials.now elements.now) }
    ensures shown { IfOk result (λ shown. map shown_answer shown.items
        ≡ map (answer_in (S.state store.old))
        (by_output leads.now polynomials.now elements.now)) }
    ensures within { OnOk result (second_terms (S.state store.old)
        (by_output leads.now polynomials.now elements.now) ≤ limit) }
    ensures terms { IsErrOf result WalkRefusal.Over → limit < second_terms (S.state store.old)
        (by_output leads.now polynomials.now elements.now) }
{
    let mut left = limit;
    let mut rest = elements;
    let mut shown = Vec::new(alloc);
    for index in 0..leads.len() {
        let (basis, others) = rest.split_at(leads[index].len());
        shown.push(Shown {
            poly: terms_of(alloc, store, polynomials[index], &mut left)?,
            basis: lists_of(alloc, store, basis, &mut left)?,
        })?;
        rest = others;
    }
    Ok(shown)
}
