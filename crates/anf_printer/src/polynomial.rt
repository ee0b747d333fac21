//! The text of a polynomial.
ghost use Rattle.std.specs.Prelude.{◌≡◌, ◌++◌, ◌^◌, ◌<◌, IfOk, OnOk, All, length};
ghost use Rattle.std.specs.Prelude.{reverse, codes};
ghost use Rattle.std.specs.List.{flat_map};
ghost use Rattle.lattice.specs.Family.{IsFamily};
ghost use Rattle.pla_reader.specs.PrintedNames.{input_names};
ghost use Rattle.anf_printer.specs.Text.{factors_text, product_text, monomial_text};
ghost use Rattle.anf_printer.specs.Text.{polynomial_text};

use crate::factors::change_factors;
use lattice::{Memory, Mono, Name, Text};
use pla_reader::{Pla, names_in_place, printed};
use std::alloc::{AllocError, Global};

/// Puts the product of the factors at the end of the text: 1 where there are none.
#[tactic(auto, using(crate::proofs::Places::product_rules))]
fn push_product(text: &mut Vec<u8>, factors: &[u8]) -> Result<(), AllocError>
    ensures { OnOk result (text.new.items ≡ text.old.items ++ product_text factors.now) }
{
    match factors {
        [] => text.push(b'1')?,
        [_, product @ ..] => text.extend_from_slice(product)?,
    }
    Ok(())
}

/// Puts a term at the end of the text. The factors of the one before it are made its own.
fn push_term(
    text: &mut Vec<u8>,
    names: &[Name],
    factors: &mut Vec<u8>,
    last: Mono,
    term: Mono,
) -> Result<(), AllocError>
    requires last { last < 2 ^ length names.now }
    requires term { term < 2 ^ length names.now }
    requires factors { factors.old.items ≡ factors_text names.now last }
    ensures factors { OnOk result (factors.new.items ≡ factors_text names.now term) }
    ensures text { OnOk result (text.new.items ≡ text.old.items ++ monomial_text names.now term) }
{
    change_factors(factors, names, last.0, term.0)?;
    push_product(text, factors)
}

/// Puts terms at the end of the text, with signs between them.
#[tactic(auto, using(crate::proofs::Places::factors_none))]
fn push_terms(
    text: &mut Vec<u8>,
    names: &[Name],
    first: Mono,
    others: &[Mono],
) -> Result<(), AllocError>
    requires first { first < 2 ^ length names.now }
    requires others { All (λ m. m < 2 ^ length names.now) others.now }
    ensures { OnOk result (text.new.items ≡ text.old.items ++ monomial_text names.now first
        ++ flat_map (λ m. codes " + " ++ monomial_text names.now m) others.now) }
{
    let mut factors = Vec::new(*text.allocator());
    push_term(text, names, &mut factors, Mono(0), first)?;
    let mut last = first;
    for term in others {
        text.extend_from_slice(b" + ")?;
        push_term(text, names, &mut factors, last, *term)?;
        last = *term;
    }
    Ok(())
}

/// Puts the polynomial, whose terms are given from the greatest to the least, at the end of the
/// text.
pub(crate) fn push_polynomial(
    text: &mut Vec<u8>,
    names: &[Name],
    terms: &[Mono],
) -> Result<(), AllocError>
    requires { IsFamily (length names.now) (reverse terms.now) }
    ensures { OnOk result (text.new.items
        ≡ text.old.items ++ polynomial_text names.now (reverse terms.now)) }
{
    match terms {
        [] => text.push(b'0')?,
        [first, rest @ ..] => push_terms(text, names, *first, rest)?,
    }
    Ok(())
}

/// The text of a polynomial, with the names of the inputs of `p` that are printed. The terms are
/// given from the greatest to the least, and lie below 2^inputs.
pub fn poly_text(alloc: Global, p: &Pla, terms: &[Mono]) -> Result<Text, Memory>
    requires { IsFamily p.now.inputs (reverse terms.now) }
    ensures { IfOk result (λ text. text ≡ polynomial_text (input_names p.now) (reverse terms.now)) }
{
    let in_place = names_in_place(alloc, "x", p.inputs, &p.in_names)?;
    let names = printed(&in_place, &p.in_names);
    let mut text = Vec::new(alloc);
    push_polynomial(&mut text, names, terms)?;
    Ok(Text::from_vec(text))
}
