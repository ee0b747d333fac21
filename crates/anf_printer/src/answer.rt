//! The text of the answer.
ghost use Rattle.std.specs.Prelude.{◌≡◌, ◌⊎◌, ◌++◌, IfOk, OnOk, All, [], if◌then◌else◌, length};
ghost use Rattle.std.specs.Prelude.{map, reverse, codes};
ghost use Rattle.std.specs.List.{flat_map};
ghost use Rattle.lattice.specs.Family.{IsFamily};
ghost use Rattle.lattice.specs.WorkingLists.{is_basis};
ghost use Rattle.anf_printer.specs.Text.{line, output_text, texts_of, answer_texts, shown_answer};
ghost use Rattle.anf_printer.specs.Text.{IsAnswerOver};

use crate::lines::push_line;
use lattice::{Memory, Mode, MonoLists, Monos, Name, Pages, Text};
use pla_reader::{Pla, names_in_place, printed};
use std::alloc::{AllocError, Global};

/// What is printed of an output: its polynomial, and the elements of its basis. Each is given from
/// its greatest monomial to its least.
#[derive(Drop)]
pub struct Shown {
    pub poly: Monos,
    pub basis: MonoLists,
}

/// Puts the lines of the basis elements at the end of the text.
fn push_elements(text: &mut Vec<u8>, names: &[Name], elements: &[Monos]) -> Result<(), AllocError>
    requires { All (IsFamily (length names.now)) (map reverse elements.now) }
    ensures { OnOk result (text.new.items ≡ text.old.items ++ flat_map (line names.now (codes "0"))
        (map reverse elements.now)) }
{
    for terms in elements {
        push_line(text, names, b"0", terms.as_slice())?;
    }
    Ok(())
}

/// Puts the lines of the basis, where the mode has them, at the end of the text.
fn push_basis(
    text: &mut Vec<u8>,
    mode: Mode,
    names: &[Name],
    elements: &[Monos],
) -> Result<(), AllocError>
    requires { All (IsFamily (length names.now)) (map reverse elements.now) }
    ensures { OnOk result (text.new.items ≡ text.old.items ++ flat_map (line names.now (codes "0"))
        (if is_basis mode then map reverse elements.now else [])) }
{
    match mode {
        Mode::Basis => push_elements(text, names, elements),
        Mode::Anf | Mode::Check | Mode::Gen => Ok(()),
    }
}

/// The text of the output of this name.
#[tactic(auto, unfolding(crate::specs::Text::output_text))]
fn output_text(
    alloc: Global,
    mode: Mode,
    names: &[Name],
    name: &[u8],
    shown: &Shown,
) -> Result<Text, Memory>
    requires { IsAnswerOver (length names.now) (shown_answer shown.now) }
    ensures { IfOk result (λ text. text
        ≡ output_text mode names.now name.now (shown_answer shown.now)) }
{
    let mut text = Vec::new(alloc);
    push_line(&mut text, names, name, shown.poly.as_slice())?;
    push_basis(&mut text, mode, names, shown.basis.as_slice())?;
    Ok(Text::from_vec(text))
}

/// The texts of the outputs of these names.
fn texts_of(
    alloc: Global,
    mode: Mode,
    names: &[Name],
    outputs: &[Name],
    shown: &[Shown],
) -> Result<Pages, Memory>
    requires count { length shown.now ≡ length outputs.now }
    requires families { All (λ s. IsAnswerOver (length names.now) (shown_answer s)) shown.now }
    ensures { IfOk result (λ pages. pages
        ≡ texts_of mode names.now outputs.now (map shown_answer shown.now)) }
{
    let mut pages = Pages::new(alloc);
    for (name, output) in outputs.iter().zip(shown) {
        pages.push(output_text(alloc, mode, names, name.as_slice(), output)?)?;
    }
    Ok(pages)
}

/// The answer's text: one text for each output of `p`, with its line and, in mode basis, the lines
/// of its basis elements.
///
/// `shown` has an entry for each output, in order. The mode is anf or basis.
pub fn answer_text(alloc: Global, p: &Pla, mode: Mode, shown: &[Shown]) -> Result<Pages, Memory>
    requires mode { (mode ≡ Mode.Anf) ⊎ (mode ≡ Mode.Basis) }
    requires count { length shown.now ≡ p.now.outputs }
    requires families { All (λ s. IsAnswerOver p.now.inputs (shown_answer s)) shown.now }
    ensures { IfOk result (λ pages. pages ≡ answer_texts p.now mode (map shown_answer shown.now)) }
{
    let for_inputs = names_in_place(alloc, "x", p.inputs, &p.in_names)?;
    let inputs = printed(&for_inputs, &p.in_names);
    let for_outputs = names_in_place(alloc, "f", p.outputs, &p.out_names)?;
    let outputs = printed(&for_outputs, &p.out_names);
    texts_of(alloc, mode, inputs, outputs, shown)
}
