//! The factors of a monomial: the names of its variables, each behind a sign.
//!
//! Neighbouring terms of a polynomial mostly begin with the same variables, so the factors of a
//! term are made from those of the one before it, of which the common ones stay.
ghost use Rattle.std.specs.Prelude.{◌≡◌, ◌≢◌, ◌++◌, ◌∷◌, ◌^◌, ◌<◌, OnOk, length};
ghost use Rattle.anf_printer.specs.Text.{variables_of, factors_text};

use lattice::Name;
use std::alloc::AllocError;

/// The name of the first variable of the monomial `m`, and `m` without this variable.
fn first_variable(names: &[Name], m: u64) -> (&[u8], u64)
    requires some { m ≢ 0 }
    requires below { m < 2 ^ length names.now }
    ensures first { variables_of names.now m ≡ result.0.now ∷ variables_of names.now result.1 }
    ensures less { result.1 < m }
{
    let behind = m.ilog2();
    let name = &names[names.len() - 1 - behind as usize];
    (name.as_slice(), m - (1 << behind))
}

/// Puts the factors of the monomial `m` at the end of the text.
#[tactic(auto, using(crate::proofs::Places::factor_rules))]
fn push_factors(text: &mut Vec<u8>, names: &[Name], m: u64) -> Result<(), AllocError>
    requires { m < 2 ^ length names.now }
    ensures { OnOk result (text.new.items ≡ text.old.items ++ factors_text names.now m) }
{
    let mut rest = m;
    while rest != 0 {
        let (name, others) = first_variable(names, rest);
        text.push(b'*')?;
        text.extend_from_slice(name)?;
        rest = others;
    }
    Ok(())
}

/// The number of bytes of the factors of the monomial `m`.
#[tactic(auto, using(crate::proofs::Places::factor_rules))]
fn factors_len(names: &[Name], m: u64) -> usize
    requires below { m < 2 ^ length names.now }
    requires fits { length (factors_text names.now m) < 2 ^ 64 }
    ensures { result ≡ length (factors_text names.now m) }
{
    let mut len = 0;
    let mut rest = m;
    while rest != 0 {
        let (name, others) = first_variable(names, rest);
        len += 1 + name.len();
        rest = others;
    }
    len
}

/// Makes the factors of the monomial `from` those of the monomial `to`. Those that both begin with
/// stay in place.
pub(crate) fn change_factors(
    text: &mut Vec<u8>,
    names: &[Name],
    from: u64,
    to: u64,
) -> Result<(), AllocError>
    requires from { from < 2 ^ length names.now }
    requires to { to < 2 ^ length names.now }
    requires text { text.old.items ≡ factors_text names.now from }
    ensures { OnOk result (text.new.items ≡ factors_text names.now to) }
{
    if from == to {
        return Ok(());
    }
    // The bits from the first one at which they differ on.
    let mask = u64::MAX >> (63 - (from ^ to).ilog2());
    text.truncate(text.len() - factors_len(names, from & mask));
    push_factors(text, names, to & mask)
}
