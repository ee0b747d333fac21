//! Numbers, literals and gates at the front of bytes.
ghost use Rattle.std.specs.Prelude.{◌≡◌, ◌+◌, ◌*◌, ◌<◌, ◌≤◌, ◌^◌, length, true, min, take, IfOk};
ghost use Rattle.std.specs.List.{list_all};
ghost use Rattle.std.specs.Char.{is_ascii_digit};
ghost use Rattle.std.specs.Str.Parse.{digits_value};
ghost use Rattle.aig_reader.specs.declared.refusal.Stop.TheVariants.{Bad};
ghost use Rattle.aig_reader.specs.Fields.{Gives, count_digits, behind, number_at, literal_at};
ghost use Rattle.aig_reader.specs.Fields.{output_at, difference_at, operand_at, gate_at};

use crate::circuit::Gate;
use crate::refusal::{Fault, Stop, Why};

/// What each number is below.
const NUMBER_BOUND: u64 = 1_000_000_000;

/// The fault at the front of the bytes.
pub fn fault_at(bytes: &[u8], why: Why) -> Stop
    ensures { result ≡ Bad (record { left = length bytes.now; why = why }) }
{
    Stop::Bad(Fault {
        left: bytes.len(),
        why,
    })
}

/// The bytes behind this one, which must come first.
#[tactic(auto, unfolding(crate::specs::Fields::behind))]
pub fn behind(byte: u8, bytes: &[u8]) -> Result<&[u8], Stop>
    ensures { Gives (λ rest. rest.now) result (behind byte bytes.now) }
{
    match bytes {
        [] => Err(fault_at(bytes, Why::Truncated)),
        [first, rest @ ..] if *first == byte => Ok(rest),
        _ => Err(fault_at(bytes, Why::BadByte)),
    }
}

/// The number of digits at the front.
fn count_digits(bytes: &[u8]) -> usize
    ensures count { result ≡ count_digits bytes.now }
    ensures within { result ≤ length bytes.now }
{
    bytes
        .iter()
        .position(|byte| !byte.is_ascii_digit())
        .unwrap_or(bytes.len())
}

/// The number that the digits write, or the cap where it is more.
fn value_of(digits: &[u8]) -> u64
    requires { list_all is_ascii_digit digits.now ≡ true }
    ensures { result ≡ min NUMBER_BOUND (digits_value 10 digits.now) }
{
    let mut value = 0u64;
    for digit in digits {
        value = (value * 10 + u64::from(*digit - b'0')).min(NUMBER_BOUND);
    }
    value
}

/// The number in decimal digits at the front, and what follows it.
#[tactic(auto, unfolding(crate::specs::Fields::number_at))]
pub fn number_at(bytes: &[u8]) -> Result<(u32, &[u8]), Stop>
    ensures { Gives (λ x. (x.0, x.1.now)) result (number_at bytes.now) }
{
    if bytes.is_empty() {
        return Err(fault_at(bytes, Why::Truncated));
    }
    let count = count_digits(bytes);
    if count == 0 {
        return Err(fault_at(bytes, Why::BadNumber));
    }
    let (digits, rest) = bytes.split_at(count);
    let value = value_of(digits);
    if value >= NUMBER_BOUND {
        return Err(fault_at(bytes, Why::LongNumber));
    }
    Ok((value as u32, rest))
}

/// The literal of one of so many variables, and what follows it.
#[tactic(auto, unfolding(crate::specs::Fields::literal_at))]
pub fn literal_at(variables: u32, bytes: &[u8]) -> Result<(u32, &[u8]), Stop>
    requires { variables < 2 ^ 30 }
    ensures literal { Gives (λ x. (x.0, x.1.now)) result (literal_at variables bytes.now) }
    ensures within { IfOk result (λ x. x.0 ≤ 2 * variables + 1) }
{
    let (literal, rest) = number_at(bytes)?;
    if literal > 2 * variables + 1 {
        return Err(fault_at(bytes, Why::LiteralRange));
    }
    Ok((literal, rest))
}

/// The literal of one of so many variables, which has a line of its own, and what follows it.
#[tactic(auto, unfolding(crate::specs::Fields::output_at))]
pub fn output_at(variables: u32, bytes: &[u8]) -> Result<(u32, &[u8]), Stop>
    requires { variables < 2 ^ 30 }
    ensures { Gives (λ x. (x.0, x.1.now)) result (output_at variables bytes.now) }
{
    let (literal, rest) = literal_at(variables, bytes)?;
    Ok((literal, behind(b'\n', rest)?))
}

/// The difference at the front, in at most three bytes, and what follows it.
#[tactic(auto, unfolding(crate::specs::Fields::difference_at))]
fn difference_at(bytes: &[u8]) -> Result<(u32, &[u8]), Stop>
    ensures { Gives (λ x. (x.0, x.1.now)) result (difference_at 3 bytes.now) }
{
    match bytes {
        [a, rest @ ..] if *a < 128 => Ok((u32::from(*a), rest)),
        [a, b, rest @ ..] if *b < 128 => Ok((u32::from(*a) - 128 + 128 * u32::from(*b), rest)),
        [a, b, c, rest @ ..] if *c < 128 => {
            let high = u32::from(*b) - 128 + 128 * u32::from(*c);
            Ok((u32::from(*a) - 128 + 128 * high, rest))
        }
        [_, _, _, rest @ ..] => Err(fault_at(rest, Why::LongNumber)),
        _ => Err(fault_at(&[], Why::Truncated)),
    }
}

/// The operand at the front, which is less than the literal by at least so much, and what follows.
#[tactic(auto, unfolding(crate::specs::Fields::operand_at))]
fn operand_at(least: u32, literal: u32, bytes: &[u8]) -> Result<(u32, &[u8]), Stop>
    ensures { Gives (λ x. (x.0, x.1.now)) result (operand_at least literal bytes.now) }
{
    let (difference, rest) = difference_at(bytes)?;
    if difference < least || literal < difference {
        return Err(fault_at(bytes, Why::GateOrder));
    }
    Ok((literal - difference, rest))
}

/// The gate of this literal at the front, and what follows it.
#[tactic(auto, unfolding(crate::specs::Fields::gate_at))]
pub fn gate_at(literal: u32, bytes: &[u8]) -> Result<(Gate, &[u8]), Stop>
    ensures { Gives (λ x. (x.0, x.1.now)) result (gate_at literal bytes.now) }
{
    let (left, rest) = operand_at(1, literal, bytes)?;
    let (right, rest) = operand_at(0, left, rest)?;
    Ok((Gate { left, right }, rest))
}
