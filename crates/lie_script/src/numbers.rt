//! Numbers in fields.
ghost use Rattle.std.specs.Prelude.{◌≡◌, ◌<◌, ◌≤◌, ◌^◌, length, true, All, IfOk, IfSome};
ghost use Rattle.std.specs.List.{list_all};
ghost use Rattle.std.specs.Char.{is_ascii_digit};
ghost use Rattle.std.specs.Str.Parse.{digits_value};
ghost use Rattle.lie_script.specs.Numbers.{are_digits as digits_only, unsigned as without_sign, signed as with_sign, number_of as number_spelled, integer as integer_read, number as number_read, numbers as numbers_read, natural as natural_read, allows as is_allowed, fault_of};
ghost use Rattle.lie_script.specs.Checks.{Gives};
ghost use Rattle.lie_script.specs.LineFields.{span, spans};

use crate::allowed::Allowed;
use crate::faults::{Fault, FaultName, Stop};
use crate::fields::LineField;
use std::alloc::Global;

fn all_digits(bytes: &[u8]) -> bool
    ensures { result ≡ list_all is_ascii_digit bytes.now }
{
    bytes.iter().all(|b| b.is_ascii_digit())
}

/// Whether there are one or more digits and nothing else.
fn are_digits(bytes: &[u8]) -> bool
    ensures { result ≡ digits_only bytes.now }
{
    !bytes.is_empty() && all_digits(bytes)
}

/// The value of at most 18 digits.
fn value_of(digits: &[u8]) -> u64
    requires digits { list_all is_ascii_digit digits.now ≡ true }
    requires short { length digits.now ≤ 18 }
    ensures value { result ≡ digits_value 10 digits.now }
    ensures bound { result < 10 ^ 18 }
{
    let mut value: u64 = 0;
    'digits: for b in digits {
        value = value * 10 + (*b - b'0') as u64;
    }
    value
}

/// The number that 1 to 18 digits spell.
#[tactic(auto, unfolding(crate::specs::Numbers::number_of))]
pub fn number_of(bytes: &[u8]) -> Option<u64>
    ensures number { result ≡ number_spelled bytes.now }
    ensures bound { IfSome result (λ n. n < 10 ^ 18) }
{
    if !are_digits(bytes) || bytes.len() > 18 {
        return None;
    }
    Some(value_of(bytes))
}

/// The bytes after a sign.
pub(crate) fn unsigned(bytes: &[u8]) -> &[u8]
    ensures { result.now ≡ without_sign bytes.now }
{
    match bytes {
        [b'-', rest @ ..] => rest,
        _ => bytes,
    }
}

/// The number with the sign of the bytes.
fn signed(bytes: &[u8], n: u64) -> i128
    ensures { result ≡ with_sign bytes.now n }
{
    if bytes.first() == Some(&b'-') {
        -(n as i128)
    } else {
        n as i128
    }
}

/// The number of a field.
#[tactic(auto, unfolding(crate::specs::Numbers::integer))]
pub(crate) fn integer(field: &LineField<'_>) -> Result<i128, Fault>
    ensures { result ≡ integer_read (span field.now) }
{
    let digits = unsigned(field.bytes);
    if !are_digits(digits) {
        return Err(Fault::At(FaultName::Number, field.column));
    }
    if digits.len() > 18 {
        return Err(Fault::At(FaultName::Range, field.column));
    }
    Ok(signed(field.bytes, value_of(digits)))
}

impl Allowed {
    fn allows(self, n: i128) -> bool
        ensures { result ≡ is_allowed self n }
    {
        match self {
            Allowed::Within(low, high) => low <= n && n <= high,
            Allowed::NonzeroWithin(low, high) => low <= n && n <= high && n.unsigned_abs() != 0,
            Allowed::SimpleOf(l) => 1 <= n && n <= l as i128,
            Allowed::SignedSimpleOf(l) => 1 <= n.unsigned_abs() && n.unsigned_abs() <= l as u128,
            Allowed::RootOf(m) => 1 <= n.unsigned_abs() && n.unsigned_abs() <= m as u128,
            Allowed::ElementOf(q) => 0 <= n && n < q as i128,
        }
    }

    fn fault(self) -> FaultName
        ensures { result ≡ fault_of self }
    {
        match self {
            Allowed::Within(_, _) => FaultName::Range,
            Allowed::NonzeroWithin(_, _) => FaultName::Range,
            Allowed::SimpleOf(_) | Allowed::SignedSimpleOf(_) => FaultName::Simple,
            Allowed::RootOf(_) => FaultName::Root,
            Allowed::ElementOf(_) => FaultName::Value,
        }
    }
}

/// An allowed number.
#[tactic(auto, unfolding(crate::specs::Numbers::number))]
pub(crate) fn number(allowed: Allowed, field: &LineField<'_>) -> Result<i128, Fault>
    ensures number { result ≡ number_read allowed (span field.now) }
    ensures allowed { IfOk result (λ n. is_allowed allowed n ≡ true) }
{
    let n = integer(field)?;
    if !allowed.allows(n) {
        return Err(Fault::At(allowed.fault(), field.column));
    }
    Ok(n)
}

/// Allowed numbers, from left to right.
pub(crate) fn numbers(
    alloc: Global,
    allowed: Allowed,
    fields: &[LineField<'_>],
) -> Result<Vec<i128>, Stop>
    ensures numbers { Gives (λ v. v.items) result (numbers_read allowed (spans fields.now)) }
    ensures allowed { IfOk result (λ v. All (λ n. is_allowed allowed n ≡ true) v.items) }
{
    let mut list = Vec::new(alloc);
    'numbers: for field in fields {
        list.push(number(allowed, field)?)?;
    }
    Ok(list)
}

/// A number from low to high that isn't negative.
#[tactic(auto, unfolding(crate::specs::Numbers::natural))]
pub(crate) fn natural(low: usize, high: usize, field: &LineField<'_>) -> Result<usize, Fault>
    ensures natural { result ≡ natural_read low high (span field.now) }
    ensures bound { IfOk result (λ n. n ≤ high) }
{
    let n = number(Allowed::Within(low as i128, high as i128), field)?;
    Ok(n.unsigned_abs() as usize)
}
