//! The numbers that fields write.

ghost use Rattle.std.specs.Prelude.{◌≡◌, ℕ, ◌≤◌, ◌<◌, ℤ, neg_ℤ, ◌≤ℤ◌, decimal, IfSome, IfNone};
ghost use Rattle.std.specs.Fmt.{signed_decimal};
ghost use Rattle.vs_rows.specs.DocumentRows.{IsBetween, IsWithin};
ghost use Rattle.vs_rows.specs.declared.limits.TheConstants.{MAX_BOUND};
ghost use Rattle.vs_rows.specs.declared.numbers.TheConstants.{LARGEST};

use crate::limits::MAX_BOUND;

/// The largest number of a document, without a sign.
const LARGEST: u128 = MAX_BOUND as u128;

/// The number from 0 to the largest that the digits write without a leading zero.
fn natural(digits: &[u8]) -> Option<u128>
    ensures found { IfSome result (λ n. (n ≤ LARGEST) × (digits.now ≡ decimal n)) }
    ensures none { IfNone result ((n : ℕ) → n ≤ LARGEST → ¬ (digits.now ≡ decimal n)) }
{
    if digits.is_empty() || digits.len() > 21 {
        return None;
    }
    let mut n = 0;
    for (i, digit) in digits.iter().enumerate() {
        if !digit.is_ascii_digit() {
            return None;
        }
        if i > 0 && n == 0 {
            return None;
        }
        n = 10 * n + u128::from(*digit - b'0');
    }
    if n > LARGEST {
        return None;
    }
    Some(n)
}

/// The number within `MAX_BOUND` in either direction that a field writes. The field is 0, or a digit 1 to 9 and digits
/// after it, or such a number behind a `-`.
pub fn signed(field: &[u8]) -> Option<i128>
    ensures found { IfSome result (λ z. (field.now ≡ signed_decimal z) × IsWithin MAX_BOUND z) }
    ensures none { IfNone result ((z : ℤ) → IsWithin MAX_BOUND z → ¬ (field.now ≡ signed_decimal z)) }
{
    match field {
        [b'-', digits @ ..] => match natural(digits) {
            None => None,
            Some(n) if n > 0 => Some(-(n as i128)),
            _ => None,
        },
        _ => natural(field).map(|n| n as i128),
    }
}

/// The number from `low` to `high` that a field writes.
pub fn between(field: &[u8], low: i128, high: i128) -> Option<i128>
    requires low { neg_ℤ MAX_BOUND ≤ℤ low }
    requires high { high ≤ℤ MAX_BOUND }
    ensures found { IfSome result (λ z. (field.now ≡ signed_decimal z) × IsBetween low high z) }
    ensures none { IfNone result ((z : ℤ) → IsBetween low high z → ¬ (field.now ≡ signed_decimal z)) }
{
    let z = signed(field)?;
    if z < low || z > high {
        return None;
    }
    Some(z)
}
