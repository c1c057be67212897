//! What a field writes: a name, a number or a time.

ghost use Rattle.std.specs.Prelude.{◌≡◌, ◌↔◌, ℕ, ◌<◌, ◌≤◌, IsTrue, MatchOption};
ghost use Rattle.std.specs.Str.Parse.{digits_value};
ghost use Rattle.vs_instance.specs.declared.limits.TheConstants.{TWO_DAYS};
ghost use Rattle.vs_reader.specs.Names.{IsName, IsNameByte};
ghost use Rattle.vs_reader.specs.Numbers.{AreDigits, IsNumber, IsTime};

/// The field as a name: 1 to 32 letters of the alphabet, digits and signs `_`, `.`, `:` and `-`. None where
/// it isn't one.
pub fn name(field: &[u8]) -> Option<&str>
    ensures { MatchOption result
        (¬ (IsName field.now))
        (λ name. (name.now ≡ field.now) × IsName field.now) }
{
    if !is_name(field) {
        return None;
    }
    str::from_utf8(field).ok()
}

/// Whether a field is a name.
fn is_name(field: &[u8]) -> bool
    ensures { IsTrue result ↔ IsName field.now }
{
    !field.is_empty() && field.len() <= 32 && field.iter().all(|byte| is_name_byte(*byte))
}

/// Whether a byte may stand in a name.
fn is_name_byte(byte: u8) -> bool
    ensures { IsTrue result ↔ IsNameByte byte }
{
    matches!(byte, b'A'..=b'Z' | b'a'..=b'z' | b'0'..=b'9' | b'_' | b'.' | b':' | b'-')
}

/// The number that a field of 1 to 10 digits writes. Leading zeros are accepted. None where the field isn't
/// one.
pub fn number(field: &[u8]) -> Option<u64>
    ensures { MatchOption result ((n : ℕ) → ¬ (IsNumber field.now n)) (IsNumber field.now) }
{
    digits(field, 10)
}

/// The number that a field of digits writes, of which there are some and at most so many. None where the
/// field isn't one.
fn digits(field: &[u8], most: usize) -> Option<u64>
    requires { most ≤ 10 }
    ensures { MatchOption result
        (¬ (AreDigits field.now most))
        (λ n. AreDigits field.now most × (n ≡ digits_value 10 field.now)) }
{
    if field.is_empty() || field.len() > most {
        return None;
    }
    let mut value = 0;
    for byte in field {
        if !byte.is_ascii_digit() {
            return None;
        }
        value = 10 * value + u64::from(*byte - b'0');
    }
    Some(value)
}

/// The time that a field writes, in minutes from 0:00 of the first day. The field has an hour of one or two
/// digits up to 47, a colon, and a minute of two digits up to 59. None where the field isn't one.
pub fn time(field: &[u8]) -> Option<u32>
    ensures { MatchOption result
        ((t : ℕ) → ¬ (IsTime field.now t))
        (λ t. IsTime field.now t × (t < TWO_DAYS)) }
{
    if field.len() < 3 {
        return None;
    }
    let colon = field.len() - 3;
    if field[colon] != b':' {
        return None;
    }
    let hours = digits(&field[..colon], 2)?;
    let minutes = digits(&field[colon + 1..], 2)?;
    if hours > 47 || minutes > 59 {
        return None;
    }
    Some((60 * hours + minutes) as u32)
}
