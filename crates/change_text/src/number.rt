//! Numbers below 2^48.

ghost use Rattle.std.specs.Prelude.{◌≡◌, ◌&&◌, min, nat_le};
ghost use Rattle.std.specs.List.{list_all};
ghost use Rattle.texts.specs.Judging.{limited};
ghost use Rattle.texts.specs.Number.{value_from, is_number as is_spelled_number, decimal_value};

use ring_names::Refusal;

// Above every number. Greater values count as `CAP`.
const CAP: u64 = 281_474_976_710_656;

fn are_digits(field: &[u8]) -> bool
    ensures { result ≡ list_all (λ b. nat_le 48 b && nat_le b 57) field.now }
{
    field.iter().all(|byte| matches!(*byte, b'0'..=b'9'))
}

// Whether a field is decimal, without sign or leading zeros.
fn is_number(field: &[u8]) -> bool
    ensures { result ≡ is_spelled_number field.now }
{
    if field.is_empty() || !are_digits(field) {
        return false;
    }
    field[0] > b'0' || field.len() == 1
}

fn value_of(digits: &[u8]) -> u64
    ensures { result ≡ min (value_from 0 digits.now) 281474976710656 }
{
    let mut value = 0u64;
    for at in 0..digits.len() {
        value = (10 * value + digits[at].saturating_sub(b'0') as u64).min(CAP);
    }
    value
}

/// Returns a field's number. Fails with `BadLine`, or with `TooLarge` from 2^48 on.
pub fn number_of(line: u32, field: &[u8]) -> Result<u64, Refusal>
    ensures { result ≡ limited line 281474976710655 (decimal_value field.now) }
{
    if !is_number(field) {
        return Err(Refusal::BadLine(line));
    }
    let value = value_of(field);
    if value >= CAP {
        return Err(Refusal::TooLarge(line));
    }
    Ok(value)
}
