//! Numbers in decimal.

ghost use Rattle.std.specs.Prelude.{◌≡◌, ◌≤◌, ◌∷◌, [], true, length, ⊤, MatchOption, IfSome};
ghost use Rattle.std.specs.Str.{all_ascii_digits};
ghost use Rattle.texts.specs.Parts.{fields_of};
ghost use Rattle.texts.specs.Kept.{fields_left};
ghost use Rattle.texts.specs.Number.{value_from, is_number, capped};
ghost use Rattle.texts.specs.Numbers.{numbers_of};

/// Above every limit of a text. Greater numbers count as `CAP`.
pub const CAP: u64 = 4_294_967_296;

/// A number at the start of some bytes.
#[derive(Drop)]
pub(crate) struct Front<'a> {
    /// Decimal, of any length, without sign or leading zeros.
    pub(crate) digits: &'a [u8],
    /// At most `CAP`.
    pub(crate) value: u64,
    /// The bytes after the number's space.
    pub(crate) rest: Option<&'a [u8]>,
}

// Whether there are digits, without a leading zero.
#[inline(always)]
pub(crate) fn are_number(digits: &[u8]) -> bool
    ensures { all_ascii_digits digits.now ≡ true → result ≡ is_number digits.now }
{
    match digits.first() {
        Some(first) => *first != b'0' || digits.len() == 1,
        None => false,
    }
}

#[cold]
fn capped_value(digits: &[u8]) -> u64
    ensures { result ≡ capped (value_from 0 digits.now) }
{
    let mut value = 0u64;
    for at in 0..digits.len() {
        value = (10 * value + digits[at].saturating_sub(b'0') as u64).min(CAP);
    }
    value
}

// Returns the value, at most `CAP`: `short` if there are at most 9 digits.
#[inline(always)]
fn value_of(digits: &[u8], short: u64) -> u64
    requires digits { all_ascii_digits digits.now ≡ true }
    requires short { length digits.now ≤ 9 → short ≡ value_from 0 digits.now }
    ensures { result ≡ capped (value_from 0 digits.now) }
{
    if digits.len() <= 9 {
        return short;
    }
    capped_value(digits)
}

/// Reads a number up to the first space, in one pass.
#[inline(always)]
pub(crate) fn number_in_front(bytes: &[u8]) -> Option<Front<'_>>
    ensures none { MatchOption result (numbers_of (fields_of bytes.now) ≡ []) (λ _. ⊤) }
    ensures field { IfSome result (λ n. fields_of bytes.now ≡ n.digits.now ∷ fields_left n.rest) }
    ensures number { IfSome result (λ n. is_number n.digits.now ≡ true) }
    ensures value { IfSome result (λ n. n.value ≡ capped (value_from 0 n.digits.now)) }
{
    // Used only up to 9 digits.
    let mut value = 0u64;
    for at in 0..bytes.len() {
        let byte = bytes[at];
        if !byte.is_ascii_digit() {
            if byte != b' ' {
                return None;
            }
            if !are_number(&bytes[..at]) {
                return None;
            }
            return Some(Front {
                digits: &bytes[..at],
                value: value_of(&bytes[..at], value),
                rest: Some(&bytes[at + 1..]),
            });
        }
        value = value.wrapping_mul(10).wrapping_add((byte - b'0') as u64);
    }
    if !are_number(bytes) {
        return None;
    }
    Some(Front {
        digits: bytes,
        value: value_of(bytes, value),
        rest: None,
    })
}
