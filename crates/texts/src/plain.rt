//! Fast paths, which read common spellings without cutting lines into fields.
//!
//! On `None`, the caller reads the line by fields, to name a fault.

ghost use Rattle.std.specs.Prelude.{◌≡◌, ◌++◌, map, IfSome};
ghost use Rattle.std.specs.Fmt.{decimal};
ghost use Rattle.texts.specs.Parts.{spaced};

use crate::number::are_number;

/// Returns the text after a leading `word`.
#[inline(always)]
pub fn after_word<'a>(text: &'a [u8], word: &[u8]) -> Option<&'a [u8]>
    ensures { IfSome result (λ rest. text.now ≡ word.now ++ rest.now) }
{
    if text.len() < word.len() {
        return None;
    }
    for at in 0..word.len() {
        if text[at] != word[at] {
            return None;
        }
    }
    Some(&text[word.len()..])
}

/// Splits before the first space or line end.
#[inline(always)]
pub fn plain_word(text: &[u8]) -> (&[u8], &[u8])
    ensures { text.now ≡ result.0.now ++ result.1.now }
{
    for at in 0..text.len() {
        if text[at] <= b' ' {
            return (&text[..at], &text[at..]);
        }
    }
    (text, &text[text.len()..])
}

/// Returns the leading number, at most 9 digits, and the rest.
#[inline(always)]
pub fn plain_number(text: &[u8]) -> Option<(u32, &[u8])>
    ensures { IfSome result (λ x. text.now ≡ decimal x.0 ++ x.1.now) }
{
    // Used only up to 9 digits.
    let mut value = 0u64;
    for at in 0..text.len() {
        let byte = text[at];
        if !byte.is_ascii_digit() {
            if at > 9 || !are_number(&text[..at]) {
                return None;
            }
            return Some((value as u32, &text[at..]));
        }
        value = value.wrapping_mul(10).wrapping_add((byte - b'0') as u64);
    }
    None
}

/// Reads numbers, each after a space, into `out`. Returns the rest, or `None` after more than `most`.
#[inline(always)]
pub fn plain_numbers<'a>(text: &'a [u8], most: usize, out: &mut Vec<u32>) -> Option<&'a [u8]>
    ensures { IfSome result (λ rest. text.now ≡ spaced (map decimal out.new.items) ++ rest.now) }
{
    out.clear();
    let mut rest = text;
    'numbers: while let Some(digits) = after_word(rest, b" ") {
        let (number, behind) = plain_number(digits)?;
        if out.len() >= most || out.push(number).is_err() {
            return None;
        }
        rest = behind;
    }
    Some(rest)
}
