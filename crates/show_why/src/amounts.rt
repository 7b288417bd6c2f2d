//! Written numbers.

use crate::said::count_digits;
use texts::Words;

/// How a number is written.
#[derive(Clone, Copy, Debug, PartialEq, Eq)]
pub enum Manner {
    /// With a unit. The value in bytes.
    Unit(u64),
    /// With a point or comma.
    Fraction,
    /// In groups of three digits.
    Groups,
    Other,
}

/// Returns how a number is written.
pub fn manner_of(word: &[u8]) -> Manner {
    let (front, unit) = cut_unit(word);
    let Some(thousandths) = thousandths_of(front) else {
        return if unit.is_empty() && are_groups(front) {
            Manner::Groups
        } else {
            Manner::Other
        };
    };
    match factor_of(unit) {
        Some(factor) if !unit.is_empty() => Manner::Unit(thousandths.saturating_mul(factor) / 1000),
        Some(_) if are_groups(front) => Manner::Groups,
        Some(_) if front.iter().any(|byte| is_parting(*byte)) => Manner::Fraction,
        _ => Manner::Other,
    }
}

fn is_parting(byte: u8) -> bool {
    byte == b'.' || byte == b',' || byte == b'_'
}

fn cut_unit(word: &[u8]) -> (&[u8], &[u8]) {
    let end = word
        .iter()
        .position(|byte| !byte.is_ascii_digit() && !is_parting(*byte));
    match end {
        Some(end) if end <= word.len() => (&word[..end], &word[end..]),
        _ => (word, b""),
    }
}

/// The value of 1 to 15 digits.
pub fn value_of(digits: &[u8]) -> Option<u64> {
    if digits.is_empty() || digits.len() > 15 {
        return None;
    }
    let mut value = 0u64;
    for byte in digits {
        if !byte.is_ascii_digit() {
            return None;
        }
        value = value
            .saturating_mul(10)
            .saturating_add(u64::from(byte.saturating_sub(b'0')));
    }
    Some(value)
}

// Rounds down. None with two points or commas.
fn thousandths_of(front: &[u8]) -> Option<u64> {
    let place = front.iter().position(|byte| is_parting(*byte));
    let (whole, rest) = match place {
        Some(place) if place < front.len() => (&front[..place], &front[place + 1..]),
        _ => return value_of(front)?.checked_mul(1000),
    };
    if !rest.iter().all(|byte| byte.is_ascii_digit()) {
        return None;
    }
    let (digits, scale) = match rest.len() {
        1 => (rest, 100u64),
        2 => (rest, 10),
        _ => (rest.get(..3)?, 1),
    };
    let whole = value_of(whole)?.checked_mul(1000)?;
    whole.checked_add(value_of(digits)?.saturating_mul(scale))
}

// The first group has one to three digits, not only zeros.
fn are_groups(front: &[u8]) -> bool {
    let mut groups = front.split(|byte| is_parting(*byte));
    let first = groups.next().unwrap_or(b"".as_slice());
    let is_begin = value_of(first).unwrap_or(0) > 0 && first.len() <= 3;
    let mut count = 0usize;
    for group in groups {
        if group.len() != 3 || value_of(group).is_none() {
            return false;
        }
        count = count.saturating_add(1);
    }
    is_begin && count > 0
}

const LETTERS: [u8; 5] = [b'k', b'm', b'g', b't', b'p'];

/// A unit's bytes: 1,024 for `KiB` and `K`, 1,000 for `kb`, 1 for none.
pub fn factor_of(unit: &[u8]) -> Option<u64> {
    let (first, rest) = match unit.split_first() {
        None => return Some(1),
        Some((first, rest)) => (first.to_ascii_lowercase(), rest),
    };
    if first == b'b' && rest.is_empty() {
        return Some(1);
    }
    let step = match rest {
        b"iB" | b"ib" | b"i" | b"" => 1024u64,
        b"B" | b"b" => 1000,
        _ => return None,
    };
    let mut factor = 1u64;
    for letter in LETTERS {
        factor = factor.saturating_mul(step);
        if letter == first {
            return Some(factor);
        }
    }
    None
}

/// Adds a number below 4,294,967,295 times 1,000,000,000.
pub fn push_long(out: &mut Words, number: u64) {
    let high = u32::try_from(number / 1_000_000_000).unwrap_or(u32::MAX);
    let low = u32::try_from(number % 1_000_000_000).unwrap_or(0);
    if high > 0 {
        out.number(high);
        out.times(b'0', 9usize.saturating_sub(count_digits(low)));
    }
    out.number(low);
}

/// Adds only the word's digits.
pub fn push_digits(out: &mut Words, word: &[u8]) {
    for byte in word {
        if byte.is_ascii_digit() {
            out.byte(*byte);
        }
    }
}
