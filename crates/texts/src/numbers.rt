//! Lists of numbers by place, and division. A missing place reads as 0; writing there does nothing.

use ring_names::{Rows, Slot};

/// The greatest `u32`, a mark for none.
pub const NONE: u32 = 4_294_967_295;

/// The number at the place, or 0.
pub fn at(numbers: &[u32], place: usize) -> u32 {
    match numbers.get(place) {
        Some(number) => *number,
        None => 0,
    }
}

/// Writes the number at the place.
pub fn set(numbers: &mut [u32], place: usize, number: u32) {
    if let Some(old) = numbers.get_mut(place) {
        *old = number;
    }
}

/// Exchanges the numbers at two places of the list.
pub fn swap(numbers: &mut [u32], one: usize, other: usize) {
    let (first, second) = (at(numbers, one), at(numbers, other));
    set(numbers, one, second);
    set(numbers, other, first);
}

/// Adds one at the place.
pub fn raise(numbers: &mut [u32], place: usize) {
    if let Some(number) = numbers.get_mut(place) {
        *number = number.saturating_add(1);
    }
}

/// Subtracts one at the place.
pub fn lower(numbers: &mut [u32], place: usize) {
    if let Some(number) = numbers.get_mut(place) {
        *number = number.saturating_sub(1);
    }
}

/// The word at the place, or 0.
pub fn word(words: &[u64], place: usize) -> u64 {
    match words.get(place) {
        Some(word) => *word,
        None => 0,
    }
}

/// Writes the word at the place.
pub fn set_word(words: &mut [u64], place: usize, new: u64) {
    if let Some(word) = words.get_mut(place) {
        *word = new;
    }
}

/// The mark at the place, or false.
pub fn is_set(marks: &[bool], place: u32) -> bool {
    match marks.get(place as usize) {
        Some(mark) => *mark,
        None => false,
    }
}

/// Writes the mark at the place.
pub fn put(marks: &mut [bool], place: u32, mark: bool) {
    if let Some(old) = marks.get_mut(place as usize) {
        *old = mark;
    }
}

/// The row at the place, or an empty one.
pub fn row(rows: &Rows, place: usize) -> &[u32] {
    if place < rows.len() {
        return rows.row(place);
    }
    &[]
}

/// A slot's place, counting 7 for each partition.
pub fn place_of(slot: Slot) -> usize {
    (slot.partition as usize)
        .saturating_mul(7)
        .saturating_add(slot.index as usize)
}

/// The number, at most the greatest `u32`.
pub fn small(number: usize) -> u32 {
    match u32::try_from(number) {
        Ok(number) => number,
        Err(_) => u32::MAX,
    }
}

/// Divides, rounding down; 0 if `part` is 0.
pub fn quotient(whole: u32, part: u32) -> u32 {
    match whole.checked_div(part) {
        Some(count) => count,
        None => 0,
    }
}

/// Returns `total / size`, rounded up; 0 for size 0.
pub fn parts(total: u32, size: u32) -> u32 {
    quotient(total.saturating_add(size).saturating_sub(1), size)
}

/// Returns `part * parts / total`, rounded to the nearest; 0 for total 0.
pub fn parts_of(part: u32, total: u32, parts: u32) -> u32 {
    let twice = u64::from(part)
        .saturating_mul(u64::from(parts))
        .saturating_mul(2)
        .saturating_add(u64::from(total));
    match twice.checked_div(u64::from(total).saturating_mul(2)) {
        Some(count) => u32::try_from(count).unwrap_or(u32::MAX),
        None => 0,
    }
}
