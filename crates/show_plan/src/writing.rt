//! Words in lines.

use texts::Words;

/// The widest line, in characters.
pub const WIDTH: usize = 100;

const LOW_DIGITS: usize = 9;

/// A text's columns: one for each character.
pub fn columns(text: &[u8]) -> usize {
    let mut count = 0usize;
    for byte in text {
        if !is_further(*byte) {
            count = count.saturating_add(1);
        }
    }
    count
}

fn is_further(byte: u8) -> bool {
    matches!(byte, 0x80..=0xbf)
}

/// Writes spaces.
pub fn push_spaces(out: &mut Words, count: usize) {
    push_times(out, b' ', count)
}

/// Writes the byte `count` times.
pub fn push_times(out: &mut Words, byte: u8, count: usize) {
    for place in 0..count {
        out.byte(byte);
    }
}

/// Writes the text, padded on the right.
pub fn push_left(out: &mut Words, text: &[u8], width: usize) {
    out.text(text);
    push_spaces(out, width.saturating_sub(columns(text)))
}

/// Writes the text, padded on the left.
pub fn push_right(out: &mut Words, text: &[u8], width: usize) {
    push_spaces(out, width.saturating_sub(columns(text)));
    out.text(text);
}

fn count_digits(number: u32) -> usize {
    let mut count = 1usize;
    let mut rest = number / 10;
    for turn in 0..9 {
        if rest > 0 {
            count = count.saturating_add(1);
        }
        rest /= 10;
    }
    count
}

/// Writes the number, padded on the left.
pub fn push_number_right(out: &mut Words, number: u32, width: usize) {
    push_spaces(out, width.saturating_sub(count_digits(number)));
    out.number(number);
}

/// Writes the number, padded on the right.
pub fn push_number_left(out: &mut Words, number: u32, width: usize) {
    out.number(number);
    push_spaces(out, width.saturating_sub(count_digits(number)))
}

fn count_long_digits(number: u64) -> usize {
    let (high, low) = halves(number);
    if high == 0 {
        return count_digits(low);
    }
    count_digits(high).saturating_add(LOW_DIGITS)
}

fn halves(number: u64) -> (u32, u32) {
    let high = u32::try_from(number / 1_000_000_000).unwrap_or(u32::MAX);
    let low = u32::try_from(number % 1_000_000_000).unwrap_or(0);
    (high, low)
}

/// Writes a number below 4,294,967,295 times 1,000,000,000.
pub fn push_long(out: &mut Words, number: u64) {
    let (high, low) = halves(number);
    if high > 0 {
        out.number(high);
        push_times(out, b'0', LOW_DIGITS.saturating_sub(count_digits(low)));
    }
    out.number(low);
}

// Writes `05` for 5.
fn push_two_digits(out: &mut Words, number: u64) {
    if number < 10 {
        out.byte(b'0');
    }
    push_long(out, number);
}

/// Writes `90 s`, from two minutes `3 min 56 s`, from an hour `2 h 05 min`, rounded down.
pub fn push_time(out: &mut Words, seconds: u64) {
    if seconds < 120 {
        push_long(out, seconds);
        out.text(b" s");
        return;
    }
    if seconds < 3_600 {
        push_long(out, seconds / 60);
        out.text(b" min ");
        push_two_digits(out, seconds % 60);
        out.text(b" s");
        return;
    }
    push_long(out, seconds / 3_600);
    out.text(b" h ");
    push_two_digits(out, seconds / 60 % 60);
    out.text(b" min")
}

const LETTERS: [&[u8]; 6] = [b" k", b" M", b" G", b" T", b" P", b" E"];

/// Writes `9999`, `12.3 k` or `8.5 G`, rounded down.
pub fn push_short(out: &mut Words, number: u64) {
    if number < 10_000 {
        return push_long(out, number);
    }
    let mut thousandths = number;
    let mut letter: &[u8] = b"";
    for next in LETTERS {
        letter = next;
        if thousandths < 1_000_000 {
            break;
        }
        thousandths /= 1_000;
    }
    push_long(out, thousandths / 1_000);
    out.byte(b'.');
    push_long(out, thousandths / 100 % 10);
    out.text(letter)
}

/// Writes the number, or a point for 0, padded on the left.
pub fn push_long_right(out: &mut Words, number: u64, width: usize) {
    if number == 0 {
        return push_right(out, b".", width);
    }
    push_spaces(out, width.saturating_sub(count_long_digits(number)));
    push_long(out, number);
}

/// A column's width, at least `least`.
pub fn width_of(numbers: &[u64], least: usize) -> usize {
    let mut width = least;
    for number in numbers {
        width = width.max(count_long_digits(*number));
    }
    width
}

/// Writes a number of tenths.
pub fn push_tenths(out: &mut Words, tenths: u32) {
    out.number(tenths / 10);
    out.byte(b'.');
    out.number(tenths % 10);
}

// The last space after a word, within `room` characters.
fn last_space(line: &[u8], room: usize) -> Option<usize> {
    let mut found = None;
    let mut has_word = false;
    let mut column = 0usize;
    for (place, byte) in line.iter().enumerate() {
        if column > room {
            return found;
        }
        if *byte != b' ' {
            has_word = true;
        } else if has_word {
            found = Some(place);
        }
        column = column.saturating_add(usize::from(!is_further(*byte)));
    }
    found
}

fn push_line(out: &mut Words, line: &[u8], indent: usize) {
    let mut rest = line;
    let mut room = WIDTH;
    for turn in 0..line.len() {
        if columns(rest) <= room {
            break;
        }
        let Some(space) = last_space(rest, room) else {
            break;
        };
        let (front, behind) = cut_at(rest, space);
        out.text(front);
        out.byte(b'\n');
        push_spaces(out, indent);
        rest = behind;
        room = WIDTH.saturating_sub(indent);
    }
    out.text(rest);
    out.byte(b'\n');
}

/// Writes and empties the line. Breaks a wide line at spaces, and indents the rest.
pub fn end_line(out: &mut Words, line: &mut Words, indent: usize) {
    push_line(out, line.as_slice(), indent);
    line.clear();
}

fn cut_at(line: &[u8], place: usize) -> (&[u8], &[u8]) {
    if place < line.len() {
        return (&line[..place], &line[place + 1..]);
    }
    (line, &[])
}

/// Writes the line without final spaces.
pub fn push_trimmed(out: &mut Words, line: &[u8]) {
    let mut width = 0usize;
    let mut place = 0usize;
    for byte in line {
        place = place.saturating_add(1);
        if *byte != b' ' {
            width = place;
        }
    }
    if width <= line.len() {
        out.text(&line[..width]);
    }
    out.byte(b'\n');
}
