//! The width of text.

// In hundredths of the font's size: DejaVu Sans, rounded up. Only a character's first byte counts.
fn width_of(byte: u8) -> u32 {
    match byte {
        0x80..=0xbf => 0,
        b'i' | b'j' | b'l' => 28,
        b' ' | b',' | b'.' => 32,
        b'/' | b':' => 34,
        b'f' => 36,
        b'-' => 37,
        b'(' | b')' | b't' => 40,
        b'r' => 42,
        b'_' => 50,
        b's' | b'z' => 53,
        b'c' => 55,
        b'k' => 58,
        b'v' | b'x' | b'y' => 60,
        b'T' | b'Y' | b'a' | b'e' | b'o' => 62,
        b'0'..=b'9' | b'b' | b'd' | b'g' | b'h' | b'n' | b'p' | b'q' | b'u' => 64,
        b'w' => 82,
        0xe2 => 84,
        b'm' => 98,
        _ => 100,
    }
}

/// The text's pixels at the font size, rounded up.
pub fn width(text: &[u8], size: u32) -> u32 {
    let mut hundredths = 0u32;
    for byte in text {
        hundredths = hundredths.saturating_add(width_of(*byte));
    }
    hundredths.saturating_mul(size).saturating_add(99) / 100
}
