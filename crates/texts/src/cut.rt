//! Cuts bytes at a separator.

ghost use Rattle.std.specs.Prelude.{◌≡◌, ◌∷◌, [], ◌==◌, ◌||◌, MatchOption};
ghost use Rattle.std.specs.List.{slice_split};
ghost use Rattle.std.specs.Str.{bytes_eq};
ghost use Rattle.texts.specs.Parts.{until};

use memchr::memchr;

// Cuts at the first separator.
#[inline(always)]
pub fn cut(bytes: &[u8], separator: u8) -> (&[u8], Option<&[u8]>)
    ensures { MatchOption result.1
        (slice_split (λ b. b == separator) bytes.now ≡ result.0.now ∷ [])
        (λ rest. slice_split (λ b. b == separator) bytes.now ≡ result.0.now ∷ slice_split (λ b. b == separator) rest.now) }
{
    match memchr(separator, bytes) {
        None => (bytes, None),
        Some(at) => (&bytes[..at], Some(&bytes[at + 1..])),
    }
}

// Cuts at a near separator faster than `cut`: four bytes at a time.
#[inline(always)]
pub fn cut_near(bytes: &[u8], separator: u8) -> (&[u8], Option<&[u8]>)
    ensures { MatchOption result.1
        (slice_split (λ b. b == separator) bytes.now ≡ result.0.now ∷ [])
        (λ rest. slice_split (λ b. b == separator) bytes.now ≡ result.0.now ∷ slice_split (λ b. b == separator) rest.now) }
{
    let mut start = 0;
    'fours: while bytes.len() - start >= 4
        && bytes[start] != separator
        && bytes[start + 1] != separator
        && bytes[start + 2] != separator
        && bytes[start + 3] != separator
    {
        start += 4;
    }
    for at in start..bytes.len() {
        if bytes[at] == separator {
            return (&bytes[..at], Some(&bytes[at + 1..]));
        }
    }
    (bytes, None)
}

// Whether the bytes before the first space or `end` are `word`. Goes byte by byte: most callers pass constants.
#[inline(always)]
pub fn stands_in_front(bytes: &[u8], word: &[u8], end: u8) -> bool
    ensures { result ≡ bytes_eq (until (λ b. (b == 32) || (b == end)) bytes.now) word.now }
{
    for at in 0..word.len() {
        let byte = word[at];
        if byte == b' ' || byte == end || bytes.len() <= at || bytes[at] != byte {
            return false;
        }
    }
    match bytes.get(word.len()) {
        Some(byte) => *byte == b' ' || *byte == end,
        None => true,
    }
}
