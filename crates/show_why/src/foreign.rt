//! Other inputs, by their first bytes.

use crate::page::{Page, field, number};
use crate::said::Said;

// First bytes, kind, and the command that unpacks.
const PACKED: [(&[u8], &[u8], &[u8]); 5] = [
    (
        b"\x1f\x8b",
        b"compressed by gzip",
        b"gunzip -c < FILE > MENDED",
    ),
    (
        b"\x28\xb5\x2f\xfd",
        b"compressed by zstd",
        b"zstd -dc < FILE > MENDED",
    ),
    (b"\xfd7zXZ", b"compressed by xz", b"xz -dc < FILE > MENDED"),
    (
        b"BZh",
        b"compressed by bzip2",
        b"bunzip2 -c < FILE > MENDED",
    ),
    (b"PK\x03\x04", b"a zip archive", b"unzip -p FILE > MENDED"),
];

const FRONT: usize = 512;

/// Reports another kind of input, or a later format.
pub fn tell_foreign(page: Page, said: &mut Said) -> bool {
    tell_coded(page, said, b"the input") || tell_binary(page, said) || tell_format(page, said)
}

/// Reports packed bytes or UTF-16. `called` names the input.
pub fn tell_coded(page: Page, said: &mut Said, called: &[u8]) -> bool {
    tell_packed(page, said, called) || tell_wide(page, said, called)
}

fn tell_packed(page: Page, said: &mut Said, called: &[u8]) -> bool {
    for (begin, kind, command) in PACKED {
        if page.bytes.starts_with(begin) {
            said.title_with(b"@ is @", &[called, kind], &[]);
            said.note_with(b"`@` makes a text of it.", &[command], &[]);
            return true;
        }
    }
    false
}

fn wide_name(bytes: &[u8]) -> Option<&'static [u8]> {
    match bytes {
        [0xff, 0xfe, ..] | [0xfe, 0xff, ..] => Some(b"UTF-16"),
        [first, 0, _, 0, ..] if *first != 0 => Some(b"UTF-16LE"),
        [0, first, 0, ..] if *first != 0 => Some(b"UTF-16BE"),
        _ => None,
    }
}

fn title_wide<'a>(said: &mut Said, called: &'a [u8], name: &'a [u8]) {
    said.title_with(
        b"@ is @, and a text here has one byte a letter",
        &[called, name],
        &[],
    );
}

fn tell_wide(page: Page, said: &mut Said, called: &[u8]) -> bool {
    let Some(name) = wide_name(page.bytes) else {
        return false;
    };
    title_wide(said, called, name);
    said.note_with(
        b"`iconv -f @ -t UTF-8 FILE > MENDED` makes such a text of it.",
        &[name],
        &[],
    );
    true
}

fn is_of_text(byte: u8) -> bool {
    matches!(byte, b' '..=b'~' | b'\n' | b'\r' | b'\t')
}

/// Whether over an eighth of the first bytes cannot be text.
pub fn is_binary(page: Page) -> bool {
    let front = &page.bytes[..page.bytes.len().min(FRONT)];
    let mut others = 0usize;
    for byte in front {
        if !is_of_text(*byte) {
            others = others.saturating_add(1);
        }
    }
    others > front.len() / 8
}

fn tell_binary(page: Page, said: &mut Said) -> bool {
    if page.bytes.starts_with(b"\xef\xbb\xbf") || !is_binary(page) {
        return false;
    }
    said.title(b"the input is not a text");
    said.note(b"A bundle begins with a line `ring 1`, `ring 2` or `ring 3`. Is it the right file?");
    true
}

fn tell_format(page: Page, said: &mut Said) -> bool {
    let first = page.text(1);
    let format = number(field(first, 1)).unwrap_or(0);
    if field(first, 0) != b"ring".as_slice() || format < 4 {
        return false;
    }
    said.title_with(
        b"the ring has format #, and this program reads 1 to 3",
        &[],
        &[format],
    );
    said.fault_at(page.at(1, 1, 1), b"no such format is known here");
    said.note(b"Is it of a newer ringplan? `ringplan --version` says which one this is.");
    true
}
