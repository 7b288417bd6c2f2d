//! Faulty layouts.

use change_text::read_layout;
use ring_names::Refusal;
use show_why::{Page, Said, tell_layout};
use std::alloc::Global;
use texts::Words;

// Adds the mend and its result, unless the refusal stays.
fn push_mend(
    alloc: Global,
    out: &mut Words,
    bytes: &[u8],
    said: &Said,
    was: &Refusal,
) -> Result<(), Refusal> {
    let mut mended = Words::new(alloc);
    said.mended(&mut mended, Page { bytes });
    match read_layout(alloc, mended.end()?.as_slice()) {
        Ok(_) => {
            said.push_mend(out);
            out.text(b"  then it can be read.\n");
        }
        Err(Refusal::OutOfMemory) => return Err(Refusal::OutOfMemory),
        Err(Refusal::BadLine(line) | Refusal::TooLarge(line) | Refusal::Repeated(line))
            if !is_at(was, line) => {
            said.push_mend(out);
            out.fill(b"  then line # is at fault.\n", &[], &[line]);
        }
        Err(_) => {}
    }
    Ok(())
}

fn is_at(refusal: &Refusal, number: u32) -> bool {
    match refusal {
        Refusal::BadLine(line) | Refusal::TooLarge(line) | Refusal::Repeated(line) => {
            *line == number
        }
        _ => false,
    }
}

/// Returns what is wrong with a layout, and a mend.
pub fn layout_fault(alloc: Global, bytes: &[u8], refusal: &Refusal) -> Result<Vec<u8>, Refusal> {
    let mut said = Said::new(alloc);
    tell_layout(alloc, &mut said, bytes, refusal)?;
    let mut out = Words::new(alloc);
    said.push_on(&mut out, Page { bytes });
    if said.has_mend() {
        push_mend(alloc, &mut out, bytes, &said, refusal)?;
    }
    out.end()
}
