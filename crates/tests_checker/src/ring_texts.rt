//! Ring texts with many nodes, named by a word and a number.

use ring_names::push_decimal;
use std::alloc::AllocError;

/// Adds the word and the number.
pub fn push_numbered(text: &mut Vec<u8>, word: &[u8], number: u32) -> Result<(), AllocError> {
    text.extend_from_slice(word)?;
    push_decimal(text, number)
}

/// Adds lines of nodes from `first` to before `end`.
pub fn push_nodes(
    text: &mut Vec<u8>,
    word: &[u8],
    first: u32,
    end: u32,
    rest: &[&[u8]],
) -> Result<(), AllocError> {
    for node in first..end {
        push_numbered(text, word, node)?;
        push_all(text, rest)?;
    }
    Ok(())
}

fn push_all(text: &mut Vec<u8>, parts: &[&[u8]]) -> Result<(), AllocError> {
    for part in parts {
        text.extend_from_slice(part)?;
    }
    Ok(())
}

/// Adds owners: nodes below `nodes` in turn, from `first` on.
pub fn push_owners(
    text: &mut Vec<u8>,
    word: &[u8],
    first: u32,
    count: u32,
    nodes: u32,
) -> Result<(), AllocError> {
    for index in 0..count {
        if let Some(owner) = first.saturating_add(index).checked_rem(nodes) {
            push_numbered(text, word, owner)?;
        }
    }
    Ok(())
}
