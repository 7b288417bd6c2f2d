//! Finds similar words.

use ring_names::Refusal;
use std::alloc::Global;
use std::str;
use strsim::osa_distance;

const LONGEST: usize = 32;

// Counts letters to change, remove, add or swap. None if long or not UTF-8.
fn distance(alloc: Global, one: &[u8], other: &[u8]) -> Result<Option<usize>, Refusal> {
    if one.len() > LONGEST || other.len() > LONGEST {
        return Ok(None);
    }
    match (str::from_utf8(one), str::from_utf8(other)) {
        (Ok(one), Ok(other)) => {
            let count = osa_distance(alloc, one, other)?;
            Ok(Some(count))
        }
        _ => Ok(None),
    }
}

/// The nearest word so far.
#[derive(Clone, Copy)]
pub struct Nearest<'a> {
    pub word: &'a [u8],
    far: usize,
}

impl<'a> Nearest<'a> {
    /// Starts without a word. A near word differs in at most two letters, and fewer than half.
    pub fn new(word: &[u8]) -> Nearest<'a> {
        Nearest {
            word: b"",
            far: 3usize.min(word.len().saturating_add(1) / 2),
        }
    }

    /// Compares another word.
    pub fn look(&mut self, alloc: Global, word: &[u8], other: &'a [u8]) -> Result<(), Refusal> {
        if let Some(far) = distance(alloc, word, other)? {
            if far < self.far {
                self.far = far;
                self.word = other;
            }
        }
        Ok(())
    }
}
