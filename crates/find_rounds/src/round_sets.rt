//! Sets of rounds.

use ring_names::Refusal;
use std::alloc::Global;

const WORD: usize = 64;

/// A set of rounds for each group.
#[derive(Drop)]
pub struct RoundSets {
    // each set's words
    words: usize,
    // a bit for each round
    bits: Vec<u64>,
}

fn first_rounds(count: usize) -> u64 {
    if count >= WORD {
        return u64::MAX;
    }
    (1u64 << (count as u32 % 64)).saturating_sub(1)
}

fn bit(round: usize) -> u64 {
    1u64 << ((round % WORD) as u32 % 64)
}

impl RoundSets {
    /// Starts empty.
    pub fn new(alloc: Global) -> RoundSets {
        RoundSets {
            words: 0,
            bits: Vec::new(alloc),
        }
    }

    /// Fills each set with all rounds.
    pub fn fill(&mut self, groups: usize, rounds: usize) -> Result<(), Refusal> {
        self.words = rounds.saturating_add(63) / WORD;
        for _ in 0..groups {
            for word in 0..self.words {
                let before = word.saturating_mul(WORD);
                self.bits.push(first_rounds(rounds.saturating_sub(before)))?;
            }
        }
        Ok(())
    }

    fn place(&self, group: usize, word: usize) -> usize {
        group.saturating_mul(self.words).saturating_add(word)
    }

    fn word(&self, group: usize, word: usize) -> u64 {
        match self.bits.get(self.place(group, word)) {
            Some(bits) => *bits,
            None => 0,
        }
    }

    /// Adds the group's round, or removes it.
    pub fn put(&mut self, group: usize, round: usize, is_in: bool) {
        let place = self.place(group, round / WORD);
        if let Some(bits) = self.bits.get_mut(place) {
            if is_in {
                *bits |= bit(round);
            } else {
                *bits &= !bit(round);
            }
        }
    }

    /// The least round in both groups' sets. The groups may be the same.
    pub fn common(&self, first: usize, second: usize) -> Option<usize> {
        for word in 0..self.words {
            let both = self.word(first, word) & self.word(second, word);
            if both != 0 {
                let before = word.saturating_mul(WORD);
                return Some(before.saturating_add(both.trailing_zeros() as usize));
            }
        }
        None
    }
}
