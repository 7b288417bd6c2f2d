//! Links as many copies as possible.

use crate::links::Links;
use ring_names::Refusal;
use std::alloc::Global;
use texts::{at, set, set_word, small, word};

/// Copies, each with a bit set of earlier ones.
#[derive(Drop)]
pub(crate) struct EarlierCopies<'a> {
    pub(crate) copies: &'a [u32],
    pub(crate) words: usize,
    pub(crate) sets: Vec<u64>,
}

/// A matching that grows by alternating paths.
#[derive(Drop)]
pub(crate) struct Matching {
    pub(crate) links: Links,
    // of a search: copies seen, 1 plus each copy's asker, and copies to ask
    seen: Vec<u64>,
    asked_by: Vec<u32>,
    queue: Vec<u32>,
    /// The last search's looks.
    pub(crate) spent: u64,
}

impl Matching {
    pub(crate) fn of(
        alloc: Global,
        before: &EarlierCopies,
        links: Links,
    ) -> Result<Matching, Refusal> {
        let count = before.copies.len();
        Ok(Matching {
            links,
            seen: vec![in alloc; 0u64; before.words]?,
            asked_by: vec![in alloc; 0u32; count]?,
            queue: Vec::new(alloc),
            spent: 0,
        })
    }

    /// Lets the copy follow an earlier copy. This may change other links.
    pub(crate) fn link(&mut self, before: &EarlierCopies, copy: usize) -> Result<(), Refusal> {
        self.spent = 0;
        self.queue.clear();
        self.queue.push(small(copy))?;
        for place in 0..self.seen.len() {
            set_word(self.seen.as_mut_slice(), place, 0);
        }
        for turn in 0..before.copies.len() {
            if turn >= self.queue.len() {
                break;
            }
            let asking = at(self.queue.as_slice(), turn);
            for number in 0..before.words {
                self.spent = self.spent.saturating_add(1);
                if let Some(free) = self.ask(before, asking, number)? {
                    self.turn_over(free);
                    return Ok(());
                }
            }
        }
        Ok(())
    }

    // Asks a word's unseen earlier copies. Returns the first free one.
    fn ask(
        &mut self,
        before: &EarlierCopies,
        asking: u32,
        number: usize,
    ) -> Result<Option<u32>, Refusal> {
        let cell = (asking as usize)
            .saturating_mul(before.words)
            .saturating_add(number);
        let seen = word(self.seen.as_slice(), number);
        let new = word(before.sets.as_slice(), cell) & !seen;
        set_word(self.seen.as_mut_slice(), number, seen | new);
        let mut left = new;
        for turn in 0..64 {
            if left == 0 {
                break;
            }
            let copy = small(number.saturating_mul(64)).saturating_add(left.trailing_zeros());
            left &= left.wrapping_sub(1);
            set(&mut self.asked_by, copy as usize, asking.saturating_add(1));
            let follower = self.links.after(copy);
            if follower == 0 {
                return Ok(Some(copy));
            }
            self.queue.push(follower.saturating_sub(1))?;
        }
        Ok(None)
    }

    // Links each asker to the asked copy, back to the first.
    fn turn_over(&mut self, free: u32) {
        let mut copy = free;
        for turn in 0..self.asked_by.len() {
            let asker = at(self.asked_by.as_slice(), copy as usize).saturating_sub(1);
            let old = self.links.before(asker);
            self.links.join(copy, asker);
            if old == 0 {
                break;
            }
            copy = old.saturating_sub(1);
        }
    }
}
