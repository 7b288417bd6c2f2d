//! Chains of copies.

use ring_names::{Refusal, Rows};
use std::alloc::Global;
use texts::{at, set, small};

/// By copy, the earlier copy that it follows. At most one copy follows each.
#[derive(Drop)]
pub(crate) struct Links {
    // by copy, 1 plus its predecessor and 1 plus its successor; 0 for none
    follows: Vec<u32>,
    followed: Vec<u32>,
}

impl Links {
    pub(crate) fn of(alloc: Global, copies: usize) -> Result<Links, Refusal> {
        Ok(Links {
            follows: vec![in alloc; 0u32; copies]?,
            followed: vec![in alloc; 0u32; copies]?,
        })
    }

    pub(crate) fn before(&self, copy: u32) -> u32 {
        at(self.follows.as_slice(), copy as usize)
    }

    pub(crate) fn after(&self, copy: u32) -> u32 {
        at(self.followed.as_slice(), copy as usize)
    }

    pub(crate) fn join(&mut self, first: u32, second: u32) {
        set(
            self.follows.as_mut_slice(),
            second as usize,
            first.saturating_add(1),
        );
        set(
            self.followed.as_mut_slice(),
            first as usize,
            second.saturating_add(1),
        );
    }

    pub(crate) fn count(&self) -> u32 {
        let mut count = 0u32;
        for before in self.follows.as_slice() {
            if *before == 0 {
                count = count.saturating_add(1);
            }
        }
        count
    }

    /// Chains as step numbers, ordered by first copy.
    pub(crate) fn chains(&self, alloc: Global, copies: &[u32]) -> Result<Rows, Refusal> {
        let mut rows = Rows::new(alloc);
        let mut chain = Vec::new(alloc);
        for place in 0..copies.len() {
            let first = small(place);
            if self.before(first) == 0 {
                chain.clear();
                self.walk(&mut chain, copies, first)?;
                rows.push(chain.as_slice())?;
            }
        }
        Ok(rows)
    }

    fn walk(&self, chain: &mut Vec<u32>, copies: &[u32], first: u32) -> Result<(), Refusal> {
        let mut copy = first;
        for turn in 0..copies.len() {
            chain.push(at(copies, copy as usize))?;
            let next = self.after(copy);
            if next == 0 {
                break;
            }
            copy = next.saturating_sub(1);
        }
        Ok(())
    }
}
