//! Facts by their ends.

use ring_names::{Refusal, Rows};
use std::alloc::Global;

/// The facts' first and last steps, sorted.
#[derive(Drop)]
pub struct FactEnds {
    pairs: Vec<(u32, u32)>,
}

impl FactEnds {
    /// Collects the ends. Costs a sort.
    pub fn of(alloc: Global, facts: &Rows) -> Result<FactEnds, Refusal> {
        let mut pairs = Vec::new(alloc);
        for place in 0..facts.len() {
            let path = facts.row(place);
            if let (Some(first), Some(last)) = (path.first(), path.last()) {
                pairs.push((*first, *last))?;
            }
        }
        pairs.sort_unstable();
        Ok(FactEnds { pairs })
    }

    /// Whether a fact has these ends. Costs a binary search.
    pub fn has(&self, first: u32, last: u32) -> bool {
        self.pairs.binary_search(&(first, last)).is_ok()
    }
}
