//! Each step's dependencies.

use ring_names::Refusal;
use std::alloc::Global;

#[derive(Drop)]
pub(crate) struct Needs {
    lists: Vec<Vec<u32>>,
    count: usize,
}

// Twice a plan's most dependencies: as many again may be omitted.
const MOST: usize = 1_048_576;

impl Needs {
    pub(crate) fn of(alloc: Global, steps: usize) -> Result<Needs, Refusal> {
        let mut lists = Vec::new(alloc);
        for step in 0..steps {
            lists.push(Vec::new(alloc))?;
        }
        Ok(Needs { lists, count: 0 })
    }

    /// Adds a dependency. Fails with `NoPlan` if no plan may have so many.
    pub(crate) fn add(&mut self, step: u32, other: u32) -> Result<(), Refusal> {
        if self.count >= MOST {
            return Err(Refusal::NoPlan);
        }
        if let Some(list) = self.lists.get_mut(step as usize) {
            list.push(other)?;
            self.count = self.count.saturating_add(1);
        }
        Ok(())
    }

    /// The step's dependencies, as added.
    pub(crate) fn row(&self, step: u32) -> &[u32] {
        match self.lists.get(step as usize) {
            Some(list) => list.as_slice(),
            None => &[],
        }
    }
}
