//! The hints that remain after a history.

use plan_runs::{Entry, Event, Reply};
use ring_names::{NodeId, Refusal, Slot};
use std::alloc::Global;
use std::collections::BTreeSet;

// A stand-in, and a slot of its hints, as partition and index.
type Hint = (u32, u32, u32);

/// Stand-ins and the slots of their hints.
#[derive(Drop)]
pub struct Kept {
    hints: BTreeSet<Hint>,
}

fn hint_of(node: NodeId, slot: Slot) -> Hint {
    (node.0, slot.partition, slot.index)
}

impl Kept {
    /// Starts empty.
    pub fn new(alloc: Global) -> Kept {
        Kept {
            hints: BTreeSet::new(alloc),
        }
    }

    /// Applies an entry.
    pub fn note(&mut self, alloc: Global, entry: &Entry) -> Result<(), Refusal> {
        match &entry.event {
            Event::Hint(_, _, node) => {
                if let Reply::Ticket(slot, _) = &entry.reply {
                    self.hints.insert(hint_of(*node, *slot))?;
                }
            }
            Event::Handoff(node, slot) => {
                self.hints.remove(&hint_of(*node, *slot));
            }
            Event::Lose(node) => self.lose(alloc, *node)?,
            _ => {}
        }
        Ok(())
    }

    // Removes the node's hints. Rebuilds the set: a ring allows few losses.
    fn lose(&mut self, alloc: Global, node: NodeId) -> Result<(), Refusal> {
        let mut left = BTreeSet::new(alloc);
        for hint in self.hints.iter() {
            if hint.0 != node.0 {
                left.insert(*hint)?;
            }
        }
        self.hints = left;
        Ok(())
    }

    /// Returns the sum of these nodes' hinted slots, and the nodes that keep hints.
    pub fn of_nodes(&self, alloc: Global, nodes: &[u32]) -> Result<(u32, Vec<u32>), Refusal> {
        let mut count = 0u32;
        let mut keepers = Vec::new(alloc);
        for hint in self.hints.iter() {
            if nodes.binary_search(&hint.0).is_ok() {
                count = count.saturating_add(1);
                if keepers.last() != Some(&hint.0) {
                    keepers.push(hint.0)?;
                }
            }
        }
        Ok((count, keepers))
    }
}
