//! Nodes that do not retire or join.

use crate::around::Search;
use crate::moving::first_owner;
use ring_names::{NodeId, Refusal, Slot};
use texts::small;

impl Search<'_> {
    pub(crate) fn part_from_dead(&mut self) {
        let plan = self.task.plan;
        for node in self.task.dead {
            let join = plan.join_of(*node);
            if join.is_some() && !self.has_done(join) && self.kept(join).is_some() {
                self.remove(join);
                self.say_of_node(b"@ does not join\n", node.0);
            }
            let retire = plan.retirement_of(*node);
            if retire.is_some() && !self.has_done(retire) && self.kept(retire).is_some() {
                self.remove(retire);
                self.say_of_node(
                    b"@ does not retire: let it leave by the next change\n",
                    node.0,
                );
            }
        }
    }

    /// Leaves out retirements of nodes that keep a slot, or a hint for a dead owner.
    pub(crate) fn keep_holders(&mut self) -> Result<(), Refusal> {
        let mut held = vec![in self.task.alloc; None; self.task.ring.nodes().len()]?;
        self.find_held(held.as_mut_slice());
        let mut kept = vec![in self.task.alloc; None; self.task.ring.nodes().len()]?;
        self.find_kept(kept.as_mut_slice());
        for node in 0..small(self.task.ring.nodes().len()) {
            let retire = self.task.plan.retirement_of(NodeId(node));
            if retire.is_some() && !self.has_done(retire) && self.kept(retire).is_some() {
                if let Some(Some(slot)) = kept.get(node as usize) {
                    self.remove(retire);
                    self.say_of_slot(
                        b"@ does not retire: the hint for slot # # stays there, since the slot's owner is dead\n",
                        node,
                        *slot,
                    );
                } else if let Some(Some(slot)) = held.get(node as usize) {
                    self.remove(retire);
                    self.say_of_slot(b"@ does not retire: slot # # stays there\n", node, *slot);
                }
            }
        }
        Ok(())
    }

    fn find_kept(&self, kept: &mut [Option<Slot>]) {
        for hint in self.hints.all() {
            if self.is_dead(self.last_owner(hint.0)) {
                if let Some(old) = kept.get_mut(hint.1 as usize) {
                    *old = Some(hint.0);
                }
            }
        }
    }

    // Finds, for each node, a slot that it finally serves or does not drop.
    fn find_held(&self, held: &mut [Option<Slot>]) {
        for partition in 0..self.task.ring.q() {
            for index in 0..self.task.ring.n() {
                self.find_held_of(held, Slot { partition, index });
            }
        }
    }

    // A node holds the slot until its last move's drop.
    fn find_held_of(&self, held: &mut [Option<Slot>], slot: Slot) {
        hold(held, first_owner(self.task.ring, slot), slot);
        let mut next = self.moves.first(slot);
        for turn in 0..self.moves.len() {
            let Some(it) = self.moves.at(next) else {
                break;
            };
            if self.kept(it.mirror).is_some() {
                hold(held, it.target, slot);
            }
            if self.kept(it.switch).is_some() && self.kept(it.drop).is_some() {
                release(held, it.source, slot);
            }
            next = it.next;
        }
    }
}

fn hold(held: &mut [Option<Slot>], node: u32, slot: Slot) {
    if let Some(old) = held.get_mut(node as usize) {
        if old.is_none() {
            *old = Some(slot);
        }
    }
}

fn release(held: &mut [Option<Slot>], node: u32, slot: Slot) {
    if let Some(old) = held.get_mut(node as usize) {
        if *old == Some(slot) {
            *old = None;
        }
    }
}
