//! Sides of nodes.

use crate::stays::Stays;
use plan_text::{Plan, Source, Step};
use ring_names::{NodeId, Refusal, Slot};
use ring_table::{Allowance, NodeSide, Ring, Side};
use std::alloc::Global;
use texts::{at, set, small};

/// The copies of each side, ascending.
#[derive(Drop)]
pub struct Sides {
    // at twice the node's number, copies to it, or all if joint; next, copies from a split node
    lists: Vec<Vec<u32>>,
    // by node, whether its allowance has two numbers
    split: Vec<bool>,
}

impl Sides {
    /// Collects a plan's copies in one pass.
    pub fn of(alloc: Global, ring: &Ring, plan: &Plan) -> Result<Sides, Refusal> {
        let mut sides = Sides::empty(alloc, ring)?;
        let mut stays = Stays::of(alloc, ring)?;
        for number in 0..plan.len() {
            let step = plan.step(number);
            if let Step::Copy(slot, source) = step {
                sides.copy(&stays, *slot, source, number)?;
            }
            stays.act(step, number)?;
        }
        Ok(sides)
    }

    fn empty(alloc: Global, ring: &Ring) -> Result<Sides, Refusal> {
        let mut sides = Sides {
            lists: Vec::new(alloc),
            split: Vec::new(alloc),
        };
        for node in ring.nodes() {
            sides.lists.push(Vec::new(alloc))?;
            sides.lists.push(Vec::new(alloc))?;
            let is_split = matches!(node.allowance, Allowance::Split { .. });
            sides.split.push(is_split)?;
        }
        Ok(sides)
    }

    // The slot's mirror takes; owners of read slots give.
    fn copy(
        &mut self,
        stays: &Stays,
        slot: Slot,
        source: &Source,
        number: u32,
    ) -> Result<(), Refusal> {
        if let Some(node) = stays.mirror(slot) {
            self.add(node, Side::Take, number)?;
        }
        match source {
            Source::Owner => self.give(stays, slot, number),
            Source::Slots(from) => {
                for index in from.as_slice() {
                    let partition = slot.partition;
                    let index = u32::from(*index);
                    self.give(stays, Slot { partition, index }, number)?;
                }
                Ok(())
            }
        }
    }

    fn give(&mut self, stays: &Stays, slot: Slot, number: u32) -> Result<(), Refusal> {
        match stays.owner(slot) {
            Some(node) => self.add(node, Side::Give, number),
            None => Ok(()),
        }
    }

    fn place(&self, node: u32, side: Side) -> usize {
        let place = (node as usize).saturating_mul(2);
        let is_split = self.split.get(node as usize) == Some(&true);
        if is_split && side == Side::Give {
            return place.saturating_add(1);
        }
        place
    }

    fn add(&mut self, node: u32, side: Side, number: u32) -> Result<(), Refusal> {
        let place = self.place(node, side);
        if let Some(list) = self.lists.get_mut(place) {
            if list.last() != Some(&number) {
                list.push(number)?;
            }
        }
        Ok(())
    }

    /// The copies of the node's side.
    pub fn copies(&self, of: NodeSide) -> &[u32] {
        match self.lists.get(self.place(of.node.0, of.side)) {
            Some(list) => list.as_slice(),
            None => &[],
        }
    }
}

/// The node's sides, each with its limit of open transfers.
pub fn sides_of(ring: &Ring, number: usize) -> [Option<(NodeSide, u32)>; 2] {
    let node = NodeId(small(number));
    match ring.nodes().get(number) {
        Some(declared) => match declared.allowance {
            Allowance::Joint(most) => [one(node, Side::Both, most), None],
            Allowance::Split { take, give } => {
                [one(node, Side::Take, take), one(node, Side::Give, give)]
            }
        },
        None => [None, None],
    }
}

fn one(node: NodeId, side: Side, most: u32) -> Option<(NodeSide, u32)> {
    Some((NodeSide { node, side }, most))
}
