//! Which nodes serve slots.

use plan_text::Step;
use ring_names::{NodeId, Refusal, Slot};
use ring_table::Ring;
use std::alloc::Global;
use std::collections::BTreeMap;
use texts::{at, place_of, set, small};

/// A node's stay at a slot, since the start or a mirror.
#[derive(Clone, Copy, Debug)]
pub struct Stay {
    pub slot: Slot,
    pub node: u32,
    /// The mirror that began it. None for a first owner.
    pub begun: Option<u32>,
    /// The switch that ended it.
    pub left: Option<u32>,
    /// The node's first drop at the slot after that switch.
    pub dropped: Option<u32>,
    /// The place of the node's previous stay at this slot.
    pub same_before: Option<usize>,
    /// The place of the node's previous stay.
    pub node_before: Option<usize>,
}

/// All stays: of first owners by slot, then of mirrors.
///
/// A step costs a look-up among its slot's mirrors so far.
#[derive(Drop)]
pub struct Stays {
    all: Vec<Stay>,
    // 1 plus places of stays, or 0: by slot, of first owner, owner and mirror; by node, of the latest
    firsts: Vec<u32>,
    owners: Vec<u32>,
    mirrors: Vec<u32>,
    by_node: Vec<u32>,
    // each mirror's latest stay; ordered, since plans choose how often a slot moves
    latest: BTreeMap<(Slot, u32), usize>,
}

fn place(number: u32) -> Option<usize> {
    if number == 0 {
        return None;
    }
    Some(number.saturating_sub(1) as usize)
}

impl Stays {
    /// Starts before the first step.
    pub fn of(alloc: Global, ring: &Ring) -> Result<Stays, Refusal> {
        let slots = (ring.q() as usize).saturating_mul(7);
        let mut stays = Stays {
            all: Vec::new(alloc),
            firsts: vec![in alloc; 0u32; slots]?,
            owners: vec![in alloc; 0u32; slots]?,
            mirrors: vec![in alloc; 0u32; slots]?,
            by_node: vec![in alloc; 0u32; ring.nodes().len()]?,
            latest: BTreeMap::new(alloc),
        };
        stays.begin_all(ring)?;
        Ok(stays)
    }

    fn begin_all(&mut self, ring: &Ring) -> Result<(), Refusal> {
        let mut partition = 0u32;
        for row in ring.rows() {
            let mut index = 0u32;
            for node in row.as_slice() {
                let slot = Slot { partition, index };
                let number = self.begin(slot, *node, None)?;
                set(self.firsts.as_mut_slice(), place_of(slot), number);
                set(self.owners.as_mut_slice(), place_of(slot), number);
                index = index.saturating_add(1);
            }
            partition = partition.saturating_add(1);
        }
        Ok(())
    }

    // Returns 1 plus the new stay's place.
    fn begin(&mut self, slot: Slot, node: NodeId, begun: Option<u32>) -> Result<u32, Refusal> {
        let mut same_before = self.first_at(slot, node.0);
        if begun.is_some() {
            let latest = self.latest.insert((slot, node.0), self.all.len())?;
            same_before = latest.or(same_before);
        }
        let stay = Stay {
            slot,
            node: node.0,
            begun,
            left: None,
            dropped: None,
            same_before,
            node_before: self.latest_of(node.0),
        };
        self.all.push(stay)?;
        let number = small(self.all.len());
        set(self.by_node.as_mut_slice(), node.0 as usize, number);
        Ok(number)
    }

    /// Applies the step.
    pub fn act(&mut self, step: &Step, number: u32) -> Result<(), Refusal> {
        match step {
            Step::Mirror(slot, node) => self.mirror_to(*slot, *node, number)?,
            Step::Switch(slot) => self.switch(place_of(*slot), number),
            Step::Drop(slot, node) => self.drop_held(*slot, node.0, number),
            Step::Copy(_, _) | Step::Join(_) | Step::Retire(_) => {}
        }
        Ok(())
    }

    fn mirror_to(&mut self, slot: Slot, node: NodeId, number: u32) -> Result<(), Refusal> {
        let stay = self.begin(slot, node, Some(number))?;
        set(self.mirrors.as_mut_slice(), place_of(slot), stay);
        Ok(())
    }

    fn switch(&mut self, slot: usize, number: u32) {
        let mirror = at(self.mirrors.as_slice(), slot);
        let owner = at(self.owners.as_slice(), slot);
        if mirror == 0 {
            return;
        }
        set(self.owners.as_mut_slice(), slot, mirror);
        set(self.mirrors.as_mut_slice(), slot, 0);
        if let Some(owner) = place(owner) {
            if let Some(stay) = self.all.get_mut(owner) {
                stay.left = Some(number);
            }
        }
    }

    fn drop_held(&mut self, slot: Slot, node: u32, number: u32) {
        let mut next = self.latest_at(slot, node);
        for turn in 0..self.all.len() {
            let Some(stay) = next else {
                return;
            };
            next = self.drop_one(stay, number);
        }
    }

    // Drops one stay. Returns the previous stay, unless this one was dropped already: then all before were.
    fn drop_one(&mut self, place: usize, number: u32) -> Option<usize> {
        let stay = self.all.get_mut(place)?;
        if stay.dropped.is_some() {
            return None;
        }
        stay.dropped = Some(number);
        stay.same_before
    }

    /// Counts the stays so far.
    pub fn len(&self) -> usize {
        self.all.len()
    }

    /// The stay at the place.
    pub fn stay(&self, place: Option<usize>) -> Option<Stay> {
        self.all.get(place?).copied()
    }

    /// The place of the node's latest stay at the slot.
    pub fn latest_at(&self, slot: Slot, node: u32) -> Option<usize> {
        let latest = self.latest.get(&(slot, node)).copied();
        latest.or(self.first_at(slot, node))
    }

    fn first_at(&self, slot: Slot, node: u32) -> Option<usize> {
        let first = place(at(self.firsts.as_slice(), place_of(slot)));
        if self.stay(first)?.node == node {
            first
        } else {
            None
        }
    }

    /// The place of the node's latest stay.
    pub fn latest_of(&self, node: u32) -> Option<usize> {
        place(at(self.by_node.as_slice(), node as usize))
    }

    /// The place of the mirror's stay.
    pub fn mirror_at(&self, slot: Slot) -> Option<usize> {
        place(at(self.mirrors.as_slice(), place_of(slot)))
    }

    /// The slot's owner.
    pub fn owner(&self, slot: Slot) -> Option<u32> {
        let place = place(at(self.owners.as_slice(), place_of(slot)));
        Some(self.stay(place)?.node)
    }

    /// The slot's mirror.
    pub fn mirror(&self, slot: Slot) -> Option<u32> {
        Some(self.stay(self.mirror_at(slot))?.node)
    }
}
