//! Other targets for moves to dead nodes.

use crate::around::Search;
use crate::moving::{PlannedMove, first_owner};
use ring_names::{NodeId, Slot};
use texts::{at, place_of, raise, set, small};

impl Search<'_> {
    // Marks nodes that ever serve the partition. Looks at each move once.
    fn mark_busy(&mut self, partition: u32) {
        let stamp = partition.saturating_add(1);
        if self.looked_at == stamp {
            return;
        }
        self.looked_at = stamp;
        for index in 0..self.task.ring.n() {
            let slot = Slot { partition, index };
            let owner = first_owner(self.task.ring, slot);
            set(self.busy.as_mut_slice(), owner as usize, stamp);
            let mut next = self.moves.first(slot);
            for turn in 0..self.moves.len() {
                let Some(it) = self.moves.at(next) else {
                    break;
                };
                set(self.busy.as_mut_slice(), it.target as usize, stamp);
                next = it.next;
            }
        }
    }

    fn mark_keeping(&mut self, slot: Slot) {
        let stamp = small(place_of(slot)).saturating_add(1);
        for hint in self.hints.of_partition(slot.partition) {
            if hint.0 != slot {
                set(self.keeping.as_mut_slice(), hint.1 as usize, stamp);
            }
        }
    }

    fn may_take(&self, slot: Slot, node: u32) -> bool {
        let plan = self.task.plan;
        let id = NodeId(node);
        let is_member = self.task.ring.is_member(id) || self.kept(plan.join_of(id)).is_some();
        is_member
            && plan.retirement_of(id).is_none()
            && !self.is_dead(node)
            && at(self.busy.as_slice(), node as usize) != slot.partition.saturating_add(1)
            && at(self.keeping.as_slice(), node as usize) != small(place_of(slot)).saturating_add(1)
    }

    /// Counts the owners in the node's rack.
    pub(crate) fn count_kin(&self, node: u32, owners: &[u32]) -> u32 {
        let Some(racks) = self.task.racks else {
            return 0;
        };
        let mut count = 0u32;
        for owner in owners {
            if *owner != u32::MAX && racks.of(*owner) == racks.of(node) {
                count = count.saturating_add(1);
            }
        }
        count
    }

    /// The final owners of the partition's other slots.
    pub(crate) fn others(&self, it: &PlannedMove) -> [u32; 7] {
        let mut owners = [u32::MAX; 7];
        let partition = it.slot.partition;
        for index in 0..self.task.ring.n() {
            if index != it.slot.index {
                let owner = self.last_owner(Slot { partition, index });
                set(&mut owners, index as usize, owner);
            }
        }
        owners
    }

    /// Returns the best other target: with fewest of the partition's slots in its rack, then with fewest slots.
    ///
    /// None if the owner may stay and is as good.
    pub(crate) fn other_target(&mut self, it: &PlannedMove, owner: u32) -> Option<u32> {
        let owners = self.others(it);
        let mut best = None;
        let mut least = (u32::MAX, u32::MAX);
        if !self.leaves(owner) {
            least = (self.count_kin(owner, &owners), 0);
        }
        if least.0 == 0 {
            return None;
        }
        self.mark_busy(it.slot.partition);
        self.mark_keeping(it.slot);
        for node in 0..small(self.task.ring.nodes().len()) {
            if self.may_take(it.slot, node) {
                let kin = self.count_kin(node, &owners);
                let cost = (kin, at(self.owned.as_slice(), node as usize));
                if cost < least {
                    best = Some(node);
                    least = cost;
                }
            }
        }
        if let Some(node) = best {
            let stamp = it.slot.partition.saturating_add(1);
            set(self.busy.as_mut_slice(), node as usize, stamp);
        }
        best
    }

    pub(crate) fn own(&mut self, node: u32) {
        raise(self.owned.as_mut_slice(), node as usize);
    }

    pub(crate) fn leaves(&self, node: u32) -> bool {
        self.is_dead(node) || self.task.plan.retirement_of(NodeId(node)).is_some()
    }
}
