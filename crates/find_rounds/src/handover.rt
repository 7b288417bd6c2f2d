//! Plans moves to new owners.

use crate::groups::Groups;
use crate::layout::Layout;
use crate::moving::SlotMove;
use crate::rounds::Schedule;
use crate::task::Task;
use crate::writing::{Turnover, write};
use plan_cert::Cert;
use plan_text::Plan;
use ring_names::{Listed, NodeId, Refusal, Slot};
use ring_table::Ring;
use std::alloc::Global;
use texts::small;

/// A wanted change of owners.
#[derive(Clone, Copy)]
pub struct Handover<'a> {
    pub alloc: Global,
    pub ring: &'a Ring,
    /// By partition, its owners in any order: as many as before, all different.
    pub rows: &'a [Listed<NodeId>],
    pub turnover: Turnover<'a>,
    pub dead: &'a [NodeId],
}

fn owners(rows: &[Listed<NodeId>], partition: usize) -> &[NodeId] {
    match rows.get(partition) {
        Some(row) => row.as_slice(),
        None => &[],
    }
}

fn has(row: &[NodeId], node: NodeId) -> bool {
    row.iter().any(|other| other.0 == node.0)
}

// The next node that the row lacks, and the place after it.
fn next_new(nodes: &[NodeId], row: &[NodeId], from: usize) -> Option<(NodeId, usize)> {
    for place in from..nodes.len() {
        if let Some(node) = nodes.get(place) {
            if !has(row, *node) {
                return Some((*node, place.saturating_add(1)));
            }
        }
    }
    None
}

impl<'a> Handover<'a> {
    fn groups(&self) -> Result<Groups, Refusal> {
        let mut groups = Groups::of(self.alloc, self.ring)?;
        for node in self.dead {
            groups.bar(node.0);
        }
        Ok(groups)
    }

    // Adds a partition's moves, from lost to gained owners in order.
    fn push_moves(
        &self,
        layout: &mut Layout,
        out: &mut Vec<SlotMove>,
        partition: usize,
    ) -> Result<(), Refusal> {
        let ours = owners(self.ring.rows(), partition);
        let theirs = owners(self.rows, partition);
        let (mut index, mut from) = (0u32, 0usize);
        for owner in ours {
            if !has(theirs, *owner) {
                let Some((node, next)) = next_new(theirs, ours, from) else {
                    break;
                };
                from = next;
                let slot = Slot {
                    partition: small(partition),
                    index,
                };
                layout.let_move(layout.place_of(slot));
                out.push(SlotMove {
                    slot,
                    from: owner.0,
                    to: node.0,
                })?;
            }
            index = index.saturating_add(1);
        }
        Ok(())
    }

    fn moves(&self, layout: &mut Layout) -> Result<Vec<SlotMove>, Refusal> {
        let mut out = Vec::new(self.alloc);
        for partition in 0..layout.partitions {
            self.push_moves(layout, &mut out, partition)?;
        }
        Ok(out)
    }

    /// Finds a plan to these owners, and a certificate. Owners are compared as sets, so no slot moves needlessly.
    ///
    /// Fails with `OutOfMemory`, or with `NoPlan` if a dead node's slot moves and fewer than R others can be read.
    pub fn plan(&self) -> Result<(Plan, Cert), Refusal> {
        let groups = self.groups()?;
        let mut layout = Layout::of(self.alloc, self.ring)?;
        let moves = self.moves(&mut layout)?;
        let task = Task {
            alloc: self.alloc,
            layout: &layout,
            groups: &groups,
            moves: moves.as_slice(),
            reads: self.ring.r(),
        };
        let mut schedule = Schedule::new(self.alloc);
        schedule.fill(&task)?;
        write(&task, &schedule, &self.turnover)
    }
}
