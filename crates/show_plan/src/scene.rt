//! What a plan shows.

use crate::loads::Loads;
use crate::shown::{AllShown, ShownMove};
use plan_cert::Cert;
use plan_check::Approved;
use plan_moves::{last_owners, moves, rounds};
use plan_text::{Plan, Step};
use ring_names::{Listed, NodeId, Refusal};
use ring_table::Ring;
use std::alloc::Global;
use texts::{at, place_of, raise};

/// An approved plan, with all that is shown.
#[derive(Drop)]
pub struct Scene {
    pub shown: AllShown,
    /// Each step's round.
    pub rounds: Vec<u32>,
    /// Each round's number of copies, from round 1.
    pub widths: Vec<u32>,
    /// The joining nodes, in step order.
    pub joins: Vec<u32>,
    pub leaves: Vec<u32>,
    /// The different moving slots.
    pub moved_slots: u32,
    /// The final owners, by partition.
    pub last_rows: Vec<Listed<NodeId>>,
    pub loads: Loads,
}

impl Scene {
    /// Collects what is shown. Fails only with `OutOfMemory`.
    pub fn of(alloc: Global, approved: &Approved, cert: &Cert) -> Result<Scene, Refusal> {
        let (ring, plan) = (approved.ring(), approved.plan());
        let begun = moves(alloc, ring, plan)?;
        let rounds = rounds(alloc, plan)?;
        let shown = AllShown::of(alloc, ring, plan, begun.as_slice(), rounds.as_slice())?;
        let widths = widths(alloc, shown.moves.as_slice())?;
        let (joins, leaves) = changed_members(alloc, plan)?;
        let moved_slots = moved_slots(alloc, ring, shown.moves.as_slice())?;
        let last_rows = last_owners(alloc, ring, plan)?;
        let mut loads = Loads::of(alloc, ring, cert, &shown, last_rows.as_slice())?;
        loads.count_fewest(alloc, ring, plan)?;
        Ok(Scene {
            shown,
            rounds,
            widths,
            joins,
            leaves,
            moved_slots,
            last_rows,
            loads,
        })
    }

    /// The number of rounds.
    pub fn round_count(&self) -> u32 {
        texts::small(self.widths.len())
    }

    /// The widest round's number of copies.
    pub fn widest(&self) -> u32 {
        let mut most = 0u32;
        for width in self.widths.as_slice() {
            most = most.max(*width);
        }
        most
    }

    /// Counts the moves.
    pub fn move_count(&self) -> u32 {
        texts::small(self.shown.moves.len())
    }

    /// Whether the node is a final member.
    pub fn stays(&self, ring: &Ring, node: u32) -> bool {
        let is_member = ring.is_member(NodeId(node)) || self.joins.as_slice().contains(&node);
        is_member && !self.leaves.as_slice().contains(&node)
    }

    /// Whether the node joins, leaves, gives or takes.
    pub fn takes_part(&self, node: u32) -> bool {
        at(self.loads.gives.as_slice(), node as usize) > 0
            || at(self.loads.takes.as_slice(), node as usize) > 0
            || self.joins.as_slice().contains(&node)
            || self.leaves.as_slice().contains(&node)
    }
}

fn widths(alloc: Global, moves: &[ShownMove]) -> Result<Vec<u32>, Refusal> {
    let mut most = 0u32;
    for shown in moves {
        most = most.max(shown.round);
    }
    let mut widths = vec![in alloc; 0u32; most as usize]?;
    for shown in moves {
        if shown.round > 0 {
            raise(widths.as_mut_slice(), shown.round as usize - 1);
        }
    }
    Ok(widths)
}

fn moved_slots(alloc: Global, ring: &Ring, moves: &[ShownMove]) -> Result<u32, Refusal> {
    let mut marks = vec![in alloc; 0u32; (ring.q() as usize).saturating_mul(7)]?;
    let mut count = 0u32;
    for shown in moves {
        let place = place_of(shown.slot);
        if at(marks.as_slice(), place) == 0 {
            count = count.saturating_add(1);
        }
        raise(marks.as_mut_slice(), place);
    }
    Ok(count)
}

fn changed_members(alloc: Global, plan: &Plan) -> Result<(Vec<u32>, Vec<u32>), Refusal> {
    let (mut joins, mut leaves) = (Vec::new(alloc), Vec::new(alloc));
    for number in 0..plan.len() {
        match plan.step(number) {
            Step::Join(node) => joins.push(node.0)?,
            Step::Retire(node) => leaves.push(node.0)?,
            _ => {}
        }
    }
    Ok((joins, leaves))
}
