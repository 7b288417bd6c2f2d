//! Moves and their steps.

use find_chains::Stays;
use plan_moves::Move;
use plan_text::{Plan, Source, Step};
use ring_names::{Refusal, Rows, Slot};
use ring_table::Ring;
use std::alloc::Global;
use texts::{at, row};

/// A move with its steps.
#[derive(Clone, Copy, Debug)]
pub struct ShownMove {
    pub slot: Slot,
    pub from: u32,
    pub to: u32,
    pub mirror: u32,
    pub copy: Option<u32>,
    pub switch: Option<u32>,
    /// The copy's round, from 1; 0 without a copy.
    pub round: u32,
    /// The round in which the mirror opens.
    pub opens: u32,
    /// The row of `reads` with the nodes that the copy reads.
    pub reads: Option<usize>,
    /// Whether the copy reads listed slots, not the owner.
    pub is_listed: bool,
}

/// The moves in mirrors' order, and the nodes that copies read.
#[derive(Drop)]
pub struct AllShown {
    pub moves: Vec<ShownMove>,
    pub reads: Rows,
}

#[derive(Clone, Copy)]
struct Copied<'a> {
    number: u32,
    round: u32,
    reads: &'a [u32],
    is_listed: bool,
}

impl AllShown {
    /// Collects the moves.
    pub fn of(
        alloc: Global,
        ring: &Ring,
        plan: &Plan,
        moves: &[Move],
        rounds: &[u32],
    ) -> Result<AllShown, Refusal> {
        let mut all = AllShown {
            moves: Vec::new(alloc),
            reads: Rows::new(alloc),
        };
        let mut stays = Stays::of(alloc, ring)?;
        let owners = stays.len();
        for number in 0..plan.len() {
            let step = plan.step(number);
            match step {
                Step::Mirror(_, _) => all.begin(moves, rounds)?,
                Step::Copy(slot, source) => {
                    let reads = read_nodes(alloc, &stays, *slot, source)?;
                    let copied = Copied {
                        number,
                        round: at(rounds, number as usize),
                        reads: reads.as_slice(),
                        is_listed: matches!(source, Source::Slots(_)),
                    };
                    all.copy(open_move(&stays, owners, *slot), copied)?;
                }
                Step::Switch(slot) => all.switch(open_move(&stays, owners, *slot), number),
                Step::Drop(_, _) | Step::Join(_) | Step::Retire(_) => {}
            }
            stays.act(step, number)?;
        }
        Ok(all)
    }

    fn begin(&mut self, moves: &[Move], rounds: &[u32]) -> Result<(), Refusal> {
        if let Some(found) = moves.get(self.moves.len()) {
            let opens = at(rounds, found.mirror as usize);
            self.moves.push(ShownMove {
                slot: found.slot,
                from: found.from.0,
                to: found.to.0,
                mirror: found.mirror,
                copy: None,
                switch: None,
                round: 0,
                opens,
                reads: None,
                is_listed: false,
            })?;
        }
        Ok(())
    }

    fn copy(&mut self, open: Option<usize>, copied: Copied) -> Result<(), Refusal> {
        let Some(place) = open else {
            return Ok(());
        };
        let row = self.reads.len();
        self.reads.push(copied.reads)?;
        if let Some(shown) = self.moves.get_mut(place) {
            shown.copy = Some(copied.number);
            shown.round = copied.round;
            shown.reads = Some(row);
            shown.is_listed = copied.is_listed;
        }
        Ok(())
    }

    fn switch(&mut self, open: Option<usize>, number: u32) {
        let Some(place) = open else {
            return;
        };
        if let Some(shown) = self.moves.get_mut(place) {
            shown.switch = Some(number);
        }
    }

    /// The nodes that the copy reads, in listed order.
    pub fn read_by(&self, shown: &ShownMove) -> &[u32] {
        match shown.reads {
            Some(place) => row(&self.reads, place),
            None => &[],
        }
    }
}

// A move begins with a mirror, whose stay follows the ring's owners'.
fn open_move(stays: &Stays, owners: usize, slot: Slot) -> Option<usize> {
    stays.mirror_at(slot)?.checked_sub(owners)
}

fn push_owner(nodes: &mut Vec<u32>, stays: &Stays, slot: Slot) -> Result<(), Refusal> {
    match stays.owner(slot) {
        Some(node) if !nodes.as_slice().contains(&node) => nodes.push(node)?,
        _ => {}
    }
    Ok(())
}

// Lists each node once.
fn read_nodes(
    alloc: Global,
    stays: &Stays,
    slot: Slot,
    source: &Source,
) -> Result<Vec<u32>, Refusal> {
    let mut nodes = Vec::new(alloc);
    match source {
        Source::Owner => push_owner(&mut nodes, stays, slot)?,
        Source::Slots(from) => {
            for index in from.as_slice() {
                let (partition, index) = (slot.partition, u32::from(*index));
                push_owner(&mut nodes, stays, Slot { partition, index })?;
            }
        }
    }
    Ok(nodes)
}
