//! Writes a plan.

use crate::moving::SlotMove;
use crate::rounds::Schedule;
use crate::steps::add;
use crate::task::Task;
use plan_cert::{Cert, Chains};
use plan_text::{Indexes, Plan, Source, Step};
use ring_names::{Lists, NodeId, Refusal, Rows, Slot};
use std::alloc::Global;
use texts::{at, row, small};

/// Nodes that join, and that retire.
#[derive(Clone, Copy)]
pub struct Turnover<'a> {
    pub joins: &'a [u32],
    pub retires: &'a [u32],
}

#[derive(Drop)]
struct Writer<'a> {
    task: &'a Task<'a>,
    plan: Plan,
    cert: Cert,
    // by group, its copies; by node, its drops
    copies: Lists<u32, u32>,
    drops: Lists<u32, u32>,
    // by a moving slot's place, the copies that list it
    readers: Lists<u32, u32>,
}

fn source(listed: &[u32]) -> Result<Source, Refusal> {
    if listed.is_empty() {
        return Ok(Source::Owner);
    }
    match Indexes::of(listed) {
        Some(indexes) => Ok(Source::Slots(indexes)),
        None => Err(Refusal::NoPlan),
    }
}

impl<'a> Writer<'a> {
    fn join(&mut self, nodes: &[u32]) -> Result<(), Refusal> {
        for node in nodes {
            add(&mut self.plan, Step::Join(NodeId(*node)), &[])?;
        }
        Ok(())
    }

    // The copy that must end before the group opens another.
    fn link(&self, group: u32) -> Option<u32> {
        let copies = self.copies.items(&group);
        let most = self.task.groups.most(group as usize) as usize;
        match copies.len().checked_sub(most) {
            Some(place) if most > 0 => Some(at(copies, place)),
            _ => None,
        }
    }

    fn links(&self, parties: &[u32]) -> Result<Vec<u32>, Refusal> {
        let mut links = Vec::new(self.task.alloc);
        for group in parties {
            if let Some(copy) = self.link(*group) {
                if !links.contains(&copy) {
                    links.push(copy)?;
                }
            }
        }
        links.sort_unstable();
        Ok(links)
    }

    // Adds the mirror after what its copy awaits, so that it does not open early.
    fn mirror(&mut self, step: &SlotMove, links: &[u32]) -> Result<u32, Refusal> {
        let node = NodeId(step.to);
        let mut after = Vec::new(self.task.alloc);
        if let Some(join) = self.plan.join_of(node) {
            after.push(join)?;
        }
        after.extend_from_slice(links)?;
        add(&mut self.plan, Step::Mirror(step.slot, node), &after)
    }

    fn copy(&mut self, step: &SlotMove, listed: &[u32], parties: &[u32]) -> Result<u32, Refusal> {
        let mut after = self.links(parties)?;
        let mirror = self.mirror(step, &after)?;
        after.push(mirror)?;
        let source = source(listed)?;
        add(&mut self.plan, Step::Copy(step.slot, source), &after)
    }

    fn note_readers(&mut self, partition: u32, listed: &[u32], copy: u32) -> Result<(), Refusal> {
        let layout = self.task.layout;
        for index in listed {
            let place = layout.place(partition as usize, *index as usize);
            if layout.moves(place) {
                self.readers.add(small(place), copy)?;
            }
        }
        Ok(())
    }

    fn switch(&mut self, slot: Slot, copy: u32) -> Result<u32, Refusal> {
        let place = small(self.task.layout.place_of(slot));
        let mut after = Vec::from_slice(self.task.alloc, self.readers.items(&place))?;
        after.push(copy)?;
        after.sort_unstable();
        add(&mut self.plan, Step::Switch(slot), &after)
    }

    fn drop_behind(&mut self, slot: Slot, node: u32, switch: u32) -> Result<(), Refusal> {
        if self.task.groups.is_barred(node) {
            return Ok(());
        }
        let drop = add(&mut self.plan, Step::Drop(slot, NodeId(node)), &[switch])?;
        self.drops.add(node, drop)
    }

    fn add_move(
        &mut self,
        step: &SlotMove,
        listed: &[u32],
        parties: &[u32],
    ) -> Result<(), Refusal> {
        let slot = step.slot;
        let copy = self.copy(step, listed, parties)?;
        self.note_readers(slot.partition, listed, copy)?;
        let switch = self.switch(slot, copy)?;
        for group in parties {
            self.copies.add(*group, copy)?;
        }
        self.drop_behind(slot, step.from, switch)
    }

    fn retire(&mut self, nodes: &[u32]) -> Result<(), Refusal> {
        for node in nodes {
            add(
                &mut self.plan,
                Step::Retire(NodeId(*node)),
                self.drops.items(node),
            )?;
        }
        Ok(())
    }

    fn add_chain(&mut self, group: u32, first: usize, most: usize) -> Result<(), Refusal> {
        let mut chain = Vec::new(self.task.alloc);
        let mut turn = 0usize;
        for copy in self.copies.items(&group) {
            if turn.checked_rem(most) == Some(first) {
                chain.push(*copy)?;
            }
            turn = turn.saturating_add(1);
        }
        self.cert.chains.push(self.task.groups.side(group), &chain)
    }

    // Adds as many chains for each group as its allowance permits, so that copies of uneven length wait little.
    fn add_chains(&mut self) -> Result<(), Refusal> {
        for group in 0..small(self.task.groups.len()) {
            let most = self.task.groups.most(group as usize) as usize;
            for first in 0..most.min(self.copies.items(&group).len()) {
                self.add_chain(group, first, most)?;
            }
        }
        Ok(())
    }

    fn add_all(&mut self, schedule: &Schedule, turnover: &Turnover) -> Result<(), Refusal> {
        self.join(turnover.joins)?;
        for (_, number) in schedule.order(self.task.alloc)?.iter() {
            let place = *number as usize;
            if let Some(step) = self.task.moves.get(place) {
                let listed = row(&schedule.listed, place);
                self.add_move(step, listed, row(&schedule.parties, place))?;
            }
        }
        self.retire(turnover.retires)?;
        self.add_chains()
    }
}

/// Returns the moves' plan by rounds, and its certificate. Barred nodes drop nothing.
pub fn write<'a>(
    task: &'a Task<'a>,
    schedule: &Schedule,
    turnover: &Turnover,
) -> Result<(Plan, Cert), Refusal> {
    let alloc = task.alloc;
    let mut writer = Writer {
        task,
        plan: Plan::new(alloc),
        cert: Cert {
            facts: Rows::new(alloc),
            chains: Chains::new(alloc),
        },
        copies: Lists::new(alloc),
        drops: Lists::new(alloc),
        readers: Lists::new(alloc),
    };
    writer.add_all(schedule, turnover)?;
    Ok((writer.plan, writer.cert))
}
