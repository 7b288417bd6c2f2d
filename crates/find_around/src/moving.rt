//! Moves by slot.

use plan_text::{Plan, Step};
use ring_names::{Refusal, Slot};
use ring_table::Ring;
use std::alloc::Global;
use std::collections::BTreeMap;
use texts::{at, place_of, set, small};

#[derive(Clone, Copy, Debug)]
pub(crate) struct PlannedMove {
    pub(crate) slot: Slot,
    pub(crate) source: u32,
    pub(crate) target: u32,
    pub(crate) mirror: Option<u32>,
    pub(crate) copy: Option<u32>,
    pub(crate) switch: Option<u32>,
    pub(crate) drop: Option<u32>,
    pub(crate) next: Option<usize>,
    pub(crate) before: Option<usize>,
}

/// A plan's moves, in their mirrors' order.
#[derive(Drop)]
pub(crate) struct Moves {
    all: Vec<PlannedMove>,
    // by slot, 1 plus the places of its first and last move; 0 for none
    firsts: Vec<u32>,
    lasts: Vec<u32>,
    // by step, 1 plus the place of its move
    of_steps: Vec<u32>,
    // the node's last move from the slot; ordered, since plans choose how often a slot moves
    leaving: BTreeMap<(Slot, u32), usize>,
}

fn place(number: u32) -> Option<usize> {
    if number == 0 {
        return None;
    }
    Some(number.saturating_sub(1) as usize)
}

pub(crate) fn first_owner(ring: &Ring, slot: Slot) -> u32 {
    if let Some(row) = ring.rows().get(slot.partition as usize) {
        if let Some(node) = row.as_slice().get(slot.index as usize) {
            return node.0;
        }
    }
    0
}

fn begun_move(
    slot: Slot,
    source: u32,
    target: u32,
    mirror: u32,
    before: Option<usize>,
) -> PlannedMove {
    PlannedMove {
        slot,
        source,
        target,
        mirror: Some(mirror),
        copy: None,
        switch: None,
        drop: None,
        next: None,
        before,
    }
}

impl Moves {
    pub(crate) fn of(alloc: Global, ring: &Ring, plan: &Plan) -> Result<Moves, Refusal> {
        let slots = (ring.q() as usize).saturating_mul(7);
        let mut moves = Moves {
            all: Vec::new(alloc),
            firsts: vec![in alloc; 0u32; slots]?,
            lasts: vec![in alloc; 0u32; slots]?,
            of_steps: vec![in alloc; 0u32; plan.len() as usize]?,
            leaving: BTreeMap::new(alloc),
        };
        for number in 0..plan.len() {
            moves.act(ring, plan.step(number), number)?;
        }
        Ok(moves)
    }

    fn act(&mut self, ring: &Ring, step: &Step, number: u32) -> Result<(), Refusal> {
        match step {
            Step::Mirror(slot, node) => self.begin(ring, *slot, node.0, number)?,
            Step::Copy(slot, _) => self.copy(*slot, number),
            Step::Switch(slot) => self.switch(*slot, number)?,
            Step::Drop(slot, node) => self.drop_held(*slot, node.0, number),
            Step::Join(_) | Step::Retire(_) => {}
        }
        Ok(())
    }

    fn begin(&mut self, ring: &Ring, slot: Slot, node: u32, number: u32) -> Result<(), Refusal> {
        let before = self.last(slot);
        let source = match self.at(before) {
            Some(last) => last.target,
            None => first_owner(ring, slot),
        };
        let here = self.all.len();
        self.all
            .push(begun_move(slot, source, node, number, before))?;
        match before {
            Some(before) => {
                if let Some(last) = self.all.get_mut(before) {
                    last.next = Some(here);
                }
            }
            None => set(
                self.firsts.as_mut_slice(),
                place_of(slot),
                small(here).saturating_add(1),
            ),
        }
        set(
            self.lasts.as_mut_slice(),
            place_of(slot),
            small(here).saturating_add(1),
        );
        self.note(number, here);
        Ok(())
    }

    fn note(&mut self, step: u32, place: usize) {
        set(
            self.of_steps.as_mut_slice(),
            step as usize,
            small(place).saturating_add(1),
        );
    }

    fn copy(&mut self, slot: Slot, number: u32) {
        let Some(place) = self.last(slot) else {
            return;
        };
        if let Some(last) = self.all.get_mut(place) {
            last.copy = Some(number);
        }
        self.note(number, place);
    }

    fn switch(&mut self, slot: Slot, number: u32) -> Result<(), Refusal> {
        let Some(place) = self.last(slot) else {
            return Ok(());
        };
        self.note(number, place);
        if let Some(last) = self.all.get_mut(place) {
            last.switch = Some(number);
            let key = (slot, last.source);
            self.leaving.insert(key, place)?;
        }
        Ok(())
    }

    fn drop_held(&mut self, slot: Slot, node: u32, number: u32) {
        let Some(place) = self.leaving.get(&(slot, node)) else {
            return;
        };
        let place = *place;
        if let Some(left) = self.all.get_mut(place) {
            left.drop = Some(number);
        }
        self.note(number, place);
    }

    pub(crate) fn len(&self) -> usize {
        self.all.len()
    }

    pub(crate) fn at(&self, place: Option<usize>) -> Option<PlannedMove> {
        self.all.get(place?).copied()
    }

    pub(crate) fn first(&self, slot: Slot) -> Option<usize> {
        place(at(self.firsts.as_slice(), place_of(slot)))
    }

    pub(crate) fn last(&self, slot: Slot) -> Option<usize> {
        place(at(self.lasts.as_slice(), place_of(slot)))
    }

    pub(crate) fn of_step(&self, step: u32) -> Option<usize> {
        place(at(self.of_steps.as_slice(), step as usize))
    }

    pub(crate) fn lead(&mut self, place: usize, source: u32, target: u32) {
        if let Some(it) = self.all.get_mut(place) {
            it.source = source;
            it.target = target;
        }
    }
}
