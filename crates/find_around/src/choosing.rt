//! Finds old steps in a chosen plan.

use crate::around::AroundTask;
use crate::entries::BegunSteps;
use plan_runs::Back;
use plan_text::{Plan, Source, Step};
use ring_names::{Refusal, Slot};
use std::alloc::Global;
use std::collections::{BTreeMap, BTreeSet};
use texts::{at, is_set, set};

/// The numbers of steps in both plans.
#[derive(Drop)]
pub struct Kept {
    /// Each chosen step's old number.
    pub olds: Vec<u32>,
    /// Each old step's number in the chosen plan. None if the step has not begun or its entries are omitted.
    pub numbers: Vec<Option<u32>>,
}

// A step's kind, slot, node and sources.
type Key = (u32, u32, u32, u32, u32);

fn source_bits(source: &Source) -> u32 {
    match source {
        Source::Owner => 0,
        Source::Slots(indices) => {
            let mut bits = 256u32;
            for index in indices.as_slice() {
                if *index < 8 {
                    bits |= 1 << u32::from(*index);
                }
            }
            bits
        }
    }
}

fn slot_key(kind: u32, slot: Slot, node: u32, bits: u32) -> Key {
    (kind, slot.partition, slot.index, node, bits)
}

fn key_of(step: &Step) -> Key {
    match step {
        Step::Join(node) => (0, 0, 0, node.0, 0),
        Step::Mirror(slot, node) => slot_key(1, *slot, node.0, 0),
        Step::Copy(slot, source) => slot_key(2, *slot, 0, source_bits(source)),
        Step::Switch(slot) => slot_key(3, *slot, 0, 0),
        Step::Drop(slot, node) => slot_key(4, *slot, node.0, 0),
        Step::Retire(node) => (5, 0, 0, node.0, 0),
    }
}

// A plan's steps by key, the last first.
#[derive(Drop)]
struct ByKey {
    alloc: Global,
    steps: BTreeMap<Key, Vec<u32>>,
}

impl ByKey {
    fn of(alloc: Global, plan: &Plan) -> Result<ByKey, Refusal> {
        let mut found = ByKey {
            alloc,
            steps: BTreeMap::new(alloc),
        };
        let count = plan.len();
        for turn in 0..count {
            let step = count.saturating_sub(1).saturating_sub(turn);
            if step < count {
                found.add(key_of(plan.step(step)), step)?;
            }
        }
        Ok(found)
    }

    fn add(&mut self, key: Key, step: u32) -> Result<(), Refusal> {
        if let Some(steps) = self.steps.get_mut(&key) {
            steps.push(step)?;
            return Ok(());
        }
        let mut steps = Vec::new(self.alloc);
        steps.push(step)?;
        self.steps.insert(key, steps)?;
        Ok(())
    }

    fn take(&mut self, key: Key) -> Option<u32> {
        match self.steps.get_mut(&key) {
            Some(steps) => steps.pop(),
            None => None,
        }
    }
}

fn slots_ahead(task: &AroundTask) -> Result<BTreeSet<Slot>, Refusal> {
    let mut ahead = BTreeSet::new(task.alloc);
    for slot in task.ahead {
        ahead.insert(*slot)?;
    }
    Ok(ahead)
}

// Mirrors ahead of owners get no number, if their begun copies are new in the chosen plan.
fn take_back(
    task: &AroundTask,
    chosen: &Plan,
    kept: &mut Kept,
    begun: &[bool],
) -> Result<(), Refusal> {
    let ahead = slots_ahead(task)?;
    let fresh = kept.fresh_copies(task.alloc, chosen)?;
    let mut mirrors = BTreeMap::new(task.alloc);
    for step in 0..task.plan.len() {
        match task.plan.step(step) {
            Step::Mirror(slot, _) => {
                mirrors.insert(*slot, step)?;
            }
            Step::Copy(slot, _) => {
                let is_gone = is_set(begun, step) && !kept.has_number(step);
                if is_gone && ahead.contains(slot) && fresh.contains(slot) {
                    kept.forget(mirrors.get(slot).copied());
                }
            }
            _ => {}
        }
    }
    Ok(())
}

impl Kept {
    fn fresh_copies(&self, alloc: Global, chosen: &Plan) -> Result<BTreeSet<Slot>, Refusal> {
        let mut fresh = BTreeSet::new(alloc);
        for step in 0..chosen.len() {
            if let Step::Copy(slot, _) = chosen.step(step) {
                if at(self.olds.as_slice(), step as usize) == u32::MAX {
                    fresh.insert(*slot)?;
                }
            }
        }
        Ok(fresh)
    }

    fn has_number(&self, step: u32) -> bool {
        matches!(self.numbers.get(step as usize), Some(Some(_)))
    }

    fn waits(&self, chosen: &Plan, step: u32, done: &[bool]) -> bool {
        let Some(Some(number)) = self.numbers.get(step as usize) else {
            return false;
        };
        if *number >= chosen.len() {
            return false;
        }
        for before in chosen.deps(*number).iter() {
            if !is_set(done, at(self.olds.as_slice(), *before as usize)) {
                return true;
            }
        }
        false
    }

    // Unfinished copies that must wait get no number and no entries.
    fn forget_waiting(&mut self, task: &AroundTask, chosen: &Plan, done: &[bool]) {
        for step in 0..task.plan.len() {
            let is_copy = matches!(task.plan.step(step), Step::Copy(_, _));
            if is_copy && !is_set(done, step) && self.waits(chosen, step, done) {
                self.forget_copy(step);
            }
        }
    }

    fn forget_copy(&mut self, step: u32) {
        if let Some(Some(number)) = self.numbers.get(step as usize) {
            set(self.olds.as_mut_slice(), *number as usize, u32::MAX);
        }
        self.forget(Some(step));
    }

    fn forget(&mut self, step: Option<u32>) {
        if let Some(step) = step {
            let place = step as usize;
            if place < self.numbers.len() {
                self.numbers[place] = None;
            }
        }
    }
}

#[derive(Drop)]
struct Keeping {
    left: ByKey,
    // By slot, whether its latest mirror has a number.
    mirrors: BTreeMap<Slot, bool>,
    kept: Kept,
}

impl Keeping {
    // A copy has no number if its mirror has none.
    fn number_of(&mut self, step: &Step) -> Result<Option<u32>, Refusal> {
        if let Step::Copy(slot, _) = step {
            if self.mirrors.get(slot).copied() == Some(false) {
                return Ok(None);
            }
        }
        let number = self.left.take(key_of(step));
        if let Step::Mirror(slot, _) = step {
            self.mirrors.insert(*slot, number.is_some())?;
        }
        Ok(number)
    }

    fn note(&mut self, step: u32, number: Option<u32>) -> Result<(), Refusal> {
        if let Some(number) = number {
            set(self.kept.olds.as_mut_slice(), number as usize, step);
        }
        self.kept.numbers.push(number)?;
        Ok(())
    }
}

/// Maps begun steps to the first free equal steps of `chosen`. Costs a pass over both plans and the history, and
/// sorting.
///
/// Unfinished copies that must wait get no number. If mirrors may be undone, a mirror ahead of its owner gets none if
/// its copy changed.
pub fn find_kept(task: &AroundTask, chosen: &Plan) -> Result<Kept, Refusal> {
    let BegunSteps { begun, done, .. } = BegunSteps::of(task)?;
    let mut it = Keeping {
        left: ByKey::of(task.alloc, chosen)?,
        mirrors: BTreeMap::new(task.alloc),
        kept: Kept {
            olds: vec![in task.alloc; u32::MAX; chosen.len() as usize]?,
            numbers: Vec::new(task.alloc),
        },
    };
    for step in 0..task.plan.len() {
        let number = if is_set(begun.as_slice(), step) {
            it.number_of(task.plan.step(step))?
        } else {
            None
        };
        it.note(step, number)?;
    }
    let Keeping { kept, .. } = it;
    let mut kept = kept;
    kept.forget_waiting(task, chosen, done.as_slice());
    if task.back == Back::Allowed {
        take_back(task, chosen, &mut kept, begun.as_slice())?;
    }
    Ok(kept)
}
