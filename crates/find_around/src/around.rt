//! The search and its input.

use crate::crowding::Crowd;
use crate::entries::BegunSteps;
use crate::hints::HintTable;
use crate::linking::link;
use crate::moving::Moves;
use crate::needs::Needs;
use crate::settling::settle;
use crate::sources::CopyListing;
use crate::told::Saying;
use crate::writing::{Written, write};
use plan_cert::Cert;
use plan_moves::Progress;
use plan_runs::{Back, Entry};
use plan_text::Plan;
use ring_names::{NodeId, Refusal, Slot};
use ring_table::Ring;
use ringplan_request::{Extent, Shape};
use std::alloc::Global;
use std::collections::{BTreeMap, BTreeSet};
use texts::{Labels, Words, is_set, put};

/// A begun plan, and what changes.
#[derive(Clone, Copy)]
pub struct AroundTask<'a> {
    pub alloc: Global,
    pub ring: &'a Ring,
    pub plan: &'a Plan,
    /// The plan's certificate. Its chains show how copies share allowances.
    pub cert: &'a Cert,
    /// A run of the plan.
    pub history: &'a [Entry],
    /// How much of the plan to keep.
    pub extent: Extent,
    /// Slots that keep their owners.
    pub left: &'a [Slot],
    /// Nodes dead from now on.
    pub dead: &'a [NodeId],
    /// Slots whose mirrors hold puts that the owners lack. Their copies must not start over.
    pub ahead: &'a [Slot],
    /// The nodes' racks, if known.
    pub racks: Option<&'a Labels>,
    /// Whether mirrors may be undone. Mirrors of slots in `left` always may.
    pub back: Back,
    /// Reports each slot, or only sums by node.
    pub shape: Shape,
}

/// How much a search keeps: less after each refused plan.
#[derive(Clone, Copy, Debug, PartialEq, Eq)]
pub enum Reach {
    /// Keeps all possible moves.
    Far,
    /// Like `Far`, but begins no moves in partitions with a dead node or a staying slot.
    Near,
    /// Keeps only moves whose copies have all chunks.
    Full,
}

/// The new plan, and what became of old steps.
#[derive(Drop)]
pub struct Around {
    pub plan: Plan,
    /// Each new step's old number.
    pub olds: Vec<u32>,
    /// Each old step's new number. None if the step has not begun or its entries are omitted.
    pub numbers: Vec<Option<u32>>,
    pub is_same: bool,
    /// What becomes of slots and nodes, one line each.
    pub words: Vec<u8>,
}

#[derive(Drop)]
pub(crate) struct Search<'a> {
    pub(crate) task: AroundTask<'a>,
    pub(crate) reach: Reach,
    pub(crate) progress: Progress,
    pub(crate) moves: Moves,
    pub(crate) hints: HintTable,
    pub(crate) dead: Vec<bool>,
    pub(crate) ahead: BTreeSet<Slot>,
    /// By partition, whether no more moves begin.
    pub(crate) resting: Vec<bool>,
    pub(crate) crowd: Crowd,
    pub(crate) begun: Vec<bool>,
    /// By step, whether it is left out.
    pub(crate) gone: Vec<bool>,
    /// By step, whether it is a copy that starts over.
    pub(crate) fresh: Vec<bool>,
    /// By step, whether it is an undone mirror.
    pub(crate) taken: Vec<bool>,
    /// By step, whether another move's begun step depends on this mirror.
    pub(crate) awaited: Vec<bool>,
    /// New dependencies.
    pub(crate) more: Needs,
    /// By copy, the slots it newly reads.
    pub(crate) listings: BTreeMap<u32, CopyListing>,
    /// By node, copies newly read from it; then slots finally owned.
    pub(crate) load: Vec<u32>,
    pub(crate) owned: Vec<u32>,
    /// By node, 1 plus the last partition that it serves. Then 1 plus the last partition searched.
    pub(crate) busy: Vec<u32>,
    pub(crate) looked_at: u32,
    /// By node, 1 plus the place of the last slot that it cannot take, because it keeps another slot's hint.
    pub(crate) keeping: Vec<u32>,
    pub(crate) is_changed: bool,
    pub(crate) sayings: BTreeMap<Slot, Saying>,
    pub(crate) words: Words,
}

fn flags(task: &AroundTask) -> Result<Vec<bool>, Refusal> {
    let mut dead = vec![in task.alloc; false; task.ring.nodes().len()]?;
    for node in task.dead {
        put(dead.as_mut_slice(), node.0, true);
    }
    Ok(dead)
}

fn slots(task: &AroundTask) -> Result<BTreeSet<Slot>, Refusal> {
    let mut ahead = BTreeSet::new(task.alloc);
    for slot in task.ahead {
        ahead.insert(*slot)?;
    }
    Ok(ahead)
}

impl<'a> Search<'a> {
    fn of(task: AroundTask<'a>, reach: Reach) -> Result<Search<'a>, Refusal> {
        let (alloc, steps, nodes) = (
            task.alloc,
            task.plan.len() as usize,
            task.ring.nodes().len(),
        );
        let found = BegunSteps::of(&task)?;
        let BegunSteps { begun, hints, .. } = found;
        let moves = Moves::of(alloc, task.ring, task.plan)?;
        let crowd = Crowd::of(&task, &moves)?;
        Ok(Search {
            task,
            reach,
            progress: Progress::of(alloc, task.plan, task.history)?,
            moves,
            hints: HintTable::of(alloc, task.ring, hints)?,
            dead: flags(&task)?,
            ahead: slots(&task)?,
            resting: vec![in alloc; false; task.ring.q() as usize]?,
            crowd,
            begun,
            gone: vec![in alloc; false; steps]?,
            fresh: vec![in alloc; false; steps]?,
            taken: vec![in alloc; false; steps]?,
            awaited: Vec::new(alloc),
            more: Needs::of(alloc, steps)?,
            listings: BTreeMap::new(alloc),
            load: vec![in alloc; 0u32; nodes]?,
            owned: vec![in alloc; 0u32; nodes]?,
            busy: vec![in alloc; 0u32; nodes]?,
            looked_at: 0,
            keeping: vec![in alloc; 0u32; nodes]?,
            is_changed: false,
            sayings: BTreeMap::new(alloc),
            words: Words::new(alloc),
        })
    }

    pub(crate) fn is_dead(&self, node: u32) -> bool {
        is_set(self.dead.as_slice(), node)
    }

    pub(crate) fn is_done(&self, step: u32) -> bool {
        self.progress.is_done(step) && !is_set(self.taken.as_slice(), step)
    }

    pub(crate) fn has_done(&self, step: Option<u32>) -> bool {
        match step {
            Some(step) => self.is_done(step),
            None => false,
        }
    }

    /// Whether the step is done, or a begun copy that continues.
    pub(crate) fn is_fixed(&self, step: u32) -> bool {
        self.is_done(step)
            || (is_set(self.begun.as_slice(), step)
                && !is_set(self.fresh.as_slice(), step)
                && !is_set(self.taken.as_slice(), step))
    }

    pub(crate) fn is_gone(&self, step: u32) -> bool {
        is_set(self.gone.as_slice(), step)
    }

    pub(crate) fn kept(&self, step: Option<u32>) -> Option<u32> {
        let step = step?;
        if self.is_gone(step) { None } else { Some(step) }
    }

    pub(crate) fn remove(&mut self, step: Option<u32>) {
        if let Some(step) = step {
            put(self.gone.as_mut_slice(), step, true);
            self.is_changed = true;
        }
    }
}

/// Finds another plan. The history, without undone and restarted steps, is a run of this plan.
///
/// If nothing changes, returns the old plan. Named slots stay; no remaining step involves a dead node.
///
/// Fails with `NoPlan` or `OutOfMemory`. Costs a pass over plan and history, and sorting.
pub fn find_around(task: AroundTask, reach: Reach) -> Result<Around, Refusal> {
    let mut search = Search::of(task, reach)?;
    settle(&mut search)?;
    let needs = link(&mut search)?;
    let written = write(&search, needs)?;
    let Written {
        plan,
        olds,
        numbers,
    } = written;
    let Search {
        is_changed,
        words,
        ..
    } = search;
    Ok(Around {
        plan,
        olds,
        numbers,
        is_same: !is_changed,
        words: words.end()?,
    })
}
