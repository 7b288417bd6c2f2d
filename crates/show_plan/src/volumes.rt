//! Sizes of moves.

use crate::scene::Scene;
use crate::shown::ShownMove;
use crate::writing::width_of;
use plan_check::Approved;
use plan_moves::Progress;
use plan_text::{Plan, Step};
use ring_names::{Listed, NodeId, Refusal, Slot};
use std::alloc::Global;
use texts::{set_word, word};

/// How much remains after a history.
#[derive(Clone, Copy, Debug)]
pub struct Left {
    /// What unfinished copies still move, without copied chunks.
    pub moved: u64,
    /// The most that copies on one path of dependencies still move.
    pub longest: u64,
}

/// How much a plan moves, in the sizes' unit.
#[derive(Drop)]
pub struct Volumes {
    /// The sum of all moves.
    pub moved: u64,
    /// What each node gives. A copy of listed slots reads the whole partition from each owner.
    pub gives: Vec<u64>,
    /// What each node takes.
    pub takes: Vec<u64>,
    /// By round, from 1.
    pub rounds: Vec<u64>,
    /// A column's width for these numbers.
    pub rounds_width: usize,
    /// The most that copies move on a path of dependencies. The plan cannot end before one transfer has copied that
    /// much.
    ///
    /// Allowances give no better bound: their chains are copies that depend on each other.
    pub longest: u64,
    /// What remains after the history.
    pub left: Option<Left>,
}

impl Volumes {
    /// Measures the plan, and what remains. Fails only with `OutOfMemory`.
    pub fn of(
        alloc: Global,
        approved: &Approved,
        scene: &Scene,
        sizes: &[u64],
        progress: Option<&Progress>,
    ) -> Result<Volumes, Refusal> {
        let (nodes, plan) = (approved.ring().nodes().len(), approved.plan());
        let mut volumes = Volumes {
            moved: 0,
            gives: vec![in alloc; 0u64; nodes]?,
            takes: vec![in alloc; 0u64; nodes]?,
            rounds: vec![in alloc; 0u64; scene.widths.len()]?,
            rounds_width: 0,
            longest: longest(alloc, plan, sizes, None)?,
            left: match progress {
                Some(progress) => Some(left_of(alloc, plan, sizes, progress)?),
                None => None,
            },
        };
        for shown in scene.shown.moves.as_slice() {
            let size = word(sizes, shown.slot.partition as usize);
            volumes.count(scene, shown, size);
        }
        volumes.rounds_width = width_of(volumes.rounds.as_slice(), 4);
        Ok(volumes)
    }

    fn count(&mut self, scene: &Scene, shown: &ShownMove, size: u64) {
        self.moved = self.moved.saturating_add(size);
        add(self.takes.as_mut_slice(), shown.to as usize, size);
        for node in scene.shown.read_by(shown) {
            add(self.gives.as_mut_slice(), *node as usize, size);
        }
        if shown.round > 0 {
            add(self.rounds.as_mut_slice(), shown.round as usize - 1, size);
        }
    }

    /// The fewest seconds until the plan ends, if a transfer moves `rate` a second, from 1.
    pub fn earliest_end(&self, rate: u32) -> u64 {
        let rate = u64::from(rate);
        let longest = match &self.left {
            Some(left) => left.longest,
            None => self.longest,
        };
        let up = longest.saturating_add(rate.saturating_sub(1));
        up.checked_div(rate).unwrap_or(0)
    }
}

fn add(words: &mut [u64], place: usize, size: u64) {
    let sum = word(words, place).saturating_add(size);
    set_word(words, place, sum);
}

// What the copy still moves. Copied chunks do not count, even after an abort.
fn rest_of(size: u64, number: u32, progress: Option<&Progress>) -> u64 {
    let Some(progress) = progress else {
        return size;
    };
    if progress.is_done(number) {
        return 0;
    }
    let chunks = u64::from(16u32.saturating_sub(progress.chunks(number)));
    size.saturating_mul(chunks).saturating_add(15) / 16
}

fn size_of(sizes: &[u64], slot: &Slot) -> u64 {
    word(sizes, slot.partition as usize)
}

fn left_of(
    alloc: Global,
    plan: &Plan,
    sizes: &[u64],
    progress: &Progress,
) -> Result<Left, Refusal> {
    let mut moved = 0u64;
    for number in 0..plan.len() {
        if let Step::Copy(slot, _) = plan.step(number) {
            let rest = rest_of(size_of(sizes, slot), number, Some(progress));
            moved = moved.saturating_add(rest);
        }
    }
    Ok(Left {
        moved,
        longest: longest(alloc, plan, sizes, Some(progress))?,
    })
}

// The rest on the longest path of dependencies.
fn longest(
    alloc: Global,
    plan: &Plan,
    sizes: &[u64],
    progress: Option<&Progress>,
) -> Result<u64, Refusal> {
    let mut ends: Vec<u64> = Vec::new(alloc);
    let mut most = 0u64;
    for number in 0..plan.len() {
        let mut sum = 0u64;
        for before in plan.deps(number) {
            sum = sum.max(word(ends.as_slice(), *before as usize));
        }
        if let Step::Copy(slot, _) = plan.step(number) {
            sum = sum.saturating_add(rest_of(size_of(sizes, slot), number, progress));
        }
        ends.push(sum)?;
        most = most.max(sum);
    }
    Ok(most)
}

/// Each node's stored size.
pub fn stored(
    alloc: Global,
    nodes: usize,
    rows: &[Listed<NodeId>],
    sizes: &[u64],
) -> Result<Vec<u64>, Refusal> {
    let mut stored = vec![in alloc; 0u64; nodes]?;
    let mut partition = 0usize;
    for row in rows {
        for node in row.as_slice() {
            add(
                stored.as_mut_slice(),
                node.0 as usize,
                word(sizes, partition),
            );
        }
        partition = partition.saturating_add(1);
    }
    Ok(stored)
}
