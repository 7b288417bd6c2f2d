//! The present ring.

use crate::scene::Scene;
use crate::shown::ShownMove;
use plan_check::Approved;
use plan_moves::{Progress, owned};
use plan_text::{Plan, Step};
use ring_names::{Listed, NodeId, Refusal};
use ring_table::Ring;
use std::alloc::Global;
use texts::{is_set, put};

/// The ring after a history, or before the first step.
#[derive(Drop)]
pub struct PresentRing {
    /// The owners, by partition.
    pub rows: Vec<Listed<NodeId>>,
    /// How many slots each node owns.
    pub owned: Vec<u32>,
    /// Dead or down nodes, ascending.
    pub silent: Vec<u32>,
    is_member: Vec<bool>,
    // by node, from the history
    is_down: Vec<bool>,
    // by node, as named
    is_dead: Vec<bool>,
}

impl PresentRing {
    /// The ring after the history. Fails only with `OutOfMemory`.
    pub fn of(
        alloc: Global,
        approved: &Approved,
        scene: &Scene,
        progress: Option<&Progress>,
        dead: &[NodeId],
    ) -> Result<PresentRing, Refusal> {
        let ring = approved.ring();
        let rows = rows_now(alloc, ring, scene.shown.moves.as_slice(), progress)?;
        let mut present = PresentRing::with_rows(alloc, ring, rows)?;
        present.note_dead(dead);
        present.note_nodes(ring, progress)?;
        if let Some(progress) = progress {
            present.note_steps(approved.plan(), progress);
        }
        Ok(present)
    }

    /// The ring without a plan. Fails only with `OutOfMemory`.
    pub fn at_rest(alloc: Global, ring: &Ring, dead: &[NodeId]) -> Result<PresentRing, Refusal> {
        let rows = rows_now(alloc, ring, &[], None)?;
        let mut present = PresentRing::with_rows(alloc, ring, rows)?;
        present.note_dead(dead);
        present.note_nodes(ring, None)?;
        Ok(present)
    }

    fn with_rows(
        alloc: Global,
        ring: &Ring,
        rows: Vec<Listed<NodeId>>,
    ) -> Result<PresentRing, Refusal> {
        let owned = owned(alloc, ring.nodes().len(), rows.as_slice())?;
        Ok(PresentRing {
            rows,
            owned,
            silent: Vec::new(alloc),
            is_member: Vec::new(alloc),
            is_down: Vec::new(alloc),
            is_dead: vec![in alloc; false; ring.nodes().len()]?,
        })
    }

    fn note_dead(&mut self, dead: &[NodeId]) {
        for node in dead {
            put(self.is_dead.as_mut_slice(), node.0, true);
        }
    }

    fn note_nodes(&mut self, ring: &Ring, progress: Option<&Progress>) -> Result<(), Refusal> {
        let mut number = 0u32;
        for node in ring.nodes() {
            self.is_member.push(node.is_member)?;
            self.is_down.push(is_down(progress, number))?;
            if self.is_silent(number) {
                self.silent.push(number)?;
            }
            number = number.saturating_add(1);
        }
        Ok(())
    }

    fn note_steps(&mut self, plan: &Plan, progress: &Progress) {
        for number in 0..plan.len() {
            if !progress.is_done(number) {
                continue;
            }
            match plan.step(number) {
                Step::Join(node) => self.set_member(*node, true),
                Step::Retire(node) => self.set_member(*node, false),
                _ => {}
            }
        }
    }

    fn set_member(&mut self, node: NodeId, is_member: bool) {
        if let Some(old) = self.is_member.get_mut(node.0 as usize) {
            *old = is_member;
        }
    }

    /// Whether the node is down in the history.
    pub fn is_down(&self, node: u32) -> bool {
        is_set(self.is_down.as_slice(), node)
    }

    /// Whether the node was named dead.
    pub fn is_dead(&self, node: u32) -> bool {
        is_set(self.is_dead.as_slice(), node)
    }

    /// Whether the node is dead or down.
    pub fn is_silent(&self, node: u32) -> bool {
        self.is_dead(node) || self.is_down(node)
    }

    /// `dead` or `down`.
    pub fn silence(&self, node: u32) -> &'static [u8] {
        if self.is_dead(node) { b"dead" } else { b"down" }
    }

    /// Whether the node is a member.
    pub fn is_member(&self, node: u32) -> bool {
        is_set(self.is_member.as_slice(), node)
    }
}

fn is_down(progress: Option<&Progress>, node: u32) -> bool {
    match progress {
        Some(progress) => progress.is_down(node),
        None => false,
    }
}

fn is_switched(shown: &ShownMove, progress: &Progress) -> bool {
    match shown.switch {
        Some(step) => progress.is_done(step),
        None => false,
    }
}

// A slot's moves are in order, so its last done switch decides.
fn rows_now(
    alloc: Global,
    ring: &Ring,
    moves: &[ShownMove],
    progress: Option<&Progress>,
) -> Result<Vec<Listed<NodeId>>, Refusal> {
    let mut rows = Vec::new(alloc);
    for row in ring.rows() {
        rows.push(Vec::from_slice(alloc, row.as_slice())?)?;
    }
    if let Some(progress) = progress {
        for shown in moves {
            if is_switched(shown, progress) {
                set_owner(rows.as_mut_slice(), shown);
            }
        }
    }
    let mut listed = Vec::new(alloc);
    for row in rows {
        listed.push(Listed::from_vec(row))?;
    }
    Ok(listed)
}

fn set_owner(rows: &mut [Vec<NodeId>], shown: &ShownMove) {
    if let Some(row) = rows.get_mut(shown.slot.partition as usize) {
        if let Some(owner) = row.get_mut(shown.slot.index as usize) {
            *owner = NodeId(shown.to);
        }
    }
}
