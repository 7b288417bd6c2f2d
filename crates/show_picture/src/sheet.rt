//! A picture's input.

use plan_moves::Progress;
use plan_text::Plan;
use ring_table::Ring;
use show_plan::{NodeNames, PresentRing, Scene, ShownMove, Volumes, push_short};
use std::alloc::Global;
use texts::{Words, at, word};

/// An approved plan, and a run's progress, if any.
#[derive(Clone, Copy)]
pub struct Sheet<'a> {
    pub alloc: Global,
    pub ring: &'a Ring,
    pub names: NodeNames<'a>,
    pub plan: &'a Plan,
    pub scene: &'a Scene,
    /// The ring after the history, or before the first step.
    pub present: &'a PresentRing,
    pub progress: Option<&'a Progress>,
    pub volumes: Option<&'a Volumes>,
}

impl<'a> Sheet<'a> {
    /// The move.
    pub fn shown(&self, place: u32) -> Option<&ShownMove> {
        self.scene.shown.moves.as_slice().get(place as usize)
    }

    /// Whether the node retires.
    pub fn leaves(&self, node: u32) -> bool {
        self.scene.leaves.as_slice().contains(&node)
    }

    /// Whether the node joins.
    pub fn joins(&self, node: u32) -> bool {
        self.scene.joins.as_slice().contains(&node)
    }

    /// Whether the node is dead or down.
    pub fn is_silent(&self, node: u32) -> bool {
        self.present.is_silent(node)
    }

    /// Writes `gives 8.5 G, takes 120`. Empty without sizes or moves.
    pub fn sizes(&self, node: u32) -> Words {
        let mut text = Words::new(self.alloc);
        let Some(volumes) = self.volumes else {
            return text;
        };
        let gives = word(volumes.gives.as_slice(), node as usize);
        let takes = word(volumes.takes.as_slice(), node as usize);
        if gives > 0 {
            text.text(b"gives ");
            push_short(&mut text, gives);
        }
        if gives > 0 && takes > 0 {
            text.text(b", ");
        }
        if takes > 0 {
            text.text(b"takes ");
            push_short(&mut text, takes);
        }
        text
    }

    /// The node's number of transfers.
    pub fn work(&self, node: u32) -> u32 {
        let gives = at(self.scene.loads.gives.as_slice(), node as usize);
        gives.saturating_add(at(self.scene.loads.takes.as_slice(), node as usize))
    }

    /// Writes the most transfers at once, and the allowance: `3 at once (bears 4)`.
    pub fn at_once(&self, node: u32) -> Words {
        let mut text = Words::new(self.alloc);
        if let Some(declared) = self.ring.nodes().get(node as usize) {
            self.scene
                .loads
                .push_at_once(&mut text, declared.allowance, node);
        }
        text
    }
}
