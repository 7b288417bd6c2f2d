//! Fast look-ups of dead nodes.

ghost use Rattle.std.specs.Prelude.{◌≡◌, ◌<◌, ℕ, Some, slice_get};
ghost use Rattle.ring_names.specs.Lists.{has};
ghost use Rattle.plan_text.specs.Changes.{numbers};

use crate::sparing::is_among;
use ring_names::NodeId;

// The most nodes of a ring. The flags are inline.
const FLAGS: usize = 1_024;

/// Dead nodes, and a flag for each possible node.
#[derive(Drop)]
pub struct Dead<'a> {
    pub nodes: &'a [NodeId],
    flags: [bool; 1_024],
    ghost told: { (x : ℕ) → x < 1024 → slice_get flags x ≡ Some (has x (numbers nodes.now)) },
}

impl<'a> Dead<'a> {
    /// Makes the flags. For each flag, may look at each dead node.
    pub fn of(nodes: &'a [NodeId]) -> Dead<'a>
        ensures { result.nodes.now ≡ nodes.now }
    {
        let mut flags = [false; 1_024];
        for number in 0..FLAGS {
            flags[number] = is_among(nodes, NodeId(number as u32));
        }
        Dead { nodes, flags }
    }

    /// Whether the node is dead.
    pub fn has(&self, node: NodeId) -> bool
        ensures { result ≡ has node.0 (numbers self.now.nodes.now) }
    {
        match self.flags.get(node.0 as usize) {
            Some(flag) => *flag,
            None => is_among(self.nodes, node),
        }
    }
}
