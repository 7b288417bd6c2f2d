//! A node as its ring declares it.

ghost use Rattle.std.specs.Prelude.{◌≡◌, map};
ghost use Rattle.ring_table.specs.Value.{is_member};
ghost use Rattle.ring_table.specs.Spelling.{name_at};

use crate::allowance::Allowance;
use ring_names::{Listed, NodeId};

/// A node of the ring.
#[derive(Debug, Drop)]
pub struct Node {
    /// 1 to 32 bytes of `a-z0-9_.:-`.
    pub name: Listed<u8>,
    /// The node's limits of open transfers.
    pub allowance: Allowance,
    /// Whether the node is a member (`in`) before a plan.
    pub is_member: bool,
}

pub(crate) fn is_member(nodes: &[Node], node: NodeId) -> bool
    ensures { result ≡ is_member nodes.now node }
{
    match nodes.get(node.0 as usize) {
        Some(node) => node.is_member,
        None => false,
    }
}

pub(crate) fn name_at(nodes: &[Node], node: NodeId) -> &[u8]
    ensures { result.now ≡ name_at (map (λ x. x.name) nodes.now) node }
{
    match nodes.get(node.0 as usize) {
        Some(node) => node.name.as_slice(),
        None => &[],
    }
}
