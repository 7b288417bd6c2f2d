//! How many transfers a node may have open.

ghost use Rattle.std.specs.Prelude.{◌≡◌};
ghost use Rattle.ring_table.specs.Value.{most_of};

use ring_names::NodeId;

/// The transfers that a limit counts.
#[derive(Clone, Copy, Debug, PartialEq, Eq, Hash)]
pub enum Side {
    /// All of the node's.
    Both,
    /// All to the node.
    Take,
    /// All from the node.
    Give,
}

/// One side of a node.
#[derive(Clone, Copy, Debug, PartialEq, Eq, Hash)]
pub struct NodeSide {
    pub node: NodeId,
    pub side: Side,
}

/// A node's limits of open transfers, each from 1 to 64.
#[derive(Clone, Copy, Debug, PartialEq, Eq)]
pub enum Allowance {
    /// One limit for all transfers.
    Joint(u32),
    /// One limit for transfers to the node, another for transfers from the node. Not in format 1.
    Split { take: u32, give: u32 },
}

impl Allowance {
    /// Returns the side's limit of open transfers, if any.
    pub fn most(&self, side: Side) -> Option<u32>
        ensures { result ≡ most_of side self.now }
    {
        match (self, side) {
            (Allowance::Joint(most), Side::Both) => Some(*most),
            (Allowance::Split { take, give: _ }, Side::Take) => Some(*take),
            (Allowance::Split { take: _, give }, Side::Give) => Some(*give),
            (Allowance::Joint(_), Side::Take)
            | (Allowance::Joint(_), Side::Give)
            | (Allowance::Split { take: _, give: _ }, Side::Both) => None,
        }
    }
}
