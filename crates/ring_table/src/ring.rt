//! The ring, always valid.

ghost use Rattle.std.specs.Prelude.{◌≡◌, ◌<◌, true, Some, IfSome, length, slice_get, option_map};
ghost use Rattle.ring_names.specs.Names.{place};
ghost use Rattle.texts.specs.Name.{is_name};

use crate::allowance::NodeSide;
use crate::declared::Declared;
use crate::head::Head;
use crate::node::{Node, is_member, name_at};
use ring_names::{Listed, Names, NodeId, Slot};
use std::marker::Model;

/// A ring. Partitions are `q` equal parts of the hash space (section 6.2 of DeCandia et al. 2007, strategy 3). Each
/// partition has `n` slots, each owned by a member.
///
/// `r` slots answer a read and `w` take a write. If `f` nodes may lose their data, `r + w > n + f` (section 4.5).
pub struct Ring {
    format: u32,
    q: u32,
    n: u32,
    r: u32,
    w: u32,
    loss: u32,
    names: Names,
    nodes: Vec<Node>,
    owners: Vec<Listed<NodeId>>,
}

// Saves dependent crates from checking the parts.
impl Drop for Ring {
    fn drop(self) {
        let Ring {
            format: _,
            q: _,
            n: _,
            r: _,
            w: _,
            loss: _,
            names,
            nodes,
            owners,
        } = self;
        drop(names);
        drop(nodes);
        drop(owners);
    }
}

impl Model for Ring {
    ghost use Rattle.ring_table.specs.Value.{RingValue};

    ghost Value = { RingValue };

    ghost use Rattle.ring_table.specs.Valid.{value_of, HoldsRing};

    ghost view = { value_of };

    ghost invariant = { HoldsRing };
}

impl Ring {
    ghost use Rattle.ring_table.specs.declared.node.Node.{Node};
    ghost use Rattle.ring_table.specs.Value.{RingValue, names_of, is_member, allowance_of, row_of, owner_of, migrated};
    ghost use Rattle.ring_table.specs.Reading.{ring_of};
    ghost use Rattle.ring_table.specs.Spelling.{name_at};
    ghost use Rattle.ring_names.specs.Space.{is_space};
    ghost use Rattle.ring_table.specs.Valid.{IsRing};

    pub(crate) fn assemble(head: Head, declared: Declared, owners: Vec<Listed<NodeId>>) -> Ring
        requires { IsRing (ring_of head (declared, owners.items)) }
        ensures { result ≡ ring_of head (declared, owners.items) }
    {
        let Declared { names, nodes } = declared;
        Ring {
            format: head.format,
            q: head.q,
            n: head.quorum.n,
            r: head.quorum.r,
            w: head.quorum.w,
            loss: head.quorum.loss,
            names,
            nodes,
            owners,
        }
    }

    /// Returns the text's format: 1, 2 or 3.
    pub fn format(&self) -> u32
        ensures value { result ≡ self.now.format }
        ensures valid { IsRing self.now }
    {
        self.format
    }

    /// Turns format 1 into 2. Nothing else changes.
    pub fn migrate(mut self) -> Ring
        ensures { result ≡ migrated self }
    {
        if self.format == 1 {
            self.format = 2;
        }
        self
    }

    /// Counts the partitions: a power of two from 1 to 4,096.
    pub fn q(&self) -> u32
        ensures value { result ≡ self.now.q }
        ensures space { is_space result ≡ true }
        ensures valid { IsRing self.now }
    {
        self.q
    }

    /// Counts the slots of a partition, 1 to 7.
    pub fn n(&self) -> u32
        ensures value { result ≡ self.now.n }
        ensures valid { IsRing self.now }
    {
        self.n
    }

    /// Returns how many slots answer a read, 1 to `n`.
    pub fn r(&self) -> u32
        ensures value { result ≡ self.now.r }
        ensures valid { IsRing self.now }
    {
        self.r
    }

    /// Returns how many slots take a write, 1 to `n`.
    pub fn w(&self) -> u32
        ensures value { result ≡ self.now.w }
        ensures valid { IsRing self.now }
    {
        self.w
    }

    /// Returns how many nodes may lose their data, 0 to 6; 0 in formats 1 and 2.
    pub fn loss(&self) -> u32
        ensures value { result ≡ self.now.loss }
        ensures valid { IsRing self.now }
    {
        self.loss
    }

    /// Returns the node's limit of open transfers on the side, if any.
    pub fn allowance(&self, of: NodeSide) -> Option<u32>
        ensures { result ≡ allowance_of self.now of.node.0 of.side }
    {
        match self.nodes.get(of.node.0 as usize) {
            Some(node) => node.allowance.most(of.side),
            None => None,
        }
    }

    /// Returns the nodes by number, 1 to 1,024.
    pub fn nodes(&self) -> &[Node]
        ensures value { result.now ≡ self.now.nodes }
        ensures valid { IsRing self.now }
    {
        self.nodes.as_slice()
    }

    /// Returns the node's name, or no bytes.
    pub fn name(&self, node: u32) -> &[u8]
        ensures { result.now ≡ name_at (names_of self.now) (record { 0 = node }) }
    {
        name_at(self.nodes.as_slice(), NodeId(node))
    }

    /// Returns the node of that name.
    pub fn number_of(&self, name: &[u8]) -> Option<NodeId>
        ensures value { option_map (λ x. x.0) result ≡ place (names_of self.now) name.now }
        ensures name { IfSome result (λ _. is_name name.now ≡ true) }
    {
        match self.names.number_of(name) {
            Some(number) => Some(NodeId(number)),
            None => None,
        }
    }

    /// Whether the node is a member before a plan.
    pub fn is_member(&self, node: NodeId) -> bool
        ensures { result ≡ is_member self.now.nodes node }
    {
        is_member(self.nodes.as_slice(), node)
    }

    /// Returns a partition's owners, by slot index.
    pub fn row(&self, partition: u32) -> &[NodeId]
        requires { partition < self.now.q }
        ensures value { row_of self.now partition ≡ Some result.now }
        ensures len { length result.now ≡ self.now.n }
    {
        self.owners[partition as usize].as_slice()
    }

    /// Returns the owners, by partition.
    pub fn rows(&self) -> &[Listed<NodeId>]
        ensures value { result.now ≡ self.now.owners }
        ensures valid { IsRing self.now }
    {
        self.owners.as_slice()
    }

    /// Returns a slot's owner before a plan.
    pub fn owner(&self, slot: Slot) -> NodeId
        requires partition { slot.partition < self.now.q }
        requires index { slot.index < self.now.n }
        ensures { owner_of self.now slot ≡ Some result }
    {
        let row = self.row(slot.partition);
        row[slot.index as usize]
    }
}
