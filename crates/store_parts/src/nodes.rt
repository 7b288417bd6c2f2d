//! A running store's nodes.

ghost use Rattle.std.specs.Prelude.{◌≡◌, true, false, map, IfOk, IfErr};
ghost use Rattle.ring_names.specs.declared.refusal.Refusal.TheVariants.{OutOfMemory};
ghost use Rattle.plan_runs.specs.Effects.{changed};
ghost use Rattle.store_parts.specs.Nodes.{node_at_start, is_up_at, is_member_at};

use ring_names::{NodeId, Refusal};
use ring_table::Ring;
use std::alloc::Global;
use std::marker::Model;

/// A node's state.
#[derive(Clone, Copy, Debug, PartialEq, Eq)]
pub struct NodeNow {
    /// Whether reachable. A down node keeps its data.
    pub up: bool,
    /// Whether declared `in`, or joined since.
    pub joined: bool,
    /// Whether retired.
    pub retired: bool,
}

/// A ring's 1 to 1,024 nodes, by number. Each call except `start` costs one look-up.
#[derive(Drop)]
pub struct Nodes {
    nodes: Vec<NodeNow>,
}

impl Model for Nodes {
    ghost use Rattle.std.specs.Prelude.{List};
    ghost use Rattle.store_parts.specs.declared.nodes.NodeNow.{NodeNow};

    ghost Value = { List NodeNow };

    ghost view = { λ a. a.nodes.items };
}

impl Nodes {
    /// Returns the nodes before a plan: those declared `in` are up and joined.
    pub fn start(alloc: Global, ring: &Ring) -> Result<Nodes, Refusal>
        ensures start { IfOk result (λ nodes. nodes ≡ map node_at_start ring.now.nodes) }
        ensures memory { IfErr result (λ e. e ≡ OutOfMemory) }
    {
        let mut nodes = Vec::with_capacity(alloc, ring.nodes().len())?;
        for node in ring.nodes() {
            nodes.push_reserved(NodeNow {
                up: node.is_member,
                joined: node.is_member,
                retired: false,
            });
        }
        Ok(Nodes { nodes })
    }

    /// Whether the node is declared and up.
    pub fn is_up(&self, node: NodeId) -> bool
        ensures { result ≡ is_up_at self.now node.0 }
    {
        match self.nodes.get(node.0 as usize) {
            Some(now) => now.up,
            None => false,
        }
    }

    /// Whether the node has joined and has not retired.
    pub fn is_member(&self, node: NodeId) -> bool
        ensures { result ≡ is_member_at self.now node.0 }
    {
        match self.nodes.get(node.0 as usize) {
            Some(now) => now.joined && !now.retired,
            None => false,
        }
    }

    /// Marks the node as up.
    #[tactic(auto, using(crate::proofs::Writing::writing))]
    pub fn raise(&mut self, node: NodeId)
        ensures { self.new ≡ changed self.old node.0 (λ x. record x { up = true }) }
    {
        let place = node.0 as usize;
        if place < self.nodes.len() {
            let now = &mut self.nodes[place];
            now.up = true;
        }
    }

    /// Marks the node as down.
    #[tactic(auto, using(crate::proofs::Writing::writing))]
    pub fn lower(&mut self, node: NodeId)
        ensures { self.new ≡ changed self.old node.0 (λ x. record x { up = false }) }
    {
        let place = node.0 as usize;
        if place < self.nodes.len() {
            self.nodes[place].up = false;
        }
    }

    /// Marks the node as joined and up.
    #[tactic(auto, using(crate::proofs::Writing::writing))]
    pub fn join(&mut self, node: NodeId)
        ensures { self.new ≡ changed self.old node.0 (λ x. record x { up = true; joined = true }) }
    {
        let place = node.0 as usize;
        if place < self.nodes.len() {
            let now = &mut self.nodes[place];
            now.up = true;
            now.joined = true;
        }
    }

    /// Retires the node.
    #[tactic(auto, using(crate::proofs::Writing::writing))]
    pub fn retire(&mut self, node: NodeId)
        ensures { self.new ≡ changed self.old node.0 (λ x. record x { retired = true }) }
    {
        let place = node.0 as usize;
        if place < self.nodes.len() {
            let now = &mut self.nodes[place];
            now.retired = true;
        }
    }
}
