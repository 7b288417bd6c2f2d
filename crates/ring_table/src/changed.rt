//! Copies of a ring, also with other owners and members.

ghost use Rattle.std.specs.Prelude.{◌≡◌, ◌≤◌, ◌⊎◌, [], List, length, map, slice_get, IsTrue, IfOk, IfErr, ◌↔◌};
ghost use Rattle.std.specs.List.{AllByRecursion};
ghost use Rattle.ring_names.specs.Lists.{AllNew};
ghost use Rattle.ring_names.specs.declared.refusal.Refusal.TheVariants.{OutOfMemory, NoPlan};
ghost use Rattle.ring_table.specs.Changed.{with_members, changed};
ghost use Rattle.ring_table.specs.Valid.{IsRow, IsRing};

use crate::declared::Declared;
use crate::head::{Head, Quorum};
use crate::node::Node;
use crate::ring::Ring;
use crate::row::{are_different, are_members};
use ring_names::{Listed, Names, NodeId, Refusal};
use std::alloc::{AllocError, Global};

fn flag_at(flags: &[bool], place: usize) -> Option<bool>
    ensures { result ≡ slice_get flags.now place }
{
    flags.get(place).copied()
}

fn copy_nodes(alloc: Global, nodes: &[Node], members: &[bool]) -> Result<Vec<Node>, AllocError>
    ensures { IfOk result (λ v. v.items ≡ with_members nodes.now members.now) }
{
    let mut copies = Vec::new(alloc);
    for place in 0..nodes.len() {
        let node = &nodes[place];
        let name = Vec::from_slice(alloc, node.name.as_slice())?;
        copies.push(Node {
            name: Listed::from_vec(name),
            allowance: node.allowance,
            is_member: flag_at(members, place).unwrap_or(node.is_member),
        })?;
    }
    Ok(copies)
}

fn names_of(alloc: Global, nodes: &[Node]) -> Result<Names, Refusal>
    requires new { AllNew [] (map (λ x. x.name) nodes.now) }
    requires few { length nodes.now ≤ 1024 }
    ensures names { IfOk result (λ names. names ≡ map (λ x. x.name) nodes.now) }
    ensures memory { IfErr result (λ e. e ≡ OutOfMemory) }
{
    let mut names = Names::new(alloc);
    for node in nodes {
        names.add(node.name.as_slice())?;
    }
    Ok(names)
}

fn copy_rows(alloc: Global, rows: &[Listed<NodeId>]) -> Result<Vec<Listed<NodeId>>, AllocError>
    ensures { IfOk result (λ v. v.items ≡ rows.now) }
{
    let mut copies = Vec::new(alloc);
    for row in rows {
        let copy = Vec::from_slice(alloc, row.as_slice())?;
        copies.push(Listed::from_vec(copy))?;
    }
    Ok(copies)
}

fn is_row(slots: u32, nodes: &[Node], row: &[NodeId]) -> bool
    ensures { IsTrue result ↔ IsRow slots nodes.now row.now }
{
    row.len() == slots as usize && are_different(row) && are_members(nodes, row)
}

fn are_rows(slots: u32, nodes: &[Node], rows: &[Listed<NodeId>]) -> bool
    ensures { IsTrue result ↔ AllByRecursion (IsRow slots nodes.now) rows.now }
{
    let Some((first, others)) = rows.split_first() else {
        return true;
    };
    is_row(slots, nodes, first.as_slice()) && are_rows(slots, nodes, others)
}

impl Ring {
    fn rebuild(
        &self,
        alloc: Global,
        nodes: Vec<Node>,
        rows: &[Listed<NodeId>],
    ) -> Result<Ring, Refusal>
        requires { IsRing (record self.now { nodes = nodes.items; owners = rows.now }) }
        ensures ok { IfOk result (λ v. v ≡ record self.now { nodes = nodes.items; owners = rows.now }) }
        ensures memory { IfErr result (λ e. e ≡ OutOfMemory) }
    {
        let names = names_of(alloc, nodes.as_slice())?;
        let owners = copy_rows(alloc, rows)?;
        let quorum = Quorum {
            n: self.n(),
            r: self.r(),
            w: self.w(),
            loss: self.loss(),
        };
        let head = Head {
            format: self.format(),
            q: self.q(),
            quorum,
        };
        Ok(Ring::assemble(head, Declared { names, nodes }, owners))
    }

    /// Copies the ring.
    pub fn copy(&self, alloc: Global) -> Result<Ring, Refusal>
        ensures ok { IfOk result (λ v. v ≡ self.now) }
        ensures memory { IfErr result (λ e. e ≡ OutOfMemory) }
    {
        let nodes = copy_nodes(alloc, self.nodes(), &[])?;
        self.rebuild(alloc, nodes, self.rows())
    }

    /// Copies the ring with other owners and members. Nodes past the end of `members` stay unchanged.
    ///
    /// Fails with `NoPlan` unless there are `q` rows of `n` different members.
    pub fn with(
        &self,
        alloc: Global,
        rows: &[Listed<NodeId>],
        members: &[bool],
    ) -> Result<Ring, Refusal>
        ensures ok { IfOk result (λ v. v ≡ changed self.now rows.now members.now) }
        ensures err { IfErr result (λ e. (e ≡ OutOfMemory)
            ⊎ ((e ≡ NoPlan) × (IsRing (changed self.now rows.now members.now) → ⊥))) }
    {
        let nodes = copy_nodes(alloc, self.nodes(), members)?;
        let whole = rows.len() == self.q() as usize;
        let each = are_rows(self.n(), nodes.as_slice(), rows);
        if !whole || !each {
            return Err(Refusal::NoPlan);
        }
        self.rebuild(alloc, nodes, rows)
    }
}
