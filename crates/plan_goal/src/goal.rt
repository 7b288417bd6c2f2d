//! Plans between rings.

ghost use Rattle.std.specs.Prelude.{◌≡◌, ◌++◌, true, map, length, IfOk, OnOk};
ghost use Rattle.plan_goal.specs.Rings.{flags};
ghost use Rattle.plan_goal.specs.Sized.{has_sizes};
ghost use Rattle.plan_goal.specs.GoalsReached.{AreNamed, HasChangedMembers, IsGoalReached, IsLed, IsSizedBy, IsWishReached, dead_named, dead_names, is_changed_member};
ghost use Rattle.plan_goal.specs.GoalsReached.{leaves_too, with_dead as the_change_with_dead};

use crate::aim::{Aim, unread_partitions};
use crate::proposed::Proposed;
use crate::racks::{ask_layout, members_with, racks_of};
use crate::reaching::reach;
use crate::reading::{Goal, read_goal};
use crate::sections::{Kind, kind_of};
use crate::sized::{Measures, are_kept, has_sizes, sizes_of, weights_of};
use crate::sparing::is_among;
use crate::unread::wanted_by;
use change_text::{Change, Fact, Layout, Options, Unreadable, Wanted, read_wanted};
use find_plan::{WishedChange, wished};
use ring_names::{Listed, NodeId, Refusal};
use ring_table::Ring;
use std::alloc::Global;
use texts::Labels;

/// Returns the named nodes. Fails with `UnknownNode(0)` for an undeclared name.
pub fn nodes_of(alloc: Global, ring: &Ring, names: &[Vec<u8>]) -> Result<Vec<NodeId>, Refusal>
    ensures { IfOk result (λ v. AreNamed ring.now (map (λ name. name.items) names.now) v.items) }
{
    let mut nodes = Vec::new(alloc);
    for name in names {
        match ring.number_of(name.as_slice()) {
            Some(node) => nodes.push(node)?,
            None => return Err(Refusal::UnknownNode(0)),
        }
    }
    Ok(nodes)
}

fn add_dead_name(alloc: Global, fact: &Fact, names: &mut Vec<Vec<u8>>) -> Result<(), Refusal>
    ensures { OnOk result (map (λ name. name.items) names.new.items ≡ map (λ name. name.items) names.old.items ++ dead_named fact.now) }
{
    if let Fact::Dead { node } = fact {
        let name = Vec::from_slice(alloc, node.as_slice())?;
        names.push(name)?;
    }
    Ok(())
}

fn copy_names(alloc: Global, names: &[Vec<u8>]) -> Result<Vec<Vec<u8>>, Refusal>
    ensures { IfOk result (λ copies. map (λ name. name.items) copies.items ≡ map (λ name. name.items) names.now) }
{
    let mut copies = Vec::new(alloc);
    for name in names {
        copies.push(Vec::from_slice(alloc, name.as_slice())?)?;
    }
    Ok(copies)
}

/// Names of dead nodes: the command line's, then the layout's.
pub fn dead_by(alloc: Global, options: &Options) -> Result<Vec<Vec<u8>>, Refusal>
    ensures { IfOk result (λ names. map (λ name. name.items) names.items ≡ dead_names options.now) }
{
    let mut names = copy_names(alloc, options.dead.as_slice())?;
    let entries = options.layout.entries.as_slice();
    for entry in entries {
        add_dead_name(alloc, &entry.fact, &mut names)?;
    }
    Ok(names)
}

/// Reads two rings, and finds a plan from the first to the second, around dead nodes.
///
/// Fails as `read_goal`, then as `nodes_of`, then as `reach`.
pub fn goal_bundle(
    alloc: Global,
    bytes: &[u8],
    unreadable: Unreadable,
    dead: &[Vec<u8>],
) -> Result<Proposed, Refusal>
    ensures reached { IfOk result (λ p. IsGoalReached bytes.now unreadable (map (λ name. name.items) dead.now) p) }
{
    let Goal { ring, wanted } = read_goal(alloc, bytes)?;
    let nodes = nodes_of(alloc, &ring, dead)?;
    let goal = wanted_by(alloc, unreadable, &ring, nodes.as_slice(), wanted)?;
    reach(alloc, ring, &goal, nodes.as_slice())
}

fn members_of(alloc: Global, ring: &Ring, change: &Change) -> Result<Vec<bool>, Refusal>
    ensures { IfOk result (λ members. members.items
        ≡ flags (is_changed_member ring.now change.now) (length ring.now.nodes)) }
{
    let mut members = Vec::new(alloc);
    // A ring has few nodes.
    let count = ring.nodes().len() as u32;
    'nodes: for node in 0..count {
        members.push(is_member_of(ring, change, NodeId(node)))?;
    }
    Ok(members)
}

fn is_member_of(ring: &Ring, change: &Change, node: NodeId) -> bool
    ensures { result ≡ is_changed_member ring.now change.now node.0 }
{
    (ring.is_member(node) || is_among(change.joins.as_slice(), node))
        && !is_among(change.leaves.as_slice(), node)
}

fn add_dead(ring: &Ring, dead: &[NodeId], leaves: &mut Vec<NodeId>) -> Result<(), Refusal>
    ensures { OnOk result (leaves.new.items ≡ leaves_too ring.now dead.now leaves.old.items) }
{
    let Some((node, more)) = dead.split_first() else {
        return Ok(());
    };
    if ring.is_member(*node) && !is_among(leaves.as_slice(), *node) {
        leaves.push(*node)?;
    }
    add_dead(ring, more, leaves)
}

/// Adds dead members to the change's leaves.
pub fn with_dead(ring: &Ring, change: Change, dead: &[NodeId]) -> Result<Change, Refusal>
    ensures { IfOk result (λ v. v ≡ the_change_with_dead ring.now dead.now change) }
{
    let Change { joins, leaves } = change;
    let mut leaves = leaves.into_vec();
    add_dead(ring, dead, &mut leaves)?;
    Ok(Change {
        joins,
        leaves: Listed::from_vec(leaves),
    })
}

#[derive(Drop)]
struct Asked {
    weights: Vec<u32>,
    racks: Option<Labels>,
    sizes: Option<Vec<u64>>,
}

fn asked_for(
    alloc: Global,
    ring: &Ring,
    change: &Change,
    options: &Options,
) -> Result<Asked, Refusal> {
    let members = members_with(alloc, ring, change.joins.as_slice())?;
    let sizes = if has_sizes(&options.layout) {
        Some(sizes_of(alloc, ring.q(), &options.layout)?)
    } else {
        None
    };
    Ok(Asked {
        weights: weights_of(alloc, ring, &options.layout)?,
        racks: racks_of(alloc, ring, members.as_slice(), options)?.racks,
        sizes,
    })
}

fn wish<'a>(asked: &'a Asked, change: &'a Change) -> WishedChange<'a> {
    WishedChange {
        joins: change.joins.as_slice(),
        leaves: change.leaves.as_slice(),
        weights: asked.weights.as_slice(),
        racks: match &asked.racks {
            Some(racks) => racks.numbers(),
            None => &[],
        },
        sizes: match &asked.sizes {
            Some(sizes) => Some(sizes.as_slice()),
            None => None,
        },
    }
}

fn placed(
    alloc: Global,
    ring: &Ring,
    change: &Change,
    options: &Options,
) -> Result<Vec<Listed<NodeId>>, Refusal> {
    let asked = asked_for(alloc, ring, change, options)?;
    wished(alloc, ring, &wish(&asked, change))
}

fn wished_ring(
    alloc: Global,
    ring: &Ring,
    change: &Change,
    options: &Options,
) -> Result<Ring, Refusal>
    ensures { IfOk result (λ wanted. HasChangedMembers ring.now change.now wanted) }
{
    let rows = placed(alloc, ring, change, options)?;
    let members = members_of(alloc, ring, change)?;
    ring.with(alloc, rows.as_slice(), members.as_slice())
}

// Fails with `NoPlan` if the sizes forbid the wanted ring.
fn ask_sized(
    alloc: Global,
    ring: &Ring,
    change: &Change,
    layout: &Layout,
    wanted: &Ring,
) -> Result<(), Refusal>
    ensures { OnOk result (has_sizes layout.now.entries ≡ true → IsSizedBy ring.now change.now layout.now.entries wanted.now) }
{
    if !has_sizes(layout) {
        return Ok(());
    }
    let measures = Measures {
        sizes: sizes_of(alloc, ring.q(), layout)?,
        weights: weights_of(alloc, ring, layout)?,
    };
    if are_kept(alloc, ring, change, &measures, wanted)? {
        return Ok(());
    }
    Err(Refusal::NoPlan)
}

/// Reads a ring and a change, and finds a plan around dead nodes, which leave.
///
/// Chooses owners by weight, with racks apart. With sizes, a slot moves only from a leaver or, if it has keys, to a
/// joiner not above its share.
///
/// Fails with the first faulty line's least fault, or as `ask_layout`, `nodes_of`, `racks_of` and `reach`. Fails with
/// `NoPlan` if too few members remain.
pub fn wish_bundle(alloc: Global, bytes: &[u8], options: &Options) -> Result<Proposed, Refusal>
    ensures reached { IfOk result (IsWishReached bytes.now options.now) }
{
    let Wanted { ring, change } = read_wanted(alloc, bytes)?;
    ask_layout(&ring, &options.layout)?;
    let dead = dead_by(alloc, options)?;
    let nodes = nodes_of(alloc, &ring, dead.as_slice())?;
    let change = with_dead(&ring, change, nodes.as_slice())?;
    let wanted = wished_ring(alloc, &ring, &change, options)?;
    ask_sized(alloc, &ring, &change, &options.layout, &wanted)?;
    let goal = wanted_by(alloc, options.unreadable, &ring, nodes.as_slice(), wanted)?;
    reach(alloc, ring, &goal, nodes.as_slice())
}

fn read_aim(alloc: Global, bytes: &[u8], options: &Options) -> Result<Goal, Refusal> {
    if kind_of(bytes) != Kind::Change {
        return read_goal(alloc, bytes);
    }
    let Wanted { ring, change } = read_wanted(alloc, bytes)?;
    let dead = dead_by(alloc, options)?;
    let nodes = nodes_of(alloc, &ring, dead.as_slice())?;
    let change = with_dead(&ring, change, nodes.as_slice())?;
    let wanted = wished_ring(alloc, &ring, &change, options)?;
    Ok(Goal { ring, wanted })
}

/// Returns the ring, the goal ring, and unread partitions, ascending.
pub fn goal_of(
    alloc: Global,
    bytes: &[u8],
    options: &Options,
) -> Result<(Goal, Vec<u32>), Refusal> {
    let Goal { ring, wanted } = read_aim(alloc, bytes, options)?;
    let dead = dead_by(alloc, options)?;
    let nodes = nodes_of(alloc, &ring, dead.as_slice())?;
    let aim = Aim {
        alloc,
        ring: &ring,
        wanted: &wanted,
        dead: nodes.as_slice(),
    };
    let unread = unread_partitions(&aim)?;
    let wanted = wanted_by(alloc, options.unreadable, &ring, nodes.as_slice(), wanted)?;
    Ok((Goal { ring, wanted }, unread))
}

/// Finds a plan by `wish_bundle` for a change, by `goal_bundle` for two rings.
pub fn led_bundle(alloc: Global, bytes: &[u8], options: &Options) -> Result<Proposed, Refusal>
    ensures led { IfOk result (IsLed bytes.now options.now) }
{
    match kind_of(bytes) {
        Kind::Plan | Kind::History => {
            let dead = dead_by(alloc, options)?;
            goal_bundle(alloc, bytes, options.unreadable, dead.as_slice())
        }
        Kind::Change => wish_bundle(alloc, bytes, options),
    }
}
