//! Racks and aliases, from the layout or nodes' names.

use change_text::{Entry, Fact, Layout, Options, RackRule};
use plan_text::Plan;
use ring_names::{NodeId, Refusal};
use ring_table::Ring;
use std::alloc::Global;
use texts::{Labels, Words, at, is_set, put, raise, set, small, suffix};

/// How racks are known.
#[derive(Clone, Copy, Debug, PartialEq, Eq)]
pub enum Known {
    Named,
    /// From nodes' names: what follows the last such byte.
    Behind(u8),
    /// Shown by neither layout nor names.
    Unknown,
    /// Turned off by option.
    Off,
}

/// The nodes' racks, and how they are known.
#[derive(Drop)]
pub struct Racking {
    pub racks: Option<Labels>,
    pub known: Known,
}

const MOST: u32 = 6;

fn push_names(out: &mut Words, racks: &Labels) {
    let shown = racks.count().min(MOST);
    for number in 0..shown {
        if let Some(name) = racks.name_of(number) {
            out.text(if number > 0 { b", " } else { b"" });
            out.text(name);
        }
    }
    let others = racks.count().saturating_sub(shown);
    if others > 0 {
        out.fill(b" and # others", &[], &[others]);
    }
}

impl Racking {
    /// Adds a line with the racks' names, or says that none are known.
    pub fn push(&self, out: &mut Words) {
        let Some(racks) = &self.racks else {
            if self.known == Known::Unknown {
                out.text(NONE_KNOWN);
            }
            return;
        };
        match self.known {
            Known::Behind(byte) => {
                let shown = if byte.is_ascii_graphic() { byte } else { b'?' };
                out.fill(
                    b"ringplan: racks: what follows the last @ of a name (",
                    &[&[shown]],
                    &[],
                );
            }
            _ => out.text(b"ringplan: racks: those of the layout ("),
        }
        push_names(out, racks);
        out.text(b")\n");
    }
}

const NONE_KNOWN: &[u8; 112] =
    b"ringplan: no racks are known. Name them in a layout (--layout), or give the byte before them (--racks-behind C)\n";

// Bytes that may precede a rack in a node's name.
const SEPARATORS: [u8; 4] = [b'.', b'-', b':', b'_'];

fn unknown() -> Racking {
    Racking {
        racks: None,
        known: Known::Unknown,
    }
}

/// Marks members and joiners.
pub fn members_with(alloc: Global, ring: &Ring, joins: &[NodeId]) -> Result<Vec<bool>, Refusal> {
    let mut members = Vec::new(alloc);
    for node in ring.nodes() {
        members.push(node.is_member)?;
    }
    for node in joins {
        put(members.as_mut_slice(), node.0, true);
    }
    Ok(members)
}

/// Marks members and the plan's joiners.
pub fn members_by(alloc: Global, ring: &Ring, plan: &Plan) -> Result<Vec<bool>, Refusal> {
    let mut members = members_with(alloc, ring, &[])?;
    for node in 0..small(members.len()) {
        if plan.is_joined(NodeId(node)) {
            put(members.as_mut_slice(), node, true);
        }
    }
    Ok(members)
}

#[derive(Clone, Copy, PartialEq, Eq)]
enum Naming {
    Racks,
    Aliases,
}

fn label_in(fact: &Fact, naming: Naming) -> Option<(&[u8], &[u8])> {
    match fact {
        Fact::Rack { node, rack } if naming == Naming::Racks => {
            Some((node.as_slice(), rack.as_slice()))
        }
        Fact::Alias { node, alias } if naming == Naming::Aliases => {
            Some((node.as_slice(), alias.as_slice()))
        }
        _ => None,
    }
}

fn has(entries: &[Entry], naming: Naming) -> bool {
    for entry in entries {
        if label_in(&entry.fact, naming).is_some() {
            return true;
        }
    }
    false
}

// For each node, 1 plus the place of its fact, or 0. An undeclared name is `UnknownNode(0)`.
fn places(
    alloc: Global,
    ring: &Ring,
    entries: &[Entry],
    naming: Naming,
) -> Result<Vec<u32>, Refusal> {
    let mut places = vec![in alloc; 0u32; ring.nodes().len()]?;
    let mut place = 0u32;
    for entry in entries {
        place = place.saturating_add(1);
        if let Some((node, _)) = label_in(&entry.fact, naming) {
            let Some(number) = ring.number_of(node) else {
                return Err(Refusal::UnknownNode(0));
            };
            set(places.as_mut_slice(), number.0 as usize, place);
        }
    }
    Ok(places)
}

// Fails with `UnknownNode(0)` if a node must have a label and has none.
fn labels(
    alloc: Global,
    ring: &Ring,
    entries: &[Entry],
    naming: Naming,
    must: &[bool],
) -> Result<Labels, Refusal> {
    let places = places(alloc, ring, entries, naming)?;
    let mut labels = Labels::new(alloc);
    for node in 0..small(places.len()) {
        let place = at(places.as_slice(), node as usize) as usize;
        let label = match entries.get(place.wrapping_sub(1)) {
            Some(entry) => label_in(&entry.fact, naming),
            None => None,
        };
        match label {
            Some((_, label)) => labels.add(label)?,
            None => {
                if is_set(must, node) {
                    return Err(Refusal::UnknownNode(0));
                }
                labels.add_alone()?;
            }
        }
    }
    Ok(labels)
}

// None if a member's name has no rack after the byte.
fn behind(
    alloc: Global,
    ring: &Ring,
    members: &[bool],
    byte: u8,
) -> Result<Option<Labels>, Refusal> {
    let mut racks = Labels::new(alloc);
    let mut number = 0u32;
    for node in ring.nodes() {
        match suffix(node.name.as_slice(), byte) {
            Some(rack) => racks.add(rack)?,
            None => {
                if is_set(members, number) {
                    return Ok(None);
                }
                racks.add_alone()?;
            }
        }
        number = number.saturating_add(1);
    }
    Ok(Some(racks))
}

fn count(alloc: Global, members: &[bool], racks: &Labels) -> Result<(u32, u32), Refusal> {
    let mut seen = vec![in alloc; 0u32; members.len()]?;
    let mut count = 0u32;
    for node in 0..small(members.len()) {
        if is_set(members, node) {
            count = count.saturating_add(1);
            raise(seen.as_mut_slice(), racks.of(node) as usize);
        }
    }
    let mut used = 0u32;
    for nodes in seen.as_slice() {
        if *nodes > 0 {
            used = used.saturating_add(1);
        }
    }
    Ok((count, used))
}

fn are_spread(ring: &Ring, racks: &Labels, most: u32) -> bool {
    for row in ring.rows() {
        for owner in row.as_slice() {
            let mut kin = 0u32;
            for other in row.as_slice() {
                if racks.of(other.0) == racks.of(owner.0) {
                    kin = kin.saturating_add(1);
                }
            }
            if kin > most {
                return false;
            }
        }
    }
    true
}

// Whether there are at least 2 racks, at most half as many as members, and partitions spread over them.
fn is_likely(
    alloc: Global,
    ring: &Ring,
    members: &[bool],
    racks: &Labels,
) -> Result<bool, Refusal> {
    let (nodes, used) = count(alloc, members, racks)?;
    if used < 2 || used > nodes / 2 {
        return Ok(false);
    }
    let up = ring.n().saturating_add(used.saturating_sub(1));
    let most = up.checked_div(used).unwrap_or(0);
    Ok(are_spread(ring, racks, most))
}

// Finds racks in names, if exactly one separator shows likely racks.
fn shown(alloc: Global, ring: &Ring, members: &[bool]) -> Result<Racking, Refusal> {
    let mut found = unknown();
    for byte in SEPARATORS {
        if let Some(racks) = behind(alloc, ring, members, byte)? {
            if is_likely(alloc, ring, members, &racks)? {
                if found.racks.is_some() {
                    return Ok(unknown());
                }
                found = Racking {
                    racks: Some(racks),
                    known: Known::Behind(byte),
                };
            }
        }
    }
    Ok(found)
}

/// Returns the racks by the options. `members` marks members and joiners.
///
/// Fails with `UnknownNode(0)` for an undeclared name, or for a member without a rack if the options give racks.
pub fn racks_of(
    alloc: Global,
    ring: &Ring,
    members: &[bool],
    options: &Options,
) -> Result<Racking, Refusal> {
    match options.racks {
        RackRule::Off => Ok(Racking {
            racks: None,
            known: Known::Off,
        }),
        RackRule::Behind(byte) => match behind(alloc, ring, members, byte)? {
            Some(racks) => Ok(Racking {
                racks: Some(racks),
                known: Known::Behind(byte),
            }),
            None => Err(Refusal::UnknownNode(0)),
        },
        RackRule::Auto => {
            let entries = options.layout.entries.as_slice();
            if !has(entries, Naming::Racks) {
                return shown(alloc, ring, members);
            }
            Ok(Racking {
                racks: Some(labels(alloc, ring, entries, Naming::Racks, members)?),
                known: Known::Named,
            })
        }
    }
}

/// The first member without a rack, if the options give racks.
pub fn unracked(
    alloc: Global,
    ring: &Ring,
    members: &[bool],
    options: &Options,
) -> Result<Option<u32>, Refusal> {
    let entries = options.layout.entries.as_slice();
    let places = places(alloc, ring, entries, Naming::Racks)?;
    let by_layout = options.racks == RackRule::Auto && has(entries, Naming::Racks);
    let mut number = 0u32;
    for node in ring.nodes() {
        let lacks = match options.racks {
            RackRule::Behind(byte) => suffix(node.name.as_slice(), byte).is_none(),
            _ => by_layout && at(places.as_slice(), number as usize) == 0,
        };
        if lacks && is_set(members, number) {
            return Ok(Some(number));
        }
        number = number.saturating_add(1);
    }
    Ok(None)
}

/// The layout's aliases, if any. An undeclared name is `UnknownNode(0)`.
pub fn aliases_of(alloc: Global, ring: &Ring, layout: &Layout) -> Result<Option<Labels>, Refusal> {
    let entries = layout.entries.as_slice();
    if !has(entries, Naming::Aliases) {
        return Ok(None);
    }
    let aliases = labels(alloc, ring, entries, Naming::Aliases, &[])?;
    Ok(Some(aliases))
}

fn node_of(fact: &Fact) -> Option<&[u8]> {
    match fact {
        Fact::Rack { node, rack: _ }
        | Fact::Weight { node, parts: _ }
        | Fact::Alias { node, alias: _ }
        | Fact::Dead { node } => Some(node.as_slice()),
        Fact::Size { .. } => None,
    }
}

/// The first fact about an unknown node or partition.
pub fn misfit<'a>(ring: &Ring, layout: &'a Layout) -> Option<&'a Entry> {
    for entry in layout.entries.as_slice() {
        let fits = match (&entry.fact, node_of(&entry.fact)) {
            (Fact::Size { partition, size: _ }, _) => *partition < ring.q(),
            (_, Some(node)) => ring.number_of(node).is_some(),
            (_, None) => true,
        };
        if !fits {
            return Some(entry);
        }
    }
    None
}

/// Checks that the layout fits the ring.
///
/// Fails with `UnknownNode(0)` for an unknown node, with `TooLarge` and the layout's line for an unknown partition.
pub fn ask_layout(ring: &Ring, layout: &Layout) -> Result<(), Refusal> {
    match misfit(ring, layout) {
        None => Ok(()),
        Some(entry) => match &entry.fact {
            Fact::Size { .. } => Err(Refusal::TooLarge(entry.line)),
            _ => Err(Refusal::UnknownNode(0)),
        },
    }
}
