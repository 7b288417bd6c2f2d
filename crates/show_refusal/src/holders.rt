//! Nodes that must not hold slots, or are not members.

use crate::case::Case;
use find_chains::{Stay, Stays};
use plan_text::Step;
use ring_names::{NodeId, Refusal, Slot};
use show_why::Said;

fn all_stays(case: Case) -> Result<Stays, Refusal> {
    let mut stays = Stays::of(case.alloc, case.ring)?;
    for number in 0..case.plan.len() {
        stays.act(case.plan.step(number), number)?;
    }
    Ok(stays)
}

// Whether the stay began before the step, and has no known end before it.
fn lasts(case: Case, stay: Stay, number: u32) -> bool {
    let has_begun = match stay.begun {
        Some(begun) => begun < number,
        None => true,
    };
    let is_over = match stay.left {
        Some(left) => case.is_ordered(left, number),
        None => false,
    };
    has_begun && !is_over
}

// The first stay that lasts at the step.
fn stay_with(case: Case, stays: &Stays, node: NodeId, slot: Slot, number: u32) -> Option<Stay> {
    let mut found = None;
    let mut next = stays.latest_at(slot, node.0);
    for turn in 0..stays.len() {
        let Some(stay) = stays.stay(next) else {
            break;
        };
        if lasts(case, stay, number) {
            found = Some(stay);
        }
        next = stay.same_before;
    }
    found
}

fn other_stay(case: Case, stays: &Stays, node: NodeId, slot: Slot, number: u32) -> Option<Stay> {
    for index in 0..case.ring.n() {
        if index != slot.index {
            let other = Slot {
                partition: slot.partition,
                index,
            };
            if let Some(found) = stay_with(case, stays, node, other, number) {
                return Some(found);
            }
        }
    }
    None
}

/// Reports a mirror that brings a node into a second slot of a partition.
pub fn shared_in_plan(case: Case, said: &mut Said, number: u32) -> Result<(), Refusal> {
    let Some(Step::Mirror(slot, node)) = case.step(number) else {
        said.title(b"a mirror brings a node into a second slot of a partition");
        return Ok(());
    };
    let name = case.name(node.0);
    said.title_with(
        b"step # brings @ into a second slot of partition #",
        &[name],
        &[number, slot.partition],
    );
    said.fault_with(
        case.step_line(number),
        b"step #: @ enters slot #.#",
        &[name],
        &[number, slot.partition, slot.index],
    );
    let stays = all_stays(case)?;
    match other_stay(case, &stays, *node, *slot, number) {
        Some(found) => tell_stay(case, said, name, found, number),
        None => {}
    }
    Ok(())
}

fn tell_entry(case: Case, said: &mut Said, name: &[u8], found: Stay) {
    let Slot { partition, index } = found.slot;
    match found.begun {
        Some(begin) => {
            let line = case.step_line(begin);
            let numbers = [begin, partition, index];
            said.beside_with(line, b"step #: it enters slot #.#", &[], &numbers)
        }
        None => {
            let words = b"@ owns slot #.# from the start.";
            said.note_with(words, &[name], &[partition, index])
        }
    }
}

fn tell_exit(case: Case, said: &mut Said, name: &[u8], found: Stay, number: u32) {
    let Slot { partition, index } = found.slot;
    let Some(end) = found.left else {
        let note =
            b"No step takes @ out of slot #.#: move that slot first, or mirror another node.";
        return said.note_with(note, &[name], &[partition, index]);
    };
    let line = case.step_line(end);
    let numbers = [end, partition, index];
    said.beside_with(line, b"step #: it leaves slot #.#", &[], &numbers);
    if end > number {
        let note = b"It leaves that slot behind this step: move its steps in front.";
        said.note(note);
    }
}

fn tell_stay(case: Case, said: &mut Said, name: &[u8], found: Stay, number: u32) {
    tell_entry(case, said, name, found);
    tell_exit(case, said, name, found, number);
    let note = b"Two replicas of a key on one node would count twice in a quorum.";
    said.note(note);
    match found.left {
        Some(end) if end < number => {
            said.mend_with(b"let it wait until @ has left", &[name], &[]);
            case.wait(said, number, end)
        }
        _ => {}
    }
}

fn used(case: Case, number: u32) -> Option<NodeId> {
    match case.step(number)? {
        Step::Mirror(_, node) => Some(*node),
        Step::Retire(node) => Some(*node),
        _ => None,
    }
}

/// Reports a step whose node must be a member and is not.
pub fn not_joined(case: Case, said: &mut Said, number: u32) {
    let Some(node) = used(case, number) else {
        return said.title(b"a node is not a member when a step needs it");
    };
    let name = case.name(node.0);
    said.title_with(b"@ is not a member when step # comes", &[name], &[number]);
    case.fault(said, number);
    let Some(join) = case.plan.join_of(node) else {
        said.beside(case.node_line(node.0), b"declared `out`");
        return said.note_with(b"No step joins it: put `join @` in front.", &[name], &[]);
    };
    said.beside_with(case.step_line(join), b"step # joins it", &[], &[join]);
    if join >= number {
        return said.note(b"Its join stands behind: move it in front.");
    }
    said.mend(b"let it wait for the join");
    case.wait(said, number, join)
}

// Slots without a drop, and drops that the retirement does not await.
#[derive(Drop)]
struct Left {
    slots: Vec<Slot>,
    drops: Vec<u32>,
}

impl Left {
    fn add(&mut self, case: Case, stay: Stay, number: u32) -> Result<(), Refusal> {
        match stay.dropped {
            Some(drop) if case.is_ordered(drop, number) => {}
            Some(drop) => self.drops.push(drop)?,
            None => self.slots.push(stay.slot)?,
        }
        Ok(())
    }
}

fn find_left(case: Case, node: NodeId, number: u32) -> Result<Left, Refusal> {
    let stays = all_stays(case)?;
    let mut left = Left {
        slots: Vec::new(case.alloc),
        drops: Vec::new(case.alloc),
    };
    let mut next = stays.latest_of(node.0);
    for turn in 0..stays.len() {
        let Some(stay) = stays.stay(next) else {
            break;
        };
        left.add(case, stay, number)?;
        next = stay.node_before;
    }
    left.slots.as_mut_slice().reverse();
    left.drops.as_mut_slice().reverse();
    Ok(left)
}

// Stops after about 500 bytes of notes.
fn tell_slots(said: &mut Said, slots: &[Slot]) {
    for slot in slots {
        said.note_with(
            b"It holds slot #.#, and no step drops that: move the slot to another node and drop it.",
            &[],
            &[slot.partition, slot.index],
        );
        if said.noted() > 500 {
            return said.note(b"..");
        }
    }
}

fn tell_drops(case: Case, said: &mut Said, drops: &[u32]) {
    for drop in &drops[..drops.len().min(6)] {
        said.beside_with(
            case.step_line(*drop),
            b"step #: the retirement does not wait for it",
            &[],
            &[*drop],
        );
    }
}

fn tell_left(case: Case, said: &mut Said, left: &Left, number: u32) {
    tell_slots(said, left.slots.as_slice());
    let drops = left.drops.as_slice();
    tell_drops(case, said, drops);
    let Some(drop) = drops.first() else {
        return;
    };
    if *drop >= number || !left.slots.is_empty() {
        return;
    }
    let says: &[u8] = if drops.len() == 1 {
        b"let it wait for the drop"
    } else {
        b"let it wait for the first of its drops"
    };
    said.mend(says);
    case.wait(said, number, *drop)
}

/// Reports a node that retires with undropped slots.
pub fn retired_in_use(case: Case, said: &mut Said, number: u32) -> Result<(), Refusal> {
    let Some(Step::Retire(node)) = case.step(number) else {
        said.title(b"a node retires with slots that it has not dropped");
        return Ok(());
    };
    said.title_with(
        b"@ retires with slots that it has not dropped",
        &[case.name(node.0)],
        &[],
    );
    case.fault(said, number);
    let left = find_left(case, *node, number)?;
    tell_left(case, said, &left, number);
    Ok(())
}
