//! Copies from listed slots.

use crate::case::Case;
use plan_text::{Source, Step};
use ring_names::Slot;
use show_why::Said;

fn different(indexes: &[u8]) -> u32 {
    let mut count = 0u32;
    for place in 0..indexes.len() {
        if !indexes[..place].contains(&indexes[place]) {
            count = count.saturating_add(1);
        }
    }
    count
}

/// Reports a copy that lists a slot twice, or too few.
pub fn bad_source(case: Case, said: &mut Said, number: u32) {
    said.title_with(b"step # reads too few slots, or one twice", &[], &[number]);
    if let Some(Step::Copy(_, Source::Slots(from))) = case.step(number) {
        said.fault_with(
            case.step_line(number),
            b"# different, but a read asks for #, each once",
            &[],
            &[different(from.as_slice()), case.ring.r()],
        );
    }
    said.note(
        b"List as many slots of the partition as a read asks for, each once, or copy from `owner`.",
    )
}

// A listed slot's first switch without an order to the copy.
fn moving(case: Case, slot: Slot, from: &[u8], number: u32) -> Option<(u32, u32)> {
    for index in from {
        let listed = Slot {
            partition: slot.partition,
            index: u32::from(*index),
        };
        for other in case.plan.slot_steps(listed) {
            if let Some(Step::Switch(_)) = case.step(*other) {
                if !case.is_ordered(*other, number) && !case.is_ordered(number, *other) {
                    return Some((*other, listed.index));
                }
            }
        }
    }
    None
}

/// Reports a copy of a slot whose owner may change meanwhile.
pub fn moving_source(case: Case, said: &mut Said, number: u32) {
    said.title_with(
        b"step # reads a slot whose owner may change under it",
        &[],
        &[number],
    );
    let Some(Step::Copy(slot, Source::Slots(from))) = case.step(number) else {
        return;
    };
    let Some((switch, index)) = moving(case, *slot, from.as_slice(), number) else {
        return;
    };
    said.fault_with(
        case.step_line(number),
        b"step # reads slot #.#",
        &[],
        &[number, slot.partition, index],
    );
    said.beside_with(
        case.step_line(switch),
        b"step # changes its owner: before the copy, or behind it?",
        &[],
        &[switch],
    );
    said.mend(b"let the later one wait");
    case.wait(said, number.max(switch), number.min(switch))
}
