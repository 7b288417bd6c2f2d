//! A slot's steps out of order.

use crate::case::Case;
use plan_stage::Stage;
use plan_text::Step;
use ring_names::{NodeId, Refusal, Slot};
use show_why::Said;

// A template: `@` is the node.
fn cause(step: &Step, stage: &Stage) -> &'static [u8] {
    match step {
        Step::Switch(_) if stage.mirror.is_none() => {
            b"step # cannot come here: the slot has no mirror"
        }
        Step::Switch(_) => b"step # cannot come here: nothing was copied",
        Step::Copy(_, _) if stage.mirror.is_none() => {
            b"step # cannot come here: there is no mirror to copy to"
        }
        Step::Copy(_, _) => b"step # cannot come here: it is copied already",
        Step::Mirror(_, _) if stage.mirror.is_some() => {
            b"step # cannot come here: the slot has a mirror"
        }
        Step::Mirror(_, node) if stage.owner.0 == node.0 => {
            b"step # cannot come here: @ owns the slot"
        }
        Step::Mirror(_, _) => {
            b"step # cannot come here: @ owned the slot and has not dropped it"
        }
        Step::Drop(_, _) => b"step # cannot come here: @ has nothing left of the slot",
        Step::Join(_) | Step::Retire(_) => b"step # cannot come here: it has no slot",
    }
}

fn node_of(step: &Step) -> Option<NodeId> {
    match step {
        Step::Mirror(_, node) => Some(*node),
        Step::Drop(_, node) => Some(*node),
        _ => None,
    }
}

fn tell_stage(case: Case, said: &mut Said, slot: Slot, stage: &Stage) {
    said.add_note_with(
        b"  In front of it slot #.# is owned by @",
        &[case.name(stage.owner.0)],
        &[slot.partition, slot.index],
    );
    if let Some(mirror) = stage.mirror {
        let words: &[u8] = if stage.copied {
            b", mirrored to @ and copied"
        } else {
            b", mirrored to @ and not copied"
        };
        said.add_note_with(words, &[case.name(mirror.0)], &[]);
    }
    let mut words: &[u8] = b"; to be dropped by @";
    for node in stage.leftovers.as_slice() {
        said.add_note_with(words, &[case.name(node.0)], &[]);
        words = b", @";
    }
    said.add_note(b".\n")
}

fn tell_copy(said: &mut Said, slot: Slot, before: u32) {
    let numbers = [slot.partition, slot.index, before];
    let note = b"A copy is missing in between, as `copy # # owner after #`;";
    said.note_with(note, &[], &numbers);
    let note = b"the numbers of all steps behind it then rise by one.";
    said.note(note)
}

fn tell_misfit(case: Case, said: &mut Said, slot: Slot, stage: &Stage, number: u32) {
    let Some(step) = case.step(number) else {
        return;
    };
    let name = match node_of(step) {
        Some(node) => case.name(node.0),
        None => b"",
    };
    said.title_with(cause(step, stage), &[name], &[number]);
    let before = case.before(slot, number);
    if let Some(before) = before {
        let line = case.step_line(before);
        said.beside_with(line, b"step #, the slot's step before it", &[], &[before]);
    }
    case.fault(said, number);
    tell_stage(case, said, slot, stage);
    let note = b"A slot goes through mirror, copy, switch and drop, in this order.";
    said.note(note);
    match (step, stage.mirror, before) {
        (Step::Switch(_), Some(_), Some(before)) => tell_copy(said, slot, before),
        _ => {}
    }
}

/// Reports a step that does not fit the slot's earlier steps.
pub fn wrong_stage(case: Case, said: &mut Said, number: u32) -> Result<(), Refusal> {
    said.title(b"a step cannot come where it stands");
    let Some(slot) = case.slot(number) else {
        return Ok(());
    };
    if let Some(stage) = case.stage(slot, number)? {
        tell_misfit(case, said, slot, &stage, number);
    }
    Ok(())
}

fn tell_order(case: Case, said: &mut Said, slot: Slot, number: u32, before: u32) {
    let title = b"step # may run before step #, which must come first";
    said.title_with(title, &[], &[number, before]);
    let words = b"step #, the step of slot #.# before it";
    let numbers = [before, slot.partition, slot.index];
    said.beside_with(case.step_line(before), words, &[], &numbers);
    let line = case.step_line(number);
    said.fault_with(line, b"step # does not wait for it", &[], &[number]);
    if let Some(Step::Copy(_, _)) = case.step(number) {
        let note = b"A put that is written between the copy and the mirror would miss the mirror.";
        said.note(note);
    }
    said.mend(b"let it wait");
    case.wait(said, number, before)
}

/// Reports a step that does not wait for the slot's previous step.
pub fn unordered_slot(case: Case, said: &mut Said, number: u32) {
    let Some(slot) = case.slot(number) else {
        return said.title(b"a step does not wait for the slot's step before it");
    };
    match case.before(slot, number) {
        Some(before) => tell_order(case, said, slot, number, before),
        None => said.title(b"a step does not wait for the slot's step before it"),
    }
}
