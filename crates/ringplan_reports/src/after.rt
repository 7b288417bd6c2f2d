//! The ring after a plan or a history.

ghost use Rattle.std.specs.Prelude.{◌≡◌, ◌≤◌, ◌⊎◌, length, IfOk};
ghost use Rattle.plan_runs.specs.World.{World as TheWorld};
ghost use Rattle.ring_core.specs.World.{Meets, plan_of, ring_of};
ghost use Rattle.ringplan_reports.specs.Studies.{IsLeftAt, IsLeftBy, IsLeftNow, IsPlanOf, members_now};

use crate::study::{Study, accepted, studied, study_change, study_plan};
use crate::why::push_words_of;
use change_text::Options;
use history_text::read_replay;
use plan_check::Approved;
use plan_goal::{Kind, kind_of, ring_after};
use plan_moves::Progress;
use plan_runs::Entry;
use plan_text::{Plan, Step};
use ring_core::{World, replay};
use ring_names::{NodeId, Refusal, Slot};
use ring_table::{Ring, write_ring};
use std::alloc::Global;
use texts::{Words, small};

// By slot, the open mirror's step.
#[derive(Drop)]
struct Open {
    rows: Vec<Vec<Option<u32>>>,
}

impl Open {
    fn of(alloc: Global, ring: &Ring) -> Result<Open, Refusal> {
        let mut rows = Vec::new(alloc);
        for row in ring.rows() {
            rows.push(vec![in alloc; None; row.as_slice().len()]?)?;
        }
        Ok(Open { rows })
    }

    fn set(&mut self, slot: Slot, step: Option<u32>) {
        if let Some(row) = self.rows.get_mut(slot.partition as usize) {
            if let Some(open) = row.get_mut(slot.index as usize) {
                *open = step;
            }
        }
    }

    fn act(&mut self, step: &Step, number: u32) {
        match step {
            Step::Mirror(slot, _) => self.set(*slot, Some(number)),
            Step::Switch(slot) => self.set(*slot, None),
            Step::Copy(_, _) | Step::Drop(_, _) | Step::Join(_) | Step::Retire(_) => {}
        }
    }

    fn steps(&self, alloc: Global) -> Result<Vec<u32>, Refusal> {
        let mut steps = Vec::new(alloc);
        for row in self.rows.as_slice() {
            for open in row.as_slice() {
                if let Some(step) = open {
                    steps.push(*step)?;
                }
            }
        }
        Ok(steps)
    }
}

// Returns the open mirrors after the whole plan, or after the finished steps.
fn open_steps(
    alloc: Global,
    approved: &Approved,
    progress: Option<&Progress>,
) -> Result<Vec<u32>, Refusal> {
    let plan = approved.plan();
    let mut open = Open::of(alloc, approved.ring())?;
    for number in 0..plan.len() {
        let is_done = match progress {
            Some(progress) => progress.is_done(number),
            None => true,
        };
        if is_done {
            open.act(plan.step(number), number);
        }
    }
    open.steps(alloc)
}

// Fails with `WrongStage` at the first open mirror.
fn ask_switched(
    alloc: Global,
    approved: &Approved,
    progress: Option<&Progress>,
) -> Result<(), Refusal> {
    let steps = open_steps(alloc, approved, progress)?;
    let mut first = None;
    for step in steps.as_slice() {
        first = earlier(first, Some(*step));
    }
    match first {
        Some(number) => Err(Refusal::WrongStage(number)),
        None => Ok(()),
    }
}

pub(crate) fn earlier(one: Option<u32>, other: Option<u32>) -> Option<u32> {
    match (one, other) {
        (Some(one), Some(other)) => Some(one.min(other)),
        (None, other) => other,
        (one, None) => one,
    }
}

fn members_now(alloc: Global, ring: &Ring, store: &World) -> Result<Vec<bool>, Refusal>
    ensures { IfOk result (λ members. (w : TheWorld) → Meets store.now w
        → members.items ≡ members_now (ring_of store.now) (plan_of store.now) w (length ring.now.nodes)) }
{
    let mut members = Vec::new(alloc);
    let count = ring.nodes().len() as u32;
    'nodes: for node in 0..count {
        members.push(store.is_member(NodeId(node)))?;
    }
    Ok(members)
}

fn ring_now(alloc: Global, approved: &Approved, history: &[Entry]) -> Result<Vec<u8>, Refusal>
    requires { length history.now ≤ 1000000 }
    ensures { IfOk result (λ text. IsLeftAt approved.now.ring approved.now.plan history.now text.items) }
{
    let store = replay(alloc, approved, history)?;
    let progress = Progress::of(alloc, approved.plan(), history)?;
    ask_switched(alloc, approved, Some(&progress))?;
    let rows = store.table()?;
    let ring = approved.ring();
    let members = members_now(alloc, ring, &store)?;
    let left = ring.with(alloc, rows.as_slice(), members.as_slice())?;
    write_ring(alloc, &left)
}

fn after_history(alloc: Global, bytes: &[u8]) -> Result<Vec<u8>, Refusal>
    ensures { IfOk result (λ text. IsLeftNow bytes.now text.items) }
{
    let bundle = read_replay(alloc, bytes)?;
    let found = accepted(alloc, bundle.ring, bundle.plan, bundle.cert)?;
    ring_now(alloc, &found.approved, bundle.history.as_slice())
}

fn ring_left(alloc: Global, found: &Study, bytes: &[u8]) -> Result<Vec<u8>, Refusal>
    requires { IsPlanOf bytes.now found.now.approved.ring found.now.approved.plan }
    ensures { IfOk result (λ text. IsLeftBy bytes.now text.items) }
{
    let approved = &found.approved;
    // Shows the prover that the plan is approved.
    let _ = approved.plan();
    ask_switched(alloc, approved, None)?;
    write_ring(alloc, &ring_after(alloc, approved)?)
}

/// Writes the ring after the plan, or after its history.
///
/// Fails with `WrongStage` at an open move's mirror, which a ring cannot have. Otherwise fails as `studied`.
pub fn after_bundle(alloc: Global, bytes: &[u8]) -> Result<Vec<u8>, Refusal>
    ensures after { IfOk result (λ text. IsLeftNow bytes.now text.items ⊎ IsLeftBy bytes.now text.items) }
{
    match kind_of(bytes) {
        Kind::Change => {
            let found = study_change(alloc, bytes, &Options::new(alloc))?;
            ring_left(alloc, &found, bytes)
        }
        Kind::Plan => ring_left(alloc, &study_plan(alloc, bytes)?, bytes),
        Kind::History => after_history(alloc, bytes),
    }
}

/// Adds why `after_bundle` fails with `WrongStage`: open moves and, with a history, their remaining steps. Without open
/// moves, adds the plan's fault.
pub fn push_open(alloc: Global, out: &mut Words, bytes: &[u8], step: u32) -> Result<(), Refusal> {
    match studied(alloc, bytes, &Options::new(alloc)) {
        Ok(found) => {
            if push_open_of(alloc, out, &found)? {
                return Ok(());
            }
        }
        Err(Refusal::OutOfMemory) => return Err(Refusal::OutOfMemory),
        Err(_) => {}
    }
    push_words_of(alloc, out, bytes, &Refusal::WrongStage(step))
}

// Adds open moves. Returns whether there are any.
fn push_open_of(alloc: Global, out: &mut Words, found: &Study) -> Result<bool, Refusal> {
    let (ring, plan) = (found.approved.ring(), found.approved.plan());
    let progress = match &found.history {
        Some(history) => Some(Progress::of(alloc, plan, history.as_slice())?),
        None => None,
    };
    let progress = progress.as_ref();
    let steps = open_steps(alloc, &found.approved, progress)?;
    if steps.is_empty() {
        return Ok(false);
    }
    push_many(
        out,
        small(steps.len()),
        b"refused: # move is",
        b"refused: # moves are",
    );
    out.text(if progress.is_some() {
        b" open, and a ring cannot say that\n".as_slice()
    } else {
        b" open after the last step of the plan, and a ring cannot say that\n".as_slice()
    });
    for step in steps.as_slice() {
        push_move(out, ring, plan, progress, *step);
    }
    if progress.is_some() {
        out.text(REST);
    }
    Ok(true)
}

const REST: &[u8; 118] =
    b"  To end these and begin no other: `ringplan around --rest FILE` prints a plan. Do its steps, then ask `after` of it.\n";

fn push_many(out: &mut Words, number: u32, one: &[u8], more: &[u8]) {
    out.fill(if number == 1 { one } else { more }, &[], &[number])
}

fn push_move(out: &mut Words, ring: &Ring, plan: &Plan, progress: Option<&Progress>, step: u32) {
    let Some((slot, node)) = mirror_of(plan, step) else {
        return;
    };
    out.fill(
        b"  slot #.#, to @: begun by step #",
        &[ring.name(node.0)],
        &[slot.partition, slot.index, step],
    );
    match progress {
        Some(progress) => push_left(out, plan, progress, slot, step),
        None => out.text(b", and no step switches it"),
    }
    out.byte(b'\n');
}

// The slot's unfinished steps after `step`, up to its switch.
fn push_left(out: &mut Words, plan: &Plan, progress: &Progress, slot: Slot, step: u32) {
    let mut words: &[u8] = b"; to do: #";
    for number in plan.slot_steps(slot) {
        if *number > step && !progress.is_done(*number) {
            out.fill(words, &[], &[*number]);
            words = b", #";
        }
        if *number > step && is_switch(plan, *number) {
            return;
        }
    }
}

pub(crate) fn slot_of(plan: &Plan, number: u32) -> Option<Slot> {
    if number >= plan.len() {
        return None;
    }
    match plan.step(number) {
        Step::Mirror(slot, _) | Step::Copy(slot, _) | Step::Switch(slot) | Step::Drop(slot, _) =>
            Some(*slot),
        Step::Join(_) | Step::Retire(_) => None,
    }
}

fn mirror_of(plan: &Plan, number: u32) -> Option<(Slot, NodeId)> {
    if number >= plan.len() {
        return None;
    }
    match plan.step(number) {
        Step::Mirror(slot, node) => Some((*slot, *node)),
        _ => None,
    }
}

fn is_switch(plan: &Plan, number: u32) -> bool {
    number < plan.len() && matches!(plan.step(number), Step::Switch(_))
}
