//! Continues a plan around dead nodes.

ghost use Rattle.std.specs.Prelude.{◌≡◌, ◌≤◌, IfOk, OnOk, length};
ghost use Rattle.history_text.specs.Replays.{IsReplay};
ghost use Rattle.ring_core.specs.Replays.{IsHistory};
ghost use Rattle.plan_around.specs.Around.{GoesAround, IsAfter, IsAround};
ghost use Rattle.plan_around.specs.Chosen.{BeginsWith, GoesBy};

use crate::ahead::find_ahead;
use crate::chosen::{Chosen, Halted, read_halted};
use crate::going::{Going, accepted, go_on};
use change_text::Options;
use find_around::{Around, AroundTask, Kept, Reach, find_around, find_kept, find_unmoved};
use find_chains::certificate;
use history_text::ReplayBundle;
use plan_cert::Cert;
use plan_check::Approved;
use plan_goal::{Racking, ask_layout, dead_by, is_same_ring, members_by, nodes_of, racks_of};
use plan_runs::Entry;
use plan_text::Plan;
use ring_core::{World, replay};
use ring_names::{Names, NodeId, Refusal, Slot};
use ringplan_request::Detour;
use std::alloc::Global;
use texts::{Labels, Words};

#[derive(Clone, Copy)]
struct Asked<'a> {
    dead: &'a [NodeId],
    racks: Option<&'a Labels>,
    left: &'a [Slot],
    detour: Detour,
}

#[derive(Drop)]
struct Begun<'a> {
    alloc: Global,
    approved: &'a Approved,
    cert: &'a Cert,
    writers: &'a Names,
    history: &'a [Entry],
    asked: Asked<'a>,
}

/// Checks that the history is a run of the plan.
pub fn follow(alloc: Global, approved: &Approved, history: &[Entry]) -> Result<(), Refusal>
    requires { length history.now ≤ 1000000 }
    ensures { OnOk result (IsHistory approved.now.ring approved.now.plan history.now) }
{
    let _ = replay(alloc, approved, history)?;
    Ok(())
}

fn cause(refusal: Refusal) -> Refusal {
    match refusal {
        Refusal::OutOfMemory => Refusal::OutOfMemory,
        _ => Refusal::NoPlan,
    }
}

fn task_of<'a>(it: &'a Begun, ahead: &'a [Slot]) -> AroundTask<'a> {
    AroundTask {
        alloc: it.alloc,
        ring: it.approved.ring(),
        plan: it.approved.plan(),
        cert: it.cert,
        history: it.history,
        extent: it.asked.detour.extent,
        left: it.asked.left,
        dead: it.asked.dead,
        ahead,
        racks: it.asked.racks,
        back: it.asked.detour.back,
        shape: it.asked.detour.shape,
    }
}

fn find(it: &Begun, reach: Reach) -> Result<Around, Refusal> {
    let ahead = find_ahead(it.alloc, it.approved, it.history)?;
    find_around(task_of(it, ahead.as_slice()), reach)
}

// Reports named slots that no remaining step moves. Returns whether there are any.
fn push_unmoved(it: &Begun, words: &mut Words) -> Result<bool, Refusal> {
    let unmoved = find_unmoved(&task_of(it, &[]))?;
    if !unmoved.is_empty() {
        words.clear();
    }
    for slot in unmoved.iter() {
        words.fill(
            b"refused: --leave #.#: no step that is to come moves this slot\n",
            &[],
            &[slot.partition, slot.index],
        );
    }
    Ok(!unmoved.is_empty())
}

// An unchanged plan keeps its certificate.
fn go_by(it: &Begun, before: &World, found: Around) -> Result<Vec<u8>, Refusal>
    requires { IsAfter it.now.approved.now.ring it.now.approved.now.plan it.now.history.now before.now }
    ensures { IfOk result (λ v. GoesAround it.now.asked.detour.extent it.now.asked.detour.back it.now.approved.now.ring it.now.asked.dead.now it.now.asked.left.now
        it.now.writers.now it.now.approved.now.plan it.now.history.now v.items) }
{
    let Around {
        plan,
        olds,
        numbers,
        is_same,
        ..
    } = found;
    let going = Going {
        old: it.approved,
        history: it.history,
        writers: it.writers,
        dead: it.asked.dead,
        left: it.asked.left,
        back: it.asked.detour.back,
        extent: it.asked.detour.extent,
        numbers: numbers.as_slice(),
        olds: olds.as_slice(),
        cert: it.cert,
    };
    if is_same {
        return go_on(it.alloc, plan, &going, before);
    }
    let outcome = certificate(it.alloc, it.approved.ring(), &plan)?;
    let going = Going {
        cert: &outcome.cert,
        ..going
    };
    go_on(it.alloc, plan, &going, before)
}

// Tries one reach. Reports on slots and nodes if it succeeds.
fn go_so_far(
    it: &Begun,
    before: &World,
    reach: Reach,
    words: &mut Words,
) -> Result<Vec<u8>, Refusal>
    requires { IsAfter it.now.approved.now.ring it.now.approved.now.plan it.now.history.now before.now }
    ensures { IfOk result (λ v. GoesAround it.now.asked.detour.extent it.now.asked.detour.back it.now.approved.now.ring it.now.asked.dead.now it.now.asked.left.now
        it.now.writers.now it.now.approved.now.plan it.now.history.now v.items) }
{
    let found = find(it, reach)?;
    let mut said = Words::new(it.alloc);
    said.text(found.words.as_slice());
    let text = go_by(it, before, found)?;
    words.words(&said);
    Ok(text)
}

fn is_none(outcome: &Result<Vec<u8>, Refusal>) -> bool {
    match outcome {
        Ok(_) | Err(Refusal::OutOfMemory) => false,
        Err(_) => true,
    }
}

// Tries the greatest reach first.
fn go_around(it: &Begun, before: &World, words: &mut Words) -> Result<Vec<u8>, Refusal>
    requires { IsAfter it.now.approved.now.ring it.now.approved.now.plan it.now.history.now before.now }
    ensures { IfOk result (λ v. GoesAround it.now.asked.detour.extent it.now.asked.detour.back it.now.approved.now.ring it.now.asked.dead.now it.now.asked.left.now
        it.now.writers.now it.now.approved.now.plan it.now.history.now v.items) }
{
    let far = go_so_far(it, before, Reach::Far, words);
    if !is_none(&far) {
        return far;
    }
    let near = go_so_far(it, before, Reach::Near, words);
    if !is_none(&near) {
        return near;
    }
    go_so_far(it, before, Reach::Full, words)
}

fn kept_by(it: &Begun, chosen: &Plan) -> Result<Kept, Refusal> {
    let ahead = find_ahead(it.alloc, it.approved, it.history)?;
    let task = task_of(it, ahead.as_slice());
    find_kept(&task, chosen)
}

fn go_by_chosen(it: &Begun, before: &World, chosen: Chosen) -> Result<Vec<u8>, Refusal>
    requires { IsAfter it.now.approved.now.ring it.now.approved.now.plan it.now.history.now before.now }
    ensures around { IfOk result (λ v. GoesAround it.now.asked.detour.extent it.now.asked.detour.back it.now.approved.now.ring it.now.asked.dead.now it.now.asked.left.now
        it.now.writers.now it.now.approved.now.plan it.now.history.now v.items) }
    ensures by { IfOk result (λ v. BeginsWith it.now.approved.now.ring chosen.plan chosen.cert v.items) }
{
    let Chosen { plan, cert, .. } = chosen;
    let kept = kept_by(it, &plan)?;
    let going = Going {
        old: it.approved,
        history: it.history,
        writers: it.writers,
        dead: it.asked.dead,
        left: it.asked.left,
        back: it.asked.detour.back,
        extent: it.asked.detour.extent,
        numbers: kept.numbers.as_slice(),
        olds: kept.olds.as_slice(),
        cert: &cert,
    };
    go_on(it.alloc, plan, &going, before)
}

fn go_by_any(
    it: &Begun,
    before: &World,
    chosen: Option<Chosen>,
    words: &mut Words,
) -> Result<Vec<u8>, Refusal>
    requires { IsAfter it.now.approved.now.ring it.now.approved.now.plan it.now.history.now before.now }
    ensures around { IfOk result (λ v. GoesAround it.now.asked.detour.extent it.now.asked.detour.back it.now.approved.now.ring it.now.asked.dead.now it.now.asked.left.now
        it.now.writers.now it.now.approved.now.plan it.now.history.now v.items) }
    ensures by { IfOk result (λ v. GoesBy it.now.approved.now.ring chosen v.items) }
{
    let Some(chosen) = chosen else {
        return go_around(it, before, words);
    };
    if !is_same_ring(it.alloc, &chosen.ring, it.approved.ring())? {
        return Err(Refusal::NoPlan);
    }
    go_by_chosen(it, before, chosen)
}

fn push_none(has_chosen: bool, words: &mut Words) {
    words.clear();
    words.text(if has_chosen {
        b"refused: the history does not go on by the plan that follows it; `check` says whether that plan is accepted\n"
    } else {
        b"refused: no plan was found by which the history goes on\n"
    });
}

fn around_read(
    alloc: Global,
    halted: Halted,
    asked: Asked,
    words: &mut Words,
) -> Result<Vec<u8>, Refusal>
    requires { IsReplay halted.replay }
    ensures { IfOk result (λ v. GoesAround asked.entry.detour.extent asked.entry.detour.back halted.replay.ring asked.entry.dead.now asked.entry.left.now halted.replay.writers
        halted.replay.plan halted.replay.history.items v.items
        × IsHistory halted.replay.ring halted.replay.plan halted.replay.history.items
        × GoesBy halted.replay.ring halted.chosen v.items) }
{
    let Halted {
        replay: ReplayBundle {
            ring,
            plan,
            cert,
            writers,
            history,
        },
        chosen,
    } = halted;
    let approved = accepted(alloc, ring, plan, &cert)?;
    let entries = history.as_slice();
    let store = replay(alloc, &approved, entries)?;
    let begun = Begun {
        alloc,
        approved: &approved,
        cert: &cert,
        writers: &writers,
        history: entries,
        asked,
    };
    if push_unmoved(&begun, words)? {
        return Err(Refusal::NoPlan);
    }
    let has_chosen = chosen.is_some();
    match go_by_any(&begun, &store, chosen, words) {
        Ok(text) => Ok(text),
        Err(refusal) => {
            push_none(has_chosen, words);
            Err(cause(refusal))
        }
    }
}

fn asked_for<'a>(
    dead: &'a [NodeId],
    racking: &'a Racking,
    options: &'a Options,
    detour: Detour,
) -> Asked<'a>
    ensures dead { result.dead.now ≡ dead.now }
    ensures left { result.left.now ≡ options.now.left.items }
    ensures extent { result.detour.extent ≡ detour.extent }
    ensures back { result.detour.back ≡ detour.back }
{
    let racks = racking.racks.as_ref();
    let left = options.left.as_slice();
    Asked {
        dead,
        racks,
        left,
        detour,
    }
}

/// Makes the bundle that continues a stopped one around dead nodes.
///
/// The bundle has the ring, another plan, a certificate, and the history by that plan. Executors find a step's data by
/// its kind, partition, slot and node.
///
/// Named slots stay with their owners, or go to mirrors to which a copy gave all chunks. Other mirrors are undone only
/// if the detour allows it.
///
/// If a second bundle follows, without a history, its plan is used. Adds to `words` what becomes of slots and nodes,
/// or the reason for `NoPlan`.
///
/// Fails with the first faulty line's least fault, or as `ask_layout`, `nodes_of`, `racks_of`, the checker or `replay`
/// does.
///
/// Fails with `NoPlan` if no remaining step moves some named slot, or if the history cannot go on.
///
/// Costs about `check` and `replay` of both bundles, and again for each of at most two refused plans.
pub fn around_bundle(
    alloc: Global,
    bytes: &[u8],
    options: &Options,
    detour: Detour,
    words: &mut Words,
) -> Result<Vec<u8>, Refusal>
    ensures around { IfOk result (λ v. IsAround bytes.now options.now detour v.items) }
{
    let halted = read_halted(alloc, bytes)?;
    let ring = &halted.replay.ring;
    ask_layout(ring, &options.layout)?;
    let names = dead_by(alloc, options)?;
    let nodes = nodes_of(alloc, ring, names.as_slice())?;
    let members = members_by(alloc, ring, &halted.replay.plan)?;
    let racking = racks_of(alloc, ring, members.as_slice(), options)?;
    let asked = asked_for(nodes.as_slice(), &racking, options, detour);
    racking.push(words);
    around_read(alloc, halted, asked, words)
}
