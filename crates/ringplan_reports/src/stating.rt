//! Statements about a bundle, as JSON.

ghost use Rattle.std.specs.Prelude.{◌≡◌, ◌≢◌, ◌≤◌, ◌⊎◌, IfOk};
ghost use Rattle.plan_goal.specs.GoalsReached.{IsLed};
ghost use Rattle.ringplan_reports.specs.Made.{IsStated};
ghost use Rattle.ringplan_reports.specs.Studies.{HasApproved, IsShown};

use crate::goal_words::push_goal_words;
use crate::history_words::unless_memory;
use crate::keeping::kept_value;
use crate::object::{Object, text_value};
use crate::racks::{is_of_options, push_misfits, racking_of};
use crate::reporting::goal_status;
use crate::show::{Shown, facts_of, racks_at_rest, shown_by, volumes_of};
use crate::study::{Study, studied};
use crate::why::{MendOutcome, push_accepted, push_why};
use change_text::Options;
use plan_goal::{Proposed, Racking, ask_layout, front, led_bundle};
use ring_names::Refusal;
use ring_table::{Allowance, Ring, read_ring};
use ringplan_answers::{Answer, refusal_members, status_of};
use ringplan_request::{Exit, Statement, Wish};
use serde_json::Value;
use show_plan::{PresentRing, RingFacts, Scene, Volumes, stored_by};
use show_why::Said;
use std::alloc::Global;
use texts::{Labels, Words, at, small, word};

// `accepted`, `planned`, `replayed`, or the next refusal's line.
fn outcome_value(alloc: Global, outcome: MendOutcome) -> Result<Value, Refusal> {
    let word: &[u8] = match outcome {
        MendOutcome::Accepted => b"accepted",
        MendOutcome::Planned => b"planned",
        MendOutcome::Replayed => b"replayed",
        MendOutcome::Same => b"",
        MendOutcome::Next(refusal) => {
            let mut line = Vec::new(alloc);
            refusal.write_line(&mut line)?;
            line.pop();
            return text_value(alloc, line.as_slice());
        }
    };
    text_value(alloc, word)
}

// The new lines, and their outcome.
fn mend_value(alloc: Global, said: &Said, outcome: MendOutcome) -> Result<Value, Refusal> {
    let mut lines = Vec::new(alloc);
    for place in 0..said.changes() {
        if let Some((line, new)) = said.change(place) {
            let mut change = Object::new(alloc);
            change.number("line", line)?;
            change.text("text", new)?;
            lines.push(change.value())?;
        }
    }
    let mut mend = Object::new(alloc);
    mend.put("lines", Value::Array(lines))?;
    mend.put("then", outcome_value(alloc, outcome)?)?;
    Ok(mend.value())
}

fn numbers_value(alloc: Global, numbers: &[u32]) -> Result<Value, Refusal> {
    let mut values = Vec::new(alloc);
    for number in numbers {
        values.push(Value::from(*number))?;
    }
    Ok(Value::Array(values))
}

fn names_value(alloc: Global, ring: &Ring, nodes: &[u32]) -> Result<Value, Refusal> {
    let mut values = Vec::new(alloc);
    for node in nodes {
        values.push(text_value(alloc, ring.name(*node))?)?;
    }
    Ok(Value::Array(values))
}

fn refused_object(alloc: Global, refusal: &Refusal, words: Words) -> Result<Object, Refusal> {
    let words = words.end()?;
    let mut object = Object::with(alloc, refusal_members(alloc, refusal)?);
    object.text("words", words.as_slice())?;
    Ok(object)
}

fn refused_answer(object: Object, refusal: &Refusal) -> Result<Answer, Refusal>
    ensures { IfOk result (λ answer. (answer.status ≢ 0) × (answer.status ≤ 3)) }
{
    object.answer(status_of(refusal))
}

fn state_refusal(alloc: Global, bytes: &[u8], refusal: &Refusal) -> Result<Answer, Refusal>
    ensures { IfOk result (λ answer. (answer.status ≢ 0) × (answer.status ≤ 3)) }
{
    unless_memory(*refusal)?;
    let mut words = Words::new(alloc);
    let mut said = Said::new(alloc);
    let outcome = push_why(alloc, &mut words, &mut said, bytes, refusal)?;
    let mut object = refused_object(alloc, refusal, words)?;
    let lines = said.faults(alloc)?;
    object.put("lines", numbers_value(alloc, lines.as_slice())?)?;
    if let Some(kept) = kept_value(alloc, bytes)? {
        object.put("kept", kept)?;
    }
    if outcome != MendOutcome::Same {
        object.put("mend", mend_value(alloc, &said, outcome)?)?;
    }
    refused_answer(object, refusal)
}

fn state_accepted(alloc: Global, found: &Study) -> Result<Answer, Refusal>
    ensures { IfOk result (λ answer. answer.status ≡ 0) }
{
    let mut words = Words::new(alloc);
    push_accepted(&mut words, found);
    let words = words.end()?;
    let mut object = Object::new(alloc);
    object.text("answer", b"yes")?;
    object.number("steps", found.approved.plan().len())?;
    object.text("words", words.as_slice())?;
    object.answer(0)
}

fn state_why(alloc: Global, bytes: &[u8]) -> Result<Answer, Refusal>
    ensures yes { IfOk result (λ answer. answer.status ≡ 0 → HasApproved bytes.now) }
    ensures few { IfOk result (λ answer. answer.status ≤ 3) }
{
    match studied(alloc, bytes, &Options::new(alloc)) {
        Ok(found) => {
            // Shows the prover that the plan is approved.
            let _ = found.approved.plan();
            state_accepted(alloc, &found)
        }
        Err(refusal) => state_refusal(alloc, bytes, &refusal),
    }
}

#[derive(Clone, Copy)]
struct StatedNodes<'a> {
    alloc: Global,
    ring: &'a Ring,
    present: &'a PresentRing,
    facts: &'a RingFacts,
    // by node
    stored: &'a Option<Vec<u64>>,
}

impl<'a> StatedNodes<'a> {
    fn object(&self, node: u32) -> Result<Object, Refusal> {
        let present = self.present;
        let mut object = Object::new(self.alloc);
        object.text("name", self.ring.name(node))?;
        put_label(&mut object, "rack", self.facts.racks.as_ref(), node)?;
        put_label(&mut object, "alias", self.facts.aliases.as_ref(), node)?;
        object.put("is_member", Value::from(present.is_member(node)))?;
        object.put("is_dead", Value::from(present.is_dead(node)))?;
        object.number("slots", at(present.owned.as_slice(), node as usize))?;
        if let Some(stored) = self.stored {
            object.long("stored_size", word(stored.as_slice(), node as usize))?;
        }
        put_allowance(&mut object, self.ring, node)?;
        Ok(object)
    }
}

fn put_label(
    object: &mut Object,
    key: &'static str,
    labels: Option<&Labels>,
    node: u32,
) -> Result<(), Refusal> {
    match labels {
        Some(labels) if !labels.name(node).is_empty() => object.text(key, labels.name(node)),
        _ => Ok(()),
    }
}

fn put_allowance(object: &mut Object, ring: &Ring, node: u32) -> Result<(), Refusal> {
    match ring.nodes().get(node as usize) {
        Some(declared) => match declared.allowance {
            Allowance::Joint(most) => object.number("bears", most),
            Allowance::Split { take, give } => {
                object.number("bears_in", take)?;
                object.number("bears_out", give)
            }
        },
        None => Ok(()),
    }
}

fn ring_object(alloc: Global, ring: &Ring, facts: &RingFacts) -> Result<Object, Refusal> {
    let present = PresentRing::at_rest(alloc, ring, facts.dead.as_slice())?;
    let stored = stored_by(alloc, &present, facts.sizes())?;
    let stated = StatedNodes {
        alloc,
        ring,
        present: &present,
        facts,
        stored: &stored,
    };
    let mut nodes = Vec::new(alloc);
    for node in 0..small(ring.nodes().len()) {
        nodes.push(stated.object(node)?.value())?;
    }
    let mut object = Object::new(alloc);
    object.text("answer", b"yes")?;
    object.put("nodes", Value::Array(nodes))?;
    Ok(object)
}

fn nodes_value(
    stated: &StatedNodes,
    shown: &Shown,
    volumes: Option<&Volumes>,
) -> Result<Value, Refusal> {
    let loads = &shown.scene.loads;
    let mut nodes = Vec::new(stated.alloc);
    for node in 0..small(stated.ring.nodes().len()) {
        let mut object = stated.object(node)?;
        if let Some(volumes) = volumes {
            object.long("gives_size", word(volumes.gives.as_slice(), node as usize))?;
            object.long("takes_size", word(volumes.takes.as_slice(), node as usize))?;
        }
        object.put("is_down", Value::from(shown.present.is_down(node)))?;
        object.number("begin", at(loads.before.as_slice(), node as usize))?;
        object.number("end", at(loads.after.as_slice(), node as usize))?;
        object.number("gives", at(loads.gives.as_slice(), node as usize))?;
        object.number("takes", at(loads.takes.as_slice(), node as usize))?;
        nodes.push(object.value())?;
    }
    Ok(Value::Array(nodes))
}

// Adds joiners, leavers, the amount moved, and rounds.
fn put_change(
    object: &mut Object,
    alloc: Global,
    ring: &Ring,
    scene: &Scene,
) -> Result<(), Refusal> {
    object.put("joins", names_value(alloc, ring, scene.joins.as_slice())?)?;
    object.put("leaves", names_value(alloc, ring, scene.leaves.as_slice())?)?;
    object.number("moves", scene.move_count())?;
    object.number("rounds", scene.round_count())
}

// Adds how much moves and remains, and the earliest end.
fn put_volumes(
    object: &mut Object,
    alloc: Global,
    volumes: &Volumes,
    rate: Option<u32>,
) -> Result<(), Refusal> {
    let mut rounds = Vec::new(alloc);
    for size in volumes.rounds.as_slice() {
        rounds.push(Value::from(*size))?;
    }
    object.long("moves_size", volumes.moved)?;
    object.put("rounds_size", Value::Array(rounds))?;
    object.long("longest_size", volumes.longest)?;
    if let Some(left) = &volumes.left {
        object.long("left_size", left.moved)?;
        object.long("longest_left_size", left.longest)?;
    }
    if let Some(rate) = rate {
        object.long("earliest_end", volumes.earliest_end(rate))?;
    }
    Ok(())
}

fn nodes_of_plan(
    alloc: Global,
    found: &Study,
    shown: &Shown,
    volumes: Option<&Volumes>,
    options: &Options,
) -> Result<Value, Refusal> {
    let ring = found.approved.ring();
    let Racking { racks, .. } = racking_of(alloc, &found.approved, options)?;
    let facts = facts_of(alloc, ring, racks, options)?;
    let stored = stored_by(alloc, &shown.present, facts.sizes())?;
    let stated = StatedNodes {
        alloc,
        ring,
        present: &shown.present,
        facts: &facts,
        stored: &stored,
    };
    nodes_value(&stated, shown, volumes)
}

fn plan_object(
    alloc: Global,
    found: &Study,
    wish: Wish,
    options: &Options,
) -> Result<Object, Refusal> {
    let (ring, plan) = (found.approved.ring(), found.approved.plan());
    ask_layout(ring, &options.layout)?;
    let shown = shown_by(alloc, found, options)?;
    let run = shown.progress.as_ref();
    let volumes = volumes_of(alloc, found, &shown.scene, run, options)?;
    let mut object = Object::new(alloc);
    object.text("answer", b"yes")?;
    object.number("steps", plan.len())?;
    put_change(&mut object, alloc, ring, &shown.scene)?;
    let nodes = nodes_of_plan(alloc, found, &shown, volumes.as_ref(), options)?;
    object.put("nodes", nodes)?;
    if let Some(volumes) = &volumes {
        put_volumes(&mut object, alloc, volumes, wish.rate)?;
    }
    if let Some(progress) = &shown.progress {
        object.number("steps_done", progress.count())?;
    }
    Ok(object)
}

fn state_misfit(
    alloc: Global,
    bytes: &[u8],
    options: &Options,
    refusal: &Refusal,
) -> Result<Answer, Refusal>
    ensures { IfOk result (λ answer. (answer.status ≢ 0) × (answer.status ≤ 3)) }
{
    unless_memory(*refusal)?;
    let mut words = Words::new(alloc);
    let _ = push_misfits(alloc, &mut words, bytes, options)?;
    let object = refused_object(alloc, refusal, words)?;
    refused_answer(object, refusal)
}

fn state_ring(alloc: Global, bytes: &[u8], options: &Options) -> Result<Answer, Refusal>
    ensures yes { IfOk result (λ answer. answer.status ≡ 0 → IsShown bytes.now) }
    ensures few { IfOk result (λ answer. answer.status ≤ 3) }
{
    match read_ring(alloc, bytes) {
        Ok(ring) => match ring_stated(alloc, &ring, options) {
            Ok(object) => object.answer(0),
            Err(refusal) => state_misfit(alloc, bytes, options, &refusal),
        },
        Err(refusal) => state_refusal(alloc, bytes, &refusal),
    }
}

fn ring_stated(alloc: Global, ring: &Ring, options: &Options) -> Result<Object, Refusal> {
    let Racking { racks, .. } = racks_at_rest(alloc, ring, options)?;
    let facts = facts_of(alloc, ring, racks, options)?;
    ring_object(alloc, ring, &facts)
}

fn state_studied(
    alloc: Global,
    bytes: &[u8],
    found: &Study,
    wish: Wish,
    options: &Options,
) -> Result<Answer, Refusal>
    ensures { IfOk result (λ answer. answer.status ≤ 3) }
{
    match plan_object(alloc, found, wish, options) {
        Ok(object) => object.answer(0),
        Err(refusal) => state_misfit(alloc, bytes, options, &refusal),
    }
}

fn state_unshown(
    alloc: Global,
    bytes: &[u8],
    options: &Options,
    refusal: &Refusal,
) -> Result<Answer, Refusal>
    ensures { IfOk result (λ answer. (answer.status ≢ 0) × (answer.status ≤ 3)) }
{
    if is_of_options(refusal) {
        return state_misfit(alloc, bytes, options, refusal);
    }
    state_refusal(alloc, bytes, refusal)
}

fn state_plan(alloc: Global, bytes: &[u8], wish: Wish, options: &Options) -> Result<Answer, Refusal>
    ensures yes { IfOk result (λ answer. answer.status ≡ 0 → IsShown bytes.now) }
    ensures few { IfOk result (λ answer. answer.status ≤ 3) }
{
    match studied(alloc, bytes, options) {
        Ok(found) => {
            // Shows the prover that the plan is approved.
            let _ = found.approved.plan();
            state_studied(alloc, bytes, &found, wish, options)
        }
        Err(refusal) => state_unshown(alloc, bytes, options, &refusal),
    }
}

fn state_shown(
    alloc: Global,
    bytes: &[u8],
    wish: Wish,
    options: &Options,
) -> Result<Answer, Refusal>
    ensures yes { IfOk result (λ answer. answer.status ≡ 0 → IsShown bytes.now) }
    ensures few { IfOk result (λ answer. answer.status ≤ 3) }
{
    if front(bytes, 1) == bytes.len() {
        return state_ring(alloc, bytes, options);
    }
    state_plan(alloc, bytes, wish, options)
}

fn led_object(alloc: Global, found: &Proposed) -> Result<Object, Refusal> {
    let (ring, plan) = (found.approved.ring(), found.approved.plan());
    let scene = Scene::of(alloc, &found.approved, &found.cert)?;
    let text = found.bundle(alloc)?;
    let mut object = Object::new(alloc);
    object.text("answer", b"yes")?;
    object.text("bundle", text.as_slice())?;
    object.number("steps", plan.len())?;
    put_change(&mut object, alloc, ring, &scene)?;
    Ok(object)
}

fn state_unled(
    alloc: Global,
    bytes: &[u8],
    options: &Options,
    refusal: &Refusal,
) -> Result<Answer, Refusal>
    ensures { IfOk result (λ answer. (answer.status ≢ 0) × (answer.status ≤ 3)) }
{
    unless_memory(*refusal)?;
    let mut words = Words::new(alloc);
    if !is_of_options(refusal) || !push_misfits(alloc, &mut words, bytes, options)? {
        push_goal_words(alloc, &mut words, bytes, options, refusal)?;
    }
    let object = refused_object(alloc, refusal, words)?;
    refused_answer(object, refusal)
}

fn state_goal(alloc: Global, bytes: &[u8], options: &Options, exit: Exit) -> Result<Answer, Refusal>
    ensures { IfOk result (λ answer. (((answer.status ≡ 0) ⊎ ((answer.status ≡ 4) × (exit ≡ Exit.Steps)))
        × ((p : _) × IsLed bytes.now options.now p)) ⊎ ((answer.status ≢ 0) × (answer.status ≤ 3))) }
{
    match led_bundle(alloc, bytes, options) {
        Ok(found) => {
            let object = led_object(alloc, &found)?;
            object.answer(goal_status(exit, found.approved.plan().len() > 0))
        }
        Err(refusal) => state_unled(alloc, bytes, options, &refusal),
    }
}

/// States what `why`, `show` or `goal` says as a line of JSON, with the same exit status.
///
/// Fails only with `OutOfMemory`.
///
/// A refusal has the members that a check states, and `words`. `why` and `show` add faulty lines and a mend.
pub fn state_bundle(
    alloc: Global,
    statement: Statement,
    options: &Options,
    bytes: &[u8],
) -> Result<Answer, Refusal>
    ensures { IfOk result (λ answer. IsStated statement options.now bytes.now answer.status) }
{
    match statement {
        Statement::Why => state_why(alloc, bytes),
        Statement::Show(wish) => state_shown(alloc, bytes, wish, options),
        Statement::Goal(exit) => state_goal(alloc, bytes, options, exit),
    }
}
