//! A store's answers.

ghost use Rattle.std.specs.Prelude.{◌≤◌, length};

use crate::answer::{push_answer, push_changed};
use crate::mark::mark;
use plan_check::Approved;
use plan_runs::{Event, Reply};
use ring_core::World;
use ring_names::Refusal;
use std::alloc::Global;

// A script's most puts and gets.
const MOST: u32 = 1000;

/// A store's answers to the events, one line each.
pub fn answers(
    alloc: Global,
    approved: &Approved,
    events: &[Event],
    out: &mut Vec<u8>,
) -> Result<(), Refusal>
    requires { length events.now ≤ 1000000 }
{
    let mut world = World::start(alloc, approved)?;
    push_answers(&mut world, events, out)
}

fn push_answers(world: &mut World, events: &[Event], out: &mut Vec<u8>) -> Result<(), Refusal>
    requires { length events.now ≤ 1000000 }
{
    for (place, event) in events.iter().enumerate() {
        let answer = answer(world, event, out)?;
        push_answer(out, place as u32, answer)?;
    }
    Ok(())
}

fn answer(
    world: &mut World,
    event: &Event,
    out: &mut Vec<u8>,
) -> Result<Result<Reply, Refusal>, Refusal> {
    let before = mark(world)?;
    match apply(world, event) {
        Err(Refusal::OutOfMemory) => {
            push_changed(out, before, mark(world)?)?;
            Ok(apply(world, event))
        }
        answer => Ok(answer),
    }
}

#[tactic(auto, using(ring_core::proofs::SoundAfterEvent::has_number))]
fn apply(world: &mut World, event: &Event) -> Result<Reply, Refusal> {
    if world.puts() >= MOST || world.gets() >= MOST {
        return Err(Refusal::HistoryFull);
    }
    world.apply(event)
}
