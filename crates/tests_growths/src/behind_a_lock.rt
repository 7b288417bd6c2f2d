//! A locked store.

ghost use Rattle.std.specs.Prelude.{◌≡◌, ◌<◌, ◌≤◌, length};

use crate::answer::{push_answer, push_changed};
use crate::mark::{NONE, mixed, step};
use plan_check::Approved;
use plan_runs::{Event, Reply};
use ring_exec::{Executor, RunLedger, Share};
use ring_names::Refusal;
use std::alloc::AllocGlobal;
use std::sync::Wait;
use std::sync::ledger::Blank;

/// A locked store's answers to the events, one line each.
pub fn submitted_answers<L: RunLedger, R: AllocGlobal + Wait>(
    rt: &R,
    blank: Blank,
    approved: &Approved,
    events: &[Event],
    out: &mut Vec<u8>,
) -> Result<(), Refusal>
    requires name { blank.name ≡ L.name }
    requires parts { blank.parts ≡ L.parts }
    requires some { 0 < blank.parts }
    requires ring { approved.now.ring ≡ L.ring }
    requires plan { approved.now.plan ≡ L.plan }
    requires events { length events.now ≤ 1000000 }
{
    let (executor, mut share) = Executor::<L>::new(rt.alloc(), blank, approved)?;
    let pushed = push_answers(rt, &executor, &mut share, events, out);
    executor.give_up();
    pushed
}

fn push_answers<'a, L: RunLedger, R: Wait>(
    rt: &R,
    executor: &Executor<'a, L>,
    share: &mut Share<L>,
    events: &[Event],
    out: &mut Vec<u8>,
) -> Result<(), Refusal>
    requires { length events.now ≤ 1000000 }
{
    for (place, event) in events.iter().enumerate() {
        let answer = answer(rt, executor, share, event, out)?;
        push_answer(out, place as u32, answer)?;
    }
    Ok(())
}

fn answer<'a, L: RunLedger, R: Wait>(
    rt: &R,
    executor: &Executor<'a, L>,
    share: &mut Share<L>,
    event: &Event,
    out: &mut Vec<u8>,
) -> Result<Result<Reply, Refusal>, Refusal> {
    let before = mark_of(rt, executor, share);
    match reply(rt, executor, share, event) {
        Err(Refusal::OutOfMemory) => {
            push_changed(out, before, mark_of(rt, executor, share))?;
            Ok(reply(rt, executor, share, event))
        }
        answer => Ok(answer),
    }
}

fn reply<'a, L: RunLedger, R: Wait>(
    rt: &R,
    executor: &Executor<'a, L>,
    share: &mut Share<L>,
    event: &Event,
) -> Result<Reply, Refusal> {
    let receipt = executor.submit(rt, event, share)?;
    Ok(receipt.reply)
}

// A mark of what the locked store tells.
fn mark_of<'a, L: RunLedger, R: Wait>(rt: &R, executor: &Executor<'a, L>, share: &Share<L>) -> u64 {
    let counts = mixed(mixed(NONE, share.count()), executor.left(rt) as u64);
    let mut mark = mixed(counts, step(executor.ready(rt, 0)));
    for n in 0..16 {
        if let Some((keeper, slot)) = executor.hint_at(rt, n) {
            mark = mixed(mark, keeper.0 as u64);
            mark = mixed(mark, slot.partition as u64);
            mark = mixed(mark, slot.index as u64);
        }
    }
    mark
}
