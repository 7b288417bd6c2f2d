//! The answer to each event, and its effect.

ghost use Rattle.std.specs.Prelude.{◌≡◌, false, IfOk, IfErr, OnErr};
ghost use Rattle.ring_names.specs.declared.refusal.Refusal.TheVariants.{OutOfMemory};
ghost use Rattle.store_parts.specs.Parts.{IsSound, Tests, Passes, Answers, Stays, Follows};
ghost use Rattle.ring_core.specs.Numbers.{HasNumber, may_need_memory, lists_puts};

use plan_runs::{Event, Reply};
use ring_names::Refusal;
use store_clients::{
    ack, ack_refusal, end_get, end_get_with_copy, end_refusal, put_refusal, read, read_refusal,
    read_with_copy, start_get, start_put,
};
use store_events::{
    abort_copy, abort_refusal, chunk_copy, chunk_refusal, close_copy, close_refusal, do_refusal,
    do_step, down, down_refusal, handoff, handoff_refusal, hint, hint_refusal, lose, lose_refusal,
    open_copy, open_refusal, up, up_refusal, write, write_refusal,
};
use store_parts::Parts;

#[inline(always)]
pub(crate) fn refusal(parts: &Parts, event: &Event) -> Option<Refusal>
    requires { IsSound parts.now }
    ensures { Tests parts.now event.now result }
{
    match event {
        Event::Do(step) => do_refusal(parts, *step),
        Event::OpenCopy(step) => open_refusal(parts, *step),
        Event::ChunkCopy(step, chunk) => chunk_refusal(parts, *step, *chunk),
        Event::CloseCopy(step) => close_refusal(parts, *step),
        Event::AbortCopy(step) => abort_refusal(parts, *step),
        Event::StartPut(writer, key, value, seen) => put_refusal(parts, *writer, key, value, seen),
        Event::Write(put, index) => write_refusal(parts, *put, *index),
        Event::Hint(put, index, node) => hint_refusal(parts, *put, *index, *node),
        Event::Ack(put) => ack_refusal(parts, *put),
        Event::StartGet(_) => None,
        Event::Read(get, index) => read_refusal(parts, *get, *index),
        Event::EndGet(get) => end_refusal(parts, *get),
        Event::Down(node) => down_refusal(parts, *node),
        Event::Up(node) => up_refusal(parts, *node),
        Event::Handoff(node, slot) => handoff_refusal(parts, *node, *slot),
        Event::Lose(node) => lose_refusal(parts, *node),
    }
}

/// Applies an event that is not refused.
pub(crate) fn happen(parts: &mut Parts, event: &Event) -> Result<Reply, Refusal>
    requires sound { IsSound parts.old }
    requires number { HasNumber parts.old event.now }
    requires passes { Passes parts.old event.now }
    ensures ok { IfOk result (λ r. Answers parts.old event.now r parts.new) }
    ensures memory { IfErr result (λ e. e ≡ OutOfMemory) }
    ensures same { OnErr result (Stays parts.old parts.new) }
    ensures never { may_need_memory event.now ≡ false → IfErr result (λ e. ⊥) }
    ensures follows { Follows parts.old parts.new }
{
    match event {
        Event::Do(step) => Ok(do_step(parts, *step)),
        Event::OpenCopy(step) => Ok(open_copy(parts, *step)),
        Event::ChunkCopy(step, chunk) => chunk_copy(parts, *step, *chunk),
        Event::CloseCopy(step) => Ok(close_copy(parts, *step)),
        Event::AbortCopy(step) => Ok(abort_copy(parts, *step)),
        Event::StartPut(writer, key, value, seen) => start_put(parts, *writer, key, value, seen),
        Event::Write(put, index) => write(parts, *put, *index),
        Event::Hint(put, index, node) => hint(parts, *put, *index, *node),
        Event::Ack(put) => Ok(ack(parts, *put)),
        Event::StartGet(key) => start_get(parts, key),
        Event::Read(get, index) => read(parts, *get, *index),
        Event::EndGet(get) => end_get(parts, *get),
        Event::Down(node) => Ok(down(parts, *node)),
        Event::Up(node) => Ok(up(parts, *node)),
        Event::Handoff(node, slot) => handoff(parts, *node, *slot),
        Event::Lose(node) => Ok(lose(parts, *node)),
    }
}

fn copy_of(reply: &Reply) -> Reply
    requires { lists_puts reply.now ≡ false }
    ensures { result ≡ reply.now }
{
    match reply {
        Reply::Plain => Reply::Plain,
        Reply::Put(number) => Reply::Put(*number),
        Reply::Ticket(slot, generation) => Reply::Ticket(*slot, *generation),
        Reply::Get(number) => Reply::Get(*number),
        Reply::Found(_) | Reply::Answer(_) => unreachable!(),
    }
}

/// Applies the event as `happen` does, and returns the reply twice.
pub(crate) fn happen_with_copy(parts: &mut Parts, event: &Event) -> Result<(Reply, Reply), Refusal>
    requires sound { IsSound parts.old }
    requires number { HasNumber parts.old event.now }
    requires passes { Passes parts.old event.now }
    ensures ok { IfOk result (λ r. Answers parts.old event.now r.0 parts.new) }
    ensures copy { IfOk result (λ r. r.1 ≡ r.0) }
    ensures memory { IfErr result (λ e. e ≡ OutOfMemory) }
    ensures same { OnErr result (Stays parts.old parts.new) }
    ensures follows { Follows parts.old parts.new }
{
    match event {
        Event::Read(get, index) => read_with_copy(parts, *get, *index),
        Event::EndGet(get) => end_get_with_copy(parts, *get),
        _ => {
            let reply = happen(parts, event)?;
            let copy = copy_of(&reply);
            Ok((reply, copy))
        }
    }
}
