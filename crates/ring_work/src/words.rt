//! Events and replies as JSON texts.

ghost use Rattle.std.specs.Prelude.{◌≡◌, IfOk, IfErr, IsUtf8};
ghost use Rattle.serde_json.specs.Data.{string};
ghost use Rattle.serde_json.specs.View.{view};
ghost use Rattle.ring_names.specs.declared.refusal.Refusal.TheVariants.{OutOfMemory, Disagree};
ghost use Rattle.ring_table.specs.Value.{names_of};
ghost use Rattle.plan_runs.specs.Replies.{reply_text};
ghost use Rattle.history_text.specs.Spelling.{event_words};
ghost use Rattle.ring_work.specs.Refused.{IsRefusedWord};

use plan_runs::{Event, Reply};
use ring_names::{Names, Refusal};
use ring_table::Ring;
use script_text::push_event;
use serde_json::Value;
use std::alloc::Global;

fn text_value(bytes: Vec<u8>) -> Result<Value, Refusal>
    ensures value { IfOk result (λ v. view v ≡ string bytes.items) }
    ensures refused { IfErr result (IsRefusedWord bytes.items) }
{
    match String::from_utf8(bytes) {
        Ok(text) => Ok(Value::String(text)),
        Err(_) => Err(Refusal::Disagree),
    }
}

/// Returns an event's text, as in a script.
pub(crate) fn event_value(
    alloc: Global,
    ring: &Ring,
    writers: &Names,
    event: &Event,
) -> Result<Value, Refusal>
    ensures value { IfOk result (λ v. view v ≡ string (event_words (names_of ring.now) writers.now event.now)) }
    ensures refused { IfErr result (IsRefusedWord (event_words (names_of ring.now) writers.now event.now)) }
{
    let mut out = Vec::new(alloc);
    push_event(&mut out, ring, writers, event)?;
    text_value(out)
}

pub(crate) fn reply_value(alloc: Global, reply: &Reply) -> Result<Value, Refusal>
    ensures value { IfOk result (λ v. view v ≡ string (reply_text reply.now)) }
    ensures memory { IfErr result (λ e. e ≡ OutOfMemory) }
{
    let mut out = Vec::new(alloc);
    reply.write_text(&mut out)?;
    text_value(out)
}
