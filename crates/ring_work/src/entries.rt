//! A history's entries, and steps' finishers, as JSON lists.

ghost use Rattle.std.specs.Prelude.{◌≡◌, ◌++◌, ◌∷◌, [], map, IfOk, IfErr, OnOk};
ghost use Rattle.serde_json.specs.View.{view};
ghost use Rattle.ring_names.specs.declared.refusal.Refusal.TheVariants.{OutOfMemory};
ghost use Rattle.ring_table.specs.Value.{names_of};
ghost use Rattle.history_text.specs.Spelling.{event_words};
ghost use Rattle.ring_work.specs.Report.{entry_data, step_data};
ghost use Rattle.ring_work.specs.Refused.{IsRefusedWord, IsRefused};

use crate::words::{event_value, reply_value};
use plan_runs::Entry;
use ring_names::{Names, Refusal};
use ring_table::Ring;
use serde_json::{Value, json};
use std::alloc::{AllocError, Global};

fn entry_value(alloc: Global, ring: &Ring, writers: &Names, entry: &Entry) -> Result<Value, Refusal>
    ensures value { IfOk result (λ v. view v ≡ entry_data (names_of ring.now) writers.now entry.now) }
    ensures refused { IfErr result (IsRefusedWord (event_words (names_of ring.now) writers.now entry.now.event)) }
{
    let event = event_value(alloc, ring, writers, &entry.event)?;
    let reply = reply_value(alloc, &entry.reply)?;
    Ok(json!(in alloc; [event, reply])?)
}

pub(crate) fn entry_values(
    alloc: Global,
    ring: &Ring,
    writers: &Names,
    history: &[Entry],
) -> Result<Vec<Value>, Refusal>
    ensures values { IfOk result
        (λ v. map view v.items ≡ map (entry_data (names_of ring.now) writers.now) history.now) }
    ensures refused { IfErr result (IsRefused ring.now writers.now history.now) }
{
    let mut out = Vec::new(alloc);
    for entry in history {
        out.push(entry_value(alloc, ring, writers, entry)?)?;
    }
    Ok(out)
}

pub(crate) fn step_values(alloc: Global, finishers: &[u32]) -> Result<Vec<Value>, AllocError>
    ensures { IfOk result (λ v. map view v.items ≡ map step_data finishers.now) }
{
    let mut out = Vec::new(alloc);
    for finisher in finishers {
        out.push(Value::from(*finisher))?;
    }
    Ok(out)
}
