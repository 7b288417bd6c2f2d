//! An entry's line.

ghost use Rattle.std.specs.Prelude.{◌≡◌, ◌<◌, ◌+◌, ◌++◌, ◌∷◌, [], length, IfOk, IfErr, OnOk};
ghost use Rattle.ring_names.specs.declared.refusal.Refusal.TheVariants.{OutOfMemory};
ghost use Rattle.texts.specs.Judging.{map_ok};
ghost use Rattle.texts.specs.Late.{IsAt};
ghost use Rattle.script_text.specs.Said.{names_after, Fits};
ghost use Rattle.history_text.specs.Said.{reply_of, said_of, entry_of};
ghost use Rattle.history_text.specs.Reading.{event_said, reply_line, said_at};

use crate::answers::said_reply;
use crate::said::SaidReply;
use plan_runs::Entry;
use ring_names::{Names, Refusal};
use ring_table::Ring;
use script_text::{SaidEvent, keep_event, said_event};
use std::alloc::Global;
use texts::{Fields, both, finish, need};

// Reads the fields before `=`.
fn event_part<'a>(
    ring: &Ring,
    names: &Names,
    history: &[Entry],
    mut fields: Fields<'a>,
) -> Result<SaidEvent<'a>, Refusal>
    ensures { result ≡ event_said ring.now history.now names.now fields.entry.number fields.entry.fields }
{
    let room = need(history.len() < 1000000, &fields);
    let said = said_event(ring, names, &mut fields);
    let (_, said) = finish(both(room, said), fields)?;
    Ok(said)
}

// Reads the fields after `=`.
fn reply_part<'a>(line: u32, fields: Option<Fields<'a>>) -> Result<SaidReply<'a>, Refusal>
    ensures { map_ok reply_of result ≡ reply_line line fields.entry }
{
    match fields {
        None => Err(Refusal::BadLine(line)),
        Some(mut fields) => {
            let reply = said_reply(&mut fields);
            finish(reply, fields)
        }
    }
}

fn judge_line<'a>(
    ring: &Ring,
    names: &Names,
    history: &[Entry],
    fields: Fields<'a>,
) -> Result<(SaidEvent<'a>, SaidReply<'a>), Refusal>
    ensures { map_ok said_of result ≡ said_at ring.now history.now names.now fields.entry.number fields.entry.fields }
{
    let line = fields.line();
    let parts = fields.split(b"=");
    let event = event_part(ring, names, history, parts.0);
    let reply = reply_part(line, parts.1);
    both(event, reply)
}

/// Reads an entry's line.
pub fn entry_line<'a>(
    ring: &Ring,
    names: &Names,
    history: &[Entry],
    fields: Fields<'a>,
) -> Result<(SaidEvent<'a>, SaidReply<'a>), Refusal>
    ensures value { map_ok said_of result
        ≡ said_at ring.now history.now names.now fields.entry.number fields.entry.fields }
    ensures room { IfOk result (λ x. length history.now < 1000000) }
    ensures fits { IfOk result (λ x. Fits names.now x.0) }
    ensures at { IfErr result (λ e. IsAt fields.entry.number e) }
{
    judge_line(ring, names, history, fields)
}

/// Returns a read line's entry. Adds a new writer, perhaps even if it fails.
pub fn keep_entry(
    alloc: Global,
    names: &mut Names,
    said: (SaidEvent, SaidReply),
) -> Result<Entry, Refusal>
    requires { Fits names.old said.0 }
    ensures ok { IfOk result (λ entry. entry ≡ entry_of names.old (said_of said.entry)) }
    ensures names { OnOk result (names.new ≡ names_after names.old said.entry.0) }
    ensures memory { IfErr result (λ e. e ≡ OutOfMemory) }
{
    let (event, reply) = said;
    let reply = reply.to_reply(alloc)?;
    let event = keep_event(alloc, names, event)?;
    Ok(Entry { event, reply })
}

/// Adds a read line's entry.
pub fn add(
    alloc: Global,
    names: &mut Names,
    history: &mut Vec<Entry>,
    said: (SaidEvent, SaidReply),
) -> Result<(), Refusal>
    requires { Fits names.old said.0 }
    ensures ok { OnOk result (history.new.items ≡ history.old.items ++ entry_of names.old (said_of said.entry) ∷ []) }
    ensures names { OnOk result (names.new ≡ names_after names.old said.entry.0) }
    ensures grows { OnOk result (length history.new.items ≡ length history.old.items + 1) }
    ensures memory { IfErr result (λ e. e ≡ OutOfMemory) }
{
    let entry = keep_entry(alloc, names, said)?;
    history.push(entry)?;
    Ok(())
}
