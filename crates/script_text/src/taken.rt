//! Keeps the event of a read line.

ghost use Rattle.std.specs.Prelude.{◌≡◌, ◌<◌, ◌+◌, ◌++◌, ◌∷◌, [], length, IfOk, IfErr, OnOk};
ghost use Rattle.ring_names.specs.declared.refusal.Refusal.TheVariants.{OutOfMemory};
ghost use Rattle.script_text.specs.declared.said.SaidEvent.TheVariants.{Put};
ghost use Rattle.script_text.specs.Said.{writer_of, with_writer, FitsWriter, event_of, names_after, Fits, IsNext};

use crate::said::{SaidEvent, SaidPut, SaidWriter};
use crate::script::Script;
use plan_runs::Event;
use ring_names::{Names, Refusal, WriterId};
use std::alloc::Global;

fn to_writer(names: &mut Names, writer: SaidWriter) -> Result<WriterId, Refusal>
    requires { FitsWriter names.old writer }
    ensures ok { IfOk result (λ number. number ≡ writer_of names.old writer.entry) }
    ensures names { OnOk result (names.new ≡ with_writer names.old writer.entry) }
    ensures memory { IfErr result (λ e. e ≡ OutOfMemory) }
{
    match writer {
        SaidWriter::Known(number) => Ok(number),
        SaidWriter::New(name) => {
            let number = names.len();
            names.add(name.bytes)?;
            Ok(WriterId(number))
        }
    }
}

fn to_put(alloc: Global, names: &mut Names, put: SaidPut) -> Result<Event, Refusal>
    requires { FitsWriter names.old put.writer }
    ensures ok { IfOk result (λ event. event ≡ event_of names.old (Put put.entry)) }
    ensures names { OnOk result (names.new ≡ with_writer names.old put.entry.writer) }
    ensures memory { IfErr result (λ e. e ≡ OutOfMemory) }
{
    let key = put.key.to_key(alloc)?;
    let value = put.value.to_value(alloc)?;
    let seen = put.seen.to_seen(alloc)?;
    let writer = to_writer(names, put.writer)?;
    Ok(Event::StartPut(writer, key, value, seen))
}

/// Returns a line's event. Adds a new writer, perhaps even if it fails.
#[inline(always)]
pub fn keep_event(alloc: Global, names: &mut Names, said: SaidEvent) -> Result<Event, Refusal>
    requires { Fits names.old said }
    ensures ok { IfOk result (λ event. event ≡ event_of names.old said.entry) }
    ensures names { OnOk result (names.new ≡ names_after names.old said.entry) }
    ensures memory { IfErr result (λ e. e ≡ OutOfMemory) }
{
    match said {
        SaidEvent::Put(put) => to_put(alloc, names, put),
        SaidEvent::Get(key) => {
            let key = key.to_key(alloc)?;
            Ok(Event::StartGet(key))
        }
        SaidEvent::Plain(event) => Ok(event),
    }
}

/// Adds the event of a line.
pub fn add(
    alloc: Global,
    names: &mut Names,
    script: &mut Script,
    said: SaidEvent,
) -> Result<(), Refusal>
    requires { IsNext script.old names.old said }
    ensures ok { OnOk result (script.new ≡ script.old ++ event_of names.old said.entry ∷ []) }
    ensures names { OnOk result (names.new ≡ names_after names.old said.entry) }
    ensures grows { OnOk result (length script.new ≡ length script.old + 1) }
    ensures memory { IfErr result (λ e. e ≡ OutOfMemory) }
{
    let event = keep_event(alloc, names, said)?;
    script.push(event)
}
