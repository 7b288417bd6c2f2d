//! Writes a script.

ghost use Rattle.std.specs.Prelude.{◌≡◌, ◌<◌, ◌++◌, ◌∷◌, [], map, IfOk, IfErr, OnOk};
ghost use Rattle.std.specs.Fmt.{decimal};
ghost use Rattle.std.specs.List.{join_with_byte, flat_map};
ghost use Rattle.ring_names.specs.declared.refusal.Refusal.TheVariants.{OutOfMemory};
ghost use Rattle.texts.specs.Parts.{line_text, text_of, spaced};
ghost use Rattle.ring_table.specs.Value.{names_of};
ghost use Rattle.ring_table.specs.Spelling.{name_at};
ghost use Rattle.script_text.specs.Valid.{AreKnown};
ghost use Rattle.script_text.specs.Spelling.{digit_text, byte_text, value_text, writer_at, seen_fields, event_fields};
ghost use Rattle.script_text.specs.Spelling.{script_text};

use crate::script::Script;
use plan_runs::Event;
use ring_names::{Names, NodeId, Refusal, WriterId};
use ring_table::{Ring, push_name};
use std::alloc::{AllocError, Global};
use texts::push_numbers;

fn digit_text(digit: u8) -> u8
    requires { digit < 16 }
    ensures { result ≡ digit_text digit }
{
    if digit < 10 { 48 + digit } else { 87 + digit }
}

fn push_byte(out: &mut Vec<u8>, byte: u8) -> Result<(), AllocError>
    ensures { OnOk result (out.new.items ≡ out.old.items ++ byte_text byte) }
{
    out.push(digit_text(byte / 16))?;
    out.push(digit_text(byte % 16))?;
    Ok(())
}

fn push_bytes(out: &mut Vec<u8>, bytes: &[u8]) -> Result<(), AllocError>
    ensures { OnOk result (out.new.items ≡ out.old.items ++ flat_map byte_text bytes.now) }
{
    for byte in bytes {
        push_byte(out, *byte)?;
    }
    Ok(())
}

fn push_value(out: &mut Vec<u8>, bytes: &[u8]) -> Result<(), AllocError>
    ensures { OnOk result (out.new.items ≡ out.old.items ++ 32 ∷ value_text bytes.now) }
{
    out.extend_from_slice(b" x")?;
    push_bytes(out, bytes)
}

fn push_word(out: &mut Vec<u8>, word: &[u8]) -> Result<(), AllocError>
    ensures { OnOk result (out.new.items ≡ out.old.items ++ 32 ∷ word.now) }
{
    out.push(b' ')?;
    out.extend_from_slice(word)
}

fn push_writer(out: &mut Vec<u8>, names: &Names, writer: WriterId) -> Result<(), AllocError>
    ensures { OnOk result (out.new.items ≡ out.old.items ++ 32 ∷ writer_at names.now writer) }
{
    out.push(b' ')?;
    if let Some(name) = names.name_of(writer.0) {
        out.extend_from_slice(name)?;
    }
    Ok(())
}

fn push_seen(out: &mut Vec<u8>, gets: &[u32]) -> Result<(), AllocError>
    ensures { OnOk result (out.new.items ≡ out.old.items ++ spaced (seen_fields gets.now)) }
{
    if gets.is_empty() {
        return Ok(());
    }
    out.extend_from_slice(b" seen")?;
    push_numbers(out, gets)
}

fn push_numbered(out: &mut Vec<u8>, word: &[u8], numbers: &[u32]) -> Result<(), AllocError>
    ensures { OnOk result (out.new.items ≡ out.old.items ++ word.now ++ spaced (map decimal numbers.now)) }
{
    out.extend_from_slice(word)?;
    push_numbers(out, numbers)
}

fn push_worded(out: &mut Vec<u8>, word: &[u8], text: &[u8]) -> Result<(), AllocError>
    ensures { OnOk result (out.new.items ≡ out.old.items ++ word.now ++ 32 ∷ text.now) }
{
    out.extend_from_slice(word)?;
    push_word(out, text)
}

fn push_node(out: &mut Vec<u8>, ring: &Ring, word: &[u8], node: NodeId) -> Result<(), AllocError>
    ensures { OnOk result (out.new.items ≡ out.old.items ++ word.now ++ 32 ∷ name_at (names_of ring.now) node) }
{
    out.extend_from_slice(word)?;
    push_name(out, ring.nodes(), node)
}

/// Adds the event's line without its line feed.
pub fn push_event(
    out: &mut Vec<u8>,
    ring: &Ring,
    names: &Names,
    event: &Event,
) -> Result<(), AllocError>
    ensures { OnOk result
        (out.new.items ≡ out.old.items ++ join_with_byte 32 (event_fields (names_of ring.now) names.now event.now)) }
{
    match event {
        Event::Do(step) => push_numbered(out, b"do", &[*step]),
        Event::OpenCopy(step) => push_numbered(out, b"open", &[*step]),
        Event::ChunkCopy(step, chunk) => push_numbered(out, b"chunk", &[*step, *chunk]),
        Event::CloseCopy(step) => push_numbered(out, b"close", &[*step]),
        Event::AbortCopy(step) => push_numbered(out, b"abort", &[*step]),
        Event::StartPut(writer, key, value, seen) => {
            out.extend_from_slice(b"put")?;
            push_writer(out, names, *writer)?;
            push_word(out, key.as_slice())?;
            push_value(out, value.as_slice())?;
            push_seen(out, seen.as_slice())
        }
        Event::Write(put, index) => push_numbered(out, b"write", &[*put, *index]),
        Event::Hint(put, index, node) => {
            push_numbered(out, b"hint", &[*put, *index])?;
            push_name(out, ring.nodes(), *node)
        }
        Event::Ack(put) => push_numbered(out, b"ack", &[*put]),
        Event::StartGet(key) => push_worded(out, b"get", key.as_slice()),
        Event::Read(get, index) => push_numbered(out, b"read", &[*get, *index]),
        Event::EndGet(get) => push_numbered(out, b"endget", &[*get]),
        Event::Down(node) => push_node(out, ring, b"down", *node),
        Event::Up(node) => push_node(out, ring, b"up", *node),
        Event::Handoff(node, slot) => {
            push_node(out, ring, b"handoff", *node)?;
            push_numbers(out, &[slot.partition, slot.index])
        }
        Event::Lose(node) => push_node(out, ring, b"lose", *node),
    }
}

fn push_line(out: &mut Vec<u8>, ring: &Ring, names: &Names, event: &Event) -> Result<(), AllocError>
    ensures { OnOk result
        (out.new.items ≡ out.old.items ++ line_text (event_fields (names_of ring.now) names.now event.now)) }
{
    push_event(out, ring, names, event)?;
    out.push(b'\n')?;
    Ok(())
}

fn push_lines(
    out: &mut Vec<u8>,
    ring: &Ring,
    names: &Names,
    events: &[Event],
) -> Result<(), AllocError>
    ensures { OnOk result
        (out.new.items ≡ out.old.items ++ text_of (map (event_fields (names_of ring.now) names.now) events.now)) }
{
    for event in events {
        push_line(out, ring, names, event)?;
    }
    Ok(())
}

/// Writes a script. The ring and `writers` give the names.
pub fn write_script(
    alloc: Global,
    ring: &Ring,
    writers: &Names,
    script: &Script,
) -> Result<Vec<u8>, Refusal>
    requires { AreKnown ring.now writers.now script.now }
    ensures ok { IfOk result (λ v. v.items ≡ script_text ring.now writers.now script.now) }
    ensures memory { IfErr result (λ e. e ≡ OutOfMemory) }
{
    let mut out = Vec::new(alloc);
    out.extend_from_slice(b"script 1\n")?;
    push_lines(&mut out, ring, writers, script.events())?;
    out.extend_from_slice(b"end\n")?;
    Ok(out)
}
