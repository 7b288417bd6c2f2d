//! Replays a play's history, also with a fault, and a drive's printed history. A play of the same events shows the
//! expected replies.

use ringplan_answers::{play_bundle, replay_bundle};
use std::alloc::{AllocError, Global};
use std::str;

#[derive(Clone, Copy)]
struct Told<'t> {
    event: &'t str,
    reply: &'t str,
}

fn played(alloc: Global, bundle: &[u8]) -> Result<Vec<u8>, AllocError> {
    match play_bundle(alloc, bundle) {
        Ok(text) => Ok(text),
        Err(refusal) => {
            let mut line = Vec::new(alloc);
            refusal.write_line(&mut line)?;
            Ok(line)
        }
    }
}

fn replayed(alloc: Global, bundle: &[u8]) -> Result<Vec<u8>, AllocError> {
    match replay_bundle(alloc, bundle) {
        Ok(text) => Ok(text),
        Err(refusal) => {
            let mut line = Vec::new(alloc);
            refusal.write_line(&mut line)?;
            Ok(line)
        }
    }
}

fn script_of(alloc: Global, front: &str, told: &[Told]) -> Result<Vec<u8>, AllocError> {
    let mut text = Vec::from_slice(alloc, front.as_bytes())?;
    text.extend_from_slice(b"script 1\n")?;
    for told in told {
        text.extend_from_slice(told.event.as_bytes())?;
        text.push(b'\n')?;
    }
    text.extend_from_slice(b"end\n")?;
    Ok(text)
}

fn history_of(alloc: Global, front: &str, told: &[Told]) -> Result<Vec<u8>, AllocError> {
    let mut text = Vec::from_slice(alloc, front.as_bytes())?;
    text.extend_from_slice(b"history 1\n")?;
    for told in told {
        text.extend_from_slice(told.event.as_bytes())?;
        text.extend_from_slice(b" = ")?;
        text.extend_from_slice(told.reply.as_bytes())?;
        text.push(b'\n')?;
    }
    text.extend_from_slice(b"end\n")?;
    Ok(text)
}

fn answer(line: &str) -> &str {
    match line.split_once(' ') {
        Some((_, answer)) => answer,
        None => "",
    }
}

fn code(answer: &str) -> &str {
    match answer.strip_prefix("no ") {
        Some(rest) => match rest.split_once(' ') {
            Some((code, _)) => code,
            None => rest,
        },
        None => "0",
    }
}

// What the replay should print, given what the play printed for the events.
fn expected(alloc: Global, output: &str, told: &[Told]) -> Result<Vec<u8>, AllocError> {
    let mut lines = output.lines().skip(1);
    for (place, told) in told.iter().enumerate() {
        let answer = answer(lines.next().unwrap_or(""));
        if answer != told.reply {
            let code = code(answer);
            let line = format!(in alloc; "no 70 {place} {code}\n")?;
            return Ok(line.into_bytes());
        }
    }
    let mut text = Vec::from_slice(alloc, b"yes\n")?;
    for line in lines {
        text.extend_from_slice(line.as_bytes())?;
        text.push(b'\n')?;
    }
    Ok(text)
}

fn agrees(alloc: Global, front: &str, told: &[Told]) -> Result<bool, AllocError> {
    let script = script_of(alloc, front, told)?;
    let output = played(alloc, script.as_slice())?;
    let expected = expected(alloc, str::from_utf8(output.as_slice()).unwrap_or(""), told)?;
    let history = history_of(alloc, front, told)?;
    let found = replayed(alloc, history.as_slice())?;
    Ok(found.as_slice() == expected.as_slice())
}

// The script's answered events, with their replies.
fn answered<'t>(
    alloc: Global,
    events: &'t str,
    output: &'t str,
) -> Result<Vec<Told<'t>>, AllocError> {
    let mut told = Vec::new(alloc);
    for (event, line) in events.lines().zip(output.lines().skip(1)) {
        if event == "end" {
            break;
        }
        let reply = answer(line);
        if !reply.starts_with("no ") {
            told.push(Told { event, reply })?;
        }
    }
    Ok(told)
}

fn other(reply: &str) -> &'static str {
    if reply == "ok" { "put 0" } else { "ok" }
}

// The history with a fault at the place: another reply, no entry, exchanged with the next, or repeated at the end.
fn changed<'t>(
    alloc: Global,
    told: &[Told<'t>],
    place: usize,
    way: u32,
) -> Result<Vec<Told<'t>>, AllocError> {
    let mut changed = Vec::from_slice(alloc, told)?;
    let Some(entry) = told.get(place) else {
        return Ok(changed);
    };
    match way {
        0 => {
            if let Some(there) = changed.get_mut(place) {
                there.reply = other(entry.reply);
            }
        }
        1 => {
            if place < changed.len() {
                let _ = changed.remove(place);
            }
        }
        2 => {
            if place + 1 < changed.len() {
                changed.swap(place, place + 1);
            }
        }
        _ => changed.push(*entry)?,
    }
    Ok(changed)
}

/// Counts the histories that a replay answers wrongly: the play's history, and that history with one fault.
///
/// A fault is another reply, a missing entry, two exchanged entries, or one entry repeated at the end.
pub fn others(alloc: Global, bundle: &str, output: &str) -> Result<u32, AllocError> {
    let Some((front, events)) = bundle.split_once("script 1\n") else {
        return Ok(1);
    };
    let told = answered(alloc, events, output)?;
    let mut others = 0u32;
    if !agrees(alloc, front, told.as_slice())? {
        others = others.saturating_add(1);
    }
    for place in 0..told.len() {
        for way in 0..4 {
            let changed = changed(alloc, told.as_slice(), place, way)?;
            if !agrees(alloc, front, changed.as_slice())? {
                others = others.saturating_add(1);
            }
        }
    }
    Ok(others)
}

/// Whether a replay says yes to a drive's printed history.
pub fn is_replayed(alloc: Global, bundle: &str, output: &str) -> Result<bool, AllocError> {
    let Some((front, _)) = bundle.split_once("script 1\n") else {
        return Ok(false);
    };
    let Some(history) = output.strip_prefix("yes\n") else {
        return Ok(false);
    };
    let mut text = Vec::from_slice(alloc, front.as_bytes())?;
    text.extend_from_slice(history.as_bytes())?;
    Ok(replay_bundle(alloc, text.as_slice()).is_ok())
}
