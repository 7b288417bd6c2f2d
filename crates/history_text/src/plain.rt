//! Fast paths for common entries.

ghost use Rattle.std.specs.Prelude.{◌≡◌, ◌<◌, ◌≤◌, ◌+◌, ◌++◌, ◌∷◌, [], List, ℕ, map, length, true, false, IfSome, IfNone};
ghost use Rattle.std.specs.Fmt.{decimal};
ghost use Rattle.std.specs.List.{AllByRecursion};
ghost use Rattle.texts.specs.Parts.{spaced};
ghost use Rattle.ring_table.specs.Value.{RingValue};
ghost use Rattle.plan_runs.specs.Replies.{reply_text};
ghost use Rattle.plan_runs.specs.declared.event.Entry.{Entry};
ghost use Rattle.script_text.specs.Valid.{IsCount, HasNumbers};
ghost use Rattle.history_text.specs.Reading.{entries_from};
ghost use Rattle.history_text.specs.Spelling.{entry_line};
ghost use Rattle.history_text.specs.Valid.{IsReply};

use plan_runs::{Entry, Reply};
use ring_names::{Listed, Slot};
use script_text::{plain_event, plain_pair};
use std::alloc::Global;
use texts::{Lines, after_word, plain_number, plain_numbers};

// Takes numbers, each after a space, and returns the rest.
#[inline(always)]
fn plain_counts<'a>(text: &'a [u8], out: &mut Vec<u32>) -> Option<&'a [u8]>
    ensures text { IfSome result (λ rest. text.now ≡ spaced (map decimal out.new.items) ++ rest.now) }
    ensures counts { IfSome result (λ _. AllByRecursion IsCount out.new.items) }
{
    let rest = plain_numbers(text, 16, out)?;
    Some(rest)
}

// Reads the puts of a read or a get, and returns the rest.
fn plain_puts(alloc: Global, text: &[u8]) -> Option<(Listed<u32>, &[u8])>
    ensures text { IfSome result (λ x. text.now ≡ spaced (map decimal x.0) ++ x.1.now) }
    ensures counts { IfSome result (λ x. AllByRecursion IsCount x.0) }
{
    let mut puts = Vec::new(alloc);
    let rest = plain_counts(text, &mut puts)?;
    Some((Listed::from_vec(puts), rest))
}

// Reads a reply that is not a new put's or get's number, and returns the rest.
#[inline(always)]
fn plain_reply(alloc: Global, text: &[u8]) -> Option<(Reply, &[u8])>
    ensures text { IfSome result (λ x. text.now ≡ reply_text x.0 ++ x.1.now) }
    ensures reply { IfSome result (λ x. IsReply x.0) }
{
    if let Some(rest) = after_word(text, b"ticket ") {
        let (partition, index, rest) = plain_pair(rest)?;
        let rest = after_word(rest, b" ")?;
        let (generation, rest) = plain_number(rest)?;
        return Some((Reply::Ticket(Slot { partition, index }, generation), rest));
    }
    if let Some(rest) = after_word(text, b"ok") {
        return Some((Reply::Plain, rest));
    }
    if let Some(rest) = after_word(text, b"found") {
        let (puts, rest) = plain_puts(alloc, rest)?;
        return Some((Reply::Found(puts), rest));
    }
    let rest = after_word(text, b"reply")?;
    let (puts, rest) = plain_puts(alloc, rest)?;
    Some((Reply::Answer(puts), rest))
}

// Adds the next line's entry by the fast path. Returns the rest.
#[inline(always)]
fn add_plain<'a>(alloc: Global, history: &mut Vec<Entry>, text: &'a [u8]) -> Option<&'a [u8]>
    ensures taken { IfSome result (λ rest. (x : Entry) × (length history.old.items < 1000000) × (history.new.items ≡ history.old.items ++ x ∷ [])
        × HasNumbers x.event × IsReply x.reply × ((nodes names : List (List ℕ)) → text.now ≡ entry_line nodes names x ++ rest.now)) }
    ensures none { IfNone result (history.new.items ≡ history.old.items) }
{
    if history.len() >= 1000000 {
        return None;
    }
    let (event, rest) = plain_event(text)?;
    let rest = after_word(rest, b" = ")?;
    let (reply, rest) = plain_reply(alloc, rest)?;
    let rest = after_word(rest, b"\n")?;
    match history.push(Entry { event, reply }) {
        Ok(()) => Some(rest),
        Err(_) => None,
    }
}

/// Adds the next line's entry by the fast path. False if that fails.
#[inline(always)]
pub fn take_plain(alloc: Global, history: &mut Vec<Entry>, lines: &mut Lines) -> bool
    ensures read { result ≡ true → (ring : RingValue) (names : List (List ℕ)) → entries_from ring history.new.items names lines.new.line lines.new.lines
        ≡ entries_from ring history.old.items names lines.old.line lines.old.lines }
    ensures grows { result ≡ true → (length history.new.items ≡ length history.old.items + 1) × (length history.new.items ≤ 1000000) }
    ensures forward { lines.old.line ≤ lines.new.line }
    ensures history { result ≡ false → history.new.items ≡ history.old.items }
    ensures lines { result ≡ false → lines.new ≡ lines.old }
{
    match add_plain(alloc, history, lines.bytes()) {
        Some(rest) => {
            lines.go_on(rest);
            true
        }
        None => false,
    }
}
