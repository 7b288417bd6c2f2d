//! Fast paths for common events.

ghost use Rattle.std.specs.Prelude.{◌≡◌, ◌++◌, ◌∷◌, List, ℕ, IfSome};
ghost use Rattle.std.specs.Fmt.{decimal};
ghost use Rattle.std.specs.List.{join_with_byte};
ghost use Rattle.script_text.specs.Spelling.{event_fields};
ghost use Rattle.script_text.specs.Valid.{HasNumbers};

use plan_runs::Event;
use texts::{after_word, plain_number};

/// Reads two numbers, and returns the rest.
#[inline(always)]
pub fn plain_pair(text: &[u8]) -> Option<(u32, u32, &[u8])>
    ensures { IfSome result (λ x. text.now ≡ decimal x.0 ++ 32 ∷ (decimal x.1 ++ x.2.now)) }
{
    let (first, rest) = plain_number(text)?;
    let rest = after_word(rest, b" ")?;
    let (second, rest) = plain_number(rest)?;
    Some((first, second, rest))
}

// Reads an event of a copy or a step, and returns the rest.
fn plain_step(text: &[u8]) -> Option<(Event, &[u8])>
    ensures text { IfSome result (λ x. (nodes names : List (List ℕ)) → text.now ≡ join_with_byte 32 (event_fields nodes names x.0) ++ x.1.now) }
    ensures numbers { IfSome result (λ x. HasNumbers x.0) }
{
    if let Some(rest) = after_word(text, b"chunk ") {
        let (step, chunk, rest) = plain_pair(rest)?;
        return Some((Event::ChunkCopy(step, chunk), rest));
    }
    if let Some(rest) = after_word(text, b"do ") {
        let (step, rest) = plain_number(rest)?;
        return Some((Event::Do(step), rest));
    }
    if let Some(rest) = after_word(text, b"open ") {
        let (step, rest) = plain_number(rest)?;
        return Some((Event::OpenCopy(step), rest));
    }
    let rest = after_word(text, b"close ")?;
    let (step, rest) = plain_number(rest)?;
    Some((Event::CloseCopy(step), rest))
}

/// Reads an event that names only numbers, and returns the rest.
#[inline(always)]
pub fn plain_event(text: &[u8]) -> Option<(Event, &[u8])>
    ensures text { IfSome result (λ x. (nodes names : List (List ℕ)) → text.now ≡ join_with_byte 32 (event_fields nodes names x.0) ++ x.1.now) }
    ensures numbers { IfSome result (λ x. HasNumbers x.0) }
{
    if let Some(rest) = after_word(text, b"write ") {
        let (put, index, rest) = plain_pair(rest)?;
        return Some((Event::Write(put, index), rest));
    }
    if let Some(rest) = after_word(text, b"read ") {
        let (get, index, rest) = plain_pair(rest)?;
        return Some((Event::Read(get, index), rest));
    }
    if let Some(rest) = after_word(text, b"ack ") {
        let (put, rest) = plain_number(rest)?;
        return Some((Event::Ack(put), rest));
    }
    if let Some(rest) = after_word(text, b"endget ") {
        let (get, rest) = plain_number(rest)?;
        return Some((Event::EndGet(get), rest));
    }
    plain_step(text)
}
