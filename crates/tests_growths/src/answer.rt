//! Lines of answers.

use plan_runs::Reply;
use ring_names::{Refusal, push_decimal};

/// Adds the line of a reply or refusal: the event's place first.
pub fn push_answer(
    out: &mut Vec<u8>,
    place: u32,
    answer: Result<Reply, Refusal>,
) -> Result<(), Refusal> {
    push_decimal(out, place)?;
    out.push(b' ')?;
    match answer {
        Ok(reply) => {
            reply.write_text(out)?;
            out.push(b'\n')?;
        }
        Err(refusal) => refusal.write_line(out)?,
    }
    Ok(())
}

/// Adds a line if something changed that should not.
pub fn push_changed(out: &mut Vec<u8>, before: u64, behind: u64) -> Result<(), Refusal> {
    if before != behind {
        out.extend_from_slice(b"changed\n")?;
    }
    Ok(())
}

/// Adds a line that says whether the marks are equal.
pub fn push_same(out: &mut Vec<u8>, one: u64, other: u64) -> Result<(), Refusal> {
    let text: &[u8] = if one == other {
        b"the same\n"
    } else {
        b"another\n"
    };
    out.extend_from_slice(text)?;
    Ok(())
}
