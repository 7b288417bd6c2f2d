//! One writer's part of a clock.

ghost use Rattle.std.specs.Prelude.{◌≡◌, IfSome};
ghost use Rattle.ring_clock.specs.Clock.{IsClock, counter};

use ring_names::WriterId;

/// How many consecutive writers a group has.
pub const GROUP: u32 = 64;

/// A clock's counter of one writer's puts: above 0.
#[derive(Clone, Copy, Debug, PartialEq, Eq)]
pub struct Entry {
    pub writer: WriterId,
    pub counter: u64,
}

// Looks where the writer is if each writer since the first has an entry.
fn guessed(entries: &[Entry], writer: WriterId) -> Option<u64>
    requires { IsClock entries.now }
    ensures { IfSome result (λ n. n ≡ counter entries.now writer.0) }
{
    let first = entries.first()?;
    let place = writer.0.checked_sub(first.writer.0)?;
    let entry = entries.get(place as usize)?;
    if entry.writer.0 == writer.0 {
        Some(entry.counter)
    } else {
        None
    }
}

/// Returns the writer's counter, or 0. Costs a binary search, or one look if each writer since the first has an entry.
pub fn counter_of(entries: &[Entry], writer: WriterId) -> u64
    requires { IsClock entries.now }
    ensures { result ≡ counter entries.now writer.0 }
{
    if let Some(counter) = guessed(entries, writer) {
        return counter;
    }
    match entries.binary_search_by_key(&writer.0, |entry| entry.writer.0) {
        Ok(place) => entries[place].counter,
        Err(_) => 0,
    }
}
