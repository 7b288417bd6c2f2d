//! Lines that do not begin with an event.

use crate::forms::Part;
use crate::line::Line;
use crate::said::Said;

const EVENTS: [&[u8]; 16] = [
    b"do", b"open", b"chunk", b"close", b"abort", b"put", b"write", b"hint", b"ack", b"get",
    b"read", b"endget", b"down", b"up", b"handoff", b"lose",
];

fn event_at(text: &[u8]) -> Option<usize> {
    text.split(|byte| *byte == b' ')
        .position(|field| EVENTS.contains(&field))
}

/// Reports a word before the event, such as a time.
pub fn tell_event(line: Line, said: &mut Said) -> bool {
    let first = line.page.text(line.start);
    let is_history = line.part == Part::Behind && first == b"history 1".as_slice();
    let (place, last) = match event_at(line.text) {
        Some(place) if place > 0 => (place, place.saturating_sub(1)),
        _ => return false,
    };
    if !is_history || line.number == line.start {
        return false;
    }
    said.title_with(b"line # is not a line of a history", &[], &[line.number]);
    said.fault_at(
        line.page.at(line.number, 0, last),
        b"an entry begins with its event",
    );
    said.note(
        b"Entries have no times and no numbers: they stand in the order in which they happened.",
    );
    let (_, rest) = line.page.around(line.number, last);
    said.mend_with(
        b"without the first fields, # of them",
        &[],
        &[texts::small(place)],
    );
    said.put(line.number);
    said.add_with(b"@\n", &[rest.get(1..).unwrap_or(b"".as_slice())], &[]);
    true
}
