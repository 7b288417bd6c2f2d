//! Compares events and replies.

ghost use Rattle.std.specs.Prelude.{◌≡◌, ◌↔◌, IsTrue};

use crate::event::{Event, Reply};
use ring_names::Slot;

fn is_same_slot(a: Slot, b: Slot) -> bool
    ensures { IsTrue result ↔ (a ≡ b) }
{
    a.partition == b.partition && a.index == b.index
}

/// Whether the events are equal.
pub fn is_same_event(a: &Event, b: &Event) -> bool
    ensures { IsTrue result ↔ (a.now ≡ b.now) }
{
    match (a, b) {
        (Event::Do(m), Event::Do(n)) => *m == *n,
        (Event::OpenCopy(m), Event::OpenCopy(n)) => *m == *n,
        (Event::ChunkCopy(m, c), Event::ChunkCopy(n, d)) => *m == *n && *c == *d,
        (Event::CloseCopy(m), Event::CloseCopy(n)) => *m == *n,
        (Event::AbortCopy(m), Event::AbortCopy(n)) => *m == *n,
        (Event::StartPut(w, k, v, s), Event::StartPut(x, l, u, t)) => {
            w.0 == x.0
                && k.as_slice() == l.as_slice()
                && v.as_slice() == u.as_slice()
                && s.as_slice() == t.as_slice()
        }
        (Event::Write(m, c), Event::Write(n, d)) => *m == *n && *c == *d,
        (Event::Hint(m, c, x), Event::Hint(n, d, y)) => *m == *n && *c == *d && x.0 == y.0,
        (Event::Ack(m), Event::Ack(n)) => *m == *n,
        (Event::StartGet(k), Event::StartGet(l)) => k.as_slice() == l.as_slice(),
        (Event::Read(m, c), Event::Read(n, d)) => *m == *n && *c == *d,
        (Event::EndGet(m), Event::EndGet(n)) => *m == *n,
        (Event::Down(x), Event::Down(y)) => x.0 == y.0,
        (Event::Up(x), Event::Up(y)) => x.0 == y.0,
        (Event::Handoff(x, s), Event::Handoff(y, t)) => x.0 == y.0 && is_same_slot(*s, *t),
        (Event::Lose(x), Event::Lose(y)) => x.0 == y.0,
        _ => false,
    }
}

/// Whether the replies are equal.
pub fn is_same_reply(a: &Reply, b: &Reply) -> bool
    ensures { IsTrue result ↔ (a.now ≡ b.now) }
{
    match (a, b) {
        (Reply::Plain, Reply::Plain) => true,
        (Reply::Put(m), Reply::Put(n)) => *m == *n,
        (Reply::Ticket(s, m), Reply::Ticket(t, n)) => is_same_slot(*s, *t) && *m == *n,
        (Reply::Get(m), Reply::Get(n)) => *m == *n,
        (Reply::Found(v), Reply::Found(u)) => v.as_slice() == u.as_slice(),
        (Reply::Answer(v), Reply::Answer(u)) => v.as_slice() == u.as_slice(),
        _ => false,
    }
}
