//! Faulty quorums.

use crate::page::{Page, count_fields, field, number};
use crate::said::Said;

#[derive(Clone, Copy)]
struct Asked {
    slots: u32,
    read: u32,
    write: u32,
    loss: u32,
}

impl Asked {
    fn of(text: &[u8]) -> Asked {
        let value = |place: usize| number(field(text, place)).unwrap_or(0);
        Asked {
            slots: value(1),
            read: value(2),
            write: value(3),
            loss: value(4),
        }
    }

    fn is_out(&self) -> bool {
        let Asked {
            slots,
            read,
            write,
            ..
        } = *self;
        read < 1 || write < 1 || read > slots || write > slots
    }

    fn tell(&self, said: &mut Said, line: u32) {
        let Asked {
            slots,
            read,
            write,
            loss,
        } = *self;
        if self.is_out() {
            return said.fault_with(line, b"R is # and W is #", &[], &[read, write]);
        }
        if loss > 0 {
            return said.fault_with(
                line,
                b"# + # is not above # + #",
                &[],
                &[read, write, slots, loss],
            );
        }
        said.fault_with(line, b"# + # is not above #", &[], &[read, write, slots])
    }

    // The fewest slots with which equal reads and writes meet.
    fn majority(&self) -> u32 {
        (self.slots.saturating_add(self.loss) / 2).saturating_add(1)
    }

    fn mend(&self, said: &mut Said, page: Page, line: u32) {
        let count = self.majority();
        said.mend_with(
            b"let a read and a write ask for # slots each",
            &[],
            &[count],
        );
        let wanted = Asked {
            slots: self.slots,
            read: count,
            write: count,
            loss: self.loss,
        };
        wanted.push_line(said, page, line)
    }

    fn push_line(&self, said: &mut Said, page: Page, line: u32) {
        said.put(line);
        said.add_with(b"quorum # # #", &[], &[self.slots, self.read, self.write]);
        if count_fields(page.text(line)) == 5 {
            said.add_with(b" #", &[], &[self.loss]);
        }
        said.add(b"\n")
    }
}

/// Mends the line `quorum` for another number of slots.
///
/// Reads and writes keep their numbers if allowed. Otherwise, or if both are majorities, both become majorities.
pub fn mend_slots(page: Page, said: &mut Said, slots: u32) {
    let mut asked = Asked::of(page.text(3));
    let half = asked.majority();
    let is_half = asked.read == half && asked.write == half;
    asked.slots = slots;
    let sum = asked.read.saturating_add(asked.write);
    if !is_half && !asked.is_out() && sum > slots.saturating_add(asked.loss) {
        said.mend_with(b"# slots", &[], &[slots]);
        return asked.push_line(said, page, 3);
    }
    if asked.majority() <= slots {
        asked.mend(said, page, 3)
    }
}

/// Reports why reads and writes need not meet.
pub fn quorum(said: &mut Said, page: Page, line: u32) {
    let asked = Asked::of(page.text(line));
    let slots = asked.slots;
    if slots == 0 {
        said.title(b"a partition has 1 to 7 slots");
        return said.fault_at(page.at(line, 1, 1), b"no slot");
    }
    if asked.is_out() {
        said.title_with(
            b"a read and a write ask for 1 to # slots each",
            &[],
            &[slots],
        );
    } else {
        said.title(b"a read and a write need not meet in a slot");
    }
    asked.tell(said, line);
    if asked.majority() > slots {
        let note = b"Let fewer stores be lost, or let partitions have more slots.";
        return said.note(note);
    }
    asked.mend(said, page, line)
}
