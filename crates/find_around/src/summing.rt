//! Sums by node.

use crate::around::Search;
use crate::told::SlotOutcome;
use ring_names::{Refusal, Slot};
use texts::{at, raise, small};

const MOST: usize = 16;

const KINDS: u32 = 16;

// A sum's words for one slot, for several, before other nodes, and at the end.
#[derive(Clone, Copy)]
struct Phrase {
    one: &'static [u8],
    many: &'static [u8],
    link: &'static [u8],
    end: &'static [u8],
}

// How many slots have one outcome, in all and by node.
#[derive(Drop)]
struct Sum {
    count: u32,
    at: Vec<u32>,
    others: Vec<u32>,
}

// A slot's kind of outcome, its node, and another concerned node.
#[derive(Clone, Copy)]
struct Part {
    kind: u32,
    node: u32,
    other: Option<u32>,
}

fn lone_part(kind: u32, node: u32) -> Part {
    Part {
        kind,
        node,
        other: None,
    }
}

fn phrase_to(link: &'static [u8], end: &'static [u8]) -> Phrase {
    Phrase {
        one: b"1 slot goes to ",
        many: b"# slots go to ",
        link,
        end,
    }
}

fn phrase_at(link: &'static [u8], end: &'static [u8]) -> Phrase {
    Phrase {
        one: b"1 slot stays at ",
        many: b"# slots stay at ",
        link,
        end,
    }
}

fn phrase_mirrored(end: &'static [u8]) -> Phrase {
    Phrase {
        one: b"1 slot stays mirrored to ",
        many: b"# slots stay mirrored to ",
        link: b"",
        end,
    }
}

fn words_of(kind: u32) -> Phrase {
    match kind {
        0 => Phrase {
            one: b"1 slot is no longer mirrored to ",
            many: b"# slots are no longer mirrored to ",
            link: b"",
            end: b": from now on writes go only to the owner, and tickets of puts that are not acknowledged are void",
        },
        1 => phrase_to(b" in place of ", b""),
        2 => phrase_to(
            b"",
            b": dead, but with full copies; move such slots on by the next change",
        ),
        3 => phrase_to(b"", b" all the same: the copy has all chunks"),
        4 => phrase_at(b"", b", as --leave asks"),
        5 => phrase_at(b"", b", since no more moves begin"),
        6 => phrase_at(b", since slots cannot go to ", b""),
        7 => phrase_at(b", since another slot of the partition stays at ", b""),
        8 => phrase_at(
            b"",
            b", since fewer than R slots of the partition can be read",
        ),
        14 => phrase_at(
            b", since another slot of the partition is in the rack of ",
            b"",
        ),
        15 => phrase_at(
            b"",
            b", which is dead; move such slots on by the next change",
        ),
        _ => phrase_of_mirrored(kind),
    }
}

fn phrase_of_mirrored(kind: u32) -> Phrase {
    match kind {
        9 => phrase_mirrored(b", which is dead; --back takes such mirrors back"),
        10 => phrase_mirrored(
            b", since fewer than R slots of the partition can be read; --back takes such mirrors back",
        ),
        11 => phrase_mirrored(
            b", which has puts that the slot's owner does not have; --leave takes such mirrors back",
        ),
        12 => phrase_mirrored(b"; --leave takes such mirrors back"),
        _ => Phrase {
            one: b"1 slot is to be mirrored again to ",
            many: b"# slots are to be mirrored again to ",
            link: b"",
            end: b": what was written since the mirror began is only at the owner and at other slots",
        },
    }
}

impl Search<'_> {
    fn part_of(&self, slot: Slot, outcome: SlotOutcome) -> Part {
        let owner = self.last_owner(slot);
        match outcome {
            SlotOutcome::Elsewhere(node, other) => Part {
                kind: 1,
                node,
                other: Some(other),
            },
            SlotOutcome::Filled(node) => lone_part(2, node),
            SlotOutcome::Ended(node) => lone_part(3, node),
            SlotOutcome::Left => lone_part(4, owner),
            SlotOutcome::NotBegun => lone_part(5, owner),
            SlotOutcome::Untaken(other) => Part {
                kind: 6,
                node: owner,
                other: Some(other),
            },
            SlotOutcome::Crowded(other) => Part {
                kind: 7,
                node: owner,
                other: Some(other),
            },
            SlotOutcome::Close(other) => Part {
                kind: 14,
                node: owner,
                other: Some(other),
            },
            SlotOutcome::Unread => lone_part(8, owner),
            SlotOutcome::MirroredToDead(node) => lone_part(9, node),
            SlotOutcome::MirroredUnread(node) => lone_part(10, node),
            SlotOutcome::MirroredAhead(node) => lone_part(11, node),
            SlotOutcome::MirroredStill(node) => lone_part(12, node),
            SlotOutcome::Again(node) => lone_part(13, node),
            SlotOutcome::AtDead(node) => lone_part(15, node),
        }
    }

    fn parts_of(&self, slot: Slot) -> [Option<Part>; 2] {
        let saying = self.last_saying(slot);
        let taken = match saying.taken {
            Some(node) => Some(lone_part(0, node)),
            None => None,
        };
        let fate = match saying.outcome {
            Some(outcome) => Some(self.part_of(slot, outcome)),
            None => None,
        };
        [taken, fate]
    }

    fn all_parts(&self) -> Result<Vec<Part>, Refusal> {
        let mut parts = Vec::new(self.task.alloc);
        for partition in 0..self.task.ring.q() {
            for index in 0..self.task.ring.n() {
                for part in self.parts_of(Slot { partition, index }) {
                    if let Some(part) = part {
                        parts.push(part)?;
                    }
                }
            }
        }
        Ok(parts)
    }

    fn sum(&self, parts: &[Part], kind: u32) -> Result<Sum, Refusal> {
        let nodes = self.task.ring.nodes().len();
        let mut sum = Sum {
            count: 0,
            at: vec![in self.task.alloc; 0u32; nodes]?,
            others: vec![in self.task.alloc; 0u32; nodes]?,
        };
        for part in parts {
            if part.kind == kind {
                sum.count = sum.count.saturating_add(1);
                raise(sum.at.as_mut_slice(), part.node as usize);
                if let Some(other) = part.other {
                    raise(sum.others.as_mut_slice(), other as usize);
                }
            }
        }
        Ok(sum)
    }

    pub(crate) fn say_sums(&mut self) -> Result<(), Refusal> {
        let parts = self.all_parts()?;
        for kind in 0..KINDS {
            let sum = self.sum(parts.as_slice(), kind)?;
            if sum.count > 0 {
                self.say_sum(words_of(kind), &sum)?;
            }
        }
        Ok(())
    }

    fn say_sum(&mut self, phrase: Phrase, sum: &Sum) -> Result<(), Refusal> {
        if sum.count == 1 {
            self.words.text(phrase.one);
        } else {
            self.words.fill(phrase.many, &[], &[sum.count]);
        }
        self.say_counts(sum.at.as_slice())?;
        if !phrase.link.is_empty() {
            self.words.text(phrase.link);
            self.say_counts(sum.others.as_slice())?;
        }
        self.words.text(phrase.end);
        self.words.byte(b'\n');
        Ok(())
    }

    fn say_counts(&mut self, counts: &[u32]) -> Result<(), Refusal> {
        let mut order = Vec::new(self.task.alloc);
        for node in 0..counts.len() {
            let count = at(counts, node);
            if count > 0 {
                order.push((u32::MAX.saturating_sub(count), small(node)))?;
            }
        }
        order.sort_unstable();
        for (place, (_, node)) in order.iter().enumerate() {
            if place < MOST {
                self.words.text(if place > 0 { b", " } else { b"" });
                let ring = self.task.ring;
                let count = at(counts, *node as usize);
                self.words.fill(b"@ (#)", &[ring.name(*node)], &[count]);
            }
        }
        if order.len() > MOST {
            let more = small(order.len().saturating_sub(MOST));
            self.words.fill(b" and # more", &[], &[more]);
        }
        Ok(())
    }
}
