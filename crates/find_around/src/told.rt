//! Reports on slots and nodes.

use crate::around::{Reach, Search};
use ring_names::{Refusal, Slot};
use ringplan_request::Shape;

/// What becomes of a slot, if not as planned. `say_outcome` has the words.
#[derive(Clone, Copy, Debug, PartialEq, Eq)]
pub(crate) enum SlotOutcome {
    /// Goes to the first node instead of the second.
    Elsewhere(u32, u32),
    Filled(u32),
    Ended(u32),
    Left,
    NotBegun,
    Untaken(u32),
    Crowded(u32),
    Close(u32),
    Unread,
    MirroredToDead(u32),
    MirroredUnread(u32),
    MirroredAhead(u32),
    MirroredStill(u32),
    Again(u32),
    AtDead(u32),
}

/// The node of a slot's undone mirror, and the slot's latest outcome.
#[derive(Clone, Copy, Debug)]
pub(crate) struct Saying {
    pub(crate) taken: Option<u32>,
    pub(crate) outcome: Option<SlotOutcome>,
}

const NOTHING: Saying = Saying {
    taken: None,
    outcome: None,
};

impl Search<'_> {
    pub(crate) fn say_of_node(&mut self, words: &[u8], node: u32) {
        let ring = self.task.ring;
        self.words.fill(words, &[ring.name(node)], &[]);
    }

    pub(crate) fn say_of_slot(&mut self, words: &[u8], node: u32, slot: Slot) {
        let ring = self.task.ring;
        self.words
            .fill(words, &[ring.name(node)], &[slot.partition, slot.index]);
    }

    pub(crate) fn saying_of(&self, slot: Slot) -> Saying {
        self.sayings.get(&slot).copied().unwrap_or(NOTHING)
    }

    pub(crate) fn note_outcome(&mut self, slot: Slot, outcome: SlotOutcome) -> Result<(), Refusal> {
        let taken = self.saying_of(slot).taken;
        let outcome = Some(outcome);
        self.sayings.insert(slot, Saying { taken, outcome })?;
        Ok(())
    }

    /// Notes that the slot moves as planned, maybe after another outcome.
    pub(crate) fn note_planned(&mut self, slot: Slot) -> Result<(), Refusal> {
        let Saying { taken, outcome } = self.saying_of(slot);
        if let Some(SlotOutcome::Filled(_) | SlotOutcome::Untaken(_)) = outcome {
            let outcome = None;
            self.sayings.insert(slot, Saying { taken, outcome })?;
        }
        Ok(())
    }

    pub(crate) fn note_taken(&mut self, slot: Slot, node: u32) -> Result<(), Refusal> {
        let outcome = self.saying_of(slot).outcome;
        let taken = Some(node);
        self.sayings.insert(slot, Saying { taken, outcome })?;
        Ok(())
    }

    fn say_of_nodes(&mut self, words: &[u8], node: u32, other: u32) {
        let ring = self.task.ring;
        self.words
            .fill(words, &[ring.name(node), ring.name(other)], &[]);
    }

    fn say_outcome(&mut self, slot: Slot, outcome: SlotOutcome) {
        let owner = self.last_owner(slot);
        match outcome {
            SlotOutcome::Elsewhere(node, other) => {
                self.say_of_nodes(b"goes to @ in place of @", node, other)
            }
            SlotOutcome::Filled(node) => self.say_of_node(
                b"goes to @, which is dead but has all of it: move it on by the next change",
                node,
            ),
            SlotOutcome::Ended(node) => {
                self.say_of_node(b"goes to @ all the same: the copy has all chunks", node)
            }
            SlotOutcome::Left => self.say_of_node(b"stays at @, as --leave asks", owner),
            SlotOutcome::NotBegun => {
                self.say_of_node(b"stays at @, since no more moves begin", owner)
            }
            SlotOutcome::Untaken(node) => {
                self.say_of_nodes(b"stays at @: @ cannot take it", owner, node)
            }
            SlotOutcome::Crowded(node) => self.say_of_nodes(
                b"stays at @: @ keeps another slot of the partition",
                owner,
                node,
            ),
            SlotOutcome::Close(node) => self.say_of_nodes(
                b"stays at @: another slot of the partition is in the rack of @",
                owner,
                node,
            ),
            SlotOutcome::Unread => self.say_of_node(
                b"stays at @: fewer than R slots of its partition can be read",
                owner,
            ),
            _ => self.say_mirrored(outcome),
        }
    }

    fn say_mirrored(&mut self, outcome: SlotOutcome) {
        match outcome {
            SlotOutcome::MirroredToDead(node) => {
                self.say_of_node(b"stays mirrored to @: its mirror is dead", node)
            }
            SlotOutcome::MirroredUnread(node) => self.say_of_node(
                b"stays mirrored to @: fewer than R slots of its partition can be read",
                node,
            ),
            SlotOutcome::MirroredAhead(node) => self.say_of_node(
                b"stays mirrored to @: its mirror has puts that its owner does not have",
                node,
            ),
            SlotOutcome::MirroredStill(node) => {
                self.say_of_node(b"stays mirrored to @: --leave takes the mirror back", node)
            }
            SlotOutcome::AtDead(node) => self.say_of_node(b"stays at @, which is dead", node),
            SlotOutcome::Again(node) => self.say_of_node(
                b"is to be mirrored to @ again: what was written since the mirror began is only at its owner and at other slots",
                node,
            ),
            _ => {}
        }
    }

    fn say_line(&mut self, slot: Slot, saying: Saying) {
        self.words
            .fill(b"slot #.# ", &[], &[slot.partition, slot.index]);
        if let Some(node) = saying.taken {
            self.say_of_node(
                b"is mirrored to @ no longer: writes go only to the owner, and tickets of puts that are not acknowledged are void",
                node,
            );
            if saying.outcome.is_some() {
                self.words.text(b"; it ");
            }
        }
        if let Some(outcome) = saying.outcome {
            self.say_outcome(slot, outcome);
        }
        self.words.byte(b'\n');
    }

    pub(crate) fn say_of_slots(&mut self) -> Result<(), Refusal> {
        self.say_sums()?;
        match self.task.shape {
            Shape::Short => Ok(()),
            Shape::Whole => {
                self.say_lines();
                Ok(())
            }
        }
    }

    /// The slot's final report. Tells also of a dead owner.
    pub(crate) fn last_saying(&self, slot: Slot) -> Saying {
        let Saying { taken, outcome } = self.saying_of(slot);
        let owner = self.last_owner(slot);
        if outcome.is_none() && self.is_dead(owner) {
            let outcome = Some(SlotOutcome::AtDead(owner));
            return Saying { taken, outcome };
        }
        Saying { taken, outcome }
    }

    fn say_lines(&mut self) {
        for partition in 0..self.task.ring.q() {
            for index in 0..self.task.ring.n() {
                let slot = Slot { partition, index };
                let saying = self.last_saying(slot);
                if saying.taken.is_some() || saying.outcome.is_some() {
                    self.say_line(slot, saying);
                }
            }
        }
    }

    fn count_resting(&self) -> u32 {
        let mut count = 0u32;
        for is_resting in self.resting.as_slice() {
            if *is_resting {
                count = count.saturating_add(1);
            }
        }
        count
    }

    pub(crate) fn say_of_reach(&mut self) {
        let count = self.count_resting();
        match self.reach {
            Reach::Far => {}
            Reach::Near => self.words.fill(
                b"no better plan was found: partitions with dead nodes or with slots that stay (#) only end what has begun, as by --rest; plan the rest by goal\n",
                &[],
                &[count],
            ),
            Reach::Full => self.words.text(
                b"no better plan was found, and none by --rest: the plan only ends moves whose copies have all chunks; plan the rest by goal\n",
            ),
        }
    }
}
