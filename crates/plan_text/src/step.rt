//! Steps of a plan.

ghost use Rattle.std.specs.Prelude.{◌≡◌};

use crate::indexes::Indexes;
use ring_names::{Listed, NodeId, Slot};

/// One step of a plan.
#[derive(Debug, Drop)]
pub enum Step {
    /// Makes the node a member.
    Join(NodeId),
    /// From now on, sends the slot's writes to the node too.
    Mirror(Slot, NodeId),
    /// Gives the mirror what the source has.
    Copy(Slot, Source),
    /// Makes the mirror the owner.
    Switch(Slot),
    /// Drops the node's data of a slot that it owned.
    Drop(Slot, NodeId),
    /// Ends the node's membership.
    Retire(NodeId),
}

impl Step {
    /// Copies the step.
    pub fn copy(&self) -> Step
        ensures { result ≡ self.now }
    {
        match self {
            Step::Join(node) => Step::Join(*node),
            Step::Mirror(slot, node) => Step::Mirror(*slot, *node),
            Step::Copy(slot, source) => Step::Copy(*slot, source.copy()),
            Step::Switch(slot) => Step::Switch(*slot),
            Step::Drop(slot, node) => Step::Drop(*slot, *node),
            Step::Retire(node) => Step::Retire(*node),
        }
    }
}

/// A copy's source.
#[derive(Debug, Drop)]
pub enum Source {
    /// The slot's owner.
    Owner,
    /// 1 to 7 slots of the partition, in the order written.
    Slots(Indexes),
}

impl Source {
    /// Copies the source.
    pub fn copy(&self) -> Source
        ensures { result ≡ self.now }
    {
        match self {
            Source::Owner => Source::Owner,
            Source::Slots(indexes) => Source::Slots(indexes.copy()),
        }
    }
}

/// A step and its dependencies.
#[derive(Debug, Drop)]
pub struct Planned {
    pub step: Step,
    /// Direct dependencies, strictly ascending.
    pub after: Listed<u32>,
}
