//! A walk through a slot's steps.

ghost use Rattle.std.specs.Prelude.{◌≡◌, ◌<◌, IfErr, IfOk, OnOk};
ghost use Rattle.ring_names.specs.declared.refusal.Refusal.TheVariants.{OutOfMemory};
ghost use Rattle.plan_stage.specs.Stage.{fits, next, switched, opening};
ghost use Rattle.plan_stage.specs.Looking.Walk.{stage_of};

use crate::leftovers::Leftovers;
use crate::stage::Stage;
use plan_text::Step;
use ring_names::{Listed, NodeId, Refusal, Slot};
use ring_table::Ring;
use std::alloc::Global;

#[derive(Drop)]
pub struct Walk {
    owner: NodeId,
    mirror: Option<NodeId>,
    copied: bool,
    leftovers: Leftovers,
}

impl Walk {
    /// Starts before the first step.
    pub fn new(alloc: Global, ring: &Ring, slot: Slot) -> Walk
        requires partition { slot.partition < ring.now.q }
        requires index { slot.index < ring.now.n }
        ensures { stage_of result ≡ opening ring.now slot }
    {
        Walk {
            owner: ring.owner(slot),
            mirror: None,
            copied: false,
            leftovers: Leftovers::new(alloc),
        }
    }

    /// Whether the step may act now.
    pub fn fits(&self, step: &Step) -> bool
        ensures { result ≡ fits (stage_of self.now) step.now }
    {
        match step {
            Step::Mirror(_, node) => {
                self.mirror.is_none() && node.0 != self.owner.0 && !self.leftovers.contains(*node)
            }
            Step::Copy(_, _) => self.mirror.is_some() && !self.copied,
            Step::Switch(_) => self.mirror.is_some() && self.copied,
            Step::Drop(_, node) => self.leftovers.contains(*node),
            Step::Join(_) | Step::Retire(_) => false,
        }
    }

    /// Applies the step.
    pub fn act(&mut self, step: &Step) -> Result<(), Refusal>
        ensures ok { OnOk result (stage_of self.new ≡ next (stage_of self.old) step.now) }
        ensures memory { IfErr result (λ e. e ≡ OutOfMemory) }
    {
        match step {
            Step::Mirror(_, node) => {
                self.mirror = Some(*node);
                self.copied = false;
            }
            Step::Copy(_, _) => self.copied = true,
            Step::Switch(_) => self.switch()?,
            Step::Drop(_, node) => {
                self.leftovers.remove(*node);
            }
            Step::Join(_) | Step::Retire(_) => {}
        }
        Ok(())
    }

    fn switch(&mut self) -> Result<(), Refusal>
        ensures ok { OnOk result (stage_of self.new ≡ switched (stage_of self.old)) }
        ensures memory { IfErr result (λ e. e ≡ OutOfMemory) }
    {
        self.leftovers.add(self.owner)?;
        self.owner = self.mirror.unwrap_or(self.owner);
        self.mirror = None;
        self.copied = false;
        Ok(())
    }

    /// Returns the stage.
    pub fn into_stage(self, alloc: Global) -> Result<Stage, Refusal>
        ensures ok { IfOk result (λ stage. stage ≡ stage_of self) }
        ensures memory { IfErr result (λ e. e ≡ OutOfMemory) }
    {
        let leftovers = self.leftovers.to_vec(alloc)?;
        let Walk {
            owner,
            mirror,
            copied,
            leftovers: _,
        } = self;
        Ok(Stage {
            owner,
            mirror,
            copied,
            leftovers: Listed::from_vec(leftovers),
        })
    }
}
