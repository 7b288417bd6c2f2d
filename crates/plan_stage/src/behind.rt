//! Walks backward over a slot's steps.

ghost use Rattle.std.specs.Prelude.{◌≡◌, ◌++◌, ◌∷◌, [], None, IfErr, OnOk, if◌then◌else◌};
ghost use Rattle.ring_names.specs.declared.ids.NodeId.{NodeId as TheNode};
ghost use Rattle.ring_names.specs.declared.refusal.Refusal.TheVariants.{OutOfMemory};
ghost use Rattle.plan_stage.specs.Occupancy.{is_node};
ghost use Rattle.plan_stage.specs.Looking.Held.{held_of};
ghost use Rattle.plan_stage.specs.Looking.Switches.{drop_of, GoesBehind};

use crate::drops::Drops;
use crate::held::Held;
use crate::holding::Holding;
use plan_text::Step;
use ring_names::{NodeId, Refusal};
use std::alloc::Global;

/// The first two switches, each node's first drop, and all holdings of later steps.
#[derive(Drop)]
pub struct Behind {
    /// The first later switch.
    pub next_switch: Option<u32>,
    second_switch: Option<u32>,
    drops: Drops,
    held: Held,
}

impl Behind {
    /// Starts after the last step.
    pub fn new(alloc: Global) -> Behind
        ensures next { result.next_switch ≡ None }
        ensures second { result.second_switch ≡ None }
        ensures drops { (x : TheNode) → drop_of result x ≡ None }
        ensures held { (x : TheNode) → held_of result.held x ≡ [] }
    {
        Behind {
            next_switch: None,
            second_switch: None,
            drops: Drops::new(alloc),
            held: Held::new(alloc),
        }
    }

    /// Goes back over a step.
    pub fn add(&mut self, step: &Step, number: u32) -> Result<(), Refusal>
        ensures ok { OnOk result (GoesBehind self.old self.new step.now number) }
        ensures memory { IfErr result (λ e. e ≡ OutOfMemory) }
    {
        match step {
            Step::Mirror(_, node) => {
                let end = self.second_switch;
                self.begin(*node, Some(number), end)?;
            }
            Step::Switch(_) => {
                self.second_switch = self.next_switch;
                self.next_switch = Some(number);
            }
            Step::Drop(_, node) => {
                self.drops.set(*node, number)?;
            }
            Step::Copy(_, _) | Step::Join(_) | Step::Retire(_) => {}
        }
        Ok(())
    }

    /// Notes that the node begins to hold the slot here.
    pub fn begin(
        &mut self,
        node: NodeId,
        begin: Option<u32>,
        end: Option<u32>,
    ) -> Result<(), Refusal>
        ensures next { self.new.next_switch ≡ self.old.next_switch }
        ensures second { self.new.second_switch ≡ self.old.second_switch }
        ensures drops { (x : TheNode) → drop_of self.new x ≡ drop_of self.old x }
        ensures held { OnOk result
            ((x : TheNode) → held_of self.new.held x ≡ (if is_node x node then held_of self.old.held x
            ++ record { begin = begin; end = end; drop = drop_of self.old node } ∷ [] else held_of self.old.held x)) }
        ensures memory { IfErr result (λ e. e ≡ OutOfMemory) }
    {
        let drop = self.drops.get(node);
        self.held.add(node, Holding { begin, end, drop })
    }

    pub fn into_held(self) -> Held
        ensures { result ≡ self.held }
    {
        let Behind {
            next_switch: _,
            second_switch: _,
            drops: _,
            held,
        } = self;
        held
    }
}
