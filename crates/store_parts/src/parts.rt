//! All parts of a running store.

ghost use Rattle.std.specs.Prelude.{◌≡◌, IfOk, IfErr};
ghost use Rattle.ring_names.specs.declared.refusal.Refusal.TheVariants.{OutOfMemory};
ghost use Rattle.plan_runs.specs.World.{opening_world};
ghost use Rattle.store_parts.specs.Parts.{Meets, IsSized};

use crate::gets::Gets;
use crate::keys::Keys;
use crate::lasts::Lasts;
use crate::nodes::Nodes;
use crate::puts::Puts;
use crate::slots::Slots;
use crate::steps::Steps;
use plan_check::Approved;
use ring_hints::Hints;
use ring_names::Refusal;
use ring_store::Stores;
use std::alloc::Global;

/// A running store's parts, with its approved plan.
#[derive(Drop)]
pub struct Parts<'a> {
    pub alloc: Global,
    pub approved: &'a Approved,
    pub nodes: Nodes,
    pub steps: Steps,
    pub slots: Slots,
    pub keys: Keys,
    pub lasts: Lasts,
    pub puts: Puts,
    pub gets: Gets,
    /// The nodes' versions for slots.
    pub stores: Stores,
    /// The versions that stand-ins keep for slots with unreachable nodes.
    pub hints: Hints,
    /// How many nodes lost their data.
    pub losses: u32,
}

impl<'a> Parts<'a> {
    /// Returns the parts before the first event: members are up, and all else is empty.
    pub fn start(alloc: Global, approved: &'a Approved) -> Result<Parts<'a>, Refusal>
        ensures approved { IfOk result (λ a. a.approved.now ≡ approved.now) }
        ensures opening { IfOk result (λ a. Meets a (opening_world approved.now.ring)) }
        ensures sized { IfOk result IsSized }
        ensures memory { IfErr result (λ e. e ≡ OutOfMemory) }
    {
        let ring = approved.ring();
        let q = ring.q();
        let nodes = Nodes::start(alloc, ring)?;
        let steps = Steps::start(alloc, approved.plan().len())?;
        let slots = Slots::start(alloc, ring)?;
        let stores = Stores::start(alloc, q)?;
        Ok(Parts {
            alloc,
            approved,
            nodes,
            steps,
            slots,
            keys: Keys::new(alloc, q),
            lasts: Lasts::new(alloc),
            puts: Puts::new(alloc),
            gets: Gets::new(alloc),
            stores,
            hints: Hints::new(alloc),
            losses: 0,
        })
    }
}
