//! Stores with histories.

ghost use Rattle.std.specs.Prelude.{IfOk, OnOk};
ghost use Rattle.plan_around.specs.Led.{GoesFarther, IsLed};

use crate::storing::happen;
use plan_check::Approved;
use plan_runs::{Entry, Event};
use ring_core::World;
use ring_names::Refusal;
use std::alloc::Global;

/// A store, and its history.
#[derive(Drop)]
pub(crate) struct Led<'a> {
    pub(crate) store: World<'a>,
    pub(crate) entries: Vec<Entry>,
}

impl<'a> Led<'a> {
    pub(crate) fn start(alloc: Global, approved: &'a Approved) -> Result<Led<'a>, Refusal>
        ensures { IfOk result (λ v. IsLed approved.now.ring approved.now.plan v) }
    {
        let store = World::start(alloc, approved)?;
        let entries = Vec::new(alloc);
        Ok(Led { store, entries })
    }

    pub(crate) fn happen(&mut self, event: Event) -> Result<(), Refusal>
        ensures { OnOk result (GoesFarther self.old self.new) }
    {
        let reply = happen(&mut self.store, &event)?;
        self.entries.push(Entry { event, reply })?;
        Ok(())
    }
}
