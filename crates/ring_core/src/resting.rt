//! A store at rest, without its borrowed plan.

use plan_check::Approved;
use ring_hints::Hints;
use ring_store::Stores;
use std::alloc::Global;
use store_parts::{Gets, Keys, Lasts, Nodes, Parts, Puts, Slots, Steps};

/// A store at rest: without its plan, it borrows nothing. `World::resume` makes it a running store.
pub struct Rest {
    pub(crate) alloc: Global,
    pub(crate) nodes: Nodes,
    pub(crate) steps: Steps,
    pub(crate) slots: Slots,
    pub(crate) keys: Keys,
    pub(crate) lasts: Lasts,
    pub(crate) puts: Puts,
    pub(crate) gets: Gets,
    pub(crate) stores: Stores,
    pub(crate) hints: Hints,
    pub(crate) losses: u32,
}

// Explicit, so that crates above need not check the parts.
impl Drop for Rest {
    fn drop(self) {
        let Rest {
            alloc,
            nodes,
            steps,
            slots,
            keys,
            lasts,
            puts,
            gets,
            stores,
            hints,
            losses,
        } = self;
        drop(nodes);
        drop(steps);
        drop(slots);
        drop(keys);
        drop(lasts);
        drop(puts);
        drop(gets);
        drop(stores);
        drop(hints);
    }
}

impl Rest {
    ghost use Rattle.std.specs.Prelude.{◌≡◌};
    ghost use Rattle.ring_core.specs.Resting.{rest_in};

    pub(crate) fn of(parts: Parts) -> Rest
        ensures { result ≡ rest_in parts.entry }
    {
        let Parts {
            alloc,
            approved: _,
            nodes,
            steps,
            slots,
            keys,
            lasts,
            puts,
            gets,
            stores,
            hints,
            losses,
        } = parts;
        Rest {
            alloc,
            nodes,
            steps,
            slots,
            keys,
            lasts,
            puts,
            gets,
            stores,
            hints,
            losses,
        }
    }

    pub(crate) fn parts(self, approved: &Approved) -> Parts<'_>
        ensures approved { result.approved.now ≡ approved.now }
        ensures rest { rest_in result ≡ self }
    {
        let Rest {
            alloc,
            nodes,
            steps,
            slots,
            keys,
            lasts,
            puts,
            gets,
            stores,
            hints,
            losses,
        } = self;
        Parts {
            alloc,
            approved,
            nodes,
            steps,
            slots,
            keys,
            lasts,
            puts,
            gets,
            stores,
            hints,
            losses,
        }
    }
}
