//! A run's ledger.

ghost use Rattle.std.specs.Prelude.{List, []};
ghost use Rattle.ring_table.specs.Value.{RingValue};
ghost use Rattle.plan_text.specs.declared.step.Planned.{Planned};
ghost use Rattle.ring_exec.specs.Ledgers.{no_ring};

use std::marker::Brand;
use std::sync::ledger::Ledger;

/// The ledger of a run's events. Its type names the ring and the plan, also for values from locks or threads.
pub trait RunLedger: Ledger {
    ghost ring: { RingValue };

    ghost plan: { List Planned };
}

impl RunLedger for Brand {
    ghost ring = { no_ring };

    ghost plan = { [] };
}
