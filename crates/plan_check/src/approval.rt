//! A ring and a plan, checked or refused.

ghost use Rattle.std.specs.Prelude.{◌≡◌};

use plan_text::Plan;
use ring_names::Refusal;
use ring_table::Ring;
use std::marker::Model;

/// A ring and a plan that the checker accepted. Only the checker makes it.
pub struct Approved {
    ring: Ring,
    plan: Plan,
}

// Saves dependent crates from checking the parts.
impl Drop for Approved {
    fn drop(self) {
        let Approved { ring, plan } = self;
        drop(ring);
        drop(plan);
    }
}

impl Model for Approved {
    ghost use Rattle.plan_check.specs.Approval.{Approval, IsApproved};

    ghost Value = { Approval };

    ghost view = { λ a. record { ring = a.ring; plan = a.plan } };

    ghost invariant = { λ a. IsApproved a.ring a.plan };
}

impl Approved {
    ghost use Rattle.plan_check.specs.Approval.{Approval, IsApproved};

    pub(crate) fn new(ring: Ring, plan: Plan) -> Approved
        requires { IsApproved ring plan }
        ensures { result ≡ record { ring = ring; plan = plan } }
    {
        Approved { ring, plan }
    }

    /// Returns the ring.
    pub fn ring(&self) -> &Ring
        ensures value { result.now ≡ self.now.ring }
        ensures approved { IsApproved self.now.ring self.now.plan }
    {
        &self.ring
    }

    /// Returns the plan.
    pub fn plan(&self) -> &Plan
        ensures value { result.now ≡ self.now.plan }
        ensures approved { IsApproved self.now.ring self.now.plan }
    {
        &self.plan
    }
}

/// A refused ring and plan, and why.
#[derive(Drop)]
pub struct Turned {
    pub ring: Ring,
    pub plan: Plan,
    pub refusal: Refusal,
}
