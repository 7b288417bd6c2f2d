//! A ring, a plan, and the plan's order.

ghost use Rattle.std.specs.Prelude.{◌≡◌};
ghost use Rattle.plan_text.specs.Valid.{Suits};
ghost use Rattle.plan_order.specs.Facts.{is_ordered};

use crate::facts::Facts;
use plan_text::{Plan, Ring};

/// A ring, a plan that suits it, and the plan's facts of order.
#[derive(Clone, Copy)]
pub struct Context<'a> {
    pub ring: &'a Ring,
    pub plan: &'a Plan,
    pub facts: &'a Facts,
    ghost suits: { Suits ring.now plan.now },
}

impl<'a> Context<'a> {
    /// Whether `b` directly depends on `a`, or a fact orders `a` before `b`. Costs two binary searches.
    pub fn ordered(&self, a: u32, b: u32) -> bool
        ensures { result ≡ is_ordered self.now.plan.now self.now.facts.now a b }
    {
        self.facts.tells(self.plan, a, b)
    }
}
