//! The order that dependencies make.

ghost use Rattle.std.specs.Prelude.{ℕ, ◌<◌};
ghost use Rattle.plan_order.specs.Before.{Before};

use plan_text::Plan;

/// A law: "before" is transitive, and the earlier step has the lesser number.
pub fn before_is_an_order(plan: &Plan)
    ensures transitive { (a b c : ℕ) → Before plan.now a b → Before plan.now b c → Before plan.now a c }
    ensures lesser { (a b : ℕ) → Before plan.now a b → a < b }
{
    let _ = plan.len();
}
