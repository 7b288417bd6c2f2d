//! Paths of dependencies.

ghost use Rattle.std.specs.Prelude.{◌≡◌};
ghost use Rattle.plan_text.specs.Steps.{depends};
ghost use Rattle.plan_order.specs.Paths.{is_path};

use plan_text::Plan;

/// Whether step `b` directly depends on step `a`. False beyond the plan.
pub fn is_link(plan: &Plan, a: u32, b: u32) -> bool
    ensures { result ≡ depends plan.now a b }
{
    b < plan.len() && plan.depends(a, b)
}

/// Whether the path has at least two steps of the plan, each a direct dependency of the next.
///
/// Costs a binary search for each link.
pub fn verify_fact(plan: &Plan, path: &[u32]) -> bool
    ensures { result ≡ is_path plan.now path.now }
{
    if path.len() < 2 {
        return false;
    }
    let mut rest = path;
    'links: while let Some((first, later)) = rest.split_first() {
        let Some(next) = later.first() else {
            return true;
        };
        if !is_link(plan, *first, *next) {
            return false;
        }
        rest = later;
    }
    true
}
