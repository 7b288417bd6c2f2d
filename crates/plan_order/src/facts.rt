//! Facts of order: the ends of verified paths.

ghost use Rattle.std.specs.Prelude.{◌≡◌, ◌||◌, ◌<◌, ℕ, IsTrue, IfOk, IfErr, OnOk, None, Some, Err, length, option_map};
ghost use Rattle.ring_names.specs.declared.refusal.Refusal.{Refusal as TheRefusal};
ghost use Rattle.ring_names.specs.declared.refusal.Refusal.TheVariants.{BadPath, OutOfMemory};
ghost use Rattle.plan_order.specs.Before.{Before};
ghost use Rattle.plan_order.specs.Paths.{first_bad, is_bad_at};
ghost use Rattle.plan_order.specs.Facts.{AreFactsOf, is_ordered, has_ends, leads, some_leads};

use crate::path::{is_link, verify_fact};
use plan_text::Plan;
use rayon::prelude::*;
use ring_names::{Refusal, Rows};
use std::alloc::Global;
use std::marker::Model;
use std::thread::Threads;

/// A path's first and last step.
#[derive(Clone, Copy, Debug, PartialEq, Eq, PartialOrd, Ord)]
pub struct Ends {
    pub first: u32,
    pub last: u32,
}

/// The ends of verified paths: each first step comes before its last.
#[derive(Drop)]
pub struct Facts {
    // ascending
    ends: Vec<Ends>,
}

impl Model for Facts {
    ghost use Rattle.std.specs.Prelude.{List};
    ghost use Rattle.plan_order.specs.declared.facts.Ends.{Ends};

    ghost Value = { List Ends };

    ghost view = { λ a. a.ends.items };

    ghost use Rattle.plan_order.specs.Facts.{AreSorted};

    ghost invariant = { λ a. AreSorted a.ends.items };
}

// The first bad path's number, at most the greatest `u32`.
fn first_bad_path(plan: &Plan, paths: &Rows) -> Option<u32>
    ensures { first_bad plan.now 0 paths.now ≡ option_map (λ n. BadPath n) result }
{
    for number in 0..paths.len() {
        if !verify_fact(plan, paths.row(number)) {
            return Some(number.min(4294967295) as u32);
        }
    }
    None
}

fn is_bad_path(plan: &Plan, paths: &Rows, number: usize) -> bool
    requires { number < length paths.now }
    ensures { result ≡ is_bad_at plan.now paths.now number }
{
    !verify_fact(plan, paths.row(number))
}

fn first_bad_path_by_threads(rt: &(impl Threads + Sync), plan: &Plan, paths: &Rows) -> Option<u32>
    ensures { first_bad plan.now 0 paths.now ≡ option_map (λ n. BadPath n) result }
{
    let found = (0..paths.len()).into_par_iter().position_first(
        rt,
        |number: usize| -> bool
            requires { number < length paths.now }
            ensures { result ≡ is_bad_at plan.entry.now paths.entry.now number }
        { is_bad_path(plan, paths, number) },
    );
    match found {
        Some(number) => Some(number.min(4294967295) as u32),
        None => None,
    }
}

// Adds a path's ends, if it has steps.
fn add_ends(ends: &mut Vec<Ends>, path: &[u32]) -> Result<(), Refusal>
    ensures ok { OnOk result
        ((a b : ℕ) → has_ends a b ends.new.items ≡ (leads a b path.now || has_ends a b ends.old.items)) }
    ensures memory { IfErr result (λ e. e ≡ OutOfMemory) }
{
    if let (Some(first), Some(last)) = (path.first(), path.last()) {
        ends.push(Ends {
            first: *first,
            last: *last,
        })?;
    }
    Ok(())
}

fn add_all_ends(ends: &mut Vec<Ends>, paths: &Rows) -> Result<(), Refusal>
    ensures ok { OnOk result
        ((a b : ℕ) → has_ends a b ends.new.items ≡ (some_leads a b paths.now || has_ends a b ends.old.items)) }
    ensures memory { IfErr result (λ e. e ≡ OutOfMemory) }
{
    for place in 0..paths.len() {
        add_ends(ends, paths.row(place))?;
    }
    Ok(())
}

impl Facts {
    /// Verifies paths of the plan. Fails with `BadPath` and the first bad path's number, from 0. Costs a binary search
    /// for each link, and a sort.
    pub fn verify(alloc: Global, plan: &Plan, paths: &Rows) -> Result<Facts, Refusal>
        ensures bad { (e : TheRefusal) → first_bad plan.now 0 paths.now ≡ Some e → result ≡ Err e }
        ensures good { IfErr result (λ e. first_bad plan.now 0 paths.now ≡ None → e ≡ OutOfMemory) }
        ensures late { IfErr result (λ e. e ≡ OutOfMemory → first_bad plan.now 0 paths.now ≡ None) }
        ensures ends { IfOk result (λ f. (a b : ℕ) → has_ends a b f ≡ some_leads a b paths.now) }
        ensures facts { IfOk result (λ f. AreFactsOf plan.now f) }
    {
        match first_bad_path(plan, paths) {
            Some(number) => Err(Refusal::BadPath(number)),
            None => Facts::of_paths(alloc, plan, paths),
        }
    }

    /// Verifies paths as `verify`, in a thread per processor. Looks at every path.
    pub fn verify_parallel(
        rt: &(impl Threads + Sync),
        alloc: Global,
        plan: &Plan,
        paths: &Rows,
    ) -> Result<Facts, Refusal>
        ensures bad { (e : TheRefusal) → first_bad plan.now 0 paths.now ≡ Some e → result ≡ Err e }
        ensures good { IfErr result (λ e. first_bad plan.now 0 paths.now ≡ None → e ≡ OutOfMemory) }
        ensures late { IfErr result (λ e. e ≡ OutOfMemory → first_bad plan.now 0 paths.now ≡ None) }
        ensures ends { IfOk result (λ f. (a b : ℕ) → has_ends a b f ≡ some_leads a b paths.now) }
        ensures facts { IfOk result (λ f. AreFactsOf plan.now f) }
    {
        match first_bad_path_by_threads(rt, plan, paths) {
            Some(number) => Err(Refusal::BadPath(number)),
            None => Facts::of_paths(alloc, plan, paths),
        }
    }

    fn of_paths(alloc: Global, plan: &Plan, paths: &Rows) -> Result<Facts, Refusal>
        requires { first_bad plan.now 0 paths.now ≡ None }
        ensures memory { IfErr result (λ e. e ≡ OutOfMemory) }
        ensures ends { IfOk result (λ f. (a b : ℕ) → has_ends a b f ≡ some_leads a b paths.now) }
        ensures facts { IfOk result (λ f. AreFactsOf plan.now f) }
    {
        let mut ends = Vec::with_capacity(alloc, paths.len())?;
        add_all_ends(&mut ends, paths)?;
        ends.sort_unstable();
        Ok(Facts { ends })
    }

    /// Whether `b` directly depends on `a`, or a verified path leads from `a` to `b`. Costs two binary searches.
    pub fn ordered(&self, plan: &Plan, a: u32, b: u32) -> bool
        requires { AreFactsOf plan.now self.now }
        ensures value { result ≡ is_ordered plan.now self.now a b }
        ensures before { IsTrue result → Before plan.now a b }
    {
        self.tells(plan, a, b)
    }

    // Whether `a` is ordered before `b`, by facts of this or another plan.
    pub(crate) fn tells(&self, plan: &Plan, a: u32, b: u32) -> bool
        ensures { result ≡ is_ordered plan.now self.now a b }
    {
        is_link(plan, a, b) || self.has(a, b)
    }

    fn has(&self, a: u32, b: u32) -> bool
        ensures { result ≡ has_ends a b self.now }
    {
        self.ends.binary_search(&Ends { first: a, last: b }).is_ok()
    }
}
