//! Checks and writes the bundle that goes on.

ghost use Rattle.std.specs.Prelude.{◌≡◌, ◌++◌, IsTrue, IfOk, OnOk};
ghost use Rattle.plan_text.specs.Valid.{Suits as PlanSuits};
ghost use Rattle.plan_check.specs.Certified.{IsCertified};
ghost use Rattle.plan_check.specs.Headline.{KeepsPromises};
ghost use Rattle.history_text.specs.Known.{AreKnownEntries};
ghost use Rattle.history_text.specs.Spelling.{history_text};
ghost use Rattle.history_laws.specs.Past.{IsSamePast};
ghost use Rattle.plan_runs.specs.World.{World as TheWorld};
ghost use Rattle.ring_core.specs.World.{ring_of, plan_of, Meets};
ghost use Rattle.plan_around.specs.Around.{back_with, GoesAround, IsAfter, LeadsOn, RunsApart};
ghost use Rattle.plan_around.specs.Chosen.{BeginsWith};
ghost use Rattle.plan_around.specs.Ends.{EndsWell};
ghost use Rattle.plan_around.specs.Led.{IsLed};

use crate::alike::{BothStores, are_alike};
use crate::apart::are_apart;
use crate::ending::{Endings, ends_well};
use crate::retelling::{Retold, retell};
use crate::returns::Returns;
use history_laws::{SamePast, Told, is_same_past};
use history_text::{are_known, push_history};
use plan_cert::Cert;
use plan_check::{Approved, Turned, check};
use plan_goal::write_front;
use plan_runs::{Back, Entry};
use plan_text::Plan;
use ring_core::World;
use ring_names::{Names, NodeId, Refusal, Slot};
use ring_table::Ring;
use ringplan_request::Extent;
use std::alloc::Global;

const MOST: usize = 1_000_000;

pub(crate) fn accepted(
    alloc: Global,
    ring: Ring,
    plan: Plan,
    cert: &Cert,
) -> Result<Approved, Refusal>
    requires { PlanSuits ring plan }
    ensures same { IfOk result (λ a. (a.ring ≡ ring) × (a.plan ≡ plan)) }
    ensures certified { OnOk result (IsCertified ring plan cert.now) }
    ensures keeps { OnOk result (KeepsPromises ring plan) }
{
    match check(alloc, ring, plan, cert) {
        Ok(approved) => Ok(approved),
        Err(Turned { refusal, .. }) => Err(refusal),
    }
}

// Whether both stores are alike, and no remaining step involves a dead node.
fn runs_on(
    alloc: Global,
    approved: &Approved,
    before: &World,
    told: &Retold,
    it: &Going,
) -> Result<bool, Refusal>
    requires led { IsLed approved.now.ring approved.now.plan told.now.led }
    requires ring { ring_of before.now ≡ approved.now.ring }
    ensures apart { IfOk result (λ b. IsTrue b → RunsApart approved.now.ring approved.now.plan it.now.dead.now told.now.led.entries.items) }
    ensures alike { IfOk result (λ b. IsTrue b → LeadsOn it.now.back it.now.left.now approved.now.ring before.now approved.now.plan told.now.led.entries.items) }
{
    let ring = approved.ring();
    let plan = approved.plan();
    let store = &told.led.store;
    let returns = Returns::of(alloc, it.back, it.left)?;
    let stores = BothStores {
        ring,
        a: before,
        b: store,
        plan,
    };
    if !are_alike(alloc, &stores, &returns, told.order.as_slice())? {
        return Ok(false);
    }
    are_apart(alloc, store, ring, plan, it.dead)
}

// Returns the history's text, or `NoPlan` if the history cannot go on.
fn history_on(
    alloc: Global,
    approved: &Approved,
    before: &World,
    told: &Retold,
    it: &Going,
) -> Result<Vec<u8>, Refusal>
    requires led { IsLed approved.now.ring approved.now.plan told.now.led }
    requires ring { ring_of before.now ≡ approved.now.ring }
    ensures run { OnOk result (RunsApart approved.now.ring approved.now.plan it.now.dead.now told.now.led.entries.items) }
    ensures alike { OnOk result (LeadsOn it.now.back it.now.left.now approved.now.ring before.now approved.now.plan told.now.led.entries.items) }
    ensures text { IfOk result (λ v. v.items ≡ history_text approved.now.ring it.now.writers.now told.now.led.entries.items) }
{
    let history = told.led.entries.as_slice();
    if history.len() > MOST || !are_known(approved.ring(), it.writers, history) {
        return Err(Refusal::NoPlan);
    }
    if !runs_on(alloc, approved, before, told, it)? {
        return Err(Refusal::NoPlan);
    }
    let mut out = Vec::new(alloc);
    push_history(&mut out, approved, it.writers, history)?;
    Ok(out)
}

fn followed(text: Vec<u8>, more: &[u8]) -> Result<Vec<u8>, Refusal>
    ensures { IfOk result (λ v. v.items ≡ text.items ++ more.now) }
{
    let mut text = text;
    text.extend_from_slice(more)?;
    Ok(text)
}

/// A begun plan, and its steps' numbers in a new one.
#[derive(Clone, Copy)]
pub(crate) struct Going<'a> {
    pub(crate) old: &'a Approved,
    pub(crate) history: &'a [Entry],
    pub(crate) writers: &'a Names,
    pub(crate) dead: &'a [NodeId],
    pub(crate) left: &'a [Slot],
    pub(crate) back: Back,
    pub(crate) extent: Extent,
    /// Each old step's new number. None if its entries are omitted.
    pub(crate) numbers: &'a [Option<u32>],
    /// Each new step's old number.
    pub(crate) olds: &'a [u32],
    pub(crate) cert: &'a Cert,
}

fn back_with(left: &[Slot], back: Back) -> Back
    ensures { result ≡ back_with left.now back }
{
    if left.is_empty() { back } else { Back::Allowed }
}

fn tells_past(
    alloc: Global,
    it: &Going,
    new: &Approved,
    entries: &[Entry],
    counts: &[u32],
) -> Result<bool, Refusal>
    ensures { IfOk result (λ b. IsTrue b → IsSamePast (back_with it.now.left.now it.now.back) it.now.old.now.plan new.now.plan it.now.history.now entries.now) }
{
    let plans = SamePast {
        old: it.old.plan(),
        new: new.plan(),
        numbers: it.numbers,
        olds: it.olds,
        back: back_with(it.left, it.back),
    };
    is_same_past(alloc, &plans, it.history, &Told { entries, counts })
}

// Fails with `NoPlan` if the histories differ.
fn past<'a>(alloc: Global, it: &Going, new: &'a Approved) -> Result<Retold<'a>, Refusal>
    ensures past { IfOk result (λ v. IsSamePast (back_with it.now.left.now it.now.back) it.now.old.now.plan new.now.plan it.now.history.now v.led.entries.items) }
    ensures led { IfOk result (λ v. IsLed new.now.ring new.now.plan v.led) }
{
    let told = retell(alloc, it.old, new, it.numbers, it.history)?;
    let entries = told.led.entries.as_slice();
    if !tells_past(alloc, it, new, entries, told.counts.as_slice())? {
        return Err(Refusal::NoPlan);
    }
    Ok(told)
}

fn ask_ends(alloc: Global, it: &Going, before: &World, new: &Approved) -> Result<(), Refusal>
    requires same { new.now.ring ≡ it.now.old.now.ring }
    requires ring { ring_of before.now ≡ it.now.old.now.ring }
    requires plan { plan_of before.now ≡ it.now.old.now.plan }
    ensures { OnOk result ((w : TheWorld) → Meets before.now w
        → EndsWell it.now.extent it.now.back it.now.old.now.ring it.now.old.now.plan w new.now.plan it.now.dead.now it.now.left.now) }
{
    let endings = Endings {
        ring: it.old.ring(),
        old: it.old.plan(),
        new: new.plan(),
        before,
        dead: it.dead,
        left: it.left,
        back: it.back,
        extent: it.extent,
    };
    if ends_well(alloc, &endings)? {
        return Ok(());
    }
    Err(Refusal::NoPlan)
}

/// Returns the bundle that goes on by the plan.
///
/// Fails with `NoPlan` if plan or certificate do not suit the ring, or the plan ends elsewhere or involves a dead node.
/// Fails likewise if histories or stores differ.
///
/// Otherwise fails as the checker or the new store does.
pub(crate) fn go_on(
    alloc: Global,
    plan: Plan,
    it: &Going,
    before: &World,
) -> Result<Vec<u8>, Refusal>
    requires { IsAfter it.now.old.now.ring it.now.old.now.plan it.now.history.now before.now }
    ensures around { IfOk result (λ v. GoesAround it.now.extent it.now.back it.now.old.now.ring it.now.dead.now it.now.left.now it.now.writers.now it.now.old.now.plan
        it.now.history.now v.items) }
    ensures by { IfOk result (λ v. BeginsWith it.now.old.now.ring plan it.now.cert.now v.items) }
{
    let ring = it.old.ring().copy(alloc)?;
    if !plan.suits(&ring) || !it.cert.suits(&ring) {
        return Err(Refusal::NoPlan);
    }
    let text = write_front(alloc, &ring, &plan, it.cert)?;
    let approved = accepted(alloc, ring, plan, it.cert)?;
    ask_ends(alloc, it, before, &approved)?;
    let told = past(alloc, it, &approved)?;
    let history = history_on(alloc, &approved, before, &told, it)?;
    followed(text, history.as_slice())
}
