//! Bundles with an accepted plan.

ghost use Rattle.std.specs.Prelude.{◌≡◌, None, IfOk, IfSome};
ghost use Rattle.plan_text.specs.Valid.{Suits};
ghost use Rattle.ringplan_reports.specs.Studies.{IsPlanOf, IsStudyOf, IsRecorded};

use change_text::Options;
use history_text::read_replay;
use plan_around::follow;
use plan_cert::Cert;
use plan_check::{Approved, check};
use plan_goal::{Kind, Proposed, kind_of, wish_bundle};
use plan_runs::Entry;
use plan_text::Plan;
use ring_names::Refusal;
use ring_table::Ring;
use ringplan_answers::{Kind as Sections, read_bundle};
use std::alloc::Global;

/// An approved plan with its certificate and history.
#[derive(Drop)]
pub struct Study {
    pub approved: Approved,
    pub cert: Cert,
    /// A run of the plan.
    pub history: Option<Vec<Entry>>,
}

pub(crate) fn accepted(alloc: Global, ring: Ring, plan: Plan, cert: Cert) -> Result<Study, Refusal>
    requires { Suits ring plan }
    ensures same { IfOk result (λ s. (s.approved.ring ≡ ring) × (s.approved.plan ≡ plan)) }
    ensures history { IfOk result (λ s. s.history ≡ None) }
{
    match check(alloc, ring, plan, &cert) {
        Ok(approved) => Ok(Study {
            approved,
            cert,
            history: None,
        }),
        Err(turned) => {
            let refusal = turned.refusal;
            Err(refusal)
        }
    }
}

pub(crate) fn study_plan(alloc: Global, bytes: &[u8]) -> Result<Study, Refusal>
    ensures of { IfOk result (λ s. IsPlanOf bytes.now s.approved.ring s.approved.plan) }
    ensures history { IfOk result (λ s. s.history ≡ None) }
{
    let bundle = read_bundle(alloc, Sections::Check, bytes)?;
    accepted(alloc, bundle.ring, bundle.plan, bundle.cert)
}

/// Plans a bundle's change.
pub(crate) fn study_change(alloc: Global, bytes: &[u8], options: &Options) -> Result<Study, Refusal>
    ensures of { IfOk result (λ s. IsPlanOf bytes.now s.approved.ring s.approved.plan) }
    ensures history { IfOk result (λ s. s.history ≡ None) }
{
    let Proposed { approved, cert } = wish_bundle(alloc, bytes, options)?;
    Ok(Study {
        approved,
        cert,
        history: None,
    })
}

fn study_history(alloc: Global, bytes: &[u8]) -> Result<Study, Refusal>
    ensures of { IfOk result (λ s. IsStudyOf bytes.now s.approved.ring s.approved.plan) }
    ensures history { IfOk result
        (λ s. IfSome s.history (λ h. IsRecorded bytes.now s.approved.ring s.approved.plan h.items)) }
{
    let bundle = read_replay(alloc, bytes)?;
    let found = accepted(alloc, bundle.ring, bundle.plan, bundle.cert)?;
    follow(alloc, &found.approved, bundle.history.as_slice())?;
    let Study { approved, cert, .. } = found;
    Ok(Study {
        approved,
        cert,
        history: Some(bundle.history),
    })
}

/// Reads and checks a bundle. For a change, makes a plan first.
///
/// Fails with the first faulty line's least fault. Otherwise fails as `wish_bundle`, as the checker, or as `follow`.
pub fn studied(alloc: Global, bytes: &[u8], options: &Options) -> Result<Study, Refusal>
    ensures of { IfOk result (λ s. IsStudyOf bytes.now s.approved.ring s.approved.plan) }
    ensures history { IfOk result
        (λ s. IfSome s.history (λ h. IsRecorded bytes.now s.approved.ring s.approved.plan h.items)) }
{
    match kind_of(bytes) {
        Kind::Change => study_change(alloc, bytes, options),
        Kind::Plan => study_plan(alloc, bytes),
        Kind::History => study_history(alloc, bytes),
    }
}
