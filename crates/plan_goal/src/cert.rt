//! Finds certificates for a bundle's ring and plan. Ignores the rest.

ghost use Rattle.std.specs.Prelude.{◌≡◌, IfOk};
ghost use Rattle.texts.specs.Judging.{Gives, map_ok};
ghost use Rattle.texts.specs.Left.{Reads};
ghost use Rattle.plan_text.specs.Valid.{Suits as PlanSuits};
ghost use Rattle.plan_cert.specs.Valid.{Suits as CertSuits};
ghost use Rattle.plan_goal.specs.Proposals.{front_text};
ghost use Rattle.plan_goal.specs.Certs.{front_at, front_reading, parts, IsCertifiedBy, IsCertifiedText, IsClaimedText};

use crate::proposed::write_front;
use find_chains::{Excess, FoundCert, certificate, overload};
use plan_check::{Turned, check};
use plan_text::{Plan, read_plan_section};
use ring_names::{NodeId, Refusal};
use ring_table::{Ring, Side, read_ring_section};
use std::alloc::Global;
use texts::{Lines, Words};

#[derive(Drop)]
pub(crate) struct Front {
    pub(crate) ring: Ring,
    pub(crate) plan: Plan,
}

#[derive(Drop)]
struct Candidate {
    found: FoundCert,
    text: Vec<u8>,
}

#[tactic(auto, unfolding(crate::specs::Certs::front_at))]
fn read_both(alloc: Global, lines: &mut Lines) -> Result<Front, Refusal>
    ensures read { Reads result lines.new (front_at lines.old) }
    ensures suits { IfOk result (λ f. PlanSuits f.ring f.plan) }
{
    let ring = read_ring_section(alloc, lines)?;
    let plan = read_plan_section(alloc, &ring, lines)?;
    Ok(Front { ring, plan })
}

fn read_front(alloc: Global, bytes: &[u8]) -> Result<Front, Refusal>
    ensures read { Gives (map_ok parts result) (front_reading bytes.now) }
    ensures suits { IfOk result (λ f. PlanSuits f.ring f.plan) }
{
    let mut lines = Lines::of(bytes);
    read_both(alloc, &mut lines)
}

// Finds a certificate, without asking the checker.
fn found(alloc: Global, ring: &Ring, plan: &Plan) -> Result<Candidate, Refusal>
    requires { PlanSuits ring.now plan.now }
    ensures { IfOk result (λ f. f.text.items ≡ front_text ring.now plan.now f.found.cert) }
{
    let found = certificate(alloc, ring, plan)?;
    let text = write_front(alloc, ring, plan, &found.cert)?;
    Ok(Candidate { found, text })
}

fn certified(alloc: Global, front: Front) -> Result<Vec<u8>, Refusal>
    requires { PlanSuits front.ring front.plan }
    ensures { IfOk result (λ text. IsCertifiedBy front.ring front.plan text.items) }
{
    let Candidate { found, text } = found(alloc, &front.ring, &front.plan)?;
    let Front { ring, plan } = front;
    match check(alloc, ring, plan, &found.cert) {
        Ok(_) => Ok(text),
        Err(Turned { refusal, .. }) => Err(found.refusal(refusal)),
    }
}

/// Returns a bundle's ring and plan with a new certificate.
///
/// Chains are within allowances if the plan's order permits.
///
/// Fails with the first faulty line's least fault, then as the checker does. Fails with `NoPlan` if a node has too many
/// chains because the search was given up.
pub fn cert_bundle(alloc: Global, bytes: &[u8]) -> Result<Vec<u8>, Refusal>
    ensures certified { IfOk result (λ text. IsCertifiedText bytes.now text.items) }
{
    let front = read_front(alloc, bytes)?;
    certified(alloc, front)
}

/// Returns ring, plan and the best certificate found, without asking the checker.
pub fn found_bundle(alloc: Global, bytes: &[u8]) -> Result<Vec<u8>, Refusal>
    ensures { IfOk result (λ text. IsClaimedText bytes.now text.items) }
{
    let front = read_front(alloc, bytes)?;
    let Candidate { text, .. } = found(alloc, &front.ring, &front.plan)?;
    Ok(text)
}

/// Adds a line to a `TooManyChains` refusal if no certificate has fewer chains.
pub fn push_excess(
    alloc: Global,
    out: &mut Words,
    text: &[u8],
    refusal: &Refusal,
) -> Result<(), Refusal> {
    let Refusal::TooManyChains(node) = refusal else {
        return Ok(());
    };
    let Front { ring, plan } = read_front(alloc, text)?;
    if let Some(excess) = overload(alloc, &ring, &plan, NodeId(*node))? {
        fill_excess(out, ring.name(*node), excess);
    }
    Ok(())
}

fn fill_excess(out: &mut Words, node: &[u8], excess: Excess) {
    let words: &[u8] = match excess.side {
        Side::Both =>
            b"  @: # copies may run at once, by the plan's order, and it bears #; no certificate can do with fewer chains.\n",
        Side::Take =>
            b"  @: # copies to it may run at once, by the plan's order, and it bears #; no certificate can do with fewer chains.\n",
        Side::Give =>
            b"  @: # copies from it may run at once, by the plan's order, and it bears #; no certificate can do with fewer chains.\n",
    };
    out.fill(words, &[node], &[excess.fewest, excess.most]);
}
