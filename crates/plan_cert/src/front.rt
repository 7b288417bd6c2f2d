//! Reads a bundle's front.

ghost use Rattle.std.specs.Prelude.{◌≡◌, ◌≤◌, IfOk, OnOk};
ghost use Rattle.texts.specs.Left.{Reads, lines_on};
ghost use Rattle.texts.specs.Late.{Late};
ghost use Rattle.plan_cert.specs.Front.{claims_at, front_at, ClaimsSuit, FrontSuits};

use crate::cert::Cert;
use crate::reading::read_cert_section;
use plan_text::{Plan, read_plan_section};
use ring_names::Refusal;
use ring_table::{Ring, read_ring_section};
use std::alloc::Global;
use texts::Lines;

/// A ring, a plan of it, and the plan's certificate.
#[derive(Drop)]
pub struct Front {
    pub ring: Ring,
    pub plan: Plan,
    pub cert: Cert,
}

// A plan, and its certificate.
#[derive(Drop)]
struct Claims {
    plan: Plan,
    cert: Cert,
}

// Reads the plan and the certificate after a ring. A plan's fault comes first.
#[tactic(auto, unfolding(crate::specs::Front::claims_at))]
fn read_claims(alloc: Global, ring: &Ring, lines: &mut Lines) -> Result<Claims, Refusal>
    ensures read { Reads result lines.new (claims_at ring.now lines.old) }
    ensures parts { IfOk result (ClaimsSuit ring.now) }
    ensures late { Late 2 result lines.old lines.new (claims_at ring.now lines.old) }
{
    let plan = read_plan_section(alloc, ring, lines)?;
    let cert = read_cert_section(alloc, ring, lines)?;
    Ok(Claims { plan, cert })
}

/// Reads a ring, a plan and the plan's certificate, and leaves the rest. Fails at the first faulty line. `OutOfMemory`
/// comes only after at least four faultless lines.
#[tactic(auto, unfolding(crate::specs::Front::front_at))]
pub fn read_front_section(alloc: Global, lines: &mut Lines) -> Result<Front, Refusal>
    ensures read { Reads result lines.new (front_at lines.old) }
    ensures parts { IfOk result FrontSuits }
    ensures late { Late 4 result lines.old lines.new (front_at lines.old) }
    ensures far { OnOk result (lines_on 4 lines.old.line ≤ lines.new.line) }
{
    let ring = read_ring_section(alloc, lines)?;
    let claims = read_claims(alloc, &ring, lines)?;
    let Claims { plan, cert } = claims;
    Ok(Front { ring, plan, cert })
}
