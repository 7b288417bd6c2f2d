//! An accepted plan, its certificate, and their texts.

ghost use Rattle.std.specs.Prelude.{◌≡◌, ◌++◌, IfOk, IfErr};
ghost use Rattle.ring_names.specs.declared.refusal.Refusal.TheVariants.{OutOfMemory};
ghost use Rattle.plan_text.specs.Spelling.{plan_text};
ghost use Rattle.plan_text.specs.Valid.{Suits as PlanSuits};
ghost use Rattle.plan_cert.specs.Spelling.{cert_text};
ghost use Rattle.plan_cert.specs.Valid.{Suits as CertSuits};
ghost use Rattle.plan_goal.specs.Proposals.{front_text};

use find_rounds::write_texts;
use plan_cert::Cert;
use plan_check::Approved;
use plan_text::Plan;
use ring_names::Refusal;
use ring_table::{Ring, write_ring};
use std::alloc::Global;

/// An accepted plan, with its ring and certificate.
#[derive(Drop)]
pub struct Proposed {
    pub approved: Approved,
    pub cert: Cert,
    pub ghost suits: { CertSuits approved.ring cert },
}

/// Writes a ring, a plan and a certificate.
pub fn write_front(alloc: Global, ring: &Ring, plan: &Plan, cert: &Cert) -> Result<Vec<u8>, Refusal>
    requires plan_suits { PlanSuits ring.now plan.now }
    requires cert_suits { CertSuits ring.now cert.now }
    ensures text { IfOk result (λ v. v.items ≡ front_text ring.now plan.now cert.now) }
    ensures memory { IfErr result (λ e. e ≡ OutOfMemory) }
{
    let mut text = write_ring(alloc, ring)?;
    let claims = write_texts(alloc, ring, plan, cert)?;
    text.extend_from_slice(claims.as_slice())?;
    Ok(text)
}

impl Proposed {
    /// Writes the plan and the certificate.
    pub fn text(&self, alloc: Global) -> Result<Vec<u8>, Refusal>
        ensures text { IfOk result (λ v. v.items
            ≡ plan_text self.now.approved.ring self.now.approved.plan ++ cert_text self.now.approved.ring self.now.cert) }
        ensures memory { IfErr result (λ e. e ≡ OutOfMemory) }
    {
        let (ring, plan) = (self.approved.ring(), self.approved.plan());
        write_texts(alloc, ring, plan, &self.cert)
    }

    /// Writes the ring, the plan and the certificate.
    pub fn bundle(&self, alloc: Global) -> Result<Vec<u8>, Refusal>
        ensures text { IfOk result (λ v. v.items ≡ front_text self.now.approved.ring self.now.approved.plan self.now.cert) }
        ensures memory { IfErr result (λ e. e ≡ OutOfMemory) }
    {
        let (ring, plan) = (self.approved.ring(), self.approved.plan());
        write_front(alloc, ring, plan, &self.cert)
    }
}
