//! Texts of a plan.

ghost use Rattle.std.specs.Prelude.{◌≡◌, ◌++◌, IfOk, IfErr};
ghost use Rattle.ring_names.specs.declared.refusal.Refusal.TheVariants.{OutOfMemory};
ghost use Rattle.plan_text.specs.Spelling.{plan_text};
ghost use Rattle.plan_text.specs.Valid.{Suits as PlanSuits};
ghost use Rattle.plan_cert.specs.Spelling.{cert_text};
ghost use Rattle.plan_cert.specs.Valid.{Suits as CertSuits};

use plan_cert::{Cert, write_cert};
use plan_text::{Plan, write_plan};
use ring_names::Refusal;
use ring_table::Ring;
use std::alloc::Global;

/// Writes the plan, then the certificate.
pub fn write_texts(alloc: Global, ring: &Ring, plan: &Plan, cert: &Cert) -> Result<Vec<u8>, Refusal>
    requires plan_suits { PlanSuits ring.now plan.now }
    requires cert_suits { CertSuits ring.now cert.now }
    ensures text { IfOk result (λ v. v.items ≡ plan_text ring.now plan.now ++ cert_text ring.now cert.now) }
    ensures memory { IfErr result (λ e. e ≡ OutOfMemory) }
{
    let mut out = write_plan(alloc, ring, plan)?;
    let claims = write_cert(alloc, ring, cert)?;
    out.extend_from_slice(claims.as_slice())?;
    Ok(out)
}
