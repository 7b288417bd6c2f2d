//! A bundle's front: ring, plan and certificate.

ghost use Rattle.std.specs.Prelude.{◌≡◌, ◌≢◌, ℕ, List, IfOk, IfErr, Err};
ghost use Rattle.ring_names.specs.declared.refusal.Refusal.TheVariants.{OutOfMemory};
ghost use Rattle.texts.specs.Parts.{lines_of};
ghost use Rattle.plan_cert.specs.declared.front.Front.{Front as Value};
ghost use Rattle.plan_cert.specs.Front.{front_at};
ghost use Rattle.history_text.specs.Front.{IsFront};

use plan_cert::{read_front_section, write_cert};
use plan_text::write_plan;
use ring_names::Refusal;
use ring_table::{Ring, write_ring};
use std::alloc::Global;
use texts::Lines;

/// A bundle's ring, its front's text, and the next line's number.
#[derive(Drop)]
pub struct FrontText {
    pub ring: Ring,
    pub text: Vec<u8>,
    pub line: u32,
}

/// Reads the front of the bytes, whatever follows.
pub fn read_front(alloc: Global, bytes: &[u8]) -> Result<FrontText, Refusal>
    ensures ok { IfOk result (λ front. (value : Value) × (rest : List ℕ) × IsFront bytes.now front value rest) }
    ensures err { IfErr result (λ e. e ≢ OutOfMemory → front_at (record { line = 1; lines = lines_of bytes.now }) ≡ Err e) }
{
    let mut lines = Lines::of(bytes);
    let front = read_front_section(alloc, &mut lines)?;
    let mut text = write_ring(alloc, &front.ring)?;
    let steps = write_plan(alloc, &front.ring, &front.plan)?;
    text.extend_from_slice(steps.as_slice())?;
    let chains = write_cert(alloc, &front.ring, &front.cert)?;
    text.extend_from_slice(chains.as_slice())?;
    Ok(FrontText {
        ring: front.ring,
        text,
        line: lines.line(),
    })
}
