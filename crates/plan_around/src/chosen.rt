//! Reads a stopped plan, and a plan chosen to continue it.

ghost use Rattle.std.specs.Prelude.{◌≡◌, IfOk, IfSome, Ok};
ghost use Rattle.texts.specs.Judging.{map_ok};
ghost use Rattle.texts.specs.Left.{Reads, whole_text};
ghost use Rattle.history_text.specs.Replays.{IsReplay};
ghost use Rattle.plan_around.specs.Chosen.{ChosenSuits, chosen_at, front_at, halted_at, halted_of};

use history_text::{ReplayBundle, read_replay_section};
use plan_cert::{Cert, read_cert_section};
use plan_text::{Plan, read_plan_section};
use ring_names::Refusal;
use ring_table::{Ring, read_ring_section};
use std::alloc::Global;
use texts::Lines;

/// A plan for the stopped plan's ring, its certificate, and the ring written before it.
#[derive(Drop)]
pub(crate) struct Chosen {
    pub(crate) ring: Ring,
    pub(crate) plan: Plan,
    pub(crate) cert: Cert,
}

#[derive(Drop)]
pub(crate) struct Halted {
    pub(crate) replay: ReplayBundle,
    pub(crate) chosen: Option<Chosen>,
}

#[tactic(auto, unfolding(crate::specs::Chosen::front_at))]
fn read_front(alloc: Global, ring: &Ring, lines: &mut Lines) -> Result<Chosen, Refusal>
    ensures read { Reads result lines.new (front_at ring.now lines.old) }
    ensures suits { IfOk result (ChosenSuits ring.now) }
{
    let again = read_ring_section(alloc, lines)?;
    let plan = read_plan_section(alloc, ring, lines)?;
    let cert = read_cert_section(alloc, ring, lines)?;
    Ok(Chosen {
        ring: again,
        plan,
        cert,
    })
}

#[tactic(auto, unfolding(crate::specs::Chosen::chosen_at))]
fn read_chosen(alloc: Global, ring: &Ring, lines: &mut Lines) -> Result<Option<Chosen>, Refusal>
    ensures read { Reads result lines.new (chosen_at ring.now lines.old) }
    ensures suits { IfOk result (λ found. IfSome found (ChosenSuits ring.now)) }
{
    if !lines.begins(b"ring") {
        return Ok(None);
    }
    let chosen = read_front(alloc, ring, lines)?;
    Ok(Some(chosen))
}

#[tactic(auto, unfolding(crate::specs::Chosen::halted_at))]
fn read_parts(alloc: Global, lines: &mut Lines) -> Result<Halted, Refusal>
    ensures read { Reads (map_ok halted_of result) lines.new (halted_at lines.old) }
    ensures replay { IfOk result (λ v. IsReplay v.replay) }
    ensures suits { IfOk result (λ v. IfSome v.chosen (ChosenSuits v.replay.ring)) }
{
    let replay = read_replay_section(alloc, lines)?;
    let chosen = read_chosen(alloc, &replay.ring, lines)?;
    Ok(Halted { replay, chosen })
}

pub(crate) fn read_halted(alloc: Global, bytes: &[u8]) -> Result<Halted, Refusal>
    ensures read { IfOk result (λ v. whole_text halted_at bytes.now ≡ Ok (halted_of v)) }
    ensures replay { IfOk result (λ v. IsReplay v.replay) }
    ensures suits { IfOk result (λ v. IfSome v.chosen (ChosenSuits v.replay.ring)) }
{
    let mut lines = Lines::of(bytes);
    let halted = read_parts(alloc, &mut lines)?;
    lines.ended()?;
    Ok(halted)
}
