//! Why a plan is refused.

use crate::case::Case;
use crate::certificates::{Remedy, bad_path, chain_broken, cover_missing, too_many_chains};
use crate::ends::FactEnds;
use crate::holders::{not_joined, retired_in_use, shared_in_plan};
use crate::sources::{bad_source, moving_source};
use crate::stages::{unordered_slot, wrong_stage};
use plan_cert::Cert;
use plan_text::Plan;
use ring_names::Refusal;
use ring_table::Ring;
use show_why::{Page, Said};
use std::alloc::Global;

/// A bundle's texts, as bytes and as read.
#[derive(Clone, Copy)]
pub struct Read<'a> {
    pub bytes: &'a [u8],
    pub ring: &'a Ring,
    pub plan: &'a Plan,
    pub cert: &'a Cert,
    /// What may lower the number of chains.
    pub remedy: Remedy,
}

/// Reports why the checker refuses the plan. Returns whether that is known.
pub fn tell_plan(
    alloc: Global,
    said: &mut Said,
    read: Read,
    refusal: &Refusal,
) -> Result<bool, Refusal> {
    let ends = FactEnds::of(alloc, &read.cert.facts)?;
    let case = Case {
        alloc,
        page: Page { bytes: read.bytes },
        ring: read.ring,
        plan: read.plan,
        cert: read.cert,
        ends: &ends,
    };
    match refusal {
        Refusal::WrongStage(step) => wrong_stage(case, said, *step)?,
        Refusal::UnorderedSlot(step) => unordered_slot(case, said, *step),
        Refusal::BadSource(step) => bad_source(case, said, *step),
        Refusal::MovingSource(step) => moving_source(case, said, *step),
        Refusal::SharedInPlan(step) => shared_in_plan(case, said, *step)?,
        Refusal::NotJoined(step) => not_joined(case, said, *step),
        Refusal::RetiredInUse(step) => retired_in_use(case, said, *step)?,
        Refusal::BadPath(fact) => bad_path(case, said, *fact),
        Refusal::CoverMissing(node, step) => cover_missing(case, said, *node, *step)?,
        Refusal::ChainBroken(chain) => chain_broken(case, said, *chain)?,
        Refusal::TooManyChains(node) => too_many_chains(case, said, *node, read.remedy),
        _ => return Ok(false),
    }
    Ok(true)
}
