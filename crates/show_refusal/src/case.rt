//! The refused bundle.

use crate::ends::FactEnds;
use find_chains::slot_of;
use plan_cert::Cert;
use plan_stage::{Stage, stage_at};
use plan_text::{Plan, Step};
use ring_names::{Refusal, Slot};
use ring_table::Ring;
use show_why::{Page, Said, place_of, span_of};
use std::alloc::Global;
use texts::small;

/// A bundle, as bytes and as read.
#[derive(Clone, Copy)]
pub struct Case<'a> {
    pub alloc: Global,
    pub page: Page<'a>,
    pub ring: &'a Ring,
    pub plan: &'a Plan,
    pub cert: &'a Cert,
    pub ends: &'a FactEnds,
}

fn head(line: &[u8]) -> &[u8] {
    let Some(place) = place_of(line, b"after") else {
        return line;
    };
    match span_of(line, place) {
        Some(at) => &line[..at.from.saturating_sub(1).min(line.len())],
        None => line,
    }
}

impl<'a> Case<'a> {
    fn plan_line(&self) -> u32 {
        small(self.ring.nodes().len())
            .saturating_add(self.ring.q())
            .saturating_add(5)
    }

    /// The step's line.
    pub fn step_line(&self, step: u32) -> u32 {
        self.plan_line().saturating_add(1).saturating_add(step)
    }

    /// The certificate's first line.
    pub fn cert_line(&self) -> u32 {
        self.plan_line()
            .saturating_add(self.plan.len())
            .saturating_add(2)
    }

    /// The fact's line.
    pub fn fact_line(&self, fact: u32) -> u32 {
        self.cert_line().saturating_add(1).saturating_add(fact)
    }

    /// The chain's line.
    pub fn chain_line(&self, chain: u32) -> u32 {
        self.fact_line(small(self.cert.facts.len()))
            .saturating_add(chain)
    }

    /// The certificate's last line.
    pub fn cert_end(&self) -> u32 {
        self.chain_line(small(self.cert.chains.len()))
    }

    /// The node's line.
    pub fn node_line(&self, node: u32) -> u32 {
        node.saturating_add(4)
    }

    /// The node's name.
    pub fn name(&self, node: u32) -> &'a [u8] {
        match self.ring.nodes().get(node as usize) {
            Some(node) => node.name.as_slice(),
            None => b"",
        }
    }

    /// The step, if any.
    pub fn step(&self, number: u32) -> Option<&'a Step> {
        if number < self.plan.len() {
            Some(self.plan.step(number))
        } else {
            None
        }
    }

    /// The step's slot, if any.
    pub fn slot(&self, number: u32) -> Option<Slot> {
        slot_of(self.step(number)?)
    }

    fn place(&self, slot: Slot, number: u32) -> u32 {
        let mut count = 0u32;
        for other in self.plan.slot_steps(slot) {
            if *other < number {
                count = count.saturating_add(1);
            }
        }
        count
    }

    /// The slot's previous step.
    pub fn before(&self, slot: Slot, number: u32) -> Option<u32> {
        let mut found = None;
        for other in self.plan.slot_steps(slot) {
            if *other < number {
                found = Some(*other);
            }
        }
        found
    }

    /// The slot's stage before the step.
    pub fn stage(&self, slot: Slot, number: u32) -> Result<Option<Stage>, Refusal> {
        if slot.partition >= self.ring.q() || slot.index >= self.ring.n() {
            return Ok(None);
        }
        let place = self.place(slot, number);
        let stage = stage_at(self.alloc, self.ring, self.plan, slot, place)?;
        Ok(Some(stage))
    }

    /// Whether a direct dependency or a fact orders the steps.
    pub fn is_ordered(&self, first: u32, second: u32) -> bool {
        if second >= self.plan.len() {
            return false;
        }
        self.plan.depends(first, second) || self.ends.has(first, second)
    }

    /// Marks a faulty step.
    pub fn fault(&self, said: &mut Said, number: u32) {
        said.fault_with(self.step_line(number), b"step #", &[], &[number])
    }

    /// Marks a related step.
    pub fn beside(&self, said: &mut Said, number: u32) {
        said.beside_with(self.step_line(number), b"step #", &[], &[number])
    }

    /// Mends a step by one more dependency.
    pub fn wait(&self, said: &mut Said, number: u32, more: u32) {
        let line = self.step_line(number);
        said.put(line);
        said.add_with(b"@ after", &[head(self.page.text(line))], &[]);
        let mut is_in = false;
        if number < self.plan.len() {
            for earlier in self.plan.deps(number) {
                if !is_in && more < *earlier {
                    said.add_with(b" #", &[], &[more]);
                    is_in = true;
                }
                is_in = is_in || *earlier == more;
                said.add_with(b" #", &[], &[*earlier]);
            }
        }
        if !is_in {
            said.add_with(b" #", &[], &[more]);
        }
        said.add(b"\n")
    }
}
