//! Finds certificates.

ghost use Rattle.std.specs.Prelude.{◌≡◌, [], IfErr, IfOk};
ghost use Rattle.ring_names.specs.declared.refusal.Refusal.TheVariants.{OutOfMemory};
ghost use Rattle.plan_cert.specs.Valid.{Suits as CertSuits};

use crate::needs::ClauseNeeds;
use crate::order::Order;
use crate::paths::Paths;
use crate::sides::{Sides, sides_of};
use plan_cert::{Cert, Chains};
use plan_text::Plan;
use ring_names::{NodeId, Refusal, Rows};
use ring_table::{NodeSide, Ring};
use std::alloc::Global;

/// A certificate, and what is known of nodes with too many chains.
#[derive(Drop)]
pub struct FoundCert {
    pub cert: Cert,
    /// The first node with too many chains in every certificate.
    pub excess: Option<NodeId>,
    /// Whether looks ran out before some node's fewest chains were known.
    pub is_given_up: bool,
}

impl FoundCert {
    /// Returns the refusal to report if the checker refuses the certificate.
    ///
    /// `TooManyChains` names only a node known to need too many. If the search was given up and no such node is known,
    /// it becomes `NoPlan`.
    pub fn refusal(&self, refusal: Refusal) -> Refusal {
        if !self.is_given_up || !matches!(refusal, Refusal::TooManyChains(_)) {
            return refusal;
        }
        match self.excess {
            Some(node) => Refusal::TooManyChains(node.0),
            None => Refusal::NoPlan,
        }
    }
}

/// Finds a certificate for the checker to judge: needed paths, and chains of each node's copies.
///
/// Chains are a first fit along direct dependencies. If these are too many, runs of a slot's steps are tried, then the
/// fewest chains, within 100,000,000 looks for all nodes.
///
/// Paths are shortest. A path over 1,024 steps, or not found in 100,000,000 looks, is left out. A certificate too large
/// for its text is left empty.
///
/// If steps depend directly on what they need, this costs about as much as reading the plan.
pub fn certificate(alloc: Global, ring: &Ring, plan: &Plan) -> Result<FoundCert, Refusal>
    ensures suits { IfOk result (λ f. CertSuits ring.now f.cert) }
    ensures memory { IfErr result (λ e. e ≡ OutOfMemory) }
{
    match found(alloc, ring, plan) {
        Ok(found) => Ok(sayable(alloc, ring, found)),
        Err(_) => Err(Refusal::OutOfMemory),
    }
}

fn sayable(alloc: Global, ring: &Ring, found: FoundCert) -> FoundCert
    ensures { CertSuits ring.now result.cert }
{
    let FoundCert {
        cert,
        excess,
        is_given_up,
    } = found;
    let cert = if cert.suits(ring) {
        cert
    } else {
        no_claims(alloc)
    };
    FoundCert {
        cert,
        excess,
        is_given_up,
    }
}

fn no_claims(alloc: Global) -> Cert
    ensures facts { result.facts ≡ [] }
    ensures chains { result.chains ≡ [] }
{
    Cert {
        facts: Rows::new(alloc),
        chains: Chains::new(alloc),
    }
}

fn found(alloc: Global, ring: &Ring, plan: &Plan) -> Result<FoundCert, Refusal> {
    let mut paths = Paths::of(alloc, plan)?;
    let mut needs = ClauseNeeds::of(alloc, ring, plan)?;
    needs.ask_all(&mut paths)?;
    let mut seeking = Seeking {
        order: Order::of(alloc, plan)?,
        excess: None,
        is_given_up: false,
    };
    let chains = all_chains(alloc, ring, plan, &mut seeking, &mut paths)?;
    let Seeking {
        excess,
        is_given_up,
        ..
    } = seeking;
    let Paths { found, .. } = paths;
    let cert = Cert {
        facts: found,
        chains,
    };
    Ok(FoundCert {
        cert,
        excess,
        is_given_up,
    })
}

#[derive(Drop)]
struct Seeking<'a> {
    order: Order<'a>,
    excess: Option<NodeId>,
    is_given_up: bool,
}

impl<'a> Seeking<'a> {
    // Returns at most `most` chains, or as few as possible.
    fn few(
        &mut self,
        alloc: Global,
        node: NodeId,
        copies: &[u32],
        most: u32,
    ) -> Result<Rows, Refusal> {
        let direct = self.order.direct(alloc, copies)?;
        if direct.len() <= most as usize {
            return Ok(direct);
        }
        let Some(rows) = self.order.chains(alloc, copies, most)? else {
            self.is_given_up = true;
            return Ok(direct);
        };
        if rows.len() > most as usize && self.excess.is_none() {
            self.excess = Some(node);
        }
        Ok(rows)
    }
}

fn all_chains(
    alloc: Global,
    ring: &Ring,
    plan: &Plan,
    seeking: &mut Seeking,
    paths: &mut Paths,
) -> Result<Chains, Refusal> {
    let sides = Sides::of(alloc, ring, plan)?;
    let mut chains = Chains::new(alloc);
    for node in 0..ring.nodes().len() {
        for side in sides_of(ring, node) {
            if let Some((of, most)) = side {
                let rows = seeking.few(alloc, of.node, sides.copies(of), most)?;
                push_chains(&mut chains, paths, of, &rows)?;
            }
        }
    }
    Ok(chains)
}

fn push_chains(
    chains: &mut Chains,
    paths: &mut Paths,
    of: NodeSide,
    rows: &Rows,
) -> Result<(), Refusal> {
    for place in 0..rows.len() {
        let steps = rows.row(place);
        chains.push(of, steps)?;
        link(paths, steps)?;
    }
    Ok(())
}

fn link(paths: &mut Paths, steps: &[u32]) -> Result<(), Refusal> {
    let mut last: Option<u32> = None;
    for step in steps {
        if let Some(last) = last {
            paths.need(last, *step)?;
        }
        last = Some(*step);
    }
    Ok(())
}
