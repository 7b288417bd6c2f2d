//! Certificates as values.

ghost use Rattle.std.specs.Prelude.{◌≡◌, ◌↔◌, IsTrue};
ghost use Rattle.std.specs.List.{list_all};
ghost use Rattle.plan_cert.specs.Chains.{chain_of};
ghost use Rattle.plan_cert.specs.Valid.{is_fact, is_chain, Suits};

use crate::chains::Chains;
use ring_names::{Listed, NodeId, Rows};
use ring_table::{NodeSide, Ring, Side};

/// A node's copies, in order: one transfer of a chain is open at a time. Contracts see `Chains` as a list of these.
#[derive(Debug, Drop)]
pub struct Chain {
    pub node: NodeId,
    /// The node's side on which the copies count.
    pub side: Side,
    pub steps: Listed<u32>,
}

/// A certificate: paths of dependencies, and chains of copies, as written.
#[derive(Debug)]
pub struct Cert {
    pub facts: Rows,
    pub chains: Chains,
}

// Saves dependent crates from checking the parts.
impl Drop for Cert {
    fn drop(self) {
        let Cert { facts, chains } = self;
        drop(facts);
        drop(chains);
    }
}

fn is_fact(path: &[u32]) -> bool
    ensures { result ≡ is_fact path.now }
{
    let steps = path.len();
    2 <= steps && steps <= 1024
}

fn is_chain(ring: &Ring, of: NodeSide, steps: &[u32]) -> bool
    ensures { result ≡ is_chain ring.now (chain_of of steps.now) }
{
    ring.allowance(of).is_some() && !steps.is_empty()
}

fn are_facts(facts: &Rows) -> bool
    ensures { result ≡ list_all is_fact facts.now }
{
    for place in 0..facts.len() {
        if !is_fact(facts.row(place)) {
            return false;
        }
    }
    true
}

fn are_chains(ring: &Ring, chains: &Chains) -> bool
    ensures { result ≡ list_all (is_chain ring.now) chains.now }
{
    for place in 0..chains.len() {
        if !is_chain(ring, chains.of(place), chains.steps(place)) {
            return false;
        }
    }
    true
}

impl Cert {
    /// Whether the certificate has a text in the ring's format.
    ///
    /// It has at most 262,144 facts of 2 to 1,024 steps. It has at most 65,536 chains, none empty, each on a side of
    /// its node.
    pub fn suits(&self, ring: &Ring) -> bool
        ensures { IsTrue result ↔ Suits ring.now self.now }
    {
        self.facts.len() <= 262144
            && are_facts(&self.facts)
            && self.chains.len() <= 65536
            && are_chains(ring, &self.chains)
    }
}
