//! Loads of nodes.

use crate::shown::AllShown;
use find_chains::{Order, Sides, sides_of};
use plan_cert::Cert;
use plan_moves::owned;
use plan_text::Plan;
use ring_names::{Listed, NodeId, Refusal};
use ring_table::{Allowance, Ring, Side};
use std::alloc::Global;
use texts::{Words, at, raise};

/// Each node's slots and transfers.
#[derive(Drop)]
pub struct Loads {
    /// Slots before the first step.
    pub before: Vec<u32>,
    /// Slots after the last step.
    pub after: Vec<u32>,
    /// Moves with copies from the node.
    pub gives: Vec<u32>,
    /// Moves to the node.
    pub takes: Vec<u32>,
    // transfers at once, by the side that the allowance counts
    joint: Vec<u32>,
    taking: Vec<u32>,
    giving: Vec<u32>,
}

impl Loads {
    pub fn of(
        alloc: Global,
        ring: &Ring,
        cert: &Cert,
        shown: &AllShown,
        last_rows: &[Listed<NodeId>],
    ) -> Result<Loads, Refusal> {
        let nodes = ring.nodes().len();
        let mut loads = Loads {
            before: owned(alloc, nodes, ring.rows())?,
            after: owned(alloc, nodes, last_rows)?,
            gives: vec![in alloc; 0u32; nodes]?,
            takes: vec![in alloc; 0u32; nodes]?,
            joint: vec![in alloc; 0u32; nodes]?,
            taking: vec![in alloc; 0u32; nodes]?,
            giving: vec![in alloc; 0u32; nodes]?,
        };
        loads.count_moves(shown);
        loads.count_chains(cert);
        Ok(loads)
    }

    fn count_moves(&mut self, shown: &AllShown) {
        for one in shown.moves.as_slice() {
            raise(self.takes.as_mut_slice(), one.to as usize);
            for node in shown.read_by(one) {
                raise(self.gives.as_mut_slice(), *node as usize);
            }
        }
    }

    /// Sets the transfers at once to the fewest that the plan's order allows.
    pub fn count_fewest(&mut self, alloc: Global, ring: &Ring, plan: &Plan) -> Result<(), Refusal> {
        let mut order = Order::of(alloc, plan)?;
        let sides = Sides::of(alloc, ring, plan)?;
        for node in 0..ring.nodes().len() {
            for side in sides_of(ring, node) {
                if let Some((of, _)) = side {
                    let fewest = order.fewest(alloc, sides.copies(of))?;
                    put(self.counts(of.side), node, fewest);
                }
            }
        }
        Ok(())
    }

    fn counts(&mut self, side: Side) -> &mut [u32] {
        match side {
            Side::Both => self.joint.as_mut_slice(),
            Side::Take => self.taking.as_mut_slice(),
            Side::Give => self.giving.as_mut_slice(),
        }
    }

    fn count_chains(&mut self, cert: &Cert) {
        for place in 0..cert.chains.len() {
            let of = cert.chains.of(place);
            raise(self.counts(of.side), of.node.0 as usize);
        }
    }

    /// Writes the most transfers at once, and the allowance.
    ///
    /// Like `3 at once (bears 4)`, or `2 in at once (bears 2), 1 out at once (bears 2)`. Omits a side without
    /// transfers.
    pub fn push_at_once(&self, out: &mut Words, allowance: Allowance, node: u32) {
        let place = node as usize;
        match allowance {
            Allowance::Joint(most) => push_of(
                out,
                at(self.joint.as_slice(), place),
                most,
                b" at once",
            ),
            Allowance::Split { take, give } => {
                let taken = at(self.taking.as_slice(), place);
                let given = at(self.giving.as_slice(), place);
                push_of(out, taken, take, b" in at once");
                if taken > 0 && given > 0 {
                    out.text(b", ");
                }
                push_of(out, given, give, b" out at once")
            }
        }
    }
}

fn put(numbers: &mut [u32], place: usize, found: Option<u32>) {
    if let (Some(number), Some(found)) = (numbers.get_mut(place), found) {
        *number = found;
    }
}

fn push_of(out: &mut Words, count: u32, most: u32, words: &[u8]) {
    if count == 0 {
        return;
    }
    out.number(count);
    out.text(words);
    out.text(b" (bears ");
    out.number(most);
    out.byte(b')');
}
