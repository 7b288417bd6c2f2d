//! The planner.

use crate::choice::wished;
use find_flow::WishedChange;
use find_rounds::{Handover, Turnover};
use plan_cert::Cert;
use plan_text::Plan;
use ring_names::{NodeId, Refusal};
use ring_table::Ring;
use std::alloc::Global;

fn numbered(alloc: Global, nodes: &[NodeId]) -> Result<Vec<u32>, Refusal> {
    let mut numbers = Vec::new(alloc);
    for node in nodes {
        numbers.push(node.0)?;
    }
    numbers.sort_unstable();
    Ok(numbers)
}

/// Finds a plan that joins and removes these nodes, and its certificate.
///
/// Moves only leaving nodes' slots, and as many more as give each joining node its share, rounded down. Equal inputs
/// give equal plans. Fails as `wished` does.
pub fn make<'a>(
    alloc: Global,
    ring: &Ring,
    joins: &'a [NodeId],
    leaves: &'a [NodeId],
) -> Result<(Plan, Cert), Refusal> {
    let wish = WishedChange {
        joins,
        leaves,
        weights: &[],
        racks: &[],
        sizes: None,
    };
    let wished = wished(alloc, ring, &wish)?;
    let (joins, retires) = (numbered(alloc, joins)?, numbered(alloc, leaves)?);
    let turnover = Turnover {
        joins: joins.as_slice(),
        retires: retires.as_slice(),
    };
    let handover = Handover {
        alloc,
        ring,
        rows: wished.as_slice(),
        turnover,
        dead: &[],
    };
    handover.plan()
}
