//! Overloaded nodes.

use crate::order::Order;
use crate::sides::{Sides, sides_of};
use plan_text::Plan;
use ring_names::{NodeId, Refusal};
use ring_table::{Ring, Side};
use std::alloc::Global;

/// A node's side that some order overloads.
#[derive(Clone, Copy, Debug)]
pub struct Excess {
    pub side: Side,
    /// How many of the side's copies some order opens at once.
    pub fewest: u32,
    /// The side's limit of open transfers.
    pub most: u32,
}

/// Returns the node's first side that exceeds its allowance under every certificate. None if 100,000,000 looks find
/// none.
pub fn overload(
    alloc: Global,
    ring: &Ring,
    plan: &Plan,
    node: NodeId,
) -> Result<Option<Excess>, Refusal> {
    let sides = Sides::of(alloc, ring, plan)?;
    let mut order = Order::of(alloc, plan)?;
    for side in sides_of(ring, node.0 as usize) {
        if let Some((of, most)) = side {
            let fewest = order.fewest(alloc, sides.copies(of))?.unwrap_or(0);
            if fewest > most {
                let side = of.side;
                return Ok(Some(Excess { side, fewest, most }));
            }
        }
    }
    Ok(None)
}
