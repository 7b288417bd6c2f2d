//! Chooses owners.

use crate::filling::fill;
use crate::giving::give;
use crate::sizing::take_by_size;
use crate::spreading::spread_moves;
use crate::thinning::thin;
use find_flow::{Members, PathSearch, Seats, WishedChange, balance_all, raise_all};
use ring_names::{Listed, NodeId, Refusal};
use ring_table::Ring;
use std::alloc::Global;

fn rows(alloc: Global, seats: &Seats) -> Result<Vec<Listed<NodeId>>, Refusal> {
    let mut rows = Vec::new(alloc);
    for partition in 0..seats.partitions {
        let mut row = Vec::new(alloc);
        for index in 0..seats.slots {
            row.push(NodeId(seats.now(seats.place(partition, index))))?;
        }
        rows.push(Listed::from_vec(row))?;
    }
    Ok(rows)
}

fn settle(alloc: Global, seats: &mut Seats) -> Result<(), Refusal> {
    let mut search = PathSearch::new(alloc);
    search.fill(alloc)?;
    raise_all(alloc, seats, &mut search, 0)?;
    give(alloc, seats)?;
    raise_all(alloc, seats, &mut search, 1)?;
    balance_all(alloc, seats, &mut search)
}

fn take(alloc: Global, seats: &mut Seats) -> Result<(), Refusal> {
    if seats.volumes.are_asked() {
        return take_by_size(alloc, seats);
    }
    thin(seats);
    fill(alloc, seats)?;
    settle(alloc, seats)
}

fn wished_of(
    alloc: Global,
    ring: &Ring,
    members: &Members,
    sizes: Option<&[u64]>,
) -> Result<Vec<Listed<NodeId>>, Refusal> {
    let mut seats = Seats::new(alloc, ring, members);
    if let Some(sizes) = sizes {
        seats.measure(alloc, sizes)?;
    }
    seats.begin(alloc, ring)?;
    take(alloc, &mut seats)?;
    spread_moves(alloc, ring.r(), &mut seats)?;
    rows(alloc, &seats)
}

/// Returns the wished owners, by partition and index.
///
/// A partition's owners are different final members. A slot that does not move keeps owner and index.
///
/// Aims, the most important first:
/// - The fewest pairs of slots in one rack, in each partition.
/// - The fewest slots missing from joining nodes' parts. A part is the node's share by weight, rounded down, with at
///   most one slot of each partition.
/// - The fewest moves.
/// - The best balance: the least sum of squared slots by weight.
/// - Few partitions with two joining nodes or two moving slots, and evenly shared partitions.
///
/// If the search takes too long, the balance falls short, and rarely a part. The last aim is met well, not always best.
///
/// With sizes, joining nodes take up to their share of the stored size, and no slot moves only for racks. This is good,
/// not always optimal: see `take_by_size`.
///
/// Fails with `OutOfMemory`, or with `NoPlan` if a joining node is a member, a leaving node is not, or too few remain.
/// Equal inputs give equal owners.
pub fn wished(
    alloc: Global,
    ring: &Ring,
    wish: &WishedChange,
) -> Result<Vec<Listed<NodeId>>, Refusal> {
    let mut members = Members::new(alloc);
    members.begin(alloc, ring, wish)?;
    wished_of(alloc, ring, &members, wish.sizes)
}
