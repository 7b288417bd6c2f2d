//! Fills free slots.

use crate::ranks::Who;
use crate::takers::Takers;
use find_flow::Seats;
use ring_names::Refusal;
use std::alloc::Global;
use texts::NONE;

/// Gives the partition's free slots away, or fails with `NoPlan`.
pub(crate) fn fill_partition(
    seats: &mut Seats,
    takers: &mut Takers,
    partition: usize,
) -> Result<(), Refusal> {
    for index in 0..seats.slots {
        let place = seats.place(partition, index);
        if seats.now(place) == NONE {
            let Some(node) = takers.taker(seats, partition)? else {
                return Err(Refusal::NoPlan);
            };
            seats.fill(place, node);
            takers.renew(seats, node);
        }
    }
    Ok(())
}

/// Gives all free slots away. Joining members come first, up to their parts, then those with few slots by weight.
pub fn fill(alloc: Global, seats: &mut Seats) -> Result<(), Refusal> {
    let mut takers = Takers::new(alloc, Who::All);
    takers.fill(alloc, seats)?;
    for partition in 0..seats.partitions {
        fill_partition(seats, &mut takers, partition)?;
    }
    Ok(())
}
