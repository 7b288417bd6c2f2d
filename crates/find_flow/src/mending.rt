//! Changes owners along paths: joining members get their parts with the fewest moves, then the balance is optimized.
//!
//! This is a least-cost flow: moves cost, and the balance is a convex cost of each member. A cheapest path keeps the
//! cost minimal. When no path is left, the balance is optimal.

use crate::levels::find_levels;
use crate::meeting::SearchAim;
use crate::search::PathSearch;
use crate::seats::Seats;
use ring_names::Refusal;
use std::alloc::Global;
use texts::{set_word, word};

// Gives the node its missing slots while paths to it exist.
fn raise(
    alloc: Global,
    seats: &mut Seats,
    search: &mut PathSearch,
    node: u32,
) -> Result<(), Refusal> {
    for _ in 0..seats.partitions {
        if !seats.wants(node) || search.meeting.is_frozen(node) || search.meeting.is_spent() {
            break;
        }
        match search.find(alloc, seats, node, SearchAim::Part)? {
            Some(from) => search.shift(seats, from),
            None => search.freeze(alloc, seats)?,
        }
    }
    Ok(())
}

/// Gives joining members their parts. A path on level 0 adds no move, a path on level 1 adds one.
pub fn raise_all(
    alloc: Global,
    seats: &mut Seats,
    search: &mut PathSearch,
    level: u32,
) -> Result<(), Refusal> {
    search.set_levels(alloc, seats, level)?;
    for node in 0..seats.members.count() {
        raise(alloc, seats, search, node)?;
    }
    Ok(())
}

fn class(level: u32, is_costly: bool) -> usize {
    level.saturating_mul(2).saturating_add(u32::from(is_costly)) as usize
}

// The greatest gain from giving a slot, by `class`.
fn gains(alloc: Global, seats: &Seats, search: &PathSearch) -> Result<Vec<u64>, Refusal> {
    let mut gains = vec![in alloc; 0u64; 6]?;
    for node in 0..seats.members.count() {
        if seats.members.is_after(node) && !search.meeting.is_frozen(node) {
            let place = class(search.meeting.level(node), seats.is_costly(node));
            let gain = word(&gains, place).max(seats.give_price(node));
            set_word(&mut gains, place, gain);
        }
    }
    Ok(gains)
}

fn takes_part(seats: &Seats, search: &PathSearch, node: u32) -> bool {
    if !seats.members.is_after(node) || search.meeting.is_frozen(node) {
        return false;
    }
    let level = search.meeting.level(node);
    level == 0 || (level == 2 && seats.wants(node))
}

// The emptiest member by weight that can get a fuller member's slot.
fn poorest(seats: &Seats, search: &PathSearch, gains: &[u64]) -> Option<u32> {
    let mut found: Option<u32> = None;
    for node in 0..seats.members.count() {
        let gain = word(gains, class(search.meeting.level(node), seats.wants(node)));
        if gain > seats.take_price(node) && takes_part(seats, search, node) {
            found = match found {
                Some(other) if seats.take_price(other) <= seats.take_price(node) => Some(other),
                _ => Some(node),
            };
        }
    }
    found
}

fn balance(alloc: Global, seats: &mut Seats, search: &mut PathSearch) -> Result<(), Refusal> {
    let turns = seats.total().saturating_add(seats.members.count() as usize);
    for _ in 0..turns {
        if search.meeting.is_spent() {
            break;
        }
        let gains = gains(alloc, seats, search)?;
        let Some(first) = poorest(seats, search, &gains) else {
            break;
        };
        match search.find(alloc, seats, first, SearchAim::Balance)? {
            Some(from) => search.shift(seats, from),
            None => search.freeze(alloc, seats)?,
        }
    }
    Ok(())
}

/// Improves the balance, if looks are left.
pub fn balance_all(
    alloc: Global,
    seats: &mut Seats,
    search: &mut PathSearch,
) -> Result<(), Refusal> {
    if search.meeting.is_spent() {
        return Ok(());
    }
    find_levels(alloc, seats, search)?;
    balance(alloc, seats, search)
}
