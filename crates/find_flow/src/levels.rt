//! Levels of joining members: one more slot adds no move (0), adds one move (1), or is impossible (2).

use crate::meeting::SearchAim;
use crate::members::Role;
use crate::search::PathSearch;
use crate::seats::Seats;
use ring_names::Refusal;
use std::alloc::Global;
use texts::{NONE, at, set};

fn mark_path(search: &PathSearch, levels: &mut [u32], from: u32, level: u32) {
    let mut node = from;
    for _ in 0..levels.len() {
        if at(levels, node as usize) == NONE {
            set(levels, node as usize, level);
        }
        if node == search.meeting.first {
            break;
        }
        node = search.meeting.link(node).to;
    }
}

fn find_level(
    alloc: Global,
    seats: &Seats,
    search: &mut PathSearch,
    levels: &mut [u32],
    level: u32,
) -> Result<(), Refusal> {
    search.set_levels(alloc, seats, level)?;
    for node in 0..seats.members.count() {
        if at(levels, node as usize) == NONE && !search.meeting.is_frozen(node) {
            if !seats.is_costly(node) {
                set(levels, node as usize, 0);
                continue;
            }
            match search.find(alloc, seats, node, SearchAim::Part)? {
                Some(from) => mark_path(search, levels, from, level),
                None => search.freeze(alloc, seats)?,
            }
        }
    }
    Ok(())
}

/// Finds each joining member's level.
pub fn find_levels(alloc: Global, seats: &Seats, search: &mut PathSearch) -> Result<(), Refusal> {
    let mut levels = vec![in alloc; 0u32; seats.members.count() as usize]?;
    for node in 0..seats.members.count() {
        if seats.members.role(node) == Role::Joins {
            set(&mut levels, node as usize, NONE);
        }
    }
    find_level(alloc, seats, search, &mut levels, 0)?;
    find_level(alloc, seats, search, &mut levels, 1)?;
    search.forget();
    search.meeting.thaw(alloc, levels.len())?;
    for node in 0..seats.members.count() {
        search
            .meeting
            .put_level(node, at(&levels, node as usize).min(2));
    }
    Ok(())
}
