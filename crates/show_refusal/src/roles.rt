//! Roles in copies.

use crate::case::Case;
use find_chains::Stays;
use plan_text::{Source, Step};
use ring_names::{NodeId, Refusal, Slot};

/// A node's role in a copy: mirror, or owner that is read.
#[derive(Clone, Copy, Debug, PartialEq, Eq)]
pub enum CopyRole {
    Takes,
    Gives,
}

fn is_read(stays: &Stays, node: NodeId, partition: u32, listed: &[u8]) -> bool {
    for index in listed {
        let index = u32::from(*index);
        if stays.owner(Slot { partition, index }) == Some(node.0) {
            return true;
        }
    }
    false
}

fn role_in(stays: &Stays, node: NodeId, step: &Step) -> Option<CopyRole> {
    let Step::Copy(slot, source) = step else {
        return None;
    };
    if stays.mirror(*slot) == Some(node.0) {
        return Some(CopyRole::Takes);
    }
    let gives = match source {
        Source::Owner => stays.owner(*slot) == Some(node.0),
        Source::Slots(from) => is_read(stays, node, slot.partition, from.as_slice()),
    };
    if gives { Some(CopyRole::Gives) } else { None }
}

/// The node's role in each step. Costs a pass over the plan.
pub fn roles(case: Case, node: NodeId) -> Result<Vec<Option<CopyRole>>, Refusal> {
    let mut stays = Stays::of(case.alloc, case.ring)?;
    let mut found = Vec::new(case.alloc);
    for number in 0..case.plan.len() {
        let step = case.plan.step(number);
        found.push(role_in(&stays, node, step))?;
        stays.act(step, number)?;
    }
    Ok(found)
}

/// The role in the step.
pub fn role_at(roles: &[Option<CopyRole>], number: u32) -> Option<CopyRole> {
    match roles.get(number as usize) {
        Some(role) => *role,
        None => None,
    }
}
