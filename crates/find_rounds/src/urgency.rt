//! Rounds by urgency: groups with most copies left come first. Copies can have any number of parties.
//!
//! A copy waits in its neediest group's queue. Groups are served by need, until their allowance is used or several
//! copies found another group full. So a round looks at few copies in vain.
//!
//! Copies that others follow are queued first, and followers once these have rounds.

use crate::groups::Groups;
use ring_names::{Refusal, Rows};
use std::alloc::Global;
use std::cmp::Reverse;
use std::collections::VecDeque;
use texts::{at, lower, raise, row, set, small};

// The most looks at groups and copies.
const LOOKS: usize = 16_000_000;

// The most misses before the next group is served.
const MISSES: u32 = 16;

#[derive(Drop)]
struct Waiting<'a> {
    groups: &'a Groups,
    // by copy, its groups
    parties: &'a Rows,
    // by copy, its followers
    behind: &'a Rows,
    // by copy, how many waiting copies it follows
    before: Vec<u32>,
    // by group, its waiting copies
    left: Vec<u32>,
    // by group, its copies in the round
    used: Vec<u32>,
    queues: Vec<VecDeque<u32>>,
    // copies to queue after the round
    next: Vec<u32>,
    // by copy, its round, if any
    rounds: Vec<u32>,
    count: usize,
    looks: usize,
}

impl<'a> Waiting<'a> {
    fn begin(&mut self, alloc: Global) -> Result<(), Refusal> {
        self.left = vec![in alloc; 0u32; self.groups.len()]?;
        self.before = vec![in alloc; 0u32; self.count]?;
        self.rounds = vec![in alloc; 0u32; self.count]?;
        for _ in 0..self.groups.len() {
            self.queues.push(VecDeque::new(alloc))?;
        }
        for copy in 0..self.count {
            for group in row(self.parties, copy) {
                raise(&mut self.left, *group as usize);
            }
            for later in row(self.behind, copy) {
                raise(&mut self.before, *later as usize);
            }
        }
        self.queue_all(true)?;
        self.queue_all(false)
    }

    // Queues copies that follow none: those with followers, or the rest.
    fn queue_all(&mut self, is_before: bool) -> Result<(), Refusal> {
        for copy in 0..self.count {
            let is_meant = row(self.behind, copy).is_empty() != is_before;
            if is_meant && at(&self.before, copy) == 0 {
                self.queue(small(copy))?;
            }
        }
        Ok(())
    }

    // The rounds that the group still needs, in 64ths.
    fn needs(&self, group: usize) -> u32 {
        let left = at(&self.left, group).saturating_mul(64);
        match left.checked_div(self.groups.most(group)) {
            Some(rounds) => rounds,
            None => 0,
        }
    }

    fn leader(&self, copy: u32) -> usize {
        let mut leader = 0usize;
        let mut most = None;
        for group in row(self.parties, copy as usize) {
            let needs = Some(self.needs(*group as usize));
            if most < needs {
                most = needs;
                leader = *group as usize;
            }
        }
        leader
    }

    fn queue(&mut self, copy: u32) -> Result<(), Refusal> {
        let leader = self.leader(copy);
        if let Some(queue) = self.queues.get_mut(leader) {
            queue.push_back(copy)?;
        }
        Ok(())
    }

    fn queued(&self, group: usize) -> usize {
        match self.queues.get(group) {
            Some(queue) => queue.len(),
            None => 0,
        }
    }

    fn take(&mut self, group: usize) -> Option<u32> {
        match self.queues.get_mut(group) {
            Some(queue) => queue.pop_front(),
            None => None,
        }
    }

    fn is_free(&self, group: usize) -> bool {
        at(&self.used, group) < self.groups.most(group)
    }

    fn has_place(&self, copy: u32) -> bool {
        for group in row(self.parties, copy as usize) {
            if !self.is_free(*group as usize) {
                return false;
            }
        }
        true
    }

    // Releases, after the round, copies that wait only for this one.
    fn free(&mut self, copy: u32) -> Result<(), Refusal> {
        for later in row(self.behind, copy as usize) {
            lower(&mut self.before, *later as usize);
            if at(&self.before, *later as usize) == 0 {
                self.next.push(*later)?;
            }
        }
        Ok(())
    }

    fn place(&mut self, copy: u32, round: u32) -> Result<(), Refusal> {
        set(&mut self.rounds, copy as usize, round);
        for group in row(self.parties, copy as usize) {
            raise(&mut self.used, *group as usize);
            lower(&mut self.left, *group as usize);
        }
        self.count = self.count.saturating_sub(1);
        self.free(copy)
    }

    fn serve(&mut self, group: usize, round: u32) -> Result<(), Refusal> {
        let mut misses = 0u32;
        for _ in 0..self.queued(group) {
            if misses > MISSES || !self.is_free(group) {
                break;
            }
            let Some(copy) = self.take(group) else {
                break;
            };
            self.looks = self.looks.saturating_add(1);
            if self.has_place(copy) {
                self.place(copy, round)?;
            } else {
                misses = misses.saturating_add(1);
                self.queue(copy)?;
            }
        }
        Ok(())
    }

    fn order(&self, alloc: Global) -> Result<Vec<(Reverse<u32>, u32)>, Refusal> {
        let mut order = Vec::new(alloc);
        for group in 0..self.groups.len() {
            if self.queued(group) > 0 {
                order.push((Reverse(self.needs(group)), small(group)))?;
            }
        }
        order.sort_unstable();
        Ok(order)
    }

    fn end(&mut self) -> Result<(), Refusal> {
        for place in 0..self.next.len() {
            let copy = at(&self.next, place);
            self.queue(copy)?;
        }
        self.next.clear();
        Ok(())
    }

    fn fill(&mut self, alloc: Global, round: u32) -> Result<(), Refusal> {
        self.used = vec![in alloc; 0u32; self.groups.len()]?;
        let order = self.order(alloc)?;
        self.looks = self.looks.saturating_add(order.len());
        for (_, group) in order.iter() {
            self.serve(*group as usize, round)?;
        }
        self.end()
    }

    // Returns the number of rounds, or None beyond `LOOKS`.
    fn all(&mut self, alloc: Global) -> Result<Option<u32>, Refusal> {
        self.begin(alloc)?;
        for round in 0..small(self.rounds.len()) {
            if self.count == 0 {
                return Ok(Some(round));
            }
            if self.looks > LOOKS {
                return Ok(None);
            }
            self.fill(alloc, round)?;
        }
        if self.count == 0 {
            return Ok(Some(small(self.rounds.len())));
        }
        Ok(None)
    }
}

/// Copies' rounds, and their number.
#[derive(Drop)]
pub struct Rounds {
    pub count: u32,
    pub of_copies: Vec<u32>,
}

fn all_wait<'a>(
    alloc: Global,
    groups: &'a Groups,
    parties: &'a Rows,
    behind: &'a Rows,
) -> Waiting<'a> {
    Waiting {
        groups,
        parties,
        behind,
        before: Vec::new(alloc),
        left: Vec::new(alloc),
        used: Vec::new(alloc),
        queues: Vec::new(alloc),
        next: Vec::new(alloc),
        rounds: Vec::new(alloc),
        count: parties.len(),
        looks: 0,
    }
}

/// Returns rounds for copies with these groups and followers, or None beyond `LOOKS`.
pub fn by_urgency<'a>(
    alloc: Global,
    groups: &'a Groups,
    parties: &'a Rows,
    behind: &'a Rows,
) -> Result<Option<Rounds>, Refusal> {
    let mut waiting = all_wait(alloc, groups, parties, behind);
    match waiting.all(alloc)? {
        Some(count) => Ok(Some(Rounds {
            count,
            of_copies: waiting.rounds,
        })),
        None => Ok(None),
    }
}
