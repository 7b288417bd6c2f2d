//! Finds the new plan's dependencies.

use crate::around::Search;
use crate::moving::PlannedMove;
use crate::needs::Needs;
use crate::owners::Way;
use crate::sources::CopyListing;
use plan_text::{Source, Step};
use ring_names::{NodeId, Refusal, Slot};
use ring_table::{Allowance, Side};
use std::alloc::Global;
use texts::{at, is_set, raise, set, small};

// The most looks at left-out steps.
const LOOKS: u32 = 100_000_000;

// The chains' last copies, by transfer group. A node has one or two groups.
#[derive(Drop)]
struct Tails {
    // by group; at most its allowance
    copies: Vec<Vec<u32>>,
    // by step: 1 plus its place in the order, and the length of the chain that it ends
    places: Vec<u32>,
    depths: Vec<u32>,
}

// A copy's groups: at most 8 nodes take part.
#[derive(Drop)]
struct Parties {
    groups: Vec<usize>,
}

pub(crate) fn link(search: &mut Search) -> Result<Needs, Refusal> {
    let mut needs = Needs::of(search.task.alloc, search.task.plan.len() as usize)?;
    search.keep_needs(&mut needs)?;
    if search.is_changed {
        search.follow_slots(&mut needs)?;
        search.retire_last(&mut needs)?;
        search.link_copies(&mut needs)?;
    }
    Ok(needs)
}

impl Search<'_> {
    // Keeps dependencies, also those through left-out steps.
    fn keep_needs(&self, needs: &mut Needs) -> Result<(), Refusal> {
        let count = self.task.plan.len();
        let mut seen = vec![in self.task.alloc; 0u32; count as usize]?;
        let mut left = LOOKS;
        for step in 0..count {
            if !self.is_gone(step) {
                left = self.keep_of(needs, seen.as_mut_slice(), step, left)?;
            }
        }
        Ok(())
    }

    // Returns the looks left.
    fn keep_of(
        &self,
        needs: &mut Needs,
        seen: &mut [u32],
        step: u32,
        looks: u32,
    ) -> Result<u32, Refusal> {
        let stamp = step.saturating_add(1);
        let passed = self.passed_by(step)?;
        let mut stack = Vec::new(self.task.alloc);
        self.push_waits(&mut stack, step, step)?;
        let mut left = looks.saturating_sub(small(passed.len()));
        for turn in 0..looks {
            let Some(other) = stack.pop() else {
                return Ok(left);
            };
            left = left.saturating_sub(1);
            if at(seen, other as usize) != stamp && other != step {
                set(seen, other as usize, stamp);
                if self.stays_before(step, other) && !is_set(passed.as_slice(), other) {
                    needs.add(step, other)?;
                } else {
                    self.push_waits(&mut stack, step, other)?;
                }
            }
        }
        Err(Refusal::NoPlan)
    }

    // An undone mirror must not precede a fixed step.
    fn stays_before(&self, step: u32, other: u32) -> bool {
        !self.is_gone(other) && !(self.is_fixed(step) && is_set(self.taken.as_slice(), other))
    }

    // Only unfixed steps get new dependencies.
    fn push_waits(&self, stack: &mut Vec<u32>, step: u32, other: u32) -> Result<(), Refusal> {
        if other < self.task.plan.len() {
            stack.extend_from_slice(self.task.plan.deps(other))?;
        }
        if !self.is_fixed(step) && (step == other || self.is_gone(other)) {
            stack.extend_from_slice(self.more.row(other))?;
        }
        Ok(())
    }

    fn follow_slots(&self, needs: &mut Needs) -> Result<(), Refusal> {
        for partition in 0..self.task.ring.q() {
            for index in 0..self.task.ring.n() {
                self.follow_slot(needs, Slot { partition, index })?;
            }
        }
        Ok(())
    }

    fn follow_slot(&self, needs: &mut Needs, slot: Slot) -> Result<(), Refusal> {
        let mut last = None;
        let mut next = self.moves.first(slot);
        for turn in 0..self.moves.len() {
            let Some(it) = self.moves.at(next) else {
                break;
            };
            for step in [it.mirror, it.copy, it.switch] {
                if let Some(step) = self.kept(step) {
                    if let Some(last) = last {
                        if !self.is_fixed(step) {
                            needs.add(step, last)?;
                        }
                    }
                    last = Some(step);
                }
            }
            next = it.next;
        }
        Ok(())
    }

    fn retire_last(&self, needs: &mut Needs) -> Result<(), Refusal> {
        for place in 0..self.moves.len() {
            if let Some(it) = self.moves.at(Some(place)) {
                let retire = self.task.plan.retirement_of(NodeId(it.source));
                if let (Some(drop), Some(retire)) = (self.kept(it.drop), self.kept(retire)) {
                    if !self.is_done(retire) {
                        needs.add(retire, drop)?;
                    }
                }
            }
        }
        Ok(())
    }

    // Order: done steps, begun copies, then the rest, each after its dependencies.
    fn line_up(&self, needs: &Needs) -> Result<Vec<u32>, Refusal> {
        let sorted = self.sorted(needs)?;
        let mut order = Vec::new(self.task.alloc);
        for turn in 0..3u32 {
            for step in sorted.iter() {
                let rank = if self.is_done(*step) {
                    0
                } else if self.is_fixed(*step) {
                    1
                } else {
                    2
                };
                if rank == turn {
                    order.push(*step)?;
                }
            }
        }
        Ok(order)
    }

    // Links each unfixed copy into chains of its nodes, within allowances.
    fn link_copies(&self, needs: &mut Needs) -> Result<(), Refusal> {
        let order = self.line_up(needs)?;
        let mut tails = Tails::of(self.task.alloc, self, order.as_slice())?;
        for step in order.iter() {
            if let Some(it) = self.copied_by(*step) {
                if !self.is_fixed(*step) {
                    self.link_copy(needs, &mut tails, &it, *step)?;
                }
            }
            tails.sink(needs, *step, self.copied_by(*step).is_some());
        }
        Ok(())
    }

    fn copied_by(&self, step: u32) -> Option<PlannedMove> {
        let it = self.moves.at(self.moves.of_step(step))?;
        if self.kept(it.copy) == Some(step) {
            Some(it)
        } else {
            None
        }
    }

    fn link_copy(
        &self,
        needs: &mut Needs,
        tails: &mut Tails,
        it: &PlannedMove,
        copy: u32,
    ) -> Result<(), Refusal> {
        let parties = self.parties(it, copy)?;
        for group in parties.groups.iter() {
            let most = self.most(*group);
            if let Some(tail) = tails.follow(*group, copy, most)? {
                needs.add(copy, tail)?;
                if let Some(mirror) = self.kept(it.mirror) {
                    if !self.is_done(mirror) && tails.is_before(tail, mirror) {
                        needs.add(mirror, tail)?;
                    }
                }
            }
        }
        Ok(())
    }

    fn group(&self, node: u32, side: Side) -> usize {
        let place = (node as usize).saturating_mul(2);
        if self.is_split(node) && side == Side::Give {
            return place.saturating_add(1);
        }
        place
    }

    fn is_split(&self, node: u32) -> bool {
        match self.task.ring.nodes().get(node as usize) {
            Some(declared) => matches!(declared.allowance, Allowance::Split { .. }),
            None => false,
        }
    }

    fn most(&self, group: usize) -> u32 {
        match self.task.ring.nodes().get(group / 2) {
            Some(declared) => match declared.allowance {
                Allowance::Joint(most) => most,
                Allowance::Split { take, give } => { if group % 2 == 0 { take } else { give } }
            },
            None => 0,
        }
    }

    fn parties(&self, it: &PlannedMove, copy: u32) -> Result<Parties, Refusal> {
        let mut groups = Vec::new(self.task.alloc);
        groups.push(self.group(it.target, Side::Take))?;
        match self.listings.get(&copy) {
            Some(listing) => self.push_listed(&mut groups, it, copy, listing)?,
            None => self.push_sources(&mut groups, it, copy)?,
        }
        Ok(Parties { groups })
    }

    fn push_listed(
        &self,
        groups: &mut Vec<usize>,
        it: &PlannedMove,
        copy: u32,
        listing: &CopyListing,
    ) -> Result<(), Refusal> {
        let partition = it.slot.partition;
        for index in 0..7u32 {
            if let Some(Some(way)) = listing.ways.get(index as usize) {
                let line = match way {
                    Way::InLine => copy,
                    Way::First => 0,
                };
                let owner = self.owner_at(Slot { partition, index }, line);
                self.push_giver(groups, owner)?;
            }
        }
        Ok(())
    }

    fn push_sources(
        &self,
        groups: &mut Vec<usize>,
        it: &PlannedMove,
        copy: u32,
    ) -> Result<(), Refusal> {
        if copy >= self.task.plan.len() {
            return Ok(());
        }
        let Step::Copy(_, Source::Slots(from)) = self.task.plan.step(copy) else {
            return self.push_giver(groups, it.source);
        };
        let partition = it.slot.partition;
        for index in from.as_slice() {
            let index = u32::from(*index);
            let owner = self.owner_at(Slot { partition, index }, copy);
            self.push_giver(groups, owner)?;
        }
        Ok(())
    }

    fn push_giver(&self, groups: &mut Vec<usize>, node: u32) -> Result<(), Refusal> {
        let group = self.group(node, Side::Give);
        if !groups.contains(&group) {
            groups.push(group)?;
        }
        Ok(())
    }

    fn last_begun(&self, steps: &[u32]) -> Option<u32> {
        let mut last = None;
        for step in steps {
            if self.is_fixed(*step) && !self.is_gone(*step) && self.copied_by(*step).is_some() {
                last = Some(*step);
            }
        }
        last
    }
}

impl Tails {
    // Reads the begun ends of the certificate's chains.
    fn of(alloc: Global, search: &Search, order: &[u32]) -> Result<Tails, Refusal> {
        let steps = search.task.plan.len() as usize;
        let mut tails = Tails {
            copies: Vec::new(alloc),
            places: vec![in alloc; 0u32; steps]?,
            depths: vec![in alloc; 0u32; steps]?,
        };
        for node in 0..search.task.ring.nodes().len() {
            tails.copies.push(Vec::new(alloc))?;
            tails.copies.push(Vec::new(alloc))?;
        }
        for place in 0..order.len() {
            let step = at(order, place);
            set(
                tails.places.as_mut_slice(),
                step as usize,
                small(place).saturating_add(1),
            );
        }
        let chains = &search.task.cert.chains;
        for place in 0..chains.len() {
            let of = chains.of(place);
            if let Some(last) = search.last_begun(chains.steps(place)) {
                let group = search.group(of.node.0, of.side);
                if let Some(list) = tails.copies.get_mut(group) {
                    list.push(last)?;
                }
            }
        }
        Ok(tails)
    }

    // Appends the copy to a new chain if allowed, otherwise to the shortest. Returns that chain's old end.
    fn follow(&mut self, group: usize, copy: u32, most: u32) -> Result<Option<u32>, Refusal> {
        let depths = self.depths.as_slice();
        let Some(list) = self.copies.get_mut(group) else {
            return Ok(None);
        };
        if list.len() < most as usize {
            list.push(copy)?;
            return Ok(None);
        }
        let place = shallowest(depths, list.as_slice());
        let tail = at(list.as_slice(), place);
        set(list.as_mut_slice(), place, copy);
        Ok(Some(tail))
    }

    fn is_before(&self, step: u32, other: u32) -> bool {
        at(self.places.as_slice(), step as usize) < at(self.places.as_slice(), other as usize)
    }

    fn sink(&mut self, needs: &Needs, step: u32, is_copy: bool) {
        let mut depth = 0u32;
        for other in needs.row(step) {
            depth = depth.max(at(self.depths.as_slice(), *other as usize));
        }
        set(self.depths.as_mut_slice(), step as usize, depth);
        if is_copy {
            raise(self.depths.as_mut_slice(), step as usize);
        }
    }
}

fn shallowest(depths: &[u32], copies: &[u32]) -> usize {
    let mut best = 0usize;
    let mut least = u32::MAX;
    for place in 0..copies.len() {
        let depth = at(depths, at(copies, place) as usize);
        if depth < least {
            least = depth;
            best = place;
        }
    }
    best
}
