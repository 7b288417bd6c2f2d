//! Finds the fewest chains.

use crate::links::Links;
use crate::looks::Looks;
use crate::matching::{EarlierCopies, Matching};
use crate::runs::runs_of;
use plan_text::Plan;
use ring_names::{Refusal, Rows};
use std::alloc::Global;
use texts::{at, parts, set, set_word, small, word};

// The most words of all bit sets, 200 MB. Accepted plans need no more if looks suffice.
const MOST_WORDS: usize = 25_000_000;

/// A plan's order, and the looks left.
#[derive(Drop)]
pub struct Order<'a> {
    plan: &'a Plan,
    looks: Looks,
    // by step, which copies of a word come before the step or are it
    masks: Vec<u64>,
    // by 64 steps, those with dependencies still to follow
    marks: Vec<u64>,
    // by step, 1 plus its place among copies if it ends a chain, or 0
    lasts: Vec<u32>,
    // by step, its run's first step
    runs: Vec<u32>,
}

// What precedes a copy in a chain: a direct dependency, or the run's last copy.
#[derive(Clone, Copy)]
enum LinkRule {
    Direct,
    Run,
}

impl<'a> Order<'a> {
    /// Prepares a plan's order, in one pass.
    pub fn of(alloc: Global, plan: &'a Plan) -> Result<Order<'a>, Refusal> {
        Ok(Order {
            plan,
            looks: Looks::new(),
            masks: vec![in alloc; 0u64; plan.len() as usize]?,
            marks: vec![in alloc; 0u64; parts(plan.len(), 64) as usize]?,
            lasts: vec![in alloc; 0u32; plan.len() as usize]?,
            runs: runs_of(alloc, plan)?,
        })
    }

    /// Counts the fewest chains of ascending copies. None if looks do not suffice.
    ///
    /// Equals the most transfers that any order of the plan opens at once (Dilworth 1950).
    pub fn fewest(&mut self, alloc: Global, copies: &[u32]) -> Result<Option<u32>, Refusal> {
        let links = self.links(alloc, copies, 1)?;
        Ok(links.map(|links| links.count()))
    }

    /// Returns a chain for each run of a slot's copies, if these are at most `enough`.
    ///
    /// Otherwise the fewest chains, by matching copies with later ones (Fulkerson 1956). None if looks do not suffice.
    /// Chains are ordered by first copy.
    pub fn chains(
        &mut self,
        alloc: Global,
        copies: &[u32],
        enough: u32,
    ) -> Result<Option<Rows>, Refusal> {
        let links = self.links(alloc, copies, enough)?;
        Ok(match links {
            Some(links) => Some(links.chains(alloc, copies)?),
            None => None,
        })
    }

    /// Chains by a first fit along direct dependencies. Costs a look at each dependency of a copy.
    pub fn direct(&mut self, alloc: Global, copies: &[u32]) -> Result<Rows, Refusal> {
        self.fit(alloc, copies, LinkRule::Direct)?
            .chains(alloc, copies)
    }

    fn fit(&mut self, alloc: Global, copies: &[u32], rule: LinkRule) -> Result<Links, Refusal> {
        let mut links = Links::of(alloc, copies.len())?;
        for place in 0..copies.len() {
            let copy = at(copies, place);
            let (old, new) = match rule {
                LinkRule::Direct => (self.end_before(copy), copy),
                LinkRule::Run => (self.run(copy), self.run(copy)),
            };
            let last = at(self.lasts.as_slice(), old as usize);
            if last != 0 {
                links.join(last.saturating_sub(1), small(place));
            }
            self.put_last(old, 0);
            self.put_last(new, small(place).saturating_add(1));
        }
        for copy in copies {
            self.put_last(*copy, 0);
            self.put_last(self.run(*copy), 0);
        }
        Ok(links)
    }

    fn put_last(&mut self, step: u32, last: u32) {
        set(self.lasts.as_mut_slice(), step as usize, last);
    }

    fn end_before(&self, copy: u32) -> u32 {
        for dependency in self.deps(copy) {
            if at(self.lasts.as_slice(), *dependency as usize) != 0 {
                return *dependency;
            }
        }
        copy
    }

    fn deps(&self, step: u32) -> &'a [u32] {
        if step >= self.plan.len() {
            return &[];
        }
        self.plan.deps(step)
    }

    fn run(&self, step: u32) -> u32 {
        at(self.runs.as_slice(), step as usize)
    }

    fn links(
        &mut self,
        alloc: Global,
        copies: &[u32],
        enough: u32,
    ) -> Result<Option<Links>, Refusal> {
        let links = self.fit(alloc, copies, LinkRule::Run)?;
        if links.count() <= enough {
            return Ok(Some(links));
        }
        let words = copies.len().saturating_add(63) / 64;
        if !self.can_pass(copies, words) {
            return Ok(None);
        }
        let mut before = EarlierCopies {
            copies,
            words,
            sets: vec![in alloc; 0u64; copies.len().saturating_mul(words)]?,
        };
        let steps = self.awaited_steps(alloc, copies)?;
        for word in 0..words {
            self.pass(&mut before, steps.as_slice(), word);
        }
        self.linked(alloc, &before, links)
    }

    // Spends a pass's looks. Returns whether enough were left.
    fn can_pass(&mut self, copies: &[u32], words: usize) -> bool {
        let last = copies.last().copied().unwrap_or(0);
        let span = last
            .saturating_sub(at(copies, 0))
            .saturating_add(self.plan.dependencies());
        let looks = u64::from(span).saturating_mul(u64::from(small(words)));
        copies.len().saturating_mul(words) <= MOST_WORDS && self.looks.spend(looks)
    }

    // The copies and their dependencies from the first copy on, the last first.
    fn awaited_steps(&mut self, alloc: Global, copies: &[u32]) -> Result<Vec<u32>, Refusal> {
        let mut steps = Vec::new(alloc);
        let (first, last) = (at(copies, 0), copies.last().copied().unwrap_or(0));
        self.mark(copies, first);
        for word in (first as usize / 64..last as usize / 64 + 1).rev() {
            for turn in 0..64 {
                let Some(step) = self.take_last(word) else {
                    break;
                };
                steps.push(step)?;
                self.mark(self.deps(step), first);
            }
        }
        Ok(steps)
    }

    fn mark(&mut self, steps: &[u32], first: u32) {
        for step in steps {
            if *step >= first {
                let number = *step as usize / 64;
                let marks = word(self.marks.as_slice(), number) | 1 << (*step % 64);
                set_word(self.marks.as_mut_slice(), number, marks);
            }
        }
    }

    fn take_last(&mut self, number: usize) -> Option<u32> {
        let marks = word(self.marks.as_slice(), number);
        let bit = 63u32.checked_sub(marks.leading_zeros())?;
        set_word(self.marks.as_mut_slice(), number, marks & !(1 << bit));
        Some(small(number).saturating_mul(64).saturating_add(bit))
    }

    // Finds, in one pass, a word's copies before each copy.
    fn pass(&mut self, before: &mut EarlierCopies, steps: &[u32], number: usize) {
        let first = at(before.copies, 0);
        let (mut place, mut bit) = (0usize, 1u64);
        for step in steps.iter().rev() {
            let mut mask = self.earlier(*step, first);
            if before.copies.get(place) == Some(step) {
                let cell = place.saturating_mul(before.words).saturating_add(number);
                set_word(before.sets.as_mut_slice(), cell, mask);
                if place / 64 == number {
                    mask |= bit;
                    bit = bit.wrapping_add(bit);
                }
                place = place.saturating_add(1);
            }
            set_word(self.masks.as_mut_slice(), *step as usize, mask);
        }
    }

    fn earlier(&self, step: u32, first: u32) -> u64 {
        let mut mask = 0u64;
        for dependency in self.deps(step) {
            if *dependency >= first {
                mask |= word(self.masks.as_slice(), *dependency as usize);
            }
        }
        mask
    }

    fn linked(
        &mut self,
        alloc: Global,
        before: &EarlierCopies,
        links: Links,
    ) -> Result<Option<Links>, Refusal> {
        let mut matching = Matching::of(alloc, before, links)?;
        for copy in 0..before.copies.len() {
            if matching.links.before(small(copy)) == 0 {
                matching.link(before, copy)?;
                if !self.looks.spend(matching.spent) {
                    return Ok(None);
                }
            }
        }
        let Matching { links, .. } = matching;
        Ok(Some(links))
    }
}
