//! Marks of steps.

ghost use Rattle.std.specs.Prelude.{◌≡◌, ℕ, ◌<◌, ◌≤◌, slice_index};

use crate::by_place::place_at;
use ring_names::Refusal;
use ring_table::Side;
use std::alloc::Global;

/// Marks of the numbers below a count, on each side.
///
/// A mark is the round that set it, so that only one `begin` in 65,535 clears the table.
#[derive(Drop)]
pub struct Marks {
    // by place
    rounds: Vec<u16>,
    round: u16,
    ghost some: { 0 < round },
    ghost past: { (p : ℕ) → slice_index rounds.items p ≤ round },
}

impl Marks {
    ghost use Rattle.std.specs.Prelude.{false, ◌||◌, ◌&&◌, ◌==◌, IfOk, IfErr};
    ghost use Rattle.ring_names.specs.declared.refusal.Refusal.TheVariants.{OutOfMemory};
    ghost use Rattle.ring_names.specs.Lists.{has};
    ghost use Rattle.ring_table.specs.Value.{is_side};
    ghost use Rattle.ring_table.specs.declared.allowance.Side.{Side as TheSide};
    ghost use Rattle.plan_cover.specs.Looking.Places.{is_marked, place_count, is_within, HasPlaces};

    /// Makes room for numbers below the count.
    pub fn new(alloc: Global, count: u32) -> Result<Marks, Refusal>
        ensures places { IfOk result (λ a. HasPlaces count a) }
        ensures memory { IfErr result (λ e. e ≡ OutOfMemory) }
    {
        let rounds = vec![in alloc; 0u16; 3 * count as usize]?;
        Ok(Marks { rounds, round: 1 })
    }

    /// Removes all marks.
    pub fn begin(&mut self)
        ensures none { (s : TheSide) (n : ℕ) → is_marked self.new s n ≡ false }
        ensures places { place_count self.new ≡ place_count self.old }
    {
        if self.round == u16::MAX {
            self.rounds.fill(0);
            self.round = 0;
        }
        self.round += 1;
    }

    // Marks the number on the side, if below the count.
    fn mark(&mut self, side: Side, number: u32)
        ensures marked { (s : TheSide) (n : ℕ) → is_marked self.new s n
            ≡ ((is_side s side && n == number && is_within self.old side n) || is_marked self.old s n) }
        ensures places { place_count self.new ≡ place_count self.old }
    {
        let place = place_at(number, side);
        if place < self.rounds.len() {
            self.rounds[place] = self.round;
        }
    }

    /// Marks the numbers on the side that are below the count.
    pub fn mark_all(&mut self, side: Side, numbers: &[u32])
        ensures marked { (s : TheSide) (n : ℕ) → is_marked self.new s n
            ≡ ((is_side s side && has n numbers.now && is_within self.old side n) || is_marked self.old s n) }
        ensures places { place_count self.new ≡ place_count self.old }
    {
        let mut rest = numbers;
        'numbers: while let Some((first, later)) = rest.split_first() {
            self.mark(side, *first);
            rest = later;
        }
    }

    /// Whether the number is marked on the side.
    pub fn has(&self, side: Side, number: u32) -> bool
        ensures { result ≡ is_marked self.now side number }
    {
        match self.rounds.get(place_at(number, side)) {
            Some(round) => *round == self.round,
            None => false,
        }
    }
}
