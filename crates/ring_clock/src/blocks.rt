//! A clock's blocks.

ghost use Rattle.std.specs.Prelude.{◌≡◌, ◌↔◌, ◌+◌, ◌<◌, ◌∷◌, [], ℕ, true, false, IsTrue, IfOk, IfNone, IfSome, OnOk, OnErr, length, get_or, max};
ghost use Rattle.ring_clock.specs.Clock.{IsAtMost, counter};
ghost use Rattle.ring_clock.specs.Groups.{HasGroup, IsAtMostBut, IsBlock, IsBlockFor, group, group_in};
ghost use Rattle.ring_clock.specs.Blocks.{AreBlocks, entries_of, listed};
ghost use Rattle.ring_clock.specs.Merge.{BlocksStandFor};

use crate::block::{Block, group_of};
use crate::entry::Entry;
use ring_names::WriterId;
use std::alloc::{AllocError, Global};
use std::slice;
use std::sync::Arc;

/// Blocks by group. One block is inline; several are in a shared list.
#[derive(Drop)]
pub enum Blocks {
    Empty,
    One(Block),
    Many(Arc<Vec<Block>>),
}

impl Blocks {
    pub fn as_slice(&self) -> &[Block]
        ensures { result.now ≡ listed self.now }
    {
        match self {
            Blocks::Empty => &[],
            Blocks::One(block) => slice::from_ref(block),
            Blocks::Many(shared) => shared.as_slice(),
        }
    }

    /// Copies the blocks without memory.
    pub fn try_copy(&self) -> Result<Blocks, AllocError>
        ensures { IfOk result (λ a. listed a ≡ listed self.now) }
    {
        Ok(match self {
            Blocks::Empty => Blocks::Empty,
            Blocks::One(block) => Blocks::One(block.try_copy()?),
            Blocks::Many(shared) => Blocks::Many(Arc::try_clone(shared)?),
        })
    }
}

#[inline(always)]
fn place_of(blocks: &[Block], group: u32) -> Option<usize>
    requires { AreBlocks blocks.now }
    ensures within { IfSome result (λ place. place < length blocks.now) }
    ensures of { IfSome result (λ place. group_in (get_or blocks.now place []) ≡ group) }
    ensures none { IfNone result (¬ (HasGroup group (entries_of blocks.now))) }
{
    let count = blocks.len();
    if count == 0 {
        return None;
    }
    let last = count - 1;
    let guess = last.min(group as usize);
    let found = blocks[guess].group();
    if found == group {
        return Some(guess);
    }
    if guess == last && found < group {
        return None;
    }
    match blocks.binary_search_by_key(&group, |block| block.group()) {
        Ok(place) => Some(place),
        Err(_) => None,
    }
}

/// Returns the block of a group.
///
/// Costs a binary search, or one look if all lesser groups have blocks or no block's group is greater.
pub fn block_of(blocks: &[Block], group: u32) -> Option<&Block>
    requires { AreBlocks blocks.now }
    ensures some { IfSome result (λ b. IsBlockFor group (entries_of blocks.now) b.now) }
    ensures none { IfNone result (¬ (HasGroup group (entries_of blocks.now))) }
{
    let place = place_of(blocks, group)?;
    Some(&blocks[place])
}

/// Returns the writer's counter, or 0. Costs `block_of` and a binary search of the block.
pub fn counter_in(blocks: &[Block], writer: WriterId) -> u64
    requires { AreBlocks blocks.now }
    ensures { result ≡ counter (entries_of blocks.now) writer.0 }
{
    match blocks {
        [] => 0,
        [block] => block.counter(writer),
        _ => match block_of(blocks, group_of(writer)) {
            Some(block) => block.counter(writer),
            None => 0,
        },
    }
}

#[inline(always)]
fn is_reached(block: &Block, blocks: &[Block]) -> bool
    requires one { IsBlock block.now }
    requires valid { AreBlocks blocks.now }
    ensures { IsTrue result ↔ IsAtMost block.now (entries_of blocks.now) }
{
    match block_of(blocks, block.group()) {
        Some(other) => block.passes(other),
        None => false,
    }
}

// Whether each counter of `first` is at most the second's, except in group `but`. Reads only common groups.
fn are_reached(but: Option<u32>, first: &[Block], second: &[Block]) -> bool
    requires first { AreBlocks first.now }
    requires second { AreBlocks second.now }
    ensures { IsTrue result ↔ IsAtMostBut but (entries_of first.now) (entries_of second.now) }
{
    let mut rest = first;
    'groups: while let Some((block, later)) = rest.split_first() {
        if but != Some(block.group()) && !is_reached(block, second) {
            return false;
        }
        rest = later;
    }
    true
}

/// Whether each counter of `first` is at most the second's.
///
/// Reads the entries of common groups. Finds a block of `first` in `second` at one look, or by a binary search if
/// `second` lacks lesser groups.
pub fn are_at_most(first: &[Block], second: &[Block]) -> bool
    requires first { AreBlocks first.now }
    requires second { AreBlocks second.now }
    ensures { IsTrue result ↔ IsAtMost (entries_of first.now) (entries_of second.now) }
{
    match (first, second) {
        ([block], [other]) => block.passes(other),
        _ => are_reached(None, first, second),
    }
}

// Takes the least group's block. If both lists have one, joins the two.
fn take_joined<'a>(
    alloc: Global,
    first: &mut &'a [Block],
    second: &mut &'a [Block],
) -> Result<Option<Block>, AllocError>
    requires first { AreBlocks first.old.now }
    requires second { AreBlocks second.old.now }
    ensures none { IfOk result (λ o. IfNone o ((first.old.now ≡ []) × (second.old.now ≡ []))) }
    ensures some { IfOk result (λ o. IfSome o
        (λ b. BlocksStandFor first.old.now second.old.now (b ∷ first.new.now) (b ∷ second.new.now))) }
    ensures shorter { IfOk result (λ o. IfSome o
        (λ b. length first.new.now + length second.new.now < length first.old.now + length second.old.now)) }
{
    match (first.split_first(), second.split_first()) {
        (None, None) => Ok(None),
        (Some((block, later)), None) => {
            *first = later;
            Ok(Some(block.try_copy()?))
        }
        (None, Some((block, later))) => {
            *second = later;
            Ok(Some(block.try_copy()?))
        }
        (Some((block, later)), Some((other, later_others))) => {
            let group = block.group();
            let facing = other.group();
            if group < facing {
                *first = later;
                return Ok(Some(block.try_copy()?));
            }
            *second = later_others;
            if facing < group {
                return Ok(Some(other.try_copy()?));
            }
            *first = later;
            Ok(Some(block.join(alloc, other)?))
        }
    }
}

fn push_joined(
    alloc: Global,
    out: &mut Vec<Block>,
    first: &[Block],
    second: &[Block],
) -> Result<(), AllocError>
    requires empty { out.old.items ≡ [] }
    requires first { AreBlocks first.now }
    requires second { AreBlocks second.now }
    ensures blocks { OnOk result (AreBlocks out.new.items) }
    ensures counters { OnOk result ((w : ℕ) → counter (entries_of out.new.items) w
        ≡ max (counter (entries_of first.now) w) (counter (entries_of second.now) w)) }
{
    let mut rest = first;
    let mut others = second;
    'groups: while let Some(block) = take_joined(alloc, &mut rest, &mut others)? {
        out.push(block)?;
    }
    Ok(())
}

/// Joins two lists: each writer's greater counter. Reads the blocks, and the entries of common groups.
///
/// Takes memory for a list of several blocks, and for each joined block that equals neither.
pub fn joined(alloc: Global, first: &[Block], second: &[Block]) -> Result<Blocks, AllocError>
    requires first { AreBlocks first.now }
    requires second { AreBlocks second.now }
    ensures blocks { IfOk result (λ a. AreBlocks (listed a)) }
    ensures counters { IfOk result (λ a. (w : ℕ) → counter (entries_of (listed a)) w
        ≡ max (counter (entries_of first.now) w) (counter (entries_of second.now) w)) }
{
    match (first, second) {
        ([], []) => Ok(Blocks::Empty),
        ([block], []) | ([], [block]) => Ok(Blocks::One(block.try_copy()?)),
        ([block], [other]) if block.group() == other.group() => {
            Ok(Blocks::One(block.join(alloc, other)?))
        }
        _ => {
            let mut out = Vec::with_capacity(alloc, first.len().max(second.len()))?;
            push_joined(alloc, &mut out, first, second)?;
            Ok(Blocks::Many(Arc::new(alloc, out)?))
        }
    }
}

/// Returns the blocks with the writer's counter raised to the entry's. Remakes the writer's block, and a list of
/// several.
pub fn raised(alloc: Global, blocks: &[Block], entry: Entry) -> Result<Blocks, AllocError>
    requires valid { AreBlocks blocks.now }
    requires some { 0 < entry.counter }
    ensures blocks { IfOk result (λ a. AreBlocks (listed a)) }
    ensures counters { IfOk result (λ a. (w : ℕ) → counter (entries_of (listed a)) w
        ≡ max (counter (entries_of blocks.now) w) (counter (entry ∷ []) w)) }
{
    match blocks {
        [block] if block.group() == group_of(entry.writer) => {
            Ok(Blocks::One(block.merge(alloc, &[entry])?))
        }
        _ => {
            let own = Block::one(alloc, entry)?;
            joined(alloc, blocks, slice::from_ref(&own))
        }
    }
}

/// Raises one group's block in place, if both have it and `others` is greater only there. Otherwise returns false.
///
/// Reads both lists' blocks. Takes memory only for that block, if shared or not full.
pub fn raise_one(
    alloc: Global,
    blocks: &mut Vec<Block>,
    others: &[Block],
    group: u32,
) -> Result<bool, AllocError>
    requires first { AreBlocks blocks.old.items }
    requires second { AreBlocks others.now }
    ensures valid { AreBlocks blocks.new.items }
    ensures raised { IfOk result (λ done. done ≡ true → (w : ℕ) → counter (entries_of blocks.new.items) w
        ≡ max (counter (entries_of blocks.old.items) w) (counter (entries_of others.now) w)) }
    ensures same { IfOk result (λ done. done ≡ false → blocks.new.items ≡ blocks.old.items) }
    ensures err { OnErr result (blocks.new.items ≡ blocks.old.items) }
{
    let Some(other) = block_of(others, group) else {
        return Ok(false);
    };
    let Some(place) = place_of(blocks.as_slice(), group) else {
        return Ok(false);
    };
    if !are_reached(Some(group), others, blocks.as_slice()) {
        return Ok(false);
    }
    blocks[place].raise(alloc, other)?;
    Ok(true)
}

/// Lists the entries. Time and memory grow with their number.
pub fn list(alloc: Global, blocks: &[Block]) -> Result<Vec<Entry>, AllocError>
    ensures { IfOk result (λ v. v.items ≡ entries_of blocks.now) }
{
    let mut out = Vec::new(alloc);
    for block in blocks {
        block.push_to(&mut out)?;
    }
    Ok(out)
}
