//! Whether a node's chains cover its copies.

ghost use Rattle.std.specs.Prelude.{◌≡◌, ◌∷◌, [], ◌&&◌, ◌||◌, ℕ};
ghost use Rattle.ring_names.specs.Lists.{has};
ghost use Rattle.plan_stage.specs.Clauses.{Gives};
ghost use Rattle.plan_cover.specs.Clauses.{in_some};
ghost use Rattle.plan_cover.specs.Looking.Guards.{chains_at, side_guards};
ghost use Rattle.plan_cover.specs.Looking.Numbers.{AreWithin};
ghost use Rattle.plan_cover.specs.Looking.Places.{is_marked, place_count, is_within};
ghost use Rattle.ring_table.specs.Value.{is_side};

use crate::by_place::{ByPlace, place_at};
use crate::linked::side_at;
use crate::marks::Marks;
use plan_cert::Chains;
use ring_names::Refusal;
use ring_table::{NodeSide, Side};

/// Tests a node's copies on a side: each must be in one of the numbered chains there.
///
/// Costs a pass over the chains' steps and the copies. Marks steps by number instead of hashing them: a certificate's
/// author could choose steps that collide.
pub fn check_copies(
    marks: &mut Marks,
    copies: &ByPlace<u32>,
    chains: &Chains,
    numbers: &[usize],
    of: NodeSide,
) -> Result<(), Refusal>
    requires { AreWithin marks.old copies.now of.node }
    ensures first { Gives result (side_guards copies.now chains.now numbers.now of.node of.side) }
    ensures places { place_count marks.new ≡ place_count marks.old }
{
    let NodeSide { node, side } = of;
    let mut rest = copies.items(place_at(node.0, side));
    if rest.is_empty() {
        return Ok(());
    }
    marks.begin();
    mark_chains(marks, chains, side, numbers);
    'copies: while let Some((first, later)) = rest.split_first() {
        if !marks.has(side, *first) {
            return Err(Refusal::CoverMissing(node.0, *first));
        }
        rest = later;
    }
    Ok(())
}

// Whether both sides are equal.
pub fn is_side(first: Side, second: Side) -> bool
    ensures { result ≡ is_side first second }
{
    first == second
}

// The chain's steps, or none if it is on another side.
fn steps_on(chains: &Chains, side: Side, number: usize) -> &[u32]
    ensures { (n : ℕ) → has n result.now ≡ in_some n (chains_at chains.now side (number ∷ [])) }
{
    if number < chains.len() && is_side(side, side_at(chains, number)) {
        chains.steps(number)
    } else {
        &[]
    }
}

fn mark_chains(marks: &mut Marks, chains: &Chains, side: Side, numbers: &[usize])
    ensures marked { (n : ℕ) → is_marked marks.new side n ≡ ((in_some n (chains_at chains.now side numbers.now)
        && is_within marks.old side n) || is_marked marks.old side n) }
    ensures places { place_count marks.new ≡ place_count marks.old }
{
    let mut rest = numbers;
    'chains: while let Some((first, later)) = rest.split_first() {
        marks.mark_all(side, steps_on(chains, side, *first));
        rest = later;
    }
}
