//! Compares two rings.

ghost use Rattle.std.specs.Prelude.{◌≡◌, IsTrue, map};
ghost use Rattle.plan_goal.specs.Reached.{IsLike, declared};

use ring_table::{Allowance, Node, Ring};

fn is_allowance(one: Allowance, other: Allowance) -> bool
    ensures { IsTrue result → other ≡ one }
{
    match (one, other) {
        (Allowance::Joint(one), Allowance::Joint(other)) => one == other,
        (
            Allowance::Split { take, give },
            Allowance::Split {
                take: other_take,
                give: other_give,
            },
        ) => take == other_take && give == other_give,
        (Allowance::Joint(_), Allowance::Split { .. })
        | (Allowance::Split { .. }, Allowance::Joint(_)) => false,
    }
}

fn is_name(one: &[u8], other: &[u8]) -> bool
    ensures { IsTrue result → other.now ≡ one.now }
{
    match (one.split_first(), other.split_first()) {
        (Some((byte, more)), Some((other_byte, others))) => {
            *byte == *other_byte && is_name(more, others)
        }
        (None, None) => true,
        (Some(_), None) | (None, Some(_)) => false,
    }
}

pub(crate) fn is_node(one: &Node, other: &Node) -> bool
    ensures { IsTrue result → declared other.now ≡ declared one.now }
{
    is_name(one.name.as_slice(), other.name.as_slice())
        && is_allowance(one.allowance, other.allowance)
}

fn are_nodes(ours: &[Node], theirs: &[Node]) -> bool
    ensures { IsTrue result → map declared theirs.now ≡ map declared ours.now }
{
    match (ours.split_first(), theirs.split_first()) {
        (Some((one, more)), Some((other, others))) => {
            is_node(one, other) && are_nodes(more, others)
        }
        (None, None) => true,
        (Some(_), None) | (None, Some(_)) => false,
    }
}

/// Whether the rings have equally many partitions and slots, and equal quorums and losses.
pub(crate) fn has_space(ring: &Ring, other: &Ring) -> bool
    ensures q { IsTrue result → other.now.q ≡ ring.now.q }
    ensures n { IsTrue result → other.now.n ≡ ring.now.n }
    ensures r { IsTrue result → other.now.r ≡ ring.now.r }
    ensures w { IsTrue result → other.now.w ≡ ring.now.w }
    ensures loss { IsTrue result → other.now.loss ≡ ring.now.loss }
{
    other.q() == ring.q()
        && other.n() == ring.n()
        && other.r() == ring.r()
        && other.w() == ring.w()
        && other.loss() == ring.loss()
}

/// Whether the rings differ only in owners and members.
pub fn is_like(ring: &Ring, other: &Ring) -> bool
    ensures { IsTrue result → IsLike ring.now other.now }
{
    has_space(ring, other) && are_nodes(ring.nodes(), other.nodes())
}
