//! A field that names a node of a ring.

ghost use Rattle.std.specs.Prelude.{◌≡◌, true, Some};
ghost use Rattle.ring_names.specs.Names.{place};
ghost use Rattle.texts.specs.Judging.{Does};
ghost use Rattle.texts.specs.Name.{is_name};
ghost use Rattle.ring_table.specs.Value.{names_of};
ghost use Rattle.ring_table.specs.Reading.{declared_at};

use crate::ring::Ring;
use ring_names::{NodeId, Refusal};
use texts::{Fields, is_name};

#[inline(always)]
fn is_named(ring: &Ring, node: NodeId, name: &[u8]) -> bool
    ensures value { result ≡ true → place (names_of ring.now) name.now ≡ Some node.0 }
    ensures name { result ≡ true → is_name name.now ≡ true }
{
    let nodes = ring.nodes();
    let place = node.0 as usize;
    place < nodes.len() && nodes[place].name.as_slice() == name
}

/// Takes a node of the ring, or fails with `BadLine` or `UnknownNode`.
///
/// Tries `likely` before a look-up: successive lines often name the same node.
#[tactic(auto, unfolding(crate::specs::Reading::declared_at))]
#[inline(always)]
pub fn node_field(
    ring: &Ring,
    likely: Option<NodeId>,
    fields: &mut Fields,
) -> Result<NodeId, Refusal>
    ensures { Does (declared_at ring.now) fields.old result fields.new }
{
    let line = fields.line();
    let Some(name) = fields.next() else {
        return Err(Refusal::BadLine(line));
    };
    if let Some(node) = likely {
        if is_named(ring, node, name) {
            return Ok(node);
        }
    }
    if let Some(node) = ring.number_of(name) {
        return Ok(node);
    }
    if is_name(name) {
        return Err(Refusal::UnknownNode(line));
    }
    Err(Refusal::BadLine(line))
}
