//! Whether steps name only the ring's nodes and slots.

ghost use Rattle.std.specs.Prelude.{◌≡◌, ◌&&◌, not, length, nat_lt};
ghost use Rattle.std.specs.List.{list_all};
ghost use Rattle.plan_text.specs.Valid.{step_suits, source_suits, is_ring_slot, is_declared};

use crate::step::{Source, Step};
use ring_names::{NodeId, Slot};
use ring_table::Ring;

/// Whether each step suits the ring.
pub fn all_suit(ring: &Ring, steps: &[Step]) -> bool
    ensures { result ≡ list_all (step_suits ring.now) steps.now }
{
    steps.iter().all(|x| step_suits(ring, x))
}

/// Whether the step's nodes and slots are the ring's, and it joins no member.
pub fn step_suits(ring: &Ring, step: &Step) -> bool
    ensures { result ≡ step_suits ring.now step.now }
{
    match step {
        Step::Join(node) => is_declared(ring, *node) && !ring.is_member(*node),
        Step::Mirror(slot, node) | Step::Drop(slot, node) => {
            is_ring_slot(ring, *slot) && is_declared(ring, *node)
        }
        Step::Copy(slot, source) => is_ring_slot(ring, *slot) && source_suits(ring, source),
        Step::Switch(slot) => is_ring_slot(ring, *slot),
        Step::Retire(node) => is_declared(ring, *node),
    }
}

fn source_suits(ring: &Ring, source: &Source) -> bool
    ensures { result ≡ source_suits ring.now source.now }
{
    match source {
        Source::Owner => true,
        Source::Slots(from) => { are_below(from.as_slice(), ring.n()) }
    }
}

fn are_below(numbers: &[u8], limit: u32) -> bool
    ensures { result ≡ list_all (λ i. nat_lt i limit) numbers.now }
{
    numbers.iter().all(|i| u32::from(*i) < limit)
}

fn is_ring_slot(ring: &Ring, slot: Slot) -> bool
    ensures { result ≡ is_ring_slot ring.now slot }
{
    slot.partition < ring.q() && slot.index < ring.n()
}

fn is_declared(ring: &Ring, node: NodeId) -> bool
    ensures { result ≡ is_declared ring.now node }
{
    (node.0 as usize) < ring.nodes().len()
}
