//! One key in the hints for a slot.

ghost use Rattle.std.specs.Prelude.{◌≡◌, ℕ, [], false, IsTrue, IfErr, OnOk};
ghost use Rattle.ring_names.specs.declared.refusal.Refusal.TheVariants.{OutOfMemory};
ghost use Rattle.ring_versions.specs.Versions.{IsApart};
ghost use Rattle.ring_hints.specs.Hints.{hinted_at};
ghost use Rattle.ring_hints.specs.Views.{in_keepers};
ghost use Rattle.store_parts.specs.Nodes.{is_up_at};
ghost use Rattle.store_clients.specs.Keepers.{IsFirstDown, JoinIsAtMost, JoinsTell, MergesOthers};

use ring_hints::{Hints, KeptFor};
use ring_names::{NodeId, Refusal};
use ring_store::SlotKey;
use ring_versions::Versions;
use std::collections::BTreeSet;
use store_parts::Nodes;

fn first_down(
    nodes: &Nodes,
    hints: &Hints,
    keepers: &BTreeSet<NodeId>,
    place: &SlotKey,
) -> Option<Refusal>
    requires others { (x : ℕ) → in_keepers x keepers.now.keys ≡ false
        → hinted_at hints.now x place.now.slot place.now.key ≡ [] }
    ensures { IsFirstDown (is_up_at nodes.now) (λ x. hinted_at hints.now x place.now.slot place.now.key) result }
{
    'keepers: for keeper in keepers {
        let pair = KeptFor {
            keeper: *keeper,
            slot: place.slot,
        };
        if hints.key_versions_in(pair, place.key).is_some() && !nodes.is_up(*keeper) {
            return Some(Refusal::NodeDown(keeper.0));
        }
    }
    None
}

/// Returns the refusal of the key's first down keeper for the slot. Walks only the key's keepers.
pub fn keeper_refusal(nodes: &Nodes, hints: &Hints, place: &SlotKey) -> Option<Refusal>
    ensures { IsFirstDown (is_up_at nodes.now) (λ x. hinted_at hints.now x place.now.slot place.now.key) result }
{
    match hints.key_keepers(place.slot, place.key) {
        Some(keepers) => first_down(nodes, hints, keepers, place),
        None => None,
    }
}

// Whether both sets keep a join, and the held join is at most that of all. For puts of one key, `all` then covers
// `held`.
fn is_told(all: &Versions, held: &Versions) -> bool
    ensures { IsTrue result → JoinIsAtMost held.now all.now }
{
    match (held.top(), all.top()) {
        (Some(held), Some(all)) => held.le(all),
        _ => false,
    }
}

/// Merges what these nodes keep of the key for the slot. A node with nothing new costs one comparison of clocks, if
/// both joins are kept.
pub fn merge_hints(
    all: &mut Versions,
    hints: &Hints,
    keepers: &BTreeSet<NodeId>,
    place: &SlotKey,
) -> Result<(), Refusal>
    requires apart { IsApart all.old }
    requires told { JoinsTell all.old (λ x. hinted_at hints.now x place.now.slot place.now.key) }
    ensures ok { OnOk result (MergesOthers all.old (λ x. in_keepers x keepers.now.keys)
        (λ x. hinted_at hints.now x place.now.slot place.now.key) all.new) }
    ensures memory { IfErr result (λ e. e ≡ OutOfMemory) }
{
    'keepers: for keeper in keepers {
        let pair = KeptFor {
            keeper: *keeper,
            slot: place.slot,
        };
        if let Some(held) = hints.key_versions_in(pair, place.key)
            && !is_told(all, held)
        {
            all.merge(held)?;
        }
    }
    Ok(())
}
