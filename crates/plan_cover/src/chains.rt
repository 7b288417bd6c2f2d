//! The chains of each node.

ghost use Rattle.std.specs.Prelude.{◌≡◌, ◌<◌, IfErr, IfOk};
ghost use Rattle.ring_names.specs.declared.ids.NodeId.{NodeId as TheNode};
ghost use Rattle.ring_names.specs.declared.refusal.Refusal.TheVariants.{OutOfMemory};
ghost use Rattle.plan_cover.specs.Looking.Numbers.{kept_of, chain_numbers};

use crate::by_place::ByPlace;
use plan_cert::Chains;
use ring_names::Refusal;
use std::alloc::Global;

/// Lists each node's chains, by place in the certificate. Leaves out nodes from `nodes` on. Costs a pass over the
/// chains.
pub fn chains_of(alloc: Global, chains: &Chains, nodes: usize) -> Result<ByPlace<usize>, Refusal>
    ensures ok { IfOk result (λ a. (x : TheNode) → x.0 < nodes → kept_of a x ≡ chain_numbers chains.now x) }
    ensures memory { IfErr result (λ e. e ≡ OutOfMemory) }
{
    let mut index = ByPlace::new(alloc);
    for k in 0..chains.len() {
        // A certificate may name any node.
        let place = chains.of(k).node.0 as usize;
        if place < nodes {
            index.add(place, k)?;
        }
    }
    Ok(index)
}
