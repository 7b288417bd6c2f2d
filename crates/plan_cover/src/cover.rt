//! Lists each node's copies and chains.

ghost use Rattle.std.specs.Prelude.{◌≡◌, ◌<◌, ◌&&◌, true, nat_lt, map, IfErr, IfOk, OnOk};
ghost use Rattle.std.specs.List.{list_all};
ghost use Rattle.ring_table.specs.declared.allowance.NodeSide.{NodeSide as TheSide};
ghost use Rattle.ring_table.specs.declared.allowance.Side.TheVariants.{Take, Give};
ghost use Rattle.ring_names.specs.declared.refusal.Refusal.TheVariants.{OutOfMemory};
ghost use Rattle.plan_text.specs.Valid.{Suits, is_ring_slot, source_suits, step_suits};
ghost use Rattle.plan_stage.specs.Parties.{source_slots};
ghost use Rattle.plan_cover.specs.Looking.Numbers.{copies_kept, copies_of, with_last_if, IsCover};
ghost use Rattle.plan_cover.specs.Looking.Serving.{serving_at, is_the_mirror, owns_some, counts_at, is_party};

use crate::by_place::ByPlace;
use crate::chains::chains_of;
use crate::copies::add_copy;
use crate::present::Present;
use plan_cert::Cert;
use plan_text::{Plan, Source, Step};
use ring_names::{NodeId, Refusal, Slot};
use ring_table::{Ring, Side};
use std::alloc::Global;

/// Each side's copies, by place, and each node's chains, by its number.
#[derive(Drop)]
pub struct Cover {
    pub copies: ByPlace<u32>,
    pub chains: ByPlace<usize>,
}

impl Cover {
    /// Makes the lists in a pass over plan and chains.
    pub fn of(alloc: Global, ring: &Ring, plan: &Plan, cert: &Cert) -> Result<Cover, Refusal>
        requires { Suits ring.now plan.now }
        ensures ok { IfOk result (λ a. IsCover ring.now plan.now cert.now a) }
        ensures memory { IfErr result (λ e. e ≡ OutOfMemory) }
    {
        let copies = all_copies(alloc, ring, plan)?;
        let chains = chains_of(alloc, &cert.chains, ring.nodes().len())?;
        Ok(Cover { copies, chains })
    }
}

// A ring, and each slot's servers before a step.
#[derive(Clone, Copy)]
struct Served<'a> {
    ring: &'a Ring,
    present: &'a Present,
}

fn all_copies(alloc: Global, ring: &Ring, plan: &Plan) -> Result<ByPlace<u32>, Refusal>
    requires { Suits ring.now plan.now }
    ensures ok { IfOk result (λ a. (y : TheSide) → copies_kept a y ≡ copies_of ring.now plan.now y) }
    ensures memory { IfErr result (λ e. e ≡ OutOfMemory) }
{
    let mut copies = ByPlace::new(alloc);
    let mut present = Present::new(alloc, ring)?;
    for n in 0..plan.len() {
        let step = plan.step(n);
        let served = Served {
            ring,
            present: &present,
        };
        add_parties(&mut copies, &served, step, n)?;
        present.act(ring, step);
    }
    Ok(copies)
}

// Adds a copy to each node that takes part.
fn add_parties(
    copies: &mut ByPlace<u32>,
    served: &Served,
    step: &Step,
    number: u32,
) -> Result<(), Refusal>
    requires { step_suits served.now.ring.now step.now ≡ true }
    ensures ok { OnOk result ((y : TheSide) → copies_kept copies.new y ≡ with_last_if
        (is_party served.now.ring.now (serving_at served.now.ring.now served.now.present.now) step.now y)
        number (copies_kept copies.old y)) }
    ensures memory { IfErr result (λ e. e ≡ OutOfMemory) }
{
    match step {
        Step::Copy(slot, source) => {
            let mirror = served.present.at(served.ring, *slot).mirror;
            add_mirror(copies, served.ring, mirror, number)?;
            add_sources(copies, served, *slot, source, number)
        }
        Step::Join(_) | Step::Mirror(_, _) | Step::Switch(_) | Step::Drop(_, _) | Step::Retire(_) =>
            Ok(()),
    }
}

fn add_mirror(
    copies: &mut ByPlace<u32>,
    ring: &Ring,
    mirror: Option<NodeId>,
    number: u32,
) -> Result<(), Refusal>
    ensures ok { OnOk result ((y : TheSide) → copies_kept copies.new y
        ≡ with_last_if (counts_at ring.now Take y && is_the_mirror mirror y.node) number (copies_kept copies.old y)) }
    ensures memory { IfErr result (λ e. e ≡ OutOfMemory) }
{
    match mirror {
        Some(node) => add_copy(copies, ring, node, Side::Take, number),
        None => Ok(()),
    }
}

fn add_sources(
    copies: &mut ByPlace<u32>,
    served: &Served,
    slot: Slot,
    source: &Source,
    number: u32,
) -> Result<(), Refusal>
    requires slot { is_ring_slot served.now.ring.now slot ≡ true }
    requires source { source_suits served.now.ring.now source.now ≡ true }
    ensures ok { OnOk result ((y : TheSide) → copies_kept copies.new y ≡ with_last_if
        (counts_at served.now.ring.now Give y && owns_some (serving_at served.now.ring.now served.now.present.now)
        (source_slots slot source.now) y.node) number (copies_kept copies.old y)) }
    ensures memory { IfErr result (λ e. e ≡ OutOfMemory) }
{
    match source {
        Source::Owner => {
            let owner = served.present.at(served.ring, slot).owner;
            add_copy(copies, served.ring, owner, Side::Give, number)
        }
        Source::Slots(from) => {
            add_owners(copies, served, slot.partition, from.as_slice(), number)
        }
    }
}

fn add_owners(
    copies: &mut ByPlace<u32>,
    served: &Served,
    partition: u32,
    from: &[u8],
    number: u32,
) -> Result<(), Refusal>
    requires partition { partition < served.now.ring.now.q }
    requires from { list_all (λ i. nat_lt i served.now.ring.now.n) from.now ≡ true }
    ensures ok { OnOk result ((y : TheSide) → copies_kept copies.new y ≡ with_last_if
        (counts_at served.now.ring.now Give y && owns_some (serving_at served.now.ring.now served.now.present.now)
        (map (λ i. record { partition = partition; index = i }) from.now) y.node) number (copies_kept copies.old y)) }
    ensures memory { IfErr result (λ e. e ≡ OutOfMemory) }
{
    let mut rest = from;
    'slots: while let Some((first, later)) = rest.split_first() {
        let slot = Slot {
            partition,
            index: u32::from(*first),
        };
        let owner = served.present.at(served.ring, slot).owner;
        add_copy(copies, served.ring, owner, Side::Give, number)?;
        rest = later;
    }
    Ok(())
}
