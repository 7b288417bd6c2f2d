//! The checker's parts on two successive moves.

ghost use Rattle.plan_text.specs.Valid.{Suits};

use crate::rings::{RING, approved, cert_from, plan_from, ring_from, two_moves};
use crate::same::{holds, same};
use plan_cert::Cert;
use plan_cover::{check_node, check_nodes};
use plan_order::{Facts, verify_fact};
use plan_stage::{Stage, check_partition, parties, sources, stage_at};
use plan_text::Plan;
use ring_names::{NodeId, Refusal, Slot};
use ring_table::Ring;
use std::alloc::Global;
use std::process::Abort;
use std::test::Fail;

// Moves slot 1 of a partition from b to d, then slot 2 from c to b, which reads slots 1 and 0.
const READS_LISTED: &[u8] =
    b"plan 1\njoin d\nmirror 0 1 d after 0\ncopy 0 1 owner after 1\nswitch 0 1 after 2\nmirror 0 2 b after 3\ncopy 0 2 slots 1 0 after 4\nend\n";

const CERT: &[u8] = b"cert 1\nfact 2 3 4 5\nchain b 2 5\nchain d 2 5\nend\n";

// ---- facts

fn paths_verified<RT: Abort>(rt: &RT, plan: &Plan) {
    holds!(rt; verify_fact(plan, &[2, 3, 4, 5]));
    holds!(rt; !verify_fact(plan, &[2, 4, 5]));
    holds!(rt; !verify_fact(plan, &[2, 3, 4, 99]));
    holds!(rt; !verify_fact(plan, &[2]));
    holds!(rt; !verify_fact(plan, &[]));
}

fn facts_ordered<RT: AllocGlobal + Abort>(rt: &RT, plan: &Plan, cert: &Cert) -> Result<(), Fail> {
    let facts = Facts::verify(rt.alloc(), plan, &cert.facts)?;
    holds!(rt; facts.ordered(plan, 2, 5));
    holds!(rt; facts.ordered(plan, 2, 3));
    holds!(rt; !facts.ordered(plan, 2, 4));
    Ok(())
}

fn cert_ordered<RT: AllocGlobal + Abort>(rt: &RT, ring: &Ring, plan: &Plan) -> Result<(), Fail> {
    let cert = cert_from(rt.alloc(), ring, CERT)?;
    facts_ordered(rt, plan, &cert)
}

fn facts_of<RT: AllocGlobal + Abort>(rt: &RT, ring: &Ring) -> Result<(), Fail> {
    let plan = two_moves(rt.alloc(), ring)?;
    paths_verified(rt, &plan);
    cert_ordered(rt, ring, &plan)
}

#[test]
fn facts_by_paths(rt: HostRuntime) -> Result<(), Fail> {
    let ring = ring_from(rt.alloc(), RING)?;
    facts_of(&rt, &ring)
}

// ---- partitions

fn partition_by(alloc: Global, ring: &Ring, plan: &Plan, cert: &Cert) -> Result<(), Refusal>
    requires { Suits ring.now plan.now }
{
    if ring.q() == 0 {
        return Err(Refusal::BadLine(0));
    }
    let facts = Facts::verify(alloc, plan, &cert.facts)?;
    check_partition(alloc, ring, plan, &facts, 0)
}

fn partition(alloc: Global, ring: &Ring, plan: &Plan, cert: &[u8]) -> Result<(), Refusal>
    requires { Suits ring.now plan.now }
{
    let cert = cert_from(alloc, ring, cert)?;
    partition_by(alloc, ring, plan, &cert)
}

// The copy from slot 1 needs the path from its switch.
fn listed_copy<RT: AllocGlobal + Abort>(rt: &RT, ring: &Ring, plan: &Plan)
    requires { Suits ring.now plan.now }
{
    let with = partition(rt.alloc(), ring, plan, b"cert 1\nfact 3 4 5\nend\n");
    same!(rt; with, Ok(()));
    let without = partition(rt.alloc(), ring, plan, b"cert 1\nend\n");
    same!(rt; without, Err(Refusal::MovingSource(5)));
}

fn parties_are<RT: AllocGlobal + Abort>(
    rt: &RT,
    ring: &Ring,
    plan: &Plan,
    step: u32,
    nodes: &[NodeId],
) -> Result<(), Fail>
    requires { Suits ring.now plan.now }
{
    let found = parties(rt.alloc(), ring, plan, step)?;
    same!(rt; found.as_slice(), nodes);
    Ok(())
}

fn sources_are<RT: AllocGlobal + Abort>(
    rt: &RT,
    ring: &Ring,
    plan: &Plan,
    step: u32,
    nodes: &[NodeId],
) -> Result<(), Fail>
    requires { Suits ring.now plan.now }
{
    let found = sources(rt.alloc(), ring, plan, step)?;
    same!(rt; found.as_slice(), nodes);
    Ok(())
}

fn parties_of<RT: AllocGlobal + Abort>(rt: &RT, ring: &Ring, plan: &Plan) -> Result<(), Fail>
    requires { Suits ring.now plan.now }
{
    parties_are(rt, ring, plan, 2, &[NodeId(1), NodeId(3)])?;
    parties_are(rt, ring, plan, 5, &[NodeId(0), NodeId(1), NodeId(3)])?;
    sources_are(rt, ring, plan, 5, &[NodeId(0), NodeId(3)])?;
    parties_are(rt, ring, plan, 3, &[])
}

// The slot went from b, which still has its data, to d.
fn is_moved<RT: Abort>(rt: &RT, stage: &Stage) {
    same!(rt; stage.owner, NodeId(3));
    same!(rt; stage.mirror, None);
    holds!(rt; !stage.copied);
    same!(rt; stage.leftovers.as_slice(), [NodeId(1)].as_slice());
}

fn stage_of<RT: AllocGlobal + Abort>(rt: &RT, ring: &Ring, plan: &Plan) -> Result<(), Fail> {
    assert!(rt; ring.q() == 4);
    assert!(rt; ring.n() == 3);
    let slot = Slot {
        partition: 0,
        index: 1,
    };
    let stage = stage_at(rt.alloc(), ring, plan, slot, 3)?;
    is_moved(rt, &stage);
    Ok(())
}

fn parts_of<RT: AllocGlobal + Abort>(rt: &RT, ring: &Ring, plan: &Plan) -> Result<(), Fail>
    requires { Suits ring.now plan.now }
{
    listed_copy(rt, ring, plan);
    parties_of(rt, ring, plan)?;
    stage_of(rt, ring, plan)
}

fn partition_of<RT: AllocGlobal + Abort>(rt: &RT, ring: &Ring) -> Result<(), Fail> {
    let plan = plan_from(rt.alloc(), ring, READS_LISTED)?;
    parts_of(rt, ring, &plan)
}

#[test]
fn partitions_and_their_parts(rt: HostRuntime) -> Result<(), Fail> {
    let ring = ring_from(rt.alloc(), RING)?;
    partition_of(&rt, &ring)
}

// ---- nodes

fn nodes_by(alloc: Global, ring: &Ring, plan: &Plan, cert: &Cert) -> Result<(), Refusal>
    requires { Suits ring.now plan.now }
{
    if ring.nodes().len() <= 1 {
        return Err(Refusal::BadLine(0));
    }
    let facts = Facts::verify(alloc, plan, &cert.facts)?;
    check_node(alloc, ring, plan, &facts, cert, NodeId(1))?;
    check_nodes(alloc, ring, plan, &facts, cert)
}

fn nodes(alloc: Global, ring: &Ring, plan: &Plan, cert: &[u8]) -> Result<(), Refusal>
    requires { Suits ring.now plan.now }
{
    let cert = cert_from(alloc, ring, cert)?;
    nodes_by(alloc, ring, plan, &cert)
}

// No chain covers d's copies.
const SHORT: &[u8] = b"cert 1\nfact 2 3 4 5\nchain b 2 5\nend\n";

fn chains_needed<RT: AllocGlobal + Abort>(rt: &RT, ring: &Ring, plan: &Plan)
    requires { Suits ring.now plan.now }
{
    same!(rt; nodes(rt.alloc(), ring, plan, CERT), Ok(()));
    same!(rt; nodes(rt.alloc(), ring, plan, SHORT), Err(Refusal::CoverMissing(3, 2)));
}

fn nodes_of<RT: AllocGlobal + Abort>(rt: &RT, ring: &Ring) -> Result<(), Fail> {
    let plan = two_moves(rt.alloc(), ring)?;
    chains_needed(rt, ring, &plan);
    Ok(())
}

#[test]
fn nodes_covered(rt: HostRuntime) -> Result<(), Fail> {
    let ring = ring_from(rt.alloc(), RING)?;
    nodes_of(&rt, &ring)
}

// ---- the whole check

fn moves_by(alloc: Global, ring: Ring, cert: &Cert) -> Result<u32, Refusal> {
    let plan = two_moves(alloc, &ring)?;
    approved(alloc, ring, plan, cert)
}

fn moves(alloc: Global, ring: Ring, cert: &[u8]) -> Result<u32, Refusal> {
    let cert = cert_from(alloc, &ring, cert)?;
    moves_by(alloc, ring, &cert)
}

fn whole(alloc: Global, cert: &[u8]) -> Result<u32, Refusal> {
    let ring = ring_from(alloc, RING)?;
    moves(alloc, ring, cert)
}

#[test]
fn plans_checked(rt: HostRuntime) {
    same!(rt; whole(rt.alloc(), CERT), Ok(7));
    same!(rt; whole(rt.alloc(), b"cert 1\nfact 2 5\nend\n"), Err(Refusal::BadPath(0)));
}
