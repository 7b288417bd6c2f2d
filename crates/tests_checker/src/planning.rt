//! Changes, and their plans.

ghost use Rattle.plan_text.specs.Valid.{Suits};
ghost use Rattle.change_text.specs.Valid.{IsChange};

use crate::figures::{
    depth, fewest_moves, moves, nodes_from, owned, plan_of, reads_owners, rounds,
};
use crate::ring_texts::{push_nodes, push_numbered, push_owners};
use crate::rings::{RING, approved, cert_from, plan_from, ring_from};
use crate::same::{holds, same};
use change_text::{Change, read_change, read_wanted, write_change};
use find_plan::make;
use plan_cert::Cert;
use plan_goal::propose;
use plan_text::Plan;
use ring_names::{NodeId, Refusal};
use ring_table::Ring;
use std::alloc::{AllocError, Global};
use std::process::Abort;
use std::str;
use std::test::Fail;

const CHANGE: &[u8] = b"change 1\njoin d\nleave b\nend\n";

const JOINS_D: &[u8] =
    b"plan 1\njoin d\nmirror 0 1 d after 0\ncopy 0 1 owner after 1\nswitch 0 1 after 2\ndrop 0 1 b after 3\nend\n";

const A: NodeId = NodeId(0);

const B: NodeId = NodeId(1);

const D: NodeId = NodeId(3);

// ---- texts of changes

fn exchanges<RT: Abort>(rt: &RT, change: &Change) {
    same!(rt; change.joins.as_slice(), [D].as_slice());
    same!(rt; change.leaves.as_slice(), [B].as_slice());
}

fn is_written<RT: AllocGlobal + Abort>(rt: &RT, ring: &Ring, change: &Change) -> Result<(), Fail>
    requires { IsChange ring.now change.now }
{
    let text = write_change(rt.alloc(), ring, change)?;
    same!(rt; text.as_slice(), CHANGE);
    Ok(())
}

fn change_written<RT: AllocGlobal + Abort>(rt: &RT, ring: &Ring) -> Result<(), Fail> {
    let change = read_change(rt.alloc(), ring, CHANGE)?;
    exchanges(rt, &change);
    is_written(rt, ring, &change)
}

#[test]
fn changes_written(rt: HostRuntime) -> Result<(), Fail> {
    let ring = ring_from(rt.alloc(), RING)?;
    change_written(&rt, &ring)
}

fn behind_ring(alloc: Global, text: &[u8]) -> Result<Vec<u8>, AllocError> {
    let mut both = Vec::from_slice(alloc, RING)?;
    both.extend_from_slice(text)?;
    Ok(both)
}

fn wanted_read<RT: AllocGlobal + Abort>(rt: &RT, text: &[u8]) -> Result<(), Fail> {
    let wanted = read_wanted(rt.alloc(), text)?;
    exchanges(rt, &wanted.change);
    Ok(())
}

#[test]
fn wanted_changes_read(rt: HostRuntime) -> Result<(), Fail> {
    let text = behind_ring(rt.alloc(), CHANGE)?;
    wanted_read(&rt, text.as_slice())
}

// ---- what a plan fulfils

fn fulfilled<RT: Abort>(rt: &RT, plan: &Plan) {
    holds!(rt; plan.fulfils(&[D], &[]));
    holds!(rt; !plan.fulfils(&[], &[]));
    holds!(rt; !plan.fulfils(&[D], &[B]));
    holds!(rt; !plan.fulfils(&[D, A], &[]));
}

fn join_fulfilled<RT: AllocGlobal + Abort>(rt: &RT, ring: &Ring) -> Result<(), Fail> {
    let plan = plan_from(rt.alloc(), ring, JOINS_D)?;
    fulfilled(rt, &plan);
    Ok(())
}

#[test]
fn a_join_fulfilled(rt: HostRuntime) -> Result<(), Fail> {
    let ring = ring_from(rt.alloc(), RING)?;
    join_fulfilled(&rt, &ring)
}

// ---- proposals

fn owns(alloc: Global, ring: &Ring, plan: &Plan, node: NodeId) -> Result<u32, Refusal> {
    let owned = owned(alloc, ring, plan)?;
    match owned.get(node.0 as usize) {
        Some(count) => Ok(*count),
        None => Ok(0),
    }
}

fn exchanged<RT: AllocGlobal + Abort>(rt: &RT, ring: &Ring, plan: &Plan) -> Result<(), Fail> {
    holds!(rt; plan.is_joined(D));
    holds!(rt; plan.is_retired(B));
    same!(rt; owns(rt.alloc(), ring, plan, B)?, 0);
    holds!(rt; 1 <= owns(rt.alloc(), ring, plan, D)?);
    Ok(())
}

fn accepted<RT: AllocGlobal + Abort>(
    rt: &RT,
    ring: Ring,
    plan: Plan,
    cert: &Cert,
) -> Result<(), Fail>
    requires { Suits ring plan }
{
    approved(rt.alloc(), ring, plan, cert)?;
    Ok(())
}

fn plan_checked<RT: AllocGlobal + Abort>(
    rt: &RT,
    ring: Ring,
    plan: &[u8],
    cert: &Cert,
) -> Result<(), Fail> {
    let plan = plan_from(rt.alloc(), &ring, plan)?;
    exchanged(rt, &ring, &plan)?;
    accepted(rt, ring, plan, cert)
}

fn texts_checked<RT: AllocGlobal + Abort>(
    rt: &RT,
    ring: Ring,
    plan: &[u8],
    cert: &[u8],
) -> Result<(), Fail> {
    let cert = cert_from(rt.alloc(), &ring, cert)?;
    plan_checked(rt, ring, plan, &cert)
}

fn proposal_checked<RT: AllocGlobal + Abort>(rt: &RT, text: &str) -> Result<(), Fail> {
    let Some((plan, _)) = text.split_once("cert 1\n") else {
        panic!(rt; "no certificate in {text}");
    };
    let Some(cert) = text.as_bytes().get(plan.len()..) else {
        panic!(rt; "no certificate behind {plan}");
    };
    let ring = ring_from(rt.alloc(), RING)?;
    texts_checked(rt, ring, plan.as_bytes(), cert)
}

fn proposal_over(alloc: Global, ring: Ring) -> Result<Vec<u8>, Refusal> {
    let change = read_change(alloc, &ring, CHANGE)?;
    let found = propose(alloc, ring, &change)?;
    found.text(alloc)
}

fn proposal(alloc: Global) -> Result<Vec<u8>, Refusal> {
    let ring = ring_from(alloc, RING)?;
    proposal_over(alloc, ring)
}

#[test]
fn an_exchange_proposed(rt: HostRuntime) -> Result<(), Fail> {
    let text = proposal(rt.alloc())?;
    let Ok(text) = str::from_utf8(text.as_slice()) else {
        panic!(rt; "a proposal that is no text");
    };
    proposal_checked(&rt, text)
}

fn refused(alloc: Global, ring: &Ring, joins: &[NodeId], leaves: &[NodeId]) -> u8 {
    match make(alloc, ring, joins, leaves) {
        Ok(_) => 0,
        Err(refusal) => refusal.number(),
    }
}

// Without b the ring has fewer members than a partition has slots.
fn members_needed<RT: AllocGlobal + Abort>(rt: &RT, ring: &Ring) {
    same!(rt; refused(rt.alloc(), ring, &[], &[B]), 28);
    same!(rt; refused(rt.alloc(), ring, &[D], &[B]), 0);
}

#[test]
fn too_few_members_left(rt: HostRuntime) -> Result<(), Fail> {
    let ring = ring_from(rt.alloc(), RING)?;
    members_needed(&rt, &ring);
    Ok(())
}

// ---- plans for many changes

// A ring of `members`, then joiners; the first members leave.
#[derive(Clone, Copy)]
struct Case {
    format: u32,
    partitions: u32,
    slots: u32,
    // read and write quorums, and in format 3 allowed losses
    quorum: &'static str,
    allowance: &'static str,
    members: u32,
    joins: u32,
    leaves: u32,
}

fn plain(partitions: u32, allowance: &'static str, members: u32, joins: u32, leaves: u32) -> Case {
    Case {
        format: 1,
        partitions,
        slots: 3,
        quorum: "2 2",
        allowance,
        members,
        joins,
        leaves,
    }
}

fn push_members(text: &mut Vec<u8>, case: &Case) -> Result<(), AllocError> {
    let allowance = case.allowance.as_bytes();
    let end = case.members.saturating_add(case.joins);
    push_nodes(
        text,
        b"node n",
        0,
        case.members,
        &[b" ", allowance, b" in\n"],
    )?;
    push_nodes(
        text,
        b"node n",
        case.members,
        end,
        &[b" ", allowance, b" out\n"],
    )
}

fn push_row(text: &mut Vec<u8>, case: &Case, row: u32) -> Result<(), AllocError> {
    push_numbered(text, b"slots ", row)?;
    let first = row.saturating_mul(case.slots);
    push_owners(text, b" n", first, case.slots, case.members)?;
    text.extend_from_slice(b"\n")
}

fn push_head(text: &mut Vec<u8>, case: &Case) -> Result<(), AllocError> {
    push_numbered(text, b"ring ", case.format)?;
    push_numbered(text, b"\nspace ", case.partitions)?;
    push_numbered(text, b"\nquorum ", case.slots)?;
    text.extend_from_slice(b" ")?;
    text.extend_from_slice(case.quorum.as_bytes())?;
    text.extend_from_slice(b"\n")
}

fn push_ring(text: &mut Vec<u8>, case: &Case) -> Result<(), AllocError> {
    push_head(text, case)?;
    push_members(text, case)?;
    for row in 0..case.partitions {
        push_row(text, case, row)?;
    }
    text.extend_from_slice(b"end\n")
}

fn ring_text(alloc: Global, case: &Case) -> Result<Vec<u8>, AllocError> {
    let mut text = Vec::new(alloc);
    push_ring(&mut text, case)?;
    Ok(text)
}

fn share(case: &Case) -> u32 {
    let after = case
        .members
        .saturating_add(case.joins)
        .saturating_sub(case.leaves);
    let slots = case.partitions.saturating_mul(case.slots);
    match slots.checked_div(after) {
        Some(share) => share,
        None => 0,
    }
}

fn moves_least<RT: Abort>(rt: &RT, case: &Case, ring: &Ring, plan: &Plan) {
    let fewest = fewest_moves(ring, case.leaves, case.joins, share(case));
    same!(rt; moves(plan), fewest);
}

fn are_shares<RT: Abort>(rt: &RT, case: &Case, owned: &[u32]) {
    let mut node = 0u32;
    for count in owned {
        if node < case.leaves {
            same!(rt; *count, 0);
        }
        if case.members <= node {
            holds!(rt; share(case) <= *count);
        }
        node = node.saturating_add(1);
    }
}

fn spreads<RT: AllocGlobal + Abort>(
    rt: &RT,
    case: &Case,
    ring: &Ring,
    plan: &Plan,
) -> Result<(), Fail> {
    let owned = owned(rt.alloc(), ring, plan)?;
    are_shares(rt, case, owned.as_slice());
    Ok(())
}

// Copies in a row are as few as allowances demand, or half as many again with listed slots.
fn hurries<RT: AllocGlobal + Abort>(rt: &RT, ring: &Ring, plan: &Plan) -> Result<(), Fail>
    requires { Suits ring.now plan.now }
{
    let rounds = rounds(rt.alloc(), ring, plan)?;
    let depth = depth(rt.alloc(), plan)?;
    assert!(rt;
        depth.saturating_mul(2) <= rounds.saturating_mul(3),
        "{depth} for {rounds}"
    );
    if reads_owners(plan) {
        same!(rt; depth, rounds);
    }
    Ok(())
}

fn makes_change<RT: AllocGlobal + Abort>(rt: &RT, case: &Case, plan: &Plan) -> Result<(), Fail> {
    let joins = nodes_from(rt.alloc(), case.members, case.joins)?;
    let leaves = nodes_from(rt.alloc(), 0, case.leaves)?;
    holds!(rt; plan.fulfils(joins.as_slice(), leaves.as_slice()));
    Ok(())
}

fn is_good<RT: AllocGlobal + Abort>(
    rt: &RT,
    case: &Case,
    ring: &Ring,
    plan: &Plan,
) -> Result<(), Fail>
    requires { Suits ring.now plan.now }
{
    makes_change(rt, case, plan)?;
    moves_least(rt, case, ring, plan);
    spreads(rt, case, ring, plan)?;
    hurries(rt, ring, plan)
}

fn judged<RT: AllocGlobal + Abort>(
    rt: &RT,
    case: &Case,
    ring: Ring,
    plan: Plan,
    cert: &Cert,
) -> Result<(), Fail> {
    assert!(rt; plan.suits(&ring));
    is_good(rt, case, &ring, &plan)?;
    accepted(rt, ring, plan, cert)
}

fn planned_over<RT: AllocGlobal + Abort>(rt: &RT, case: &Case, ring: Ring) -> Result<(), Fail> {
    let (plan, cert) = plan_of(rt.alloc(), &ring, case.leaves, case.members, case.joins)?;
    judged(rt, case, ring, plan, &cert)
}

fn planned_by_text<RT: AllocGlobal + Abort>(rt: &RT, case: &Case, text: &[u8]) -> Result<(), Fail> {
    let ring = ring_from(rt.alloc(), text)?;
    planned_over(rt, case, ring)
}

fn planned<RT: AllocGlobal + Abort>(rt: &RT, case: &Case) -> Result<(), Fail> {
    let text = ring_text(rt.alloc(), case)?;
    planned_by_text(rt, case, text.as_slice())
}

#[test]
fn joins_planned(rt: HostRuntime) -> Result<(), Fail> {
    planned(&rt, &plain(16, "2", 4, 1, 0))?;
    planned(&rt, &plain(32, "1", 12, 10, 0))
}

#[test]
fn leaves_planned(rt: HostRuntime) -> Result<(), Fail> {
    planned(&rt, &plain(32, "2", 30, 0, 10))?;
    planned(&rt, &plain(16, "1", 6, 0, 3))
}

#[test]
fn both_planned(rt: HostRuntime) -> Result<(), Fail> {
    planned(&rt, &plain(16, "3", 5, 1, 1))?;
    planned(&rt, &plain(16, "1", 4, 0, 0))
}

#[test]
fn more_members_than_slots(rt: HostRuntime) -> Result<(), Fail> {
    let few = Case {
        slots: 2,
        quorum: "1 2",
        ..plain(1, "1", 2, 4, 0)
    };
    planned(&rt, &few)
}

#[test]
fn split_allowances_planned(rt: HostRuntime) -> Result<(), Fail> {
    let split = Case {
        format: 2,
        ..plain(16, "1 2", 5, 2, 1)
    };
    let lossless = Case {
        format: 3,
        quorum: "2 2 0",
        ..plain(32, "1 1", 6, 1, 2)
    };
    planned(&rt, &split)?;
    planned(&rt, &lossless)
}
