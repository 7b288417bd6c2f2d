//! Texts are written as they were read, within limits.

ghost use Rattle.std.specs.Prelude.{◌≡◌, []};

use crate::same::{holds, same};
use plan_cert::{Cert, Chains, read_cert, write_cert};
use plan_text::{read_plan, write_plan};
use ring_names::{NodeId, Refusal, Rows};
use ring_table::{NodeSide, Ring, Side, push_row, read_ring, write_ring};
use std::alloc::{AllocError, Global};
use std::process::Abort;
use std::test::Fail;

pub const RING: &[u8] =
    b"ring 1\nspace 4\nquorum 3 2 2\nnode a 4 in\nnode b 1 in\nnode c 4 in\nnode d 4 out\nslots 0 a b c\nslots 1 a b c\nslots 2 a b c\nslots 3 a b c\nend\n";

// Moves slot 1 of two partitions from b to d, in turn.
const TWO_MOVES: &[u8] =
    b"plan 1\njoin d\nmirror 0 1 d after 0\ncopy 0 1 owner after 1\nswitch 0 1 after 2\nmirror 1 1 d after 0 3\ncopy 1 1 owner after 4\nswitch 1 1 after 5\nend\n";

const CERTS: [&str; 5] = [
    "cert 1\nend\n",
    "cert 1\nchain b 2\nchain d 2\nend\n",
    "cert 1\nchain b 2\nchain b 6\nchain c 9\nchain d 2\nchain d 6\nchain d 9\nend\n",
    "cert 1\nfact 2 3 4 5\nchain b 2 5\nchain d 2 5\nend\n",
    "cert 1\nfact 7 7\nfact 4294967295 0\nchain a 1 2 3 4 5 6 7 8 9\nend\n",
];

// Node b has two allowances.
const SPLIT: &[u8] =
    b"ring 2\nspace 1\nquorum 2 1 2\nnode a 4 in\nnode b 1 2 in\nslots 0 a b\nend\n";

// One node may lose its data.
const LOSS: &[u8] =
    b"ring 3\nspace 1\nquorum 2 2 2 1\nnode a 4 in\nnode b 1 2 in\nslots 0 a b\nend\n";

const SPLIT_CERTS: [&str; 2] = [
    "cert 2\nend\n",
    "cert 2\nfact 7 7\ngive b 2 5\nchain a 2\ntake b 7\ngive b 9\nend\n",
];

fn is_written<RT: AllocGlobal + Abort>(rt: &RT, ring: &Ring, text: &[u8]) -> Result<(), Fail> {
    let written = write_ring(rt.alloc(), ring)?;
    same!(rt; written.as_slice(), text);
    Ok(())
}

fn ring_written<RT: AllocGlobal + Abort>(rt: &RT, text: &[u8]) -> Result<(), Fail> {
    let ring = read_ring(rt.alloc(), text)?;
    is_written(rt, &ring, text)
}

#[test]
fn rings_written(rt: HostRuntime) -> Result<(), Fail> {
    ring_written(&rt, RING)?;
    ring_written(&rt, SPLIT)?;
    ring_written(&rt, LOSS)
}

fn ring_migrated<RT: AllocGlobal + Abort>(rt: &RT, text: &[u8], to: &[u8]) -> Result<(), Fail> {
    let ring = read_ring(rt.alloc(), text)?;
    is_written(rt, &ring.migrate(), to)
}

#[test]
fn rings_migrated(rt: HostRuntime) -> Result<(), Fail> {
    ring_migrated(
        &rt,
        b"ring 1\nspace 1\nquorum 1 1 1\nnode a 1 in\nslots 0 a\nend\n",
        b"ring 2\nspace 1\nquorum 1 1 1\nnode a 1 in\nslots 0 a\nend\n",
    )?;
    ring_migrated(&rt, SPLIT, SPLIT)?;
    ring_migrated(&rt, LOSS, LOSS)
}

fn row_written<RT: AllocGlobal + Abort>(rt: &RT, ring: &Ring) -> Result<(), Fail> {
    let mut text = Vec::new(rt.alloc());
    push_row(&mut text, ring.nodes(), 7, &[NodeId(3), NodeId(0)])?;
    same!(rt; text.as_slice(), b"slots 7 d a\n".as_slice());
    Ok(())
}

fn plan_text(alloc: Global, ring: &Ring) -> Result<Vec<u8>, Refusal> {
    let plan = read_plan(alloc, ring, TWO_MOVES)?;
    write_plan(alloc, ring, &plan)
}

fn cert_text(alloc: Global, ring: &Ring, text: &str) -> Result<Vec<u8>, Refusal> {
    let cert = read_cert(alloc, ring, text.as_bytes())?;
    write_cert(alloc, ring, &cert)
}

fn certs_written<RT: AllocGlobal + Abort>(
    rt: &RT,
    ring: &Ring,
    texts: &[&str],
) -> Result<(), Fail> {
    for text in texts {
        same!(rt; cert_text(rt.alloc(), ring, text)?.as_slice(), text.as_bytes());
    }
    Ok(())
}

fn all_written<RT: AllocGlobal + Abort>(rt: &RT, ring: &Ring) -> Result<(), Fail> {
    holds!(rt; ring.is_member(NodeId(2)));
    holds!(rt; !ring.is_member(NodeId(3)));
    row_written(rt, ring)?;
    same!(rt; plan_text(rt.alloc(), ring)?.as_slice(), TWO_MOVES);
    certs_written(rt, ring, &CERTS)
}

#[test]
fn texts_written(rt: HostRuntime) -> Result<(), Fail> {
    let ring = read_ring(rt.alloc(), RING)?;
    all_written(&rt, &ring)
}

#[test]
fn split_certificates_written(rt: HostRuntime) -> Result<(), Fail> {
    let ring = read_ring(rt.alloc(), SPLIT)?;
    certs_written(&rt, &ring, &SPLIT_CERTS)
}

fn lines_of(alloc: Global, first: &[u8], line: &[u8], count: u32) -> Result<Vec<u8>, AllocError> {
    let mut text = Vec::from_slice(alloc, first)?;
    for _ in 0..count {
        text.extend_from_slice(line)?;
    }
    text.extend_from_slice(b"end\n")?;
    Ok(text)
}

fn steps_read(alloc: Global, ring: &Ring, count: u32) -> Result<u32, Refusal> {
    let text = lines_of(alloc, b"plan 1\n", b"switch 0 0\n", count)?;
    let plan = read_plan(alloc, ring, text.as_slice())?;
    Ok(plan.len())
}

#[test]
fn longest_plans(rt: HostRuntime) -> Result<(), Fail> {
    let ring = read_ring(rt.alloc(), RING)?;
    same!(rt; steps_read(rt.alloc(), &ring, 131_072), Ok(131_072));
    same!(rt; steps_read(rt.alloc(), &ring, 131_073), Err(Refusal::TooLarge(131_074)));
    Ok(())
}

fn sizes(alloc: Global, ring: &Ring, text: &[u8]) -> Result<(usize, usize), Refusal> {
    let cert = read_cert(alloc, ring, text)?;
    Ok((cert.facts.len(), cert.chains.len()))
}

fn sizes_of(
    alloc: Global,
    ring: &Ring,
    line: &[u8],
    count: u32,
) -> Result<(usize, usize), Refusal> {
    let text = lines_of(alloc, b"cert 1\n", line, count)?;
    sizes(alloc, ring, text.as_slice())
}

fn most_lines<RT: AllocGlobal + Abort>(rt: &RT, ring: &Ring) {
    let fact = b"fact 0 1\n";
    let chain = b"chain a 0\n";
    same!(rt; sizes_of(rt.alloc(), ring, fact, 262_144), Ok((262_144, 0)));
    same!(rt; sizes_of(rt.alloc(), ring, fact, 262_145), Err(Refusal::TooLarge(262_146)));
    same!(rt; sizes_of(rt.alloc(), ring, chain, 65_536), Ok((0, 65_536)));
    same!(rt; sizes_of(rt.alloc(), ring, chain, 65_537), Err(Refusal::TooLarge(65_538)));
}

#[test]
fn largest_certificates(rt: HostRuntime) -> Result<(), Fail> {
    let ring = read_ring(rt.alloc(), RING)?;
    most_lines(&rt, &ring);
    Ok(())
}

fn fact_of(alloc: Global, count: u32) -> Result<Vec<u8>, AllocError> {
    let mut text = Vec::from_slice(alloc, b"cert 1\nfact")?;
    for _ in 0..count {
        text.extend_from_slice(b" 9")?;
    }
    text.extend_from_slice(b"\nend\n")?;
    Ok(text)
}

fn fact_sizes(alloc: Global, ring: &Ring, count: u32) -> Result<(usize, usize), Refusal> {
    let text = fact_of(alloc, count)?;
    sizes(alloc, ring, text.as_slice())
}

fn longest_facts<RT: AllocGlobal + Abort>(rt: &RT, ring: &Ring) {
    same!(rt; fact_sizes(rt.alloc(), ring, 1_024), Ok((1, 0)));
    same!(rt; fact_sizes(rt.alloc(), ring, 1_025), Err(Refusal::TooLarge(2)));
}

fn side_of(node: u32, side: Side) -> NodeSide {
    NodeSide {
        node: NodeId(node),
        side,
    }
}

fn kept<RT: Abort>(rt: &RT, chains: &mut Chains) -> Result<(), Fail>
    requires { chains.old ≡ [] }
{
    chains.push(side_of(1, Side::Both), &[2, 5])?;
    chains.push(side_of(3, Side::Give), &[2])?;
    same!(rt; chains.len(), 2);
    same!(rt; chains.of(1), side_of(3, Side::Give));
    same!(rt; chains.steps(0), [2, 5].as_slice());
    Ok(())
}

#[test]
fn chains_kept(rt: HostRuntime) -> Result<(), Fail> {
    let mut chains = Chains::new(rt.alloc());
    kept(&rt, &mut chains)
}

// A certificate with an unknown node's chain.
fn strange_cert(alloc: Global) -> Result<Cert, Refusal> {
    let mut chains = Chains::new(alloc);
    chains.push(side_of(4, Side::Both), &[2])?;
    Ok(Cert {
        facts: Rows::new(alloc),
        chains,
    })
}

fn suits(alloc: Global, ring: &Ring) -> Result<bool, Refusal> {
    Ok(strange_cert(alloc)?.suits(ring))
}

#[test]
fn strange_and_longest_facts(rt: HostRuntime) -> Result<(), Fail> {
    let ring = read_ring(rt.alloc(), RING)?;
    longest_facts(&rt, &ring);
    same!(rt; suits(rt.alloc(), &ring), Ok(false));
    Ok(())
}
