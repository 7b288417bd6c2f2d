//! Checks by workers: they overlap, and a gate can stop one.

ghost use Rattle.plan_text.specs.Valid.{Suits};

use crate::rings::{RING, cert_from, ring_from, two_moves};
use crate::same::same;
use plan_cert::Cert;
use plan_check::{Gate, check_parallel};
use plan_order::Facts;
use plan_text::Plan;
use ring_names::Refusal;
use ring_table::Ring;
use std::sync::{Mutex, Wait};
use std::test::Fail;
use std::thread;
use std::thread::Threads;

const CERT: &[u8] = b"cert 1\nfact 2 3 4 5\nchain b 2 5\nchain d 2 5\nend\n";

// Holds workers until enough have come, for at most a million looks.
#[derive(Drop)]
struct Turnstile {
    come: Mutex<u32>,
    awaited: u32,
}

impl Turnstile {
    fn new(awaited: u32) -> Turnstile {
        Turnstile {
            come: Mutex::new(0),
            awaited,
        }
    }

    fn count<R: Wait>(&self, rt: &R) {
        let mut come = self.come.lock(rt);
        *come = come.saturating_add(1);
    }

    fn is_met<R: Wait>(&self, rt: &R) -> bool {
        *self.come.lock(rt) >= self.awaited
    }
}

impl Gate for Turnstile {
    ghost may_refuse = { λ gate worker mark. Unit {0} };

    ghost must_refuse = { λ gate worker mark. ⊥ };

    fn pass<R: Wait>(&self, rt: &R, _worker: u32, _mark: u64) -> bool {
        self.count(rt);
        for _ in 0..1_000_000 {
            if self.is_met(rt) {
                return true;
            }
            thread::yield_now();
        }
        false
    }
}

fn approved<RT: AllocGlobal + Threads + Wait + Sync>(
    rt: &RT,
    workers: u32,
    gate: &Turnstile,
    planned: (Ring, Plan),
    cert: &Cert,
) -> Result<u32, Refusal>
    requires { Suits planned.0 planned.1 }
{
    let (ring, plan) = planned;
    match check_parallel(rt, rt.alloc(), workers, gate, ring, plan, cert) {
        Ok(approved) => Ok(approved.plan().len()),
        Err(turned) => Err(turned.refusal),
    }
}

fn moves_by<RT: AllocGlobal + Threads + Wait + Sync>(
    rt: &RT,
    workers: u32,
    gate: &Turnstile,
    ring: Ring,
    cert: &Cert,
) -> Result<u32, Refusal> {
    let plan = two_moves(rt.alloc(), &ring)?;
    approved(rt, workers, gate, (ring, plan), cert)
}

fn moves<RT: AllocGlobal + Threads + Wait + Sync>(
    rt: &RT,
    workers: u32,
    gate: &Turnstile,
    ring: Ring,
    cert: &[u8],
) -> Result<u32, Refusal> {
    let cert = cert_from(rt.alloc(), &ring, cert)?;
    moves_by(rt, workers, gate, ring, &cert)
}

// Checks with a gate that awaits `awaited` workers.
fn whole<RT: AllocGlobal + Threads + Wait + Sync>(
    rt: &RT,
    workers: u32,
    awaited: u32,
    cert: &[u8],
) -> Result<u32, Refusal> {
    let ring = ring_from(rt.alloc(), RING)?;
    moves(rt, workers, &Turnstile::new(awaited), ring, cert)
}

#[test]
fn two_workers_overlap(rt: HostRuntime) {
    same!(rt; whole(&rt, 2, 2, CERT), Ok(7));
}

#[test]
fn one_worker_waits_in_vain(rt: HostRuntime) {
    same!(rt; whole(&rt, 1, 2, CERT), Err(Refusal::TurnsSpent));
}

#[test]
fn any_number_of_workers(rt: HostRuntime) {
    same!(rt; whole(&rt, 0, 1, CERT), Ok(7));
    same!(rt; whole(&rt, 3, 3, CERT), Ok(7));
    same!(rt; whole(&rt, 64, 1, CERT), Ok(7));
}

#[test]
fn no_share_is_begun_after_a_bad_path(rt: HostRuntime) {
    same!(rt; whole(&rt, 2, 3, b"cert 1\nfact 2 5\nend\n"), Err(Refusal::BadPath(0)));
}

fn ordered<RT: AllocGlobal + Threads + Sync>(
    rt: &RT,
    plan: &Plan,
    cert: &Cert,
) -> Result<bool, Refusal> {
    let facts = Facts::verify_parallel(rt, rt.alloc(), plan, &cert.facts)?;
    Ok(facts.ordered(plan, 2, 5))
}

fn ordered_by_cert<RT: AllocGlobal + Threads + Sync>(
    rt: &RT,
    ring: &Ring,
    plan: &Plan,
) -> Result<bool, Refusal> {
    let cert = cert_from(rt.alloc(), ring, CERT)?;
    ordered(rt, plan, &cert)
}

fn moves_ordered<RT: AllocGlobal + Threads + Sync>(rt: &RT, ring: &Ring) -> Result<bool, Refusal> {
    let plan = two_moves(rt.alloc(), ring)?;
    ordered_by_cert(rt, ring, &plan)
}

#[test]
fn paths_by_threads(rt: HostRuntime) -> Result<(), Fail> {
    let ring = ring_from(rt.alloc(), RING)?;
    same!(rt; moves_ordered(&rt, &ring), Ok(true));
    Ok(())
}
