//! A ring of four nodes, a plan of two moves, and its approved steps.

ghost use Rattle.std.specs.Prelude.{IfOk};
ghost use Rattle.plan_text.specs.Valid.{Suits};

use plan_cert::{Cert, read_cert};
use plan_check::check;
use plan_text::{Plan, read_plan};
use ring_names::Refusal;
use ring_table::{Ring, read_ring};
use std::alloc::Global;

pub const RING: &[u8] =
    b"ring 1\nspace 4\nquorum 3 2 2\nnode a 4 in\nnode b 1 in\nnode c 4 in\nnode d 4 out\nslots 0 a b c\nslots 1 a b c\nslots 2 a b c\nslots 3 a b c\nend\n";

// Moves slot 1 of two partitions from b to d, in turn.
const TWO_MOVES: &[u8] =
    b"plan 1\njoin d\nmirror 0 1 d after 0\ncopy 0 1 owner after 1\nswitch 0 1 after 2\nmirror 1 1 d after 0 3\ncopy 1 1 owner after 4\nswitch 1 1 after 5\nend\n";

// Texts are read only here: readers ensure much that tests do not need.

pub fn ring_from(alloc: Global, text: &[u8]) -> Result<Ring, Refusal> {
    read_ring(alloc, text)
}

pub fn plan_from(alloc: Global, ring: &Ring, text: &[u8]) -> Result<Plan, Refusal>
    ensures { IfOk result (λ plan. Suits ring.now plan) }
{
    read_plan(alloc, ring, text)
}

pub fn cert_from(alloc: Global, ring: &Ring, text: &[u8]) -> Result<Cert, Refusal> {
    read_cert(alloc, ring, text)
}

pub fn two_moves(alloc: Global, ring: &Ring) -> Result<Plan, Refusal>
    ensures { IfOk result (λ plan. Suits ring.now plan) }
{
    plan_from(alloc, ring, TWO_MOVES)
}

/// Checks the plan. Returns its number of steps.
pub fn approved(alloc: Global, ring: Ring, plan: Plan, cert: &Cert) -> Result<u32, Refusal>
    requires { Suits ring plan }
{
    match check(alloc, ring, plan, cert) {
        Ok(approved) => Ok(approved.plan().len()),
        Err(turned) => Err(turned.refusal),
    }
}
