//! Rings, plans and scripts of drives.

ghost use Rattle.std.specs.Prelude.{◌≡◌, true, IfOk};
ghost use Rattle.std.specs.List.{list_all};
ghost use Rattle.script_text.specs.Client.{is_client_event};

use plan_cert::read_cert;
use plan_check::{Approved, check};
use plan_text::read_plan;
use ring_names::{Names, Refusal};
use ring_table::{Ring, read_ring};
use script_text::{Script, read_script};
use std::alloc::Global;

/// Four partitions of three slots; d is not a member.
pub const RING: &[u8] =
    b"ring 1\nspace 4\nquorum 3 2 2\nnode a 4 in\nnode b 4 in\nnode c 4 in\nnode d 4 out\nslots 0 a b c\nslots 1 a b c\nslots 2 a b c\nslots 3 a b c\nend\n";

/// Four partitions of three slots; d is a member.
pub const FOUR: &[u8] =
    b"ring 1\nspace 4\nquorum 3 2 2\nnode a 4 in\nnode b 4 in\nnode c 4 in\nnode d 4 in\nslots 0 a b c\nslots 1 a b c\nslots 2 a b c\nslots 3 a b c\nend\n";

/// A ring with another member, e.
pub const FIVE: &[u8] =
    b"ring 1\nspace 4\nquorum 3 2 2\nnode a 4 in\nnode b 4 in\nnode c 4 in\nnode d 4 in\nnode e 4 in\nslots 0 a b c\nslots 1 a b c\nslots 2 a b c\n\
    slots 3 a b c\nend\n";

/// Two independent copies.
pub const TWO_COPIES: &[u8] =
    b"plan 1\njoin d\nmirror 0 1 d after 0\ncopy 0 1 owner after 1\nswitch 0 1 after 2\nmirror 1 1 d after 0\ncopy 1 1 owner after 4\nswitch 1 1 after 5\nend\n";

pub const TWO_CHAINS: &[u8] = b"cert 1\nchain b 2\nchain b 5\nchain d 2\nchain d 5\nend\n";

/// A slot moves from b to d, which joins.
pub const MOVE: &[u8] =
    b"plan 1\njoin d\nmirror 0 1 d after 0\ncopy 0 1 owner after 1\nswitch 0 1 after 2\ndrop 0 1 b after 3\nend\n";

pub const MOVE_CHAINS: &[u8] = b"cert 1\nchain b 2\nchain d 2\nend\n";

pub const JOIN: &[u8] = b"plan 1\njoin d\nend\n";

pub const NOTHING: &[u8] = b"plan 1\nend\n";

pub const NO_CHAINS: &[u8] = b"cert 1\nend\n";

/// An empty script.
pub const SILENCE: &[u8] = b"script 1\nend\n";

pub fn approved(alloc: Global, ring: Ring, plan: &[u8], cert: &[u8]) -> Result<Approved, Refusal> {
    let plan = read_plan(alloc, &ring, plan)?;
    let cert = read_cert(alloc, &ring, cert)?;
    match check(alloc, ring, plan, &cert) {
        Ok(approved) => Ok(approved),
        Err(turned) => Err(turned.refusal),
    }
}

pub fn script(alloc: Global, ring: &Ring, text: &[u8]) -> Result<Script, Refusal>
    ensures { IfOk result (λ s. list_all is_client_event s ≡ true) }
{
    let mut names = Names::new(alloc);
    let script = read_script(alloc, ring, &mut names, text)?;
    if script.is_client() {
        return Ok(script);
    }
    Err(Refusal::Disagree)
}

pub fn ring(alloc: Global, text: &[u8]) -> Result<Ring, Refusal> {
    read_ring(alloc, text)
}
