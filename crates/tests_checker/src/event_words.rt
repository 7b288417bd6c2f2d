//! The words of events and the texts of replies.

use crate::same::{holds, same};
use plan_runs::{Key, Reply, Seen};
use ring_names::{Listed, Slot};
use std::alloc::{AllocError, Global};
use std::process::Abort;
use std::test::Fail;

const TICKET: Reply = Reply::Ticket(
    Slot {
        partition: 2,
        index: 1,
    },
    4,
);

fn written<RT: AllocGlobal + Abort>(rt: &RT, reply: &Reply, text: &str) -> Result<(), Fail> {
    let mut out = Vec::new(rt.alloc());
    reply.write_text(&mut out)?;
    same!(rt; out.as_slice(), text.as_bytes());
    Ok(())
}

#[test]
fn replies_written(rt: HostRuntime) -> Result<(), Fail> {
    written(&rt, &Reply::Plain, "ok")?;
    written(&rt, &Reply::Put(3), "put 3")?;
    written(&rt, &TICKET, "ticket 2 1 4")?;
    written(&rt, &Reply::Get(0), "get 0")
}

#[test]
fn lists_written(rt: HostRuntime) -> Result<(), Fail> {
    let found = Listed::from_vec(Vec::from_slice(rt.alloc(), &[0, 12])?);
    written(&rt, &Reply::Found(found), "found 0 12")?;
    let none = Listed::from_vec(Vec::new(rt.alloc()));
    written(&rt, &Reply::Answer(none), "reply")
}

fn is_key(alloc: Global, text: &str) -> Result<bool, AllocError> {
    let bytes = Vec::from_slice(alloc, text.as_bytes())?;
    Ok(Key::of(alloc, bytes)?.is_some())
}

fn is_seen(alloc: Global, gets: &[u32]) -> Result<bool, AllocError> {
    let gets = Vec::from_slice(alloc, gets)?;
    Ok(Seen::of(alloc, gets)?.is_some())
}

#[test]
fn keys_and_seen_gets_limited(rt: HostRuntime) -> Result<(), Fail> {
    holds!(rt; is_key(rt.alloc(), "a-z_0.9:")?);
    holds!(rt; !is_key(rt.alloc(), "")?);
    holds!(rt; !is_key(rt.alloc(), "A")?);
    holds!(rt; !is_key(rt.alloc(), "a b")?);
    holds!(rt; is_seen(rt.alloc(), &[0, 1])?);
    holds!(rt; !is_seen(rt.alloc(), &[1, 1])?);
    holds!(rt; !is_seen(rt.alloc(), &[1, 0])?);
    Ok(())
}
