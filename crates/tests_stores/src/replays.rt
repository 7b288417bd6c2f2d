//! Histories of a script's replies.

use crate::answering::{MOVE, approved, script_of};
use plan_check::Approved;
use plan_runs::{Entry, Event};
use ring_core::{World, replay};
use ring_names::{Listed, NodeId};
use ring_script::play;
use script_text::Script;
use std::process::Abort;
use std::test::Fail;

// A slot moves from b to d; three events are refused.
const SCRIPT: &[u8] = b"\
script 1
do 1
put w1 a x31
write 0 0
write 0 1
ack 0
do 0
do 1
open 2
close 2
chunk 2 0
chunk 2 1
chunk 2 2
chunk 2 3
chunk 2 4
chunk 2 5
chunk 2 6
chunk 2 7
chunk 2 8
chunk 2 9
chunk 2 10
chunk 2 11
chunk 2 12
chunk 2 13
chunk 2 14
chunk 2 15
close 2
do 3
do 4
get a
read 0 0
read 0 1
endget 0
ack 0
end
";

// The owners at the play's end.
const OWNERS: &[u8] = b"slots 0 a d c\nslots 1 a b c\nslots 2 a b c\nslots 3 a b c\nend\n";

#[tactic(auto, using(ring_core::proofs::SoundAfterEvent::has_number))]
fn note<RT: AllocGlobal + Abort>(
    rt: &RT,
    world: &mut World,
    event: &Event,
    history: &mut Vec<Entry>,
) -> Result<(), Fail> {
    assert!(rt; world.puts() < 1000 && world.gets() < 1000);
    let noted = event.try_copy()?;
    if let Ok(reply) = world.apply(event) {
        let entry = Entry {
            event: noted,
            reply,
        };
        history.push(entry)?;
    }
    Ok(())
}

fn note_all<RT: AllocGlobal + Abort>(
    rt: &RT,
    world: &mut World,
    events: &[Event],
    history: &mut Vec<Entry>,
) -> Result<(), Fail> {
    for event in events {
        note(rt, world, event, history)?;
    }
    assert_eq!(rt; history.len(), 30);
    Ok(())
}

// The tables are equal, and d owns the moved slot.
fn are_same<RT: Abort>(rt: &RT, one: &[Listed<NodeId>], other: &[Listed<NodeId>]) {
    assert_eq!(rt; one.len(), 4);
    assert_eq!(rt; other.len(), 4);
    assert_eq!(rt;
        one[0].as_slice(),
        [NodeId(0), NodeId(3), NodeId(2)].as_slice()
    );
    for (row, replayed) in one.iter().zip(other.iter()) {
        assert_eq!(rt; row.as_slice(), replayed.as_slice());
    }
}

fn owns<RT: Abort>(rt: &RT, world: &World, owners: &[Listed<NodeId>]) -> Result<(), Fail> {
    let again = world.table()?;
    are_same(rt, owners, again.as_slice());
    Ok(())
}

fn owned_again<RT: AllocGlobal + Abort>(
    rt: &RT,
    approved: &Approved,
    history: &[Entry],
    owners: &[Listed<NodeId>],
) -> Result<(), Fail> {
    assert!(rt; history.len() < 1000);
    let again = replay(rt.alloc(), approved, history)?;
    owns(rt, &again, owners)
}

fn replayed<RT: AllocGlobal + Abort>(
    rt: &RT,
    approved: &Approved,
    world: &World,
    history: &[Entry],
) -> Result<(), Fail> {
    let owners = world.table()?;
    owned_again(rt, approved, history, owners.as_slice())
}

fn happened<RT: AllocGlobal + Abort>(
    rt: &RT,
    approved: &Approved,
    world: &mut World,
    events: &[Event],
) -> Result<(), Fail> {
    let mut history = Vec::new(rt.alloc());
    note_all(rt, world, events, &mut history)?;
    replayed(rt, approved, world, history.as_slice())
}

fn printed<RT: AllocGlobal + Abort>(
    rt: &RT,
    approved: &Approved,
    script: &Script,
) -> Result<(), Fail> {
    let text = play(rt.alloc(), approved, script)?;
    assert!(rt; text.as_slice().ends_with(OWNERS));
    Ok(())
}

fn played_and_replayed<RT: AllocGlobal + Abort>(
    rt: &RT,
    approved: &Approved,
    script: &Script,
) -> Result<(), Fail> {
    printed(rt, approved, script)?;
    let mut world = World::start(rt.alloc(), approved)?;
    happened(rt, approved, &mut world, script.events())
}

#[test]
fn a_replay_has_the_owners_of_the_play(rt: HostRuntime) -> Result<(), Fail> {
    let approved = approved(rt.alloc(), &MOVE)?;
    let script = script_of(rt.alloc(), approved.ring(), SCRIPT)?;
    played_and_replayed(&rt, &approved, &script)
}
