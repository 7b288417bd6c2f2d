//! Scripts are written as they were read, or made event by event. A bundle is played.

ghost use Rattle.plan_text.specs.Valid.{Suits};

use crate::answering::{RING, approved_of};
use plan_cert::Cert;
use plan_check::check;
use plan_runs::Event;
use plan_text::Plan;
use ring_names::{Names, NodeId, Refusal};
use ring_script::{Kind, play, read_bundle};
use ring_table::{Ring, read_ring};
use script_text::{Script, read_script, write_script};
use std::alloc::Global;
use std::process::Abort;
use std::test::Fail;

// Each kind of event.
const SCRIPT: &[u8] = b"\
script 1
do 0
open 1
chunk 1 2
close 1
abort 1
put w1 a x
put w2 b x00ff seen 0 3
put w1 c x31
write 0 1
hint 0 1 d
ack 0
get a
read 0 1
endget 0
down b
up b
handoff d 0 1
lose b
end
";

fn is_as_read<RT: Abort>(rt: &RT, len: usize, second: Option<u32>, text: &[u8]) {
    assert_eq!(rt; len, 18);
    assert_eq!(rt; text, SCRIPT);
    assert_eq!(rt; second, Some(1));
}

fn script_written<RT: AllocGlobal + Abort>(rt: &RT, ring: &Ring) -> Result<(), Fail> {
    let mut names = Names::new(rt.alloc());
    let script = read_script(rt.alloc(), ring, &mut names, SCRIPT)?;
    let text = write_script(rt.alloc(), ring, &names, &script)?;
    is_as_read(rt, script.len(), names.number_of(b"w2"), text.as_slice());
    Ok(())
}

#[test]
fn scripts_written(rt: HostRuntime) -> Result<(), Fail> {
    let ring = read_ring(rt.alloc(), RING)?;
    script_written(&rt, &ring)
}

// A client may do the first event, but not the second.
fn pushed<RT: Abort>(rt: &RT, script: &mut Script) -> Result<(), Fail> {
    assert_eq!(rt; script.len(), 0);
    script.push(Event::Down(NodeId(1)))?;
    assert!(rt; script.is_client());
    assert!(rt; script.len() < 10);
    script.push(Event::Do(0))?;
    assert!(rt; !script.is_client());
    Ok(())
}

#[test]
fn scripts_made(rt: HostRuntime) -> Result<(), Fail> {
    let mut script = Script::new(rt.alloc());
    pushed(&rt, &mut script)?;
    assert_eq!(rt; script.events().len(), 2);
    Ok(())
}

const BUNDLE: &[u8] = b"\
ring 1
space 1
quorum 1 1 1
node a 1 in
slots 0 a
end
plan 1
end
cert 1
end
script 1
put w1 k x31
write 0 0
ack 0
down a
get k
read 0 0
end
";

fn checked_and_played(
    alloc: Global,
    ring: Ring,
    plan: Plan,
    cert: &Cert,
    script: &Script,
) -> Result<Vec<u8>, Refusal>
    requires { Suits ring plan }
{
    let approved = approved_of(check(alloc, ring, plan, cert))?;
    play(alloc, &approved, script)
}

fn played(alloc: Global, bytes: &[u8]) -> Result<Vec<u8>, Refusal> {
    let bundle = read_bundle(alloc, Kind::Play, bytes)?;
    checked_and_played(
        alloc,
        bundle.ring,
        bundle.plan,
        &bundle.cert,
        &bundle.script,
    )
}

#[test]
fn bundles_played(rt: HostRuntime) -> Result<(), Fail> {
    let text = played(rt.alloc(), BUNDLE)?;
    assert_eq!(rt;
        text.as_slice(),
        b"yes\n0 put 0\n1 ticket 0 0 0\n2 ok\n3 ok\n4 get 0\n5 no 42 0\nslots 0 a\nend\n".as_slice()
    );
    Ok(())
}
