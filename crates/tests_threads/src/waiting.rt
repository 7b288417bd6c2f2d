//! A drive whose mirror awaits a hint's handoff.

ghost use Rattle.std.specs.Prelude.{◌≡◌, true};
ghost use Rattle.std.specs.List.{list_all};
ghost use Rattle.script_text.specs.Client.{is_client_event};

use crate::inputs::{FOUR, approved, ring, script};
use crate::turnstile::Behind;
use plan_check::Approved;
use plan_runs::{Entry, Event};
use ring_names::Refusal;
use ring_work::drive;
use script_text::Script;
use std::slice;
use std::sync::Wait;
use std::thread::Threads;

// The last step mirrors a slot of partition 0 to d. It must wait while d keeps a hint for another slot there.
const PLAN: &[u8] = b"plan 1\nmirror 1 0 d\ncopy 1 0 owner after 0\nmirror 0 2 d after 1\nend\n";

const CHAINS: &[u8] = b"cert 1\nchain a 1\nchain d 1\nend\n";

// The key is in partition 0, so d keeps a hint for b.
const SCRIPT: &[u8] = b"script 1\ndown b\nput w1 a x31\nup b\nend\n";

fn is_behind_handoff(history: &[Entry], step: u32) -> bool {
    let mut handed = false;
    for entry in history {
        match &entry.event {
            Event::Handoff(_, _) => handed = true,
            Event::Do(done) => {
                if *done == step {
                    return handed;
                }
            }
            _ => {}
        }
    }
    false
}

// Whether the last step follows the handoff. The worker goes on from the copy once the client's put has ended.
fn drive_behind<RT: AllocGlobal + Threads + Wait + Sync>(
    rt: &RT,
    approved: &Approved,
    script: &Script,
) -> Result<bool, Refusal>
    requires { list_all is_client_event script.now ≡ true }
{
    match drive(
        rt,
        rt.alloc(),
        approved,
        slice::from_ref(script),
        1,
        &Behind::new(2),
    ) {
        Ok(outcome) => Ok(is_behind_handoff(outcome.history.as_slice(), 2)),
        Err(fault) => Err(fault.refusal),
    }
}

fn waits<RT: AllocGlobal + Threads + Wait + Sync>(rt: &RT) -> Result<bool, Refusal> {
    let ring = ring(rt.alloc(), FOUR)?;
    let script = script(rt.alloc(), &ring, SCRIPT)?;
    let approved = approved(rt.alloc(), ring, PLAN, CHAINS)?;
    drive_behind(rt, &approved, &script)
}

#[test]
fn a_mirror_that_waits_for_a_handoff(rt: HostRuntime) {
    assert_eq!(rt; waits(&rt), Ok(true));
}
