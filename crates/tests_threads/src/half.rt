//! Eight clients during a plan that moves half of the slots.

ghost use Rattle.std.specs.Prelude.{◌<◌, ◌≤◌};
ghost use Rattle.ring_work.specs.Drives.{IsDrive};

use crate::came::{Came, drive_all};
use plan_check::{OpenGate, Turned, check};
use ring_names::Refusal;
use ring_work::{DriveBundle, read_drive};
use std::process::Abort;
use std::sync::Wait;
use std::thread::Threads;

// Each of eight partitions moves one or two slots, all from a, b and c, which retire, to g, h and i, which join. The
// scripts take seven of nine nodes down and up.
const HALF: &[u8] =
    b"ring 1\nspace 8\nquorum 3 2 2\nnode a 4 in\nnode b 4 in\nnode c 4 in\nnode d 4 in\nnode e 4 in\nnode f 4 in\nnode g 4 out\nnode h 4 out\n\
    node i 4 out\nslots 0 a c e\nslots 1 b d f\nslots 2 c e a\nslots 3 d f b\nslots 4 e a c\nslots 5 f b d\nslots 6 a c e\nslots 7 b d f\nend\n\
    plan 1\njoin g\njoin h\njoin i\nmirror 0 0 g after 0\ncopy 0 0 owner after 3\nswitch 0 0 after 4\ndrop 0 0 a after 5\nmirror 0 1 i after 2\n\
    copy 0 1 owner after 7\nswitch 0 1 after 8\ndrop 0 1 c after 9\nmirror 1 0 h after 1\ncopy 1 0 owner after 11\nswitch 1 0 after 12\n\
    drop 1 0 b after 13\nmirror 2 0 i after 2\ncopy 2 0 owner after 15\nswitch 2 0 after 16\ndrop 2 0 c after 17\nmirror 2 2 g after 0\n\
    copy 2 2 owner after 19\nswitch 2 2 after 20\ndrop 2 2 a after 21\nmirror 3 2 h after 1\ncopy 3 2 owner after 23\nswitch 3 2 after 24\n\
    drop 3 2 b after 25\nmirror 4 1 g after 0\ncopy 4 1 owner after 27\nswitch 4 1 after 28\ndrop 4 1 a after 29\nmirror 4 2 i after 2\n\
    copy 4 2 owner after 31\nswitch 4 2 after 32\ndrop 4 2 c after 33\nmirror 5 1 h after 1\ncopy 5 1 owner after 35\nswitch 5 1 after 36\n\
    drop 5 1 b after 37\nmirror 6 0 g after 0\ncopy 6 0 owner after 39\nswitch 6 0 after 40\ndrop 6 0 a after 41\nmirror 6 1 i after 2\n\
    copy 6 1 owner after 43\nswitch 6 1 after 44\ndrop 6 1 c after 45\nmirror 7 0 h after 1\ncopy 7 0 owner after 47\nswitch 7 0 after 48\n\
    drop 7 0 b after 49\nretire a after 6 22 30 42\nretire b after 14 26 38 50\nretire c after 10 18 34 46\nend\ncert 1\nchain a 4\nchain a 20\n\
    chain a 28\nchain a 40\nchain b 12\nchain b 24\nchain b 36\nchain b 48\nchain c 8\nchain c 16\nchain c 32\nchain c 44\nchain g 4\n\
    chain g 20\nchain g 28\nchain g 40\nchain h 12\nchain h 24\nchain h 36\nchain h 48\nchain i 8\nchain i 16\nchain i 32\nchain i 44\nend\n\
    script 1\nput w0 ka x30\nget ka\nput w0 ka x31 seen 0\nget ka\nget kb\nput w0 kb x32 seen 2\nend\nscript 1\ndown d\nput w1 kb x33\nget kb\n\
    up d\nput w1 kb x34 seen 0\nend\nscript 1\nput w2 kc x35\ndown e\nput w2 kd x36\nup e\nget kd\nget kc\nend\nscript 1\ndown f\n\
    put w3 ke x37\nput w3 kf x38\nup f\nget ke\nend\nscript 1\nget ka\ndown a\nput w4 kg x39\nget kg\nup a\nend\nscript 1\nput w5 kh x3a\n\
    down g\nget kh\nput w5 kh x3b seen 0\nup g\nend\nscript 1\ndown b\nput w6 ka x3c\nup b\nget ka\ndown b\nget kd\nup b\nend\nscript 1\n\
    get ke\nput w7 ke x3d seen 0\ndown h\nput w7 kc x3e\nup h\nget kc\nend\n";

fn drive_parts<RT: AllocGlobal + Threads + Wait + Sync>(
    rt: &RT,
    bundle: DriveBundle,
    workers: u32,
) -> Result<Came, Refusal>
    requires workers { (0 < workers) × (workers ≤ 64) }
    requires parts { IsDrive bundle }
{
    match check(rt.alloc(), bundle.ring, bundle.plan, &bundle.cert) {
        Ok(approved) => drive_all(rt, &approved, bundle.scripts.as_slice(), workers, &OpenGate),
        Err(Turned { refusal, .. }) => Err(refusal),
    }
}

fn drive_text<RT: AllocGlobal + Threads + Wait + Sync>(
    rt: &RT,
    text: &[u8],
    workers: u32,
) -> Result<Came, Refusal>
    requires { (0 < workers) × (workers ≤ 64) }
{
    let bundle = read_drive(rt.alloc(), text)?;
    drive_parts(rt, bundle, workers)
}

// The drive agrees with its threads and a store. Its steps are 258 events.
fn is_sound<RT: AllocGlobal + Threads + Wait + Sync + Abort>(rt: &RT, workers: u32)
    requires { (0 < workers) × (workers ≤ 64) }
{
    let came = drive_text(rt, HALF, workers).map(|came| (
        came.lists,
        came.agrees,
        came.replays,
        came.entries >= 258,
    ));
    assert_eq!(rt; came, Ok((workers as usize + 9, true, true, true)));
}

#[test]
fn half_of_a_ring_moves_beside_eight_clients(rt: HostRuntime) {
    for _ in 0..8 {
        is_sound(&rt, 2);
    }
    is_sound(&rt, 7);
}
