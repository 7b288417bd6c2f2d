//! Tests each call with enough room, too little and none, an empty input, a refused bundle and refused options.

use crate::handle::Handle;
use crate::{
    ringplan_call, ringplan_check, ringplan_migrate, ringplan_plan, ringplan_play, ringplan_replay,
    ringplan_version, ringplan_watch_count, ringplan_watch_end, ringplan_watch_free,
    ringplan_watch_new, ringplan_watch_take,
};
use ringplan_answers::Job;
use std::alloc::Global;
use std::process::Abort;

// A ring of one slot, and more text.
macro_rules! behind_ring {
    ($text:literal) => {
        concat!("ring 1\nspace 1\nquorum 1 1 1\nnode a 1 in\nslots 0 a\nend\n", $text)
    };
}

// An empty plan and its certificate.
const BUNDLE: &str = behind_ring!("plan 1\nend\ncert 1\nend\n");

const CHANGE: &str = behind_ring!("change 1\nend\n");

// The bundle with a script, and with its history.
const SCRIPT: &str = behind_ring!("plan 1\nend\ncert 1\nend\nscript 1\nput w1 k x31\nend\n");

const HISTORY: &str = behind_ring!(
    "plan 1\nend\ncert 1\nend\nhistory 1\nput w1 k x31 = put 0\nend\n"
);

// A ring whose reads ask two slots.
const REFUSED: &str =
    "ring 1\nspace 1\nquorum 1 2 1\nnode a 1 in\nslots 0 a\nend\nplan 1\nend\ncert 1\nend\n";

const MIGRATED: &str =
    "ring 2\nspace 1\nquorum 1 1 1\nnode a 1 in\nslots 0 a\nend\nplan 1\nend\ncert 2\nend\n";

fn call(alloc: Global, job: Job, input: &[u8], room: &mut [u8], length: &mut usize) -> u8 {
    match job {
        Job::Check => ringplan_check(alloc, input, room, length),
        Job::Plan => ringplan_plan(alloc, input, room, length),
        Job::Play => ringplan_play(alloc, input, room, length),
        Job::Migrate => ringplan_migrate(alloc, input, room, length),
        Job::Replay => ringplan_replay(alloc, input, room, length),
    }
}

// Checks a call's status, length and room.
fn ends<RT: AllocGlobal + Abort>(
    rt: &RT,
    job: Job,
    input: &str,
    room: &mut [u8],
    wanted: (u8, usize, &str),
) {
    let mut length = 0;
    let status = call(rt.alloc(), job, input.as_bytes(), room, &mut length);
    assert_eq!(rt; (status, length), (wanted.0, wanted.1));
    assert_eq!(rt; &*room, wanted.2.as_bytes());
}

#[test]
fn tells_its_version(rt: HostRuntime) {
    assert_eq!(rt; ringplan_version(), 2);
}

#[test]
fn answers_each_job(rt: HostRuntime) {
    let plan = "plan 1\nend\ncert 1\nend\n";
    let played = "yes\n0 put 0\nslots 0 a\nend\n";
    let replayed = "yes\nslots 0 a\nend\n";
    ends(&rt, Job::Check, BUNDLE, &mut [b' '; 6], (0, 4, "yes\n  "));
    ends(&rt, Job::Plan, CHANGE, &mut [b' '; 22], (0, 22, plan));
    ends(&rt, Job::Play, SCRIPT, &mut [b' '; 26], (0, 26, played));
    ends(
        &rt,
        Job::Migrate,
        BUNDLE,
        &mut [b' '; 76],
        (0, 76, MIGRATED),
    );
    ends(
        &rt,
        Job::Replay,
        HISTORY,
        &mut [b' '; 18],
        (0, 18, replayed),
    );
}

#[test]
fn refuses_texts(rt: HostRuntime) {
    ends(
        &rt,
        Job::Check,
        REFUSED,
        &mut [b' '; 8],
        (2, 8, "no 10 3\n"),
    );
    ends(&rt, Job::Check, "", &mut [b' '; 7], (2, 7, "no 1 1\n"));
}

#[test]
fn leaves_a_room_that_is_too_small(rt: HostRuntime) {
    ends(&rt, Job::Check, BUNDLE, &mut [b' '; 3], (4, 4, "   "));
    ends(&rt, Job::Check, BUNDLE, &mut [], (4, 4, ""));
}

// Checks status, length of standard error, and room.
fn says<RT: AllocGlobal + Abort>(
    rt: &RT,
    command: &str,
    options: &str,
    input: &str,
    room: &mut [u8],
    wanted: (u8, usize, &str),
) {
    let (mut length, mut errors) = (0, 0);
    let status = ringplan_call(
        rt.alloc(),
        command.as_bytes(),
        options.as_bytes(),
        input.as_bytes(),
        room,
        &mut length,
        &mut errors,
    );
    assert_eq!(rt;
        (status, length, errors),
        (wanted.0, wanted.2.len(), wanted.1)
    );
    assert_eq!(rt; &*room, wanted.2.as_bytes());
}

#[test]
fn speaks_of_texts(rt: HostRuntime) {
    let ring = behind_ring!("");
    let planned = behind_ring!(
        "plan 1\nend\ncert 1\nend\nringplan: no racks are known. Name them in a layout (--layout), or give the byte before them (--racks-behind C)\nringplan: the plan has no steps: the ring is as wanted already\n"
    );
    let around = behind_ring!(
        "plan 1\nend\ncert 1\nend\nhistory 1\nput w1 k x31 = put 0\nend\nringplan: no racks are known. Name them in a layout (--layout), or give the byte before them (--racks-behind C)\n1 slot stays at a (1), which is dead; move such slots on by the next change\n"
    );
    let (exit, dead, rounds) = ("--exit-code", "--dead\0a\0", "--rounds\0001\0");
    says(&rt, "goal", exit, CHANGE, &mut [0; 251], (0, 175, planned));
    says(
        &rt,
        "around",
        dead,
        HISTORY,
        &mut [0; 299],
        (0, 188, around),
    );
    says(&rt, "windows", rounds, BUNDLE, &mut [0; 76], (0, 0, BUNDLE));
    says(&rt, "after", "", BUNDLE, &mut [0; 54], (0, 0, ring));
    says(&rt, "cert", "", BUNDLE, &mut [0; 76], (0, 0, BUNDLE));
    says(&rt, "steps", "--moves", BUNDLE, &mut [], (0, 0, ""));
}

#[test]
fn speaks_of_words(rt: HostRuntime) {
    let shown = concat!(
        "{\"answer\":\"yes\",\"joins\":[],\"leaves\":[],\"moves\":0,\"nodes\":[{\"bears\":1,\"begin\":1,\"end\":1,\"gives\":0,",
        "\"is_dead\":false,\"is_down\":false,\"is_member\":true,\"name\":\"a\",\"slots\":1,\"takes\":0}],\"rounds\":0,\"steps\":0}\n"
    );
    let none =
        "no 1 1\nrefused: the input is empty\n  A bundle begins with a ring, whose first line is `ring 1`, `ring 2` or `ring 3`.\n";
    let json = "--format\0json\0";
    says(&rt, "show", json, BUNDLE, &mut [0; 201], (0, 0, shown));
    says(&rt, "why", "", "", &mut [0; 118], (2, 0, none));
    says(&rt, "after", "", "", &mut [0; 118], (2, 118, none));
    let (mut length, mut errors) = (0, 9);
    let mut room = [0; 2383];
    let status = ringplan_call(
        rt.alloc(),
        b"draw",
        b"",
        BUNDLE.as_bytes(),
        &mut room,
        &mut length,
        &mut errors,
    );
    assert_eq!(rt; (status, length, errors), (0, 2383, 0));
    assert!(rt; room.starts_with(b"<svg ") && room.ends_with(b"</svg>\n"));
}

#[test]
fn refuses_options(rt: HostRuntime) {
    let files = "error: a call reads and writes no files\n\nFor more information, try '--help'.\n";
    let color =
        "error: invalid value for '--color <WHEN>': not auto, always or never\n\nFor more information, try '--help'.\n";
    let (output, sizes) = ("-o\0plan", "--format\0json\0--layout\0layout");
    says(&rt, "goal", output, CHANGE, &mut [0; 77], (2, 77, files));
    says(&rt, "goal", sizes, CHANGE, &mut [0; 77], (2, 77, files));
    says(&rt, "show", sizes, CHANGE, &mut [0; 77], (2, 77, files));
    says(&rt, "cert", "bundle", BUNDLE, &mut [0; 77], (2, 77, files));
    says(
        &rt,
        "why",
        "--color\0no",
        BUNDLE,
        &mut [0; 106],
        (2, 106, color),
    );
    let (mut length, mut errors) = (0, 0);
    let status = ringplan_call(
        rt.alloc(),
        b"why",
        b"\xff",
        b"",
        &mut [],
        &mut length,
        &mut errors,
    );
    assert_eq!(rt; (status, length, errors), (4, 123, 123));
}

#[test]
fn names_the_calls_of_what_is_not_for_people(rt: HostRuntime) {
    let calls =
        "error: ringplan_call is for the commands for people; ringplan_check, ringplan_plan, ringplan_play, ringplan_migrate and ringplan_replay are calls of their own\n";
    says(&rt, "play", "", SCRIPT, &mut [0; 159], (2, 159, calls));
    says(&rt, "man", "", "", &mut [0; 159], (2, 159, calls));
}

#[test]
fn leaves_a_room_that_is_too_small_for_both(rt: HostRuntime) {
    let (mut length, mut errors) = (0, 0);
    let mut room = [b' '; 138];
    let status = ringplan_call(
        rt.alloc(),
        b"goal",
        b"",
        CHANGE.as_bytes(),
        &mut room,
        &mut length,
        &mut errors,
    );
    assert_eq!(rt; (status, length, errors), (4, 251, 175));
    assert!(rt; room.iter().all(|byte| *byte == b' '));
}

// Checks how a watch takes bytes, and its number of entries.
fn takes<RT: AllocGlobal + Abort>(
    rt: &RT,
    handle: &mut Handle,
    bytes: &str,
    wanted: (u8, &str, u32),
) {
    let (mut room, mut length) = ([0; 32], 0);
    assert!(rt; handle.is_held());
    if handle.is_held() {
        let status = ringplan_watch_take(
            rt.alloc(),
            handle,
            bytes.as_bytes(),
            &mut room,
            &mut length,
        );
        assert_eq!(rt; (status, length), (wanted.0, wanted.1.len()));
        assert!(rt; room.starts_with(wanted.1.as_bytes()));
    }
    if handle.is_held() {
        assert_eq!(rt; ringplan_watch_count(rt.alloc(), handle), wanted.2);
    }
}

fn ends_watch<RT: AllocGlobal + Abort>(rt: &RT, handle: &mut Handle, wanted: (u8, &str)) {
    let (mut room, mut length) = ([0; 32], 0);
    assert!(rt; handle.is_held());
    if handle.is_held() {
        let status = ringplan_watch_end(rt.alloc(), handle, &mut room, &mut length);
        assert_eq!(rt; (status, length), (wanted.0, wanted.1.len()));
        assert!(rt; room.starts_with(wanted.1.as_bytes()));
    }
}

#[test]
fn watches_a_history(rt: HostRuntime) {
    let mut handle = Handle::empty();
    let mut length = 9;
    let status = ringplan_watch_new(
        rt.alloc(),
        &mut handle,
        BUNDLE.as_bytes(),
        &mut [],
        &mut length,
    );
    assert_eq!(rt; (status, length), (0, 0));
    takes(&rt, &mut handle, "history 1\nput w1 k x31 = pu", (0, "", 0));
    ends_watch(&rt, &mut handle, (2, "no 1 2\n"));
    takes(&rt, &mut handle, "t 0\n", (0, "", 1));
    ends_watch(&rt, &mut handle, (0, "yes\nslots 0 a\nend\n"));
    takes(
        &rt,
        &mut handle,
        "put w1 k x31 = put 7\n",
        (1, "no 70 1 0\n", 1),
    );
    takes(&rt, &mut handle, "", (1, "no 70 1 0\n", 1));
    ends_watch(&rt, &mut handle, (1, "no 70 1 0\n"));
    ringplan_watch_free(rt.alloc(), &mut handle);
    ringplan_watch_free(rt.alloc(), &mut handle);
    assert!(rt; !handle.is_held());
}

#[test]
fn begins_no_watch_by_a_refused_bundle(rt: HostRuntime) {
    let mut handle = Handle::empty();
    let (mut room, mut length) = ([0; 8], 0);
    let status = ringplan_watch_new(
        rt.alloc(),
        &mut handle,
        REFUSED.as_bytes(),
        &mut room,
        &mut length,
    );
    assert_eq!(rt; (status, length, handle.is_held()), (2, 8, false));
    assert_eq!(rt; &room, b"no 10 3\n");
    ringplan_watch_free(rt.alloc(), &mut handle);
}
