//! A watch at rest, without its borrowed plan.

ghost use Rattle.std.specs.Prelude.{◌≡◌, ◌≢◌, ◌≤◌, ◌++◌, ◌↔◌, ℕ, List, IsTrue, IfOk, IfErr, OnOk};
ghost use Rattle.ring_names.specs.declared.refusal.Refusal.TheVariants.{OutOfMemory};
ghost use Rattle.ring_table.specs.Value.{RingValue};
ghost use Rattle.plan_text.specs.declared.step.Planned.{Planned};
ghost use Rattle.history_text.specs.declared.reader.Stage.TheVariants.{Over};
ghost use Rattle.ring_core.specs.World.{ring_of, plan_of};
ghost use Rattle.history_watch.specs.declared.resting.State.TheVariants.{Going};
ghost use Rattle.history_watch.specs.Watching.{HasRoom, IsAnswer, IsCutOff, IsJudged, IsRefused, IsWatching};
ghost use Rattle.history_watch.specs.Pausing.{IsReady, IsReadyState, IsAt, IsOverAt, answer_in, paused_of};

use crate::watch::Watch;
use history_text::{Reader, Stage};
use plan_check::Approved;
use ring_core::{Rest, World};
use ring_names::{Names, Refusal};
use std::alloc::Global;

/// A watch at rest.
#[derive(Drop)]
pub struct Paused {
    pub rest: Rest,
    pub writers: Names,
    /// The next line's number.
    pub line: u32,
    pub stage: Stage,
    /// How many puts and gets started.
    pub started: u32,
    /// An unfinished line's bytes.
    pub left: Vec<u8>,
}

/// What a judge does with the next bytes.
#[derive(Drop)]
pub enum State {
    /// Follows their entries.
    Going(Paused),
    /// Returns this refusal.
    Refused(Refusal),
}

impl State {
    pub(crate) fn answer(&self) -> Result<(), Refusal>
        ensures { result ≡ answer_in self.now }
    {
        match self {
            State::Going(_) => Ok(()),
            State::Refused(refusal) => Err(*refusal),
        }
    }

    pub(crate) fn is_over(&self) -> bool
        ensures { IsTrue result ↔ IsOverAt self.now }
    {
        match self {
            State::Going(paused) => paused.is_over(),
            State::Refused(_) => false,
        }
    }
}

impl Paused {
    fn is_over(&self) -> bool
        ensures { IsTrue result ↔ (self.now.stage ≡ Over) }
    {
        match self.stage {
            Stage::Over => true,
            _ => false,
        }
    }
}

impl<'a> Watch<'a> {
    /// Puts the watch to rest.
    pub(crate) fn pause(self) -> Paused
        requires { HasRoom self }
        ensures paused { result ≡ paused_of self.entry }
        ensures ready { IsReady (ring_of self.entry.world) (plan_of self.entry.world) self.entry.count result }
    {
        let Watch {
            reader,
            left,
            world,
            ..
        } = self;
        let Reader {
            writers,
            line,
            stage,
            started,
            ..
        } = reader;
        Paused {
            rest: world.rest(),
            writers,
            line,
            stage,
            started,
            left,
        }
    }

    pub(crate) fn resume(
        alloc: Global,
        approved: &'a Approved,
        paused: Paused,
        count: u32,
    ) -> Watch<'a>
        requires { IsReady approved.now.ring approved.now.plan count paused }
        ensures room { HasRoom result }
        ensures ring { ring_of result.world ≡ approved.now.ring }
        ensures plan { plan_of result.world ≡ approved.now.plan }
        ensures count { result.count ≡ count }
        ensures paused { paused_of result ≡ paused }
        ensures watching { (ring : RingValue) (plan : List Planned) (bytes : List ℕ) (so : IsAt ring plan bytes approved.now count (Going paused))
            → (iw : IsWatching ring plan bytes result) × (iw.said ≡ so.is.said) }
    {
        let Paused {
            rest,
            writers,
            line,
            stage,
            started,
            left,
        } = paused;
        Watch {
            ring: approved.ring(),
            reader: Reader {
                ring: approved.ring(),
                writers,
                line,
                stage,
                started,
                entries: Vec::new(alloc),
            },
            left,
            world: World::resume(approved, rest),
            count,
        }
    }
}

#[derive(Drop)]
pub(crate) struct Taken {
    pub(crate) state: State,
    pub(crate) count: u32,
}

pub(crate) fn take_more(
    alloc: Global,
    approved: &Approved,
    paused: Paused,
    count: u32,
    bytes: &[u8],
) -> Taken
    requires { IsReady approved.now.ring approved.now.plan count paused }
    ensures ready { IsReadyState approved.now.ring approved.now.plan result.count result.state }
    ensures ok { OnOk (answer_in result.state) ((ring : RingValue) (plan : List Planned) (before : List ℕ) → IsAt ring plan before approved.now count (Going paused) → IsAt ring plan (before ++ bytes.now) approved.now result.count result.state) }
    ensures err { IfErr (answer_in result.state) (λ e. e ≢ OutOfMemory → (ring : RingValue) (plan : List Planned) (before : List ℕ) → IsAt ring plan before approved.now count (Going paused) → IsRefused ring plan (before ++ bytes.now) e) }
    ensures judged { (ring : RingValue) (plan : List Planned) (before : List ℕ) → IsAt ring plan before approved.now count (Going paused) → IsJudged ring plan (before ++ bytes.now) result.count }
    ensures counts { count ≤ result.count }
{
    let mut watch = Watch::resume(alloc, approved, paused, count);
    let taken = watch.take(alloc, bytes);
    let count = watch.count();
    match taken {
        Ok(()) => Taken {
            state: State::Going(watch.pause()),
            count,
        },
        Err(refusal) => Taken {
            state: State::Refused(refusal),
            count,
        },
    }
}

/// A watch's answer at the end, and the watch at rest.
#[derive(Drop)]
pub(crate) struct Ended {
    pub(crate) paused: Paused,
    pub(crate) found: Result<Vec<u8>, Refusal>,
}

pub(crate) fn finish(alloc: Global, approved: &Approved, paused: Paused, count: u32) -> Ended
    requires { IsReady approved.now.ring approved.now.plan count paused }
    ensures paused { result.paused ≡ paused }
    ensures ok { IfOk result.found (λ text. (ring : RingValue) (plan : List Planned) (bytes : List ℕ) (so : IsAt ring plan bytes approved.now count (Going paused)) → IsAnswer ring plan bytes so.watch so.is.said text.items) }
    ensures err { IfErr result.found (λ e. e ≢ OutOfMemory → (ring : RingValue) (plan : List Planned) (bytes : List ℕ) → IsAt ring plan bytes approved.now count (Going paused) → IsCutOff ring plan bytes e) }
    ensures over { IfErr result.found (λ e. paused.stage ≡ Over → e ≡ OutOfMemory) }
{
    let watch = Watch::resume(alloc, approved, paused, count);
    let found = watch.end(alloc);
    Ended {
        paused: watch.pause(),
        found,
    }
}
