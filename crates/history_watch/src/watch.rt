//! A judge's state.

ghost use Rattle.std.specs.Prelude.{◌≡◌, ◌≢◌, ◌≤◌, ◌+◌, ◌++◌, ◌↔◌, ℕ, List, [], IsTrue, length, IfOk, IfErr, OnOk};
ghost use Rattle.ring_names.specs.declared.refusal.Refusal.TheVariants.{OutOfMemory};
ghost use Rattle.ring_table.specs.Value.{RingValue};
ghost use Rattle.plan_text.specs.declared.step.Planned.{Planned};
ghost use Rattle.history_text.specs.declared.reader.Stage.TheVariants.{First, Over};
ghost use Rattle.ring_core.specs.World.{ring_of, plan_of, put_count, get_count};
ghost use Rattle.history_watch.specs.Watching.{HasRoom, IsWatching, IsRefused, IsJudged, IsAnswer, IsCutOff};
ghost use Rattle.history_watch.specs.Following.{FollowsAll, FailsIn, Reaches};
ghost use Rattle.history_watch.specs.Watching.{FollowsKept, KeepsPlan, is_whole};

use history_text::{Reader, Stage};
use plan_check::Approved;
use plan_runs::Entry;
use ring_core::{World, follow};
use ring_names::Refusal;
use ring_script::write_ending;
use ring_table::Ring;
use std::alloc::Global;

// The most entries counted.
const MOST: u32 = u32::MAX - 1;

/// A judge of a partly read history: a store that follows each entry as soon as its line is whole.
#[derive(Drop)]
pub struct Watch<'a> {
    pub ring: &'a Ring,
    pub reader: Reader<'a>,
    /// An unfinished line's bytes.
    pub left: Vec<u8>,
    pub world: World<'a>,
    /// How many entries were followed.
    pub count: u32,
}

fn is_memory(refusal: &Refusal) -> bool
    ensures { IsTrue result ↔ (refusal.now ≡ OutOfMemory) }
{
    match refusal {
        Refusal::OutOfMemory => true,
        _ => false,
    }
}

// Follows entries, and counts them. The 4,294,967,295th is `TooLarge`.
fn follow_all(
    world: &mut World,
    count: &mut u32,
    line: u32,
    entries: &[Entry],
) -> Result<(), Refusal>
    requires puts { put_count world.old ≤ count.old }
    requires gets { get_count world.old ≤ count.old }
    ensures puts { put_count world.new ≤ count.new + 1 }
    ensures ok { OnOk result (FollowsAll world.old world.new count.old count.new entries.now) }
    ensures err { IfErr result (λ e. e ≢ OutOfMemory → FailsIn world.old count.old line entries.now e) }
    ensures reaches { Reaches world.old count.old count.new entries.now }
{
    for (place, entry) in entries.iter().enumerate() {
        if *count >= MOST {
            return Err(Refusal::TooLarge(line));
        }
        follow(world, *count, entry)?;
        *count += 1;
    }
    Ok(())
}

impl<'a> Watch<'a> {
    /// Returns a watch before a history's first byte.
    pub fn start(alloc: Global, approved: &'a Approved) -> Result<Watch<'a>, Refusal>
        ensures ok { IfOk result (λ w. IsWatching approved.now.ring approved.now.plan [] w) }
        ensures room { IfOk result HasRoom }
        ensures first { IfOk result (λ w. (w.reader.stage ≡ First) × (w.count ≡ 0)) }
        ensures memory { IfErr result (λ e. e ≡ OutOfMemory) }
    {
        Ok(Watch {
            ring: approved.ring(),
            reader: Reader::of(alloc, approved.ring(), 1),
            left: Vec::new(alloc),
            world: World::start(alloc, approved)?,
            count: 0,
        })
    }

    /// Counts the entries followed.
    pub fn count(&self) -> u32
        ensures { result ≡ self.now.count }
    {
        self.count
    }

    /// Whether the line `end` has come.
    pub fn is_over(&self) -> bool
        ensures { IsTrue result ↔ (self.now.reader.stage ≡ Over) }
    {
        match self.reader.stage {
            Stage::Over => true,
            _ => false,
        }
    }

    // Follows the reader's entries, and takes them.
    fn follow_kept(&mut self) -> Result<(), Refusal>
        requires puts { put_count self.old.world ≤ self.old.count }
        requires gets { get_count self.old.world ≤ self.old.count }
        ensures ok { OnOk result (FollowsKept self.old self.new) }
        ensures err { IfErr result (λ e. e ≢ OutOfMemory → FailsIn self.old.world self.old.count self.old.reader.line self.old.reader.entries.items e) }
        ensures reaches { Reaches self.old.world self.old.count self.new.count self.old.reader.entries.items }
        ensures counts { self.old.count ≤ self.new.count }
    {
        let reader = &self.reader;
        follow_all(
            &mut self.world,
            &mut self.count,
            reader.line,
            reader.entries.as_slice(),
        )?;
        self.reader.entries.clear();
        Ok(())
    }

    /// Takes the history's next bytes, which may end anywhere. Ignores bytes after the line `end`.
    pub fn take(&mut self, alloc: Global, bytes: &[u8]) -> Result<(), Refusal>
        requires { HasRoom self.old }
        ensures room { OnOk result (HasRoom self.new) }
        ensures ok { OnOk result ((ring : RingValue) (plan : List Planned) (before : List ℕ) → IsWatching ring plan before self.old → IsWatching ring plan (before ++ bytes.now) self.new) }
        ensures err { IfErr result (λ e. e ≢ OutOfMemory → (ring : RingValue) (plan : List Planned) (before : List ℕ) → IsWatching ring plan before self.old → IsRefused ring plan (before ++ bytes.now) e) }
        ensures judged { (ring : RingValue) (plan : List Planned) (before : List ℕ) → IsWatching ring plan before self.old → IsJudged ring plan (before ++ bytes.now) self.new.count }
        ensures counts { self.old.count ≤ self.new.count }
        ensures plan { OnOk result (KeepsPlan self.old self.new) }
    {
        if self.is_over() {
            return Ok(());
        }
        match self.reader.take_some(alloc, &mut self.left, bytes) {
            Ok(()) => self.follow_kept(),
            Err(refusal) => {
                if is_memory(&refusal) {
                    return Err(refusal);
                }
                match self.follow_kept() {
                    Ok(()) => { if self.is_over() { Ok(()) } else { Err(refusal) } }
                    Err(fault) => Err(fault),
                }
            }
        }
    }

    /// Returns what a replay prints if no more bytes come. A history may stop after any whole line but the first.
    pub fn end(&self, alloc: Global) -> Result<Vec<u8>, Refusal>
        requires { HasRoom self.now }
        ensures ok { IfOk result (λ text. (ring : RingValue) (plan : List Planned) (bytes : List ℕ) (so : IsWatching ring plan bytes self.now) → IsAnswer ring plan bytes self.now so.said text.items) }
        ensures err { IfErr result (λ e. e ≢ OutOfMemory → (ring : RingValue) (plan : List Planned) (bytes : List ℕ) → IsWatching ring plan bytes self.now → IsCutOff ring plan bytes e) }
        ensures over { IfErr result (λ e. self.now.reader.stage ≡ Over → e ≡ OutOfMemory) }
    {
        if self.is_whole() {
            return write_ending(alloc, self.ring, &self.world);
        }
        Err(Refusal::BadLine(self.reader.line))
    }

    fn is_whole(&self) -> bool
        ensures { result ≡ is_whole self.now.reader.stage self.now.left.items }
    {
        match self.reader.stage {
            Stage::First => false,
            Stage::Entries => self.left.is_empty(),
            Stage::Over => true,
        }
    }
}
