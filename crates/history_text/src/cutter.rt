//! A history read line by line, and cut.

ghost use Rattle.std.specs.Prelude.{◌≡◌, ◌≢◌, ◌+◌, ◌<◌, ◌++◌, List, length, IfErr, OnOk};
ghost use Rattle.ring_names.specs.declared.refusal.Refusal.TheVariants.{OutOfMemory};
ghost use Rattle.history_text.specs.State.{IsRun, Refuses, started};
ghost use Rattle.history_text.specs.Cutter.{CutsOne, CutsMany, CutsSome, HasRoom};

use crate::place::Place;
use crate::reader::Reader;
use crate::room::PartText;
use history_laws::Cut;
use plan_runs::Entry;
use ring_names::{Names, Refusal};
use ring_table::Ring;
use std::alloc::Global;

/// A history's part so far.
#[derive(Drop)]
pub struct Kept<'a> {
    pub cut: Cut<'a>,
    pub part: PartText,
    pub place: Place,
}

/// A partly read history, and its part so far. Does not keep entries.
#[derive(Drop)]
pub struct Cutter<'a> {
    pub reader: Reader<'a>,
    pub kept: Kept<'a>,
}

impl<'a> Kept<'a> {
    fn keep(
        &mut self,
        alloc: Global,
        ring: &Ring,
        writers: &Names,
        entry: &Entry,
    ) -> Result<(), Refusal>
        requires puts { length self.old.cut.puts < 4294967295 }
        requires gets { length self.old.cut.gets < 4294967295 }
        ensures ok { OnOk result (CutsOne self.old self.new ring.now writers.now entry.now) }
        ensures memory { IfErr result (λ e. e ≡ OutOfMemory) }
    {
        let kept = self.cut.entry(alloc, entry)?;
        self.place.count(kept.is_some(), self.part.entries);
        if let Some(kept) = kept {
            self.part.push_entry(ring, writers, &kept)?;
        }
        Ok(())
    }

    fn keep_all(
        &mut self,
        alloc: Global,
        ring: &Ring,
        writers: &Names,
        entries: &[Entry],
    ) -> Result<(), Refusal>
        requires { length self.old.cut.puts + length self.old.cut.gets + started entries.now < 4294967295 }
        ensures ok { OnOk result (CutsMany self.old self.new ring.now writers.now entries.now) }
        ensures memory { IfErr result (λ e. e ≡ OutOfMemory) }
    {
        for entry in entries.iter() {
            self.keep(alloc, ring, writers, entry)?;
        }
        Ok(())
    }
}

impl<'a> Cutter<'a> {
    /// Reads the whole lines of `left` and the following `more`, and cuts their entries.
    pub fn cut_some(
        &mut self,
        alloc: Global,
        left: &mut Vec<u8>,
        more: &[u8],
    ) -> Result<(), Refusal>
        requires room { HasRoom self.old }
        requires run { IsRun left.old.items }
        ensures room { OnOk result (HasRoom self.new) }
        ensures ok { OnOk result (CutsSome self.old self.new (left.old.items ++ more.now) left.new.items) }
        ensures err { IfErr result (λ e. e ≢ OutOfMemory → Refuses self.old.reader self.new.reader (left.old.items ++ more.now) e) }
    {
        self.reader.take_some(alloc, left, more)?;
        let reader = &mut self.reader;
        self.kept.keep_all(
            alloc,
            reader.ring,
            &reader.writers,
            reader.entries.as_slice(),
        )?;
        reader.entries.clear();
        Ok(())
    }
}
