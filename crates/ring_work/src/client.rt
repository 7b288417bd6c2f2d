//! Clients, which run scripts.

ghost use Rattle.std.specs.Prelude.{◌≡◌, ◌<◌, ℕ, true, length, vec_len, vec_capacity, IfOk, IfErr, IsTrue};
ghost use Rattle.ring_names.specs.declared.refusal.Refusal.TheVariants.{TurnsSpent};
ghost use Rattle.std.specs.List.{list_all};
ghost use Rattle.plan_runs.specs.Leaves.{starts_put, starts_get};
ghost use Rattle.ring_work.specs.Driven.{IsSpent, MayPass};

use crate::done::Done;
use crate::getting::{finish_get, start_get};
use crate::noting::{go_on, no_limit, submit};
use crate::putting::put_on;
use crate::site::{LockedStore, Site, is_set, set, wake};
use plan_check::Gate;
use plan_runs::{Event, Key, Seen};
use ring_board::{Asked, Receipt, all_ended, number_of};
use ring_exec::RunLedger;
use ring_names::Refusal;
use script_text::Script;
use std::alloc::Global;
use std::sync::Wait;

fn numbers(alloc: Global, asked: &[Asked], seen: &Seen) -> Result<Vec<u32>, Refusal> {
    let mut numbers = Vec::new(alloc);
    for get in seen.as_slice() {
        numbers.push(number_of(asked, *get))?;
    }
    Ok(numbers)
}

// Makes a put's start. Its gets have the history's numbers.
fn start_of(alloc: Global, asked: &[Asked], line: &Event) -> Result<Event, Refusal>
    ensures { IfOk result (λ start. starts_put start ≡ true) }
{
    let Event::StartPut(writer, key, value, seen) = line else {
        return Err(Refusal::Disagree);
    };
    // Later gets have greater numbers.
    let Some(seen) = Seen::of(alloc, numbers(alloc, asked, seen)?)? else {
        return Err(Refusal::Disagree);
    };
    let key = key.try_copy()?;
    let value = value.try_copy()?;
    Ok(Event::StartPut(*writer, key, value, seen))
}

fn after(refusal: Option<Refusal>) -> Result<(), Refusal> {
    match refusal {
        Some(refusal) => go_on(refusal),
        None => Ok(()),
    }
}

fn left_hints(receipts: &[Receipt], from: usize) -> bool {
    let Some(behind) = receipts.get(from..) else {
        return false;
    };
    for receipt in behind {
        if let Event::Hint(_, _, _) = receipt.event {
            return true;
        }
    }
    false
}

// Runs a put, if its gets are earlier ended gets of its key.
fn put_line<L: RunLedger, R: Wait, G: Gate>(
    site: &Site<L, R, G>,
    done: &mut Done<L>,
    asked: &[Asked],
    line: &Event,
) -> Result<(), Refusal> {
    let Event::StartPut(_, key, _, seen) = line else {
        return Ok(());
    };
    if !all_ended(asked, key, seen) {
        return Ok(());
    }
    let start = start_of(site.job.alloc, asked, line)?;
    let before = done.receipts.len();
    let refusal = put_on(site.store, &mut done.share, &mut done.receipts, &start);
    if left_hints(done.receipts.as_slice(), before) {
        wake(&site.flags.bell);
    }
    after(refusal)
}

fn get_line<L: RunLedger, R: Wait, G: Gate>(
    site: &Site<L, R, G>,
    done: &mut Done<L>,
    asked: &mut Vec<Asked>,
    key: &Key,
) -> Result<(), Refusal> {
    asked.reserve(1)?;
    let key = key.try_copy()?;
    let wanted = key.try_copy()?;
    let number = start_get(site.store, &mut done.share, &mut done.receipts, wanted)?;
    let refusal = finish_get(site.store, &mut done.share, &mut done.receipts, number);
    let ended = refusal.is_none();
    asked.push_reserved(Asked { number, key, ended });
    after(refusal)
}

fn node_line<L: RunLedger, R: Wait>(
    store: &LockedStore<L, R>,
    done: &mut Done<L>,
    line: &Event,
) -> Result<(), Refusal> {
    match submit(store, &mut done.share, &mut done.receipts, line) {
        Ok(()) => Ok(()),
        Err(refusal) => go_on(refusal),
    }
}

fn do_line<L: RunLedger, R: Wait, G: Gate>(
    site: &Site<L, R, G>,
    done: &mut Done<L>,
    asked: &mut Vec<Asked>,
    line: &Event,
) -> Result<(), Refusal> {
    match line {
        Event::StartPut(_, _, _, _) => put_line(site, done, asked.as_slice(), line),
        Event::StartGet(key) => get_line(site, done, asked, key),
        _ => node_line(site.store, done, line),
    }
}

// Returns whether all lines ran before all threads had to stop.
fn do_lines<L: RunLedger, R: Wait, G: Gate>(
    site: &Site<L, R, G>,
    done: &mut Done<L>,
    client: u32,
    lines: &[Event],
) -> Result<bool, Refusal>
    ensures passed { IfOk result (λ all. IsTrue all
        → MayPass (G.must_refuse site.now.job.now.gate.now) client (length lines.now)) }
    ensures spent { IfErr result (λ e. e ≡ TurnsSpent → (line : ℕ) × G.may_refuse site.now.job.now.gate.now client line) }
{
    let mut asked = Vec::new(site.job.alloc);
    for (number, line) in lines.iter().enumerate() {
        if is_set(&site.flags.stop) {
            return Ok(false);
        }
        if !site.job.gate.pass(site.job.rt, client, number as u64) {
            return Err(Refusal::TurnsSpent);
        }
        if let Err(refusal) = do_line(site, done, &mut asked, line) {
            return Err(no_limit(refusal));
        }
    }
    Ok(true)
}

/// Runs a script. A full history, lack of memory or a refusing gate stops all threads.
pub(crate) fn serve<L: RunLedger, R: Wait, G: Gate>(
    site: &Site<L, R, G>,
    done: Done<L>,
    client: u32,
    script: &Script,
) -> Done<L>
    ensures spent { IsSpent result.stopped → (line : ℕ) × G.may_refuse site.now.job.now.gate.now client line }
    ensures passed { IsTrue result.complete
        → MayPass (G.must_refuse site.now.job.now.gate.now) client (length script.now) }
{
    let mut done = done;
    match do_lines(site, &mut done, client, script.events()) {
        Ok(all) => {
            done.stopped = None;
            done.complete = all;
        }
        Err(refusal) => {
            set(&site.flags.stop);
            done.stopped = Some(refusal);
            done.complete = false;
        }
    }
    done
}
