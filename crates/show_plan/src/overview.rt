//! A plan's summary.

use crate::change::{count_members, fewest_moves, push_change, push_moves};
use crate::domains::sharing;
use crate::failing::{all_pairs, count_crowded, count_shared, kept_by_one};
use crate::names::{NodeNames, push_many, push_names, push_quorum};
use crate::present::PresentRing;
use crate::rounds::push_rounds;
use crate::running::push_progress;
use crate::scene::Scene;
use crate::silent::{count_answering, push_failing, tell_silent};
use crate::span::SlotSpan;
use crate::table::push_table;
use crate::volumes::Volumes;
use crate::writing::{end_line, push_long, push_tenths, push_time};
use plan_moves::Progress;
use plan_text::Plan;
use ring_names::Refusal;
use ring_table::Ring;
use std::alloc::Global;
use texts::{Labels, Words, at, parts_of, small};

/// How much a summary shows.
#[derive(Clone, Copy, Debug, PartialEq, Eq)]
pub enum SummaryShape {
    /// At most 24 nodes, 12 rounds and 6 entries a round, and sums of the rest.
    Short,
    Whole,
}

/// How much the plan moves.
#[derive(Clone, Copy)]
pub struct Sized<'a> {
    pub volumes: &'a Volumes,
    /// One transfer's rate per second, from 1.
    pub rate: Option<u32>,
}

/// A summary's input.
#[derive(Clone, Copy)]
pub struct Overview<'a> {
    pub alloc: Global,
    pub ring: &'a Ring,
    pub names: NodeNames<'a>,
    pub plan: &'a Plan,
    pub scene: &'a Scene,
    /// The ring after the history, or before the first step.
    pub present: &'a PresentRing,
    pub progress: Option<&'a Progress>,
    pub shape: SummaryShape,
    pub sized: Option<Sized<'a>>,
    pub racks: Option<&'a Labels>,
}

const INDENT: usize = 12;

fn tell_change(view: &Overview, line: &mut Words) {
    push_change(line, view.names, view.scene);
    line.text(b" a ring of ");
    push_quorum(line, view.ring, b": any ", b", any ");
    line.byte(b'.');
}

fn tell_moves(view: &Overview, line: &mut Words) {
    let slots = view.scene.moved_slots;
    let total = view.ring.q().saturating_mul(view.ring.n());
    let moves = view.scene.move_count();
    line.text(b"  moves     ");
    if moves > slots {
        push_many(line, moves, b"move of ", b"moves of ");
    }
    line.number(slots);
    line.text(b" of ");
    push_many(line, total, b"slot (", b"slots (");
    line.number(parts_of(slots, total, 100));
    line.text(b" %)");
    push_fewest(view, line)
}

fn push_fewest(view: &Overview, line: &mut Words) {
    let moves = view.scene.move_count();
    let fewest = fewest_moves(view.ring, view.scene, view.present);
    let is_still = view.scene.joins.is_empty() && view.scene.leaves.is_empty();
    if is_still && fewest == 0 {
        return;
    }
    if moves == fewest {
        line.text(b", no more than must");
    }
    if moves > fewest {
        line.text(b", where ");
        line.number(fewest);
        line.text(b" would do");
    }
}

fn tell_round_count(view: &Overview, line: &mut Words) {
    line.text(b"  rounds    ");
    line.number(view.scene.round_count());
    line.text(b" of copies behind one another; the widest has ");
    line.number(view.scene.widest());
}

fn tell_sizes(line: &mut Words, sized: Sized) {
    let volumes = sized.volumes;
    line.text(b"  sizes     ");
    match &volumes.left {
        Some(left) => {
            push_long(line, left.moved);
            line.text(b" of ");
            push_long(line, volumes.moved);
            line.text(b" left; copies that wait for one another have up to ");
            push_long(line, left.longest);
            line.text(b" of it");
        }
        None => {
            push_long(line, volumes.moved);
            line.text(b" in all; copies that wait for one another have up to ");
            push_long(line, volumes.longest);
        }
    }
    if let Some(rate) = sized.rate {
        line.text(b", so at ");
        line.number(rate);
        line.text(match volumes.left {
            Some(_) => b" a second the rest ends in ".as_slice(),
            None => b" a second the plan ends in ".as_slice(),
        });
        push_time(line, volumes.earliest_end(rate));
        line.text(b" at the earliest");
    }
}

fn count_early(view: &Overview) -> u32 {
    let mut early = 0u32;
    for shown in view.scene.shown.moves.as_slice() {
        if shown.round > shown.opens.saturating_add(1) {
            early = early.saturating_add(1);
        }
    }
    early
}

fn count_listed(view: &Overview) -> u32 {
    let mut listed = 0u32;
    for shown in view.scene.shown.moves.as_slice() {
        if shown.is_listed {
            listed = listed.saturating_add(1);
        }
    }
    listed
}

fn tell_writes(view: &Overview, line: &mut Words) {
    line.text(b"  writes    twice for a slot while its mirror is open; ");
    let early = count_early(view);
    if early == 0 {
        line.text(b"each opens just before its copy");
        return;
    }
    push_many(
        line,
        early,
        b"mirror opens rounds before its copy",
        b"mirrors open rounds before their copies",
    )
}

fn tell_sources(line: &mut Words, listed: u32) {
    line.text(b"  sources   ");
    push_many(line, listed, b"copy reads", b"copies read");
    line.text(b" listed slots of the partition in place of the owner");
}

// Spans of answering members, now and finally.
fn spans_of(view: &Overview) -> (SlotSpan, SlotSpan) {
    let (mut now, mut then) = (SlotSpan::new(), SlotSpan::new());
    let loads = &view.scene.loads;
    for node in 0..small(view.ring.nodes().len()) {
        if view.present.is_silent(node) {
            continue;
        }
        if view.present.is_member(node) {
            now.add(at(view.present.owned.as_slice(), node as usize));
        }
        if view.scene.stays(view.ring, node) {
            then.add(at(loads.after.as_slice(), node as usize));
        }
    }
    (now, then)
}

fn tell_balance(view: &Overview, line: &mut Words) {
    let total = view.ring.q().saturating_mul(view.ring.n());
    let (now, then) = spans_of(view);
    line.text(if view.present.silent.is_empty() {
        b"  balance   a member owns ".as_slice()
    } else {
        b"  balance   a member that answers owns ".as_slice()
    });
    now.push(line);
    line.text(b" now and ");
    then.push(line);
    line.text(b" in the end; even would be ");
    let members = count_members(view.ring, view.scene, view.present);
    push_tenths(line, parts_of(total, members, 10))
}

fn tell_racks(view: &Overview, line: &mut Words, racks: &Labels) {
    let now = sharing(view.present.rows.as_slice(), racks);
    let then = sharing(view.scene.last_rows.as_slice(), racks);
    line.text(b"  racks     ");
    push_many(line, now, b"partition has", b"partitions have");
    line.text(b" two slots in one rack now, ");
    line.number(then);
    line.text(b" in the end");
    if then > now {
        line.text(b"   WORSE");
    }
}

fn tell_joiners(view: &Overview, line: &mut Words) -> Result<(), Refusal> {
    let rows = view.scene.last_rows.as_slice();
    let joins = view.scene.joins.as_slice();
    let crowded = count_crowded(view.alloc, view.ring, rows, joins)?;
    line.text(b"  joiners   ");
    if crowded == 0 {
        line.text(b"no partition has more than one slot on them");
        return Ok(());
    }
    push_many(line, crowded, b"partition has", b"partitions have");
    line.text(b" two slots or more on them");
    Ok(())
}

fn tell_hints(view: &Overview, out: &mut Words, line: &mut Words) -> Result<(), Refusal> {
    let Some(progress) = view.progress else {
        return Ok(());
    };
    let silent = view.present.silent.as_slice();
    let (count, keepers) = progress.kept.of_nodes(view.alloc, silent)?;
    if count == 0 {
        return Ok(());
    }
    line.text(b"  hints     ");
    push_many(line, count, b"slot waits", b"slots wait");
    line.text(b" for hints that ");
    push_names(line, view.names, keepers.as_slice(), 6);
    line.text(if keepers.len() == 1 {
        b" keeps until it is up"
    } else {
        b" keep until they are up"
    });
    end_line(out, line, INDENT);
    Ok(())
}

fn tell_one_fails(view: &Overview, line: &mut Words) -> Result<(), Refusal> {
    let (ring, present) = (view.ring, view.present);
    push_failing(line, view.names, present, b"  if one fails   ");
    let now = kept_by_one(view.alloc, ring, present.rows.as_slice(), present)?;
    line.number(now);
    line.text(b" of ");
    push_many(
        line,
        ring.q(),
        b"partition still answers",
        b"partitions still answer",
    );
    line.text(b" reads and writes now, ");
    let then = kept_by_one(view.alloc, ring, view.scene.last_rows.as_slice(), present)?;
    line.number(then);
    line.text(b" in the end");
    Ok(())
}

fn tell_two_fail(view: &Overview, line: &mut Words) -> Result<(), Refusal> {
    let (ring, present) = (view.ring, view.present);
    let now = count_shared(view.alloc, ring, present.rows.as_slice(), present)?;
    let then = count_shared(view.alloc, ring, view.scene.last_rows.as_slice(), present)?;
    push_failing(line, view.names, present, b"  if two fail    ");
    line.text(b"at most ");
    push_many(line, now.most, b"partition loses", b"partitions lose");
    line.text(b" two slots now, ");
    let pairs = all_pairs(count_answering(ring, present));
    push_tenths(line, parts_of(now.sum, pairs, 10));
    line.text(b" on average; ");
    line.number(then.most);
    line.text(b" and ");
    let pairs = all_pairs(count_members(ring, view.scene, present));
    push_tenths(line, parts_of(then.sum, pairs, 10));
    line.text(b" in the end");
    Ok(())
}

fn push_total(view: &Overview, out: &mut Words) {
    let scene = view.scene;
    out.text(b"Plan: ");
    out.number(small(scene.joins.len()));
    out.text(b" to join, ");
    out.number(small(scene.leaves.len()));
    out.text(b" to leave, ");
    push_moves(out, scene, b"slot to move", b"slots to move");
    out.text(b" in ");
    push_many(out, scene.round_count(), b"round.\n", b"rounds.\n");
}

fn push_overview(view: &Overview, out: &mut Words, line: &mut Words) -> Result<(), Refusal> {
    tell_change(view, line);
    end_line(out, line, 2);
    out.byte(b'\n');
    if !view.present.silent.is_empty() {
        tell_silent(view.alloc, view.names, view.present, line)?;
        end_line(out, line, INDENT);
        tell_hints(view, out, line)?;
    }
    push_motion(view, out, line);
    tell_balance(view, line);
    end_line(out, line, INDENT);
    if let Some(racks) = view.racks {
        tell_racks(view, line, racks);
        end_line(out, line, INDENT);
    }
    if !view.scene.joins.is_empty() {
        tell_joiners(view, line)?;
        end_line(out, line, INDENT);
    }
    push_failures(view, out, line)?;
    out.byte(b'\n');
    Ok(())
}

fn push_motion(view: &Overview, out: &mut Words, line: &mut Words) {
    tell_moves(view, line);
    end_line(out, line, INDENT);
    tell_round_count(view, line);
    end_line(out, line, INDENT);
    if let Some(sized) = view.sized {
        tell_sizes(line, sized);
        end_line(out, line, INDENT);
    }
    tell_writes(view, line);
    end_line(out, line, INDENT);
    let listed = count_listed(view);
    if listed > 0 {
        tell_sources(line, listed);
        end_line(out, line, INDENT);
    }
}

fn push_failures(view: &Overview, out: &mut Words, line: &mut Words) -> Result<(), Refusal> {
    tell_one_fails(view, line)?;
    end_line(out, line, INDENT);
    tell_two_fail(view, line)?;
    end_line(out, line, INDENT);
    Ok(())
}

fn push_summary(view: &Overview, out: &mut Words, line: &mut Words) -> Result<(), Refusal> {
    push_overview(view, out, line)?;
    push_table(view, out, line)?;
    out.byte(b'\n');
    push_rounds(view, out, line)?;
    out.byte(b'\n');
    if let Some(progress) = view.progress {
        push_progress(view, out, line, progress);
    }
    push_total(view, out);
    Ok(())
}

/// Writes a plan's summary. Fails only with `OutOfMemory`.
///
/// Lines have at most 100 bytes, except rows with long names or large sizes.
pub fn summary(view: &Overview) -> Result<Vec<u8>, Refusal> {
    let mut out = Words::new(view.alloc);
    let mut line = Words::new(view.alloc);
    push_summary(view, &mut out, &mut line)?;
    line.end()?;
    out.end()
}
