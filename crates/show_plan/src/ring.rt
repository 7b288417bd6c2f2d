//! A ring without a plan.

use crate::domains::sharing;
use crate::failing::{all_pairs, count_shared, kept_by_one};
use crate::names::{NodeNames, push_many, push_quorum};
use crate::present::PresentRing;
use crate::silent::{count_answering, push_failing, tell_silent};
use crate::span::SlotSpan;
use crate::volumes::stored;
use crate::writing::{
    columns, end_line, push_left, push_long_right, push_number_right, push_right, push_spaces,
    push_tenths, width_of,
};
use ring_names::{NodeId, Refusal};
use ring_table::{Allowance, Node, Ring};
use std::alloc::Global;
use texts::{Labels, Words, at, parts_of, small, word};

const INDENT: usize = 12;

/// Facts besides the ring's text.
#[derive(Drop)]
pub struct RingFacts {
    pub racks: Option<Labels>,
    pub aliases: Option<Labels>,
    /// Sizes by partition.
    pub sizes: Option<Vec<u64>>,
    pub dead: Vec<NodeId>,
}

impl RingFacts {
    /// Each partition's size.
    pub fn sizes(&self) -> Option<&[u64]> {
        match &self.sizes {
            Some(sizes) => Some(sizes.as_slice()),
            None => None,
        }
    }
}

#[derive(Clone, Copy)]
struct RingState<'a> {
    alloc: Global,
    ring: &'a Ring,
    present: &'a PresentRing,
    facts: &'a RingFacts,
    // by node
    stored: &'a Option<Vec<u64>>,
}

impl<'a> RingState<'a> {
    // Aliases have their own column.
    fn names(&self) -> NodeNames<'a> {
        NodeNames::new(self.ring, None)
    }
}

#[derive(Clone, Copy)]
struct Widths {
    names: usize,
    aliases: usize,
    racks: usize,
    states: usize,
    sizes: usize,
}

fn tell_balance(state: &RingState, line: &mut Words) {
    let total = state.ring.q().saturating_mul(state.ring.n());
    let mut span = SlotSpan::new();
    for node in 0..small(state.ring.nodes().len()) {
        if state.present.is_member(node) && !state.present.is_silent(node) {
            span.add(at(state.present.owned.as_slice(), node as usize));
        }
    }
    line.text(if state.present.silent.is_empty() {
        b"  balance   a member owns ".as_slice()
    } else {
        b"  balance   a member that answers owns ".as_slice()
    });
    span.push(line);
    line.text(b"; even would be ");
    let members = count_answering(state.ring, state.present);
    push_tenths(line, parts_of(total, members, 10))
}

fn tell_racks(state: &RingState, line: &mut Words, racks: &Labels) {
    let shared = sharing(state.present.rows.as_slice(), racks);
    line.text(b"  racks     ");
    push_many(line, shared, b"partition has", b"partitions have");
    line.text(b" two slots in one rack");
}

fn tell_one_fails(state: &RingState, line: &mut Words) -> Result<(), Refusal> {
    let rows = state.present.rows.as_slice();
    push_failing(line, state.names(), state.present, b"  if one fails   ");
    line.number(kept_by_one(state.alloc, state.ring, rows, state.present)?);
    line.text(b" of ");
    push_many(
        line,
        state.ring.q(),
        b"partition still answers",
        b"partitions still answer",
    );
    line.text(b" reads and writes");
    Ok(())
}

fn tell_two_fail(state: &RingState, line: &mut Words) -> Result<(), Refusal> {
    let rows = state.present.rows.as_slice();
    let shared = count_shared(state.alloc, state.ring, rows, state.present)?;
    push_failing(line, state.names(), state.present, b"  if two fail    ");
    line.text(b"at most ");
    push_many(line, shared.most, b"partition loses", b"partitions lose");
    line.text(b" two slots, ");
    let pairs = all_pairs(count_answering(state.ring, state.present));
    push_tenths(line, parts_of(shared.sum, pairs, 10));
    line.text(b" on average");
    Ok(())
}

fn push_whole(state: &RingState, out: &mut Words, line: &mut Words) -> Result<(), Refusal> {
    line.text(b"A ring of ");
    push_quorum(line, state.ring, b": any ", b", any ");
    line.byte(b'.');
    end_line(out, line, 2);
    out.byte(b'\n');
    if !state.present.silent.is_empty() {
        tell_silent(state.alloc, state.names(), state.present, line)?;
        end_line(out, line, INDENT);
    }
    tell_balance(state, line);
    end_line(out, line, INDENT);
    if let Some(racks) = &state.facts.racks {
        tell_racks(state, line, racks);
        end_line(out, line, INDENT);
    }
    tell_one_fails(state, line)?;
    end_line(out, line, INDENT);
    tell_two_fail(state, line)?;
    end_line(out, line, INDENT);
    out.byte(b'\n');
    Ok(())
}

fn push_bears(out: &mut Words, allowance: Allowance) {
    match allowance {
        Allowance::Joint(most) => out.number(most),
        Allowance::Split { take, give } => {
            out.number(take);
            out.text(b" in, ");
            out.number(give);
            out.text(b" out");
        }
    }
}

fn state_of(state: &RingState, node: u32) -> &'static [u8] {
    match (state.present.is_member(node), state.present.is_dead(node)) {
        (true, false) => b"in",
        (false, false) => b"out",
        (true, true) => b"in, dead",
        (false, true) => b"out, dead",
    }
}

impl Widths {
    fn of(state: &RingState) -> Widths {
        let mut widths = Widths {
            names: 4,
            aliases: 5,
            racks: 4,
            states: 5,
            sizes: match state.stored {
                Some(stored) => width_of(stored.as_slice(), 4),
                None => 0,
            },
        };
        let mut number = 0u32;
        for node in state.ring.nodes() {
            widths.names = widths.names.max(node.name.as_slice().len());
            widths.states = widths.states.max(state_of(state, number).len());
            if let Some(aliases) = &state.facts.aliases {
                widths.aliases = widths.aliases.max(columns(aliases.name(number)));
            }
            if let Some(racks) = &state.facts.racks {
                widths.racks = widths.racks.max(racks.name(number).len());
            }
            number = number.saturating_add(1);
        }
        widths
    }

    fn push_head(&self, state: &RingState, out: &mut Words) {
        push_spaces(out, 4);
        push_left(out, b"node", self.names);
        if state.facts.aliases.is_some() {
            push_spaces(out, 2);
            push_left(out, b"alias", self.aliases);
        }
        if state.facts.racks.is_some() {
            push_spaces(out, 2);
            push_left(out, b"rack", self.racks);
        }
        push_spaces(out, 2);
        push_left(out, b"state", self.states);
        out.text(b"  slots");
        if state.stored.is_some() {
            push_spaces(out, 2);
            push_right(out, b"size", self.sizes);
        }
        out.text(b"  bears\n");
    }

    fn push_row(&self, state: &RingState, out: &mut Words, row: (&Node, u32)) {
        let (node, number) = row;
        push_spaces(out, 4);
        push_left(out, node.name.as_slice(), self.names);
        if let Some(aliases) = &state.facts.aliases {
            push_spaces(out, 2);
            push_left(out, aliases.name(number), self.aliases);
        }
        if let Some(racks) = &state.facts.racks {
            push_spaces(out, 2);
            push_left(out, racks.name(number), self.racks);
        }
        push_spaces(out, 2);
        push_left(out, state_of(state, number), self.states);
        push_spaces(out, 2);
        let slots = at(state.present.owned.as_slice(), number as usize);
        push_number_right(out, slots, 5);
        if let Some(stored) = state.stored {
            push_spaces(out, 2);
            push_long_right(out, word(stored.as_slice(), number as usize), self.sizes);
        }
        push_spaces(out, 2);
        push_bears(out, node.allowance);
        out.byte(b'\n');
    }
}

/// Each node's stored size, if partitions have sizes.
pub fn stored_by(
    alloc: Global,
    present: &PresentRing,
    sizes: Option<&[u64]>,
) -> Result<Option<Vec<u64>>, Refusal> {
    match sizes {
        Some(sizes) => {
            let rows = present.rows.as_slice();
            let found = stored(alloc, present.owned.len(), rows, sizes)?;
            Ok(Some(found))
        }
        None => Ok(None),
    }
}

/// Writes a ring's summary, with a table of nodes. Fails only with `OutOfMemory`.
pub fn ring_summary(alloc: Global, ring: &Ring, facts: &RingFacts) -> Result<Vec<u8>, Refusal> {
    let present = PresentRing::at_rest(alloc, ring, facts.dead.as_slice())?;
    let stored = stored_by(alloc, &present, facts.sizes())?;
    let state = RingState {
        alloc,
        ring,
        present: &present,
        facts,
        stored: &stored,
    };
    let mut out = Words::new(alloc);
    let mut line = Words::new(alloc);
    push_whole(&state, &mut out, &mut line)?;
    line.end()?;
    let widths = Widths::of(&state);
    widths.push_head(&state, &mut out);
    let mut number = 0u32;
    for node in ring.nodes() {
        widths.push_row(&state, &mut out, (node, number));
        number = number.saturating_add(1);
    }
    out.end()
}
