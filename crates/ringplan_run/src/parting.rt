//! Cuts histories to parts.

ghost use Rattle.std.specs.Prelude.{◌≡◌, ℕ, List};
ghost use Rattle.history_laws.specs.Choices.{IsChoice};
ghost use Rattle.ringplan_answers.specs.Io.{Tells};
ghost use Rattle.ringplan_run.specs.Part.{ShowsCut, ShowsPart};

use crate::files::say;
use crate::program::{FAILED, NO_MEMORY, REFUSED, finish};
use history_text::{MOST_ENTRIES, NoPart, Part, cut_stream};
use ring_names::{Choice, Refusal};
use ringplan_answers::{MAX_INPUT, status_of};
use ringplan_command::{MOST_PARTS, PartWish};
use std::io::{Read, Write};
use texts::Fields;

// Returns the factor, at least 2, by which more parts are small enough.
fn times(many: u64, most: u64) -> u64 {
    (many.saturating_sub(1) / most.max(1))
        .saturating_add(1)
        .max(2)
}

const UNLESS: &str =
    ", unless one partition or what each part has, steps and outages, is too much\n";

fn say_large<RT: Eprint>(rt: &RT, choice: Choice, entries: u64, bytes: u64) {
    let _ = eprint!(rt;
        "ringplan: the part has {entries} entries and {bytes} bytes, and {MOST_ENTRIES} and {MAX_INPUT} are judged at once: "
    );
    let more = times(entries, MOST_ENTRIES).max(times(bytes, MAX_INPUT as u64));
    match choice {
        Choice::Share { of, .. } if of >= MOST_PARTS => {
            let _ = eprint!(rt; "no more parts are possible\n");
        }
        Choice::Share { of, .. } => {
            let of = u64::from(of)
                .saturating_mul(more)
                .min(u64::from(MOST_PARTS));
            let _ = eprint!(rt; "--of {of} may do{UNLESS}");
        }
        Choice::Range { first, last } if first == last => {
            let _ = eprint!(rt; "no smaller parts are possible\n");
        }
        Choice::Range { .. } => {
            let _ = eprint!(rt; "{more} times fewer partitions may do{UNLESS}");
        }
    }
}

fn say_none<RT: Eprint>(rt: &RT, choice: Choice, none: &NoPart) {
    match none {
        NoPart::Large { entries, bytes } => say_large(rt, choice, *entries, *bytes),
        NoPart::Refused(Refusal::OutOfMemory) => say(rt, NO_MEMORY),
        NoPart::Refused(refusal) => {
            let _ = eprint!(rt; "{refusal}\n");
        }
    }
}

// Reads the ring's number of partitions, in line 2.
fn partitions_of(text: &[u8]) -> Option<u64> {
    let mut lines = text.split(|byte| *byte == b'\n');
    let _ = lines.next()?;
    let mut fields = Fields::of(2, lines.next()?);
    let _ = fields.takes(b"space");
    fields.value()
}

fn say_beyond<RT: Eprint>(rt: &RT, choice: Choice, part: &Part) {
    let Choice::Range { last, .. } = choice else {
        return;
    };
    if let Some(count) = partitions_of(part.text.as_slice()) {
        if u64::from(last) >= count {
            let _ = eprint!(rt;
                "ringplan: the ring has {count} partitions, and none of number {last}\n"
            );
        }
    }
}

fn print_cut<RT: AllocGlobal + Eprint, W: Write>(
    rt: &RT,
    entry: Option<u32>,
    part: &Part,
    output: &mut W,
) -> u8
    ensures { ShowsCut entry part.now (W.contents output.old) (W.contents output.new) result }
{
    if entry.is_none() {
        return finish(output, part.text.as_slice(), 0);
    }
    let Some(place) = part.place else {
        let entries = part.entries;
        let _ = eprint!(rt; "ringplan: the part has {entries} entries\n");
        return REFUSED;
    };
    match format!(in rt.alloc(); "{place}\n") {
        Ok(line) => finish(output, line.as_bytes(), 0),
        Err(_) => {
            say(rt, NO_MEMORY);
            FAILED
        }
    }
}

/// Prints the wanted part, or an entry's place. On failure says why.
pub(crate) fn print_part<RT: AllocGlobal + Eprint, R: Read + Drop, W: Write>(
    rt: &RT,
    wish: PartWish,
    input: &mut R,
    output: &mut W,
) -> u8
    requires { IsChoice wish.choice }
    ensures { (bytes : List ℕ) × Tells (R.remaining input.old) bytes × ShowsPart wish bytes (W.contents output.old) (W.contents output.new) result }
{
    let wanted = wish.entry.unwrap_or(0);
    match cut_stream(rt.alloc(), wish.choice, wanted, input) {
        Ok(part) => {
            say_beyond(rt, wish.choice, &part);
            print_cut(rt, wish.entry, &part, output)
        }
        Err(none) => {
            say_none(rt, wish.choice, &none);
            status_of(&none.refusal())
        }
    }
}
