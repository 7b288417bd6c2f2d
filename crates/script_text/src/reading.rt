//! Reads a script.

ghost use Rattle.std.specs.Prelude.{◌≡◌, ℕ, true, List, Ok, IfOk, IfErr};
ghost use Rattle.std.specs.List.{list_all};
ghost use Rattle.ring_names.specs.declared.refusal.Refusal.TheVariants.{OutOfMemory};
ghost use Rattle.texts.specs.Left.{Reads};
ghost use Rattle.texts.specs.Late.{IsAt, Late, NoFaultBefore};
ghost use Rattle.texts.specs.Judging.{Gives, map_ok};
ghost use Rattle.script_text.specs.Said.{IsNext};
ghost use Rattle.plan_runs.specs.declared.event.Event.{Event};
ghost use Rattle.script_text.specs.Client.{is_client_event};
ghost use Rattle.script_text.specs.Reading.{said_at, heard_at, events_at, section_at, script_at};
ghost use Rattle.script_text.specs.Reading.{client_at, script_reading};
ghost use Rattle.script_text.specs.Spelling.{script_text};
ghost use Rattle.script_text.specs.Valid.{AreWriters, IsScriptOf};

use crate::kind::said_event;
use crate::said::SaidEvent;
use crate::script::Script;
use crate::speaker::Speaker;
use crate::taken::add;
use ring_names::{Names, Refusal};
use ring_table::Ring;
use std::alloc::Global;
use texts::{Fields, Lines, both, end, finish, header, need};

#[tactic(auto, unfolding(crate::specs::Reading::said_at))]
fn judge_line<'a>(
    ring: &Ring,
    names: &Names,
    script: &Script,
    mut fields: Fields<'a>,
) -> Result<SaidEvent<'a>, Refusal>
    ensures { result ≡ said_at ring.now script.now names.now fields.entry.number fields.entry.fields }
{
    let room = need(script.len() < 1000000, &fields);
    let said = said_event(ring, names, &mut fields);
    let (_, said) = finish(both(room, said), fields)?;
    Ok(said)
}

// Reads the line's event, if the speaker may say it.
fn event_line<'a>(
    may: bool,
    ring: &Ring,
    names: &Names,
    script: &Script,
    fields: Fields<'a>,
) -> Result<SaidEvent<'a>, Refusal>
    ensures value { result ≡ heard_at may ring.now script.now names.now fields.entry.number fields.entry.fields }
    ensures next { IfOk result (λ x. IsNext script.now names.now x) }
    ensures at { IfErr result (λ e. IsAt fields.entry.number e) }
{
    if !may {
        return Err(Refusal::BadLine(fields.line()));
    }
    judge_line(ring, names, script, fields)
}

impl Speaker {
    #[tactic(auto, unfolding(crate::specs::Reading::events_at))]
    fn read_events(
        self,
        alloc: Global,
        ring: &Ring,
        writers: &mut Names,
        lines: &mut Lines,
    ) -> Result<Script, Refusal>
        ensures read { Reads (map_ok (λ s. (s, writers.new)) result) lines.new
            (events_at self ring.now writers.old lines.old) }
        ensures late { Late 1 result lines.old lines.new (events_at self ring.now writers.old lines.old) }
    {
        let mut script = Script::new(alloc);
        'events: while !lines.begins(b"end") {
            let may = self.may_say(lines);
            let fields = lines.next()?;
            let said = event_line(may, ring, writers, &script, fields)?;
            add(alloc, writers, &mut script, said)?;
        }
        Ok(script)
    }
}

#[tactic(auto, unfolding(crate::specs::Reading::section_at))]
fn read_parts(
    alloc: Global,
    by: Speaker,
    ring: &Ring,
    writers: &mut Names,
    lines: &mut Lines,
) -> Result<Script, Refusal>
    ensures read { Reads (map_ok (λ s. (s, writers.new)) result) lines.new
        (section_at by ring.now writers.old lines.old) }
    ensures late { Late 2 result lines.old lines.new (section_at by ring.now writers.old lines.old) }
{
    header(lines, b"script", b"1")?;
    let script = by.read_events(alloc, ring, writers, lines)?;
    end(lines)?;
    Ok(script)
}

/// Reads a script up to its line `end`, and leaves the rest. Adds new writers after those seen, some even if it fails.
/// Fails as `read_script`.
pub fn read_script_section(
    alloc: Global,
    ring: &Ring,
    writers: &mut Names,
    lines: &mut Lines,
) -> Result<Script, Refusal>
    ensures read { Reads (map_ok (λ s. (s, writers.new)) result) lines.new (script_at ring.now writers.old lines.old) }
    ensures found { IfOk result (λ s. AreWriters writers.old → IsScriptOf ring.now writers.old writers.new s) }
    ensures late { Late 2 result lines.old lines.new (script_at ring.now writers.old lines.old) }
{
    // Proves the ring valid.
    let slots = ring.n();
    prove!(slots <= 7);
    read_parts(alloc, Speaker::Anyone, ring, writers, lines)
}

/// Reads a client's script, as `read_script_section`. Lines begin with `put`, `get`, `down` or `up`; others are
/// `BadLine`.
pub fn read_client_section(
    alloc: Global,
    ring: &Ring,
    writers: &mut Names,
    lines: &mut Lines,
) -> Result<Script, Refusal>
    ensures read { Reads (map_ok (λ s. (s, writers.new)) result) lines.new (client_at ring.now writers.old lines.old) }
    ensures clients { IfOk result (λ s. list_all is_client_event s ≡ true) }
    ensures late { Late 2 result lines.old lines.new (client_at ring.now writers.old lines.old) }
{
    read_parts(alloc, Speaker::Client, ring, writers, lines)
}

fn read_whole(
    alloc: Global,
    ring: &Ring,
    writers: &mut Names,
    text: &[u8],
) -> Result<Script, Refusal>
    ensures exact { Gives (map_ok (λ s. (s, writers.new)) result) (script_reading ring.now writers.old text.now) }
    ensures late { IfErr result
        (λ e. e ≡ OutOfMemory → NoFaultBefore 3 (script_reading ring.now writers.old text.now)) }
{
    let mut lines = Lines::of(text);
    let script = read_script_section(alloc, ring, writers, &mut lines)?;
    lines.ended()?;
    Ok(script)
}

/// Reads a script from its whole text. Numbers new writers by first mention, some even if it fails.
///
/// Returns the first faulty line's least fault: 1 `BadLine`, 2 `TooLarge`, 3 `UnknownNode`. `OutOfMemory` comes only
/// after at least two faultless lines.
pub fn read_script(
    alloc: Global,
    ring: &Ring,
    writers: &mut Names,
    text: &[u8],
) -> Result<Script, Refusal>
    ensures found { IfOk result (λ s. AreWriters writers.old
        → IsScriptOf ring.now writers.old writers.new s × (text.now ≡ script_text ring.now writers.new s)) }
    ensures only { (s : List Event) (names : List (List ℕ)) → IsScriptOf ring.now writers.old names s
        → text.now ≡ script_text ring.now names s
        → Gives {A = List Event × List (List ℕ)} (map_ok (λ s. (s, writers.new)) result) (Ok (s, names)) }
    ensures exact { Gives (map_ok (λ s. (s, writers.new)) result) (script_reading ring.now writers.old text.now) }
    ensures late { IfErr result
        (λ e. e ≡ OutOfMemory → NoFaultBefore 3 (script_reading ring.now writers.old text.now)) }
{
    // Proves the ring valid.
    let slots = ring.n();
    prove!(slots <= 7);
    read_whole(alloc, ring, writers, text)
}
