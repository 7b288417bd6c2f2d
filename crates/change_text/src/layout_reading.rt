//! Reads layouts.

ghost use Rattle.std.specs.Prelude.{◌≡◌};
ghost use Rattle.texts.specs.Left.{Reads};
ghost use Rattle.texts.specs.Judging.{Gives, map_ok};
ghost use Rattle.change_text.specs.LayoutReading.{entries_from, layout_at, layout_reading};

use crate::layout::Layout;
use crate::layout_draft::Draft;
use crate::layout_lines::read_line;
use ring_names::Refusal;
use std::alloc::Global;
use texts::{Lines, end, header};

fn read_entries(alloc: Global, draft: &mut Draft, lines: &mut Lines) -> Result<(), Refusal>
    ensures { Reads (map_ok (λ _. draft.new) result) lines.new
        (entries_from draft.old lines.old.line lines.old.lines) }
{
    'lines: while !lines.begins(b"end") {
        let fields = lines.next()?;
        read_line(alloc, draft, fields)?;
    }
    Ok(())
}

#[tactic(auto, unfolding(crate::specs::LayoutReading::layout_at))]
fn read_parts(alloc: Global, lines: &mut Lines) -> Result<Layout, Refusal>
    ensures { Reads result lines.new (layout_at lines.old) }
{
    header(lines, b"layout", b"1")?;
    let mut draft = Draft::new(alloc);
    read_entries(alloc, &mut draft, lines)?;
    end(lines)?;
    Ok(draft.into_layout())
}

/// Reads a layout from its whole text: the line `layout 1`, lines in any order, and the last line `end`. No two lines
/// have the same first two fields.
///
/// Blank lines and lines beginning with `#` mean nothing.
///
/// - `rack NODE NAME`: both 1 to 32 bytes of `a-z0-9_.:-`.
/// - `weight NODE K`: 1 to 1,000.
/// - `alias NODE TEXT`: one field of 1 to 255 bytes of UTF-8, without control characters.
/// - `size P N`: the partition up to 4,095, its size below 2^48.
/// - `dead NODE`.
///
/// Returns the first faulty line's least fault:
///
/// - 1 `BadLine`, also for a last line without newline.
/// - 2 `TooLarge`: a number above its limit, or a fact after 8,192 others.
/// - 4 `Repeated`: a second fact on a subject.
pub fn read_layout(alloc: Global, text: &[u8]) -> Result<Layout, Refusal>
    ensures read { Gives result (layout_reading text.now) }
{
    let mut lines = Lines::of(text);
    let layout = read_parts(alloc, &mut lines)?;
    lines.ended()?;
    Ok(layout)
}
