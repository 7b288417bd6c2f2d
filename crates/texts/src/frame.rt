//! Reads a section's first and last line.

ghost use Rattle.std.specs.Prelude.{◌≡◌, IfErr, OnOk};
ghost use Rattle.texts.specs.Left.{Answers, one_line, next_number};
ghost use Rattle.texts.specs.Late.{IsAt};
ghost use Rattle.texts.specs.Frames.{header_at, end_line_at};

use crate::fields::Fields;
use crate::judge::{both, finish};
use crate::lines::Lines;
use ring_names::Refusal;

#[tactic(auto, unfolding(crate::specs::Frames::header_at))]
fn header_line(mut fields: Fields, word: &[u8], format: &[u8]) -> Result<(), Refusal>
    ensures { result ≡ header_at word.now format.now fields.entry.number fields.entry.fields }
{
    let word = fields.word(word);
    let format = fields.word(format);
    finish(both(word, format), fields)?;
    Ok(())
}

#[tactic(auto, unfolding(crate::specs::Frames::end_line_at))]
fn end_line(mut fields: Fields) -> Result<(), Refusal>
    ensures { result ≡ end_line_at fields.entry.number fields.entry.fields }
{
    let word = fields.word(b"end");
    finish(word, fields)
}

/// Takes the line `<word> <format>`.
pub fn header(lines: &mut Lines, word: &[u8], format: &[u8]) -> Result<(), Refusal>
    ensures read { Answers result lines.new (one_line (header_at word.now format.now) lines.old) }
    ensures at { IfErr result (λ e. IsAt lines.old.line e) }
    ensures line { OnOk result (lines.new.line ≡ next_number lines.old.line) }
{
    header_line(lines.next()?, word, format)
}

/// Takes the line `end`.
pub fn end(lines: &mut Lines) -> Result<(), Refusal>
    ensures read { Answers result lines.new (one_line end_line_at lines.old) }
    ensures at { IfErr result (λ e. IsAt lines.old.line e) }
    ensures line { OnOk result (lines.new.line ≡ next_number lines.old.line) }
{
    end_line(lines.next()?)
}
