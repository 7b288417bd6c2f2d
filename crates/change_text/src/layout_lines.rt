//! The lines of a layout.

ghost use Rattle.std.specs.Prelude.{◌≡◌};
ghost use Rattle.texts.specs.Judging.{Gives, map_ok};
ghost use Rattle.change_text.specs.LayoutReading.{rack_at, weight_at, alias_line_at, size_at, dead_at, fact_at, with_line};

use crate::field::{alias, name, parts, size};
use crate::layout::Fact;
use crate::layout_draft::Draft;
use ring_names::Refusal;
use std::alloc::Global;
use texts::{Fields, both, finish};

#[tactic(auto, unfolding(crate::specs::LayoutReading::rack_at))]
fn rack_line(alloc: Global, mut fields: Fields) -> Result<Fact, Refusal>
    ensures { Gives result (rack_at fields.entry.number fields.entry.fields) }
{
    let node = name(&mut fields);
    let rack = name(&mut fields);
    match finish(both(node, rack), fields) {
        Ok((node, rack)) => Ok(Fact::Rack {
            node: node.copy(alloc)?,
            rack: rack.copy(alloc)?,
        }),
        Err(e) => Err(e),
    }
}

#[tactic(auto, unfolding(crate::specs::LayoutReading::weight_at))]
fn weight_line(alloc: Global, mut fields: Fields) -> Result<Fact, Refusal>
    ensures { Gives result (weight_at fields.entry.number fields.entry.fields) }
{
    let node = name(&mut fields);
    let parts = parts(&mut fields);
    match finish(both(node, parts), fields) {
        Ok((node, parts)) => Ok(Fact::Weight {
            node: node.copy(alloc)?,
            parts,
        }),
        Err(e) => Err(e),
    }
}

#[tactic(auto, unfolding(crate::specs::LayoutReading::alias_line_at))]
fn alias_line(alloc: Global, mut fields: Fields) -> Result<Fact, Refusal>
    ensures { Gives result (alias_line_at fields.entry.number fields.entry.fields) }
{
    let node = name(&mut fields);
    let alias = alias(&mut fields);
    match finish(both(node, alias), fields) {
        Ok((node, alias)) => Ok(Fact::Alias {
            node: node.copy(alloc)?,
            alias: alias.copy(alloc)?,
        }),
        Err(e) => Err(e),
    }
}

#[tactic(auto, unfolding(crate::specs::LayoutReading::size_at))]
fn size_line(mut fields: Fields) -> Result<Fact, Refusal>
    ensures { result ≡ size_at fields.entry.number fields.entry.fields }
{
    let partition = fields.number(4095);
    let size = size(&mut fields);
    let (partition, size) = finish(both(partition, size), fields)?;
    Ok(Fact::Size { partition, size })
}

#[tactic(auto, unfolding(crate::specs::LayoutReading::dead_at))]
fn dead_line(alloc: Global, mut fields: Fields) -> Result<Fact, Refusal>
    ensures { Gives result (dead_at fields.entry.number fields.entry.fields) }
{
    let node = name(&mut fields);
    match finish(node, fields) {
        Ok(node) => Ok(Fact::Dead {
            node: node.copy(alloc)?,
        }),
        Err(e) => Err(e),
    }
}

fn fact_line(alloc: Global, kind: &[u8], fields: Fields) -> Result<Fact, Refusal>
    ensures { Gives result (fact_at kind.now fields.entry.number fields.entry.fields) }
{
    if kind == b"rack".as_slice() {
        rack_line(alloc, fields)
    } else if kind == b"weight".as_slice() {
        weight_line(alloc, fields)
    } else if kind == b"alias".as_slice() {
        alias_line(alloc, fields)
    } else if kind == b"size".as_slice() {
        size_line(fields)
    } else if kind == b"dead".as_slice() {
        dead_line(alloc, fields)
    } else {
        Err(Refusal::BadLine(fields.line()))
    }
}

/// Adds a line's fact. Blank lines, and comments after `#`, have none.
pub fn read_line(alloc: Global, draft: &mut Draft, mut fields: Fields) -> Result<(), Refusal>
    ensures { Gives (map_ok (λ _. draft.new) result)
        (with_line draft.old fields.entry.number fields.entry.fields) }
{
    let Some(kind) = fields.next() else {
        return Ok(());
    };
    match kind {
        [] => fields.ended(),
        [b'#', ..] => Ok(()),
        _ => {
            let line = fields.line();
            let fact = fact_line(alloc, kind, fields)?;
            draft.add(line, fact)
        }
    }
}
