//! The lines before the nodes.

ghost use Rattle.std.specs.Prelude.{◌≡◌, ◌≢◌, OnOk, IfOk, IfErr};
ghost use Rattle.ring_names.specs.Space.{is_space as is_valid_space};
ghost use Rattle.ring_names.specs.declared.refusal.Refusal.TheVariants.{OutOfMemory};
ghost use Rattle.texts.specs.Left.{Answers, lines_on};
ghost use Rattle.texts.specs.Judging.{Does, field_at};
ghost use Rattle.ring_table.specs.Valid.{is_quorum as is_valid_quorum, IsHead};
ghost use Rattle.ring_table.specs.Reading.{judge_format, format_at, space_at, judge_quorum, loss_at, quorum_at};
ghost use Rattle.ring_table.specs.Reading.{head_at};

use ring_names::Refusal;
use texts::{Fields, Lines, both, finish};

/// A partition's slots, how many answer a read and a write, and how many nodes may lose their data.
#[derive(Clone, Copy)]
pub struct Quorum {
    pub n: u32,
    pub r: u32,
    pub w: u32,
    pub loss: u32,
}

/// The lines before the nodes: format, partitions and quorum.
#[derive(Clone, Copy)]
pub struct Head {
    pub format: u32,
    pub q: u32,
    pub quorum: Quorum,
}

// `1`, `2` or `3`
fn format(fields: &mut Fields) -> Result<u32, Refusal>
    ensures { Does (λ k. field_at k (judge_format k)) fields.old result fields.new }
{
    let line = fields.line();
    let Some(field) = fields.next() else {
        return Err(Refusal::BadLine(line));
    };
    if field == b"1".as_slice() {
        Ok(1)
    } else if field == b"2".as_slice() {
        Ok(2)
    } else if field == b"3".as_slice() {
        Ok(3)
    } else {
        Err(Refusal::BadLine(line))
    }
}

// `ring <format>`
#[tactic(auto, unfolding(crate::specs::Reading::format_at))]
fn format_line(mut fields: Fields) -> Result<u32, Refusal>
    ensures { result ≡ format_at fields.entry.number fields.entry.fields }
{
    let word = fields.word(b"ring");
    let format = format(&mut fields);
    let (_, format) = finish(both(word, format), fields)?;
    Ok(format)
}

#[tactic(auto, unfolding(ring_names::specs::Space::is_space))]
fn is_space(q: u32) -> bool
    ensures { result ≡ is_valid_space q }
{
    matches!(
        q,
        1 | 2 | 4 | 8 | 16 | 32 | 64 | 128 | 256 | 512 | 1024 | 2048 | 4096
    )
}

// `space <q>`
#[tactic(auto, unfolding(crate::specs::Reading::space_at))]
fn space_line(mut fields: Fields) -> Result<u32, Refusal>
    ensures { result ≡ space_at fields.entry.number fields.entry.fields }
{
    let line = fields.line();
    let word = fields.word(b"space");
    let q = fields.number(4096);
    let (_, q) = finish(both(word, q), fields)?;
    if !is_space(q) {
        return Err(Refusal::BadLine(line));
    }
    Ok(q)
}

#[tactic(auto, unfolding(crate::specs::Valid::is_quorum))]
fn is_quorum(n: u32, r: u32, w: u32, loss: u32) -> bool
    ensures { result ≡ is_valid_quorum n r w loss }
{
    1 <= r
        && r <= n
        && 1 <= w
        && w <= n
        && u64::from(n) + u64::from(loss) < u64::from(r) + u64::from(w)
}

fn judge_quorum(line: u32, n: u32, r: u32, w: u32, loss: u32) -> Result<Quorum, Refusal>
    ensures { result ≡ judge_quorum line n r w loss }
{
    if !is_quorum(n, r, w, loss) {
        return Err(Refusal::QuorumTooSmall(line));
    }
    Ok(Quorum { n, r, w, loss })
}

// How many nodes may lose their data: 0 before format 3.
#[tactic(auto, unfolding(crate::specs::Reading::loss_at))]
fn loss(format: u32, fields: &mut Fields) -> Result<u32, Refusal>
    ensures { Does (loss_at format) fields.old result fields.new }
{
    if format < 3 {
        return Ok(0);
    }
    fields.number(6)
}

// `quorum <n> <r> <w>`, and in format 3 ` <f>`
#[tactic(auto, unfolding(crate::specs::Reading::quorum_at))]
fn quorum_line(format: u32, mut fields: Fields) -> Result<Quorum, Refusal>
    ensures { result ≡ quorum_at format fields.entry.number fields.entry.fields }
{
    let line = fields.line();
    let word = fields.word(b"quorum");
    let n = fields.number(7);
    let r = fields.number(7);
    let w = fields.number(7);
    let loss = loss(format, &mut fields);
    match finish(both(both(both(both(word, n), r), w), loss), fields) {
        Ok(((((_, n), r), w), loss)) => judge_quorum(line, n, r, w, loss),
        Err(e) => Err(e),
    }
}

/// Reads the lines before the nodes.
#[tactic(auto, unfolding(crate::specs::Reading::head_at))]
pub fn read_head(lines: &mut Lines) -> Result<Head, Refusal>
    ensures read { Answers result lines.new (head_at lines.old) }
    ensures valid { IfOk result (λ head. IsHead head) }
    ensures line { OnOk result (lines.new.line ≡ lines_on 3 lines.old.line) }
    ensures memory { IfErr result (λ e. e ≢ OutOfMemory) }
{
    let format = format_line(lines.next()?)?;
    let q = space_line(lines.next()?)?;
    let quorum = quorum_line(format, lines.next()?)?;
    Ok(Head { format, q, quorum })
}
