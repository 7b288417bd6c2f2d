//! The rows of owners.

ghost use Rattle.std.specs.Prelude.{◌≡◌, ◌<◌, ◌≤◌, ◌∷◌, [], length, map, IfOk, IfErr, ◌==◌};
ghost use Rattle.std.specs.List.{list_all, list_any};
ghost use Rattle.ring_names.specs.Lists.{all_different as differ};
ghost use Rattle.texts.specs.Judging.{Does, field_at, map_ok};
ghost use Rattle.texts.specs.Left.{Reads, map_part};
ghost use Rattle.texts.specs.Late.{IsAt, Late};
ghost use Rattle.ring_table.specs.Valid.{EachIsName};
ghost use Rattle.ring_table.specs.Value.{is_member as is_member_of};
ghost use Rattle.ring_table.specs.Reading.{judge_declared, owners_at, row_at, rows_at};

use crate::declared::Declared;
use crate::node::{Node, is_member};
use itoa::Buffer;
use ring_names::{Listed, Names, NodeId, Refusal};
use std::alloc::Global;
use std::marker::Model;
use texts::{Fields, Lines, both, finish, is_name};

// Up to 7 owners, in the array's last places.
#[derive(Drop)]
struct Row {
    owners: [NodeId; 7],
    start: usize,
}

impl Model for Row {
    ghost use Rattle.std.specs.Prelude.{List, drop, ◌≤◌};
    ghost use Rattle.ring_names.specs.declared.ids.NodeId.{NodeId};

    ghost Value = { List NodeId };

    ghost view = { λ a. drop a.start a.owners };

    ghost invariant = { λ a. a.start ≤ 7 };
}

impl Row {
    fn new() -> Row
        ensures { result ≡ [] }
    {
        Row {
            owners: [NodeId(0); 7],
            start: 7,
        }
    }

    fn push_front(mut self, owner: NodeId) -> Row
        requires { length self < 7 }
        ensures { result ≡ owner ∷ self }
    {
        self.start -= 1;
        self.owners[self.start] = owner;
        self
    }

    fn as_slice(&self) -> &[NodeId]
        ensures { result.now ≡ self.now }
    {
        &self.owners[self.start..]
    }
}

// Takes a declared node. Checks only unknown fields to be names.
#[tactic(auto, using(crate::proofs::RowLaws::found_name))]
fn declared_node(names: &Names, fields: &mut Fields) -> Result<NodeId, Refusal>
    requires { EachIsName names.now }
    ensures { Does (λ k. field_at k (judge_declared k names.now)) fields.old result fields.new }
{
    let line = fields.line();
    let Some(name) = fields.next() else {
        return Err(Refusal::BadLine(line));
    };
    if let Some(number) = names.number_of(name) {
        return Ok(NodeId(number));
    }
    if is_name(name) {
        return Err(Refusal::UnknownNode(line));
    }
    Err(Refusal::BadLine(line))
}

fn owners(names: &Names, count: u32, fields: &mut Fields) -> Result<Row, Refusal>
    requires few { count ≤ 7 }
    requires names { EachIsName names.now }
    ensures does { Does (λ k. owners_at k names.now count) fields.old result fields.new }
    ensures len { IfOk result (λ row. length row ≡ count) }
{
    if count == 0 {
        return Ok(Row::new());
    }
    let first = declared_node(names, fields);
    let others = owners(names, count - 1, fields);
    match both(first, others) {
        Ok((owner, row)) => Ok(row.push_front(owner)),
        Err(e) => Err(e),
    }
}

pub(crate) fn are_members(nodes: &[Node], row: &[NodeId]) -> bool
    ensures { result ≡ list_all (is_member_of nodes.now) row.now }
{
    row.iter().all(|owner| is_member(nodes, *owner))
}

fn is_among(owner: NodeId, row: &[NodeId]) -> bool
    ensures { result ≡ list_any (λ x. owner.0 == x.0) row.now }
{
    row.iter().any(|other| owner.0 == other.0)
}

#[tactic(auto, using(crate::proofs::RowLaws::among))]
pub(crate) fn are_different(row: &[NodeId]) -> bool
    ensures { result ≡ differ (map (λ x. x.0) row.now) }
{
    let Some((first, others)) = row.split_first() else {
        return true;
    };
    let new = !is_among(*first, others);
    let different = are_different(others);
    new && different
}

#[tactic(auto, unfolding(crate::specs::Reading::row_at))]
fn judge(
    declared: &Declared,
    slots: u32,
    partition: u32,
    mut fields: Fields,
) -> Result<Row, Refusal>
    requires { slots ≤ 7 }
    ensures { result ≡ row_at declared.now slots partition fields.entry.number fields.entry.fields }
{
    let line = fields.line();
    let mut buffer = Buffer::new();
    let word = fields.word(b"slots");
    let number = fields.word(buffer.format(partition).as_bytes());
    let row = owners(&declared.names, slots, &mut fields);
    let (_, row) = finish(both(both(word, number), row), fields)?;
    if !are_different(row.as_slice()) {
        return Err(Refusal::SharedNode(line));
    }
    if !are_members(&declared.nodes, row.as_slice()) {
        return Err(Refusal::NotMember(line));
    }
    Ok(row)
}

// `slots <p>` and the partition's owners.
fn row_line(declared: &Declared, slots: u32, partition: u32, fields: Fields) -> Result<Row, Refusal>
    requires { slots ≤ 7 }
    ensures value { result ≡ row_at declared.now slots partition fields.entry.number fields.entry.fields }
    ensures at { IfErr result (λ e. IsAt fields.entry.number e) }
{
    judge(declared, slots, partition, fields)
}

/// Reads each partition's row: `slots <p>` and its owners.
pub fn read_rows(
    alloc: Global,
    declared: &Declared,
    slots: u32,
    partitions: u32,
    lines: &mut Lines,
) -> Result<Vec<Listed<NodeId>>, Refusal>
    requires slots { slots ≤ 7 }
    ensures read { Reads (map_ok (λ rows. rows.items) result) lines.new
        (rows_at declared.now slots 0 partitions lines.old) }
    ensures late { Late 1 result lines.old lines.new (rows_at declared.now slots 0 partitions lines.old) }
{
    let mut rows = Vec::new(alloc);
    for partition in 0..partitions {
        let fields = lines.next()?;
        let row = row_line(declared, slots, partition, fields)?;
        let row = Vec::from_slice(alloc, row.as_slice())?;
        rows.push(Listed::from_vec(row))?;
    }
    Ok(rows)
}
