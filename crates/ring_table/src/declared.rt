//! Node lines, and the nodes declared so far.

ghost use Rattle.std.specs.Prelude.{◌≡◌, ◌<◌, ◌≤◌, ◌+◌, ◌++◌, ◌∷◌, [], length, map, OnOk, OnErr, IfErr, codes, IfOk};
ghost use Rattle.std.specs.Prelude.{None, not, nat_lt, true};
ghost use Rattle.ring_names.specs.declared.refusal.Refusal.TheVariants.{OutOfMemory};
ghost use Rattle.ring_names.specs.Names.{place};
ghost use Rattle.texts.specs.Judging.{Does, map_ok, field_at};
ghost use Rattle.texts.specs.Left.{Reads, is_word, many_from};
ghost use Rattle.texts.specs.Late.{IsAt, Late};
ghost use Rattle.texts.specs.Name.{is_name as is_spelled_name};
ghost use Rattle.ring_table.specs.Reading.{judge_new, judge_most, second_at, made, allowance_at, judge_membership};
ghost use Rattle.ring_table.specs.Reading.{node_at, nodes_at};

use crate::allowance::Allowance;
use crate::node::Node;
use ring_names::{Listed, Names, Refusal};
use std::alloc::Global;
use std::marker::Model;
use texts::{Fields, Lines, both, finish, is_name, need};

/// The declared nodes, and their names.
#[derive(Drop)]
pub struct Declared {
    pub names: Names,
    pub nodes: Vec<Node>,
}

impl Model for Declared {
    ghost use Rattle.std.specs.Prelude.{◌≡◌, ◌≤◌, List, map, length};
    ghost use Rattle.ring_table.specs.Valid.{EachIsName};
    ghost use Rattle.ring_table.specs.declared.node.Node.{Node};

    ghost Value = { List Node };

    ghost view = { λ a. a.nodes.items };

    ghost invariant = { λ a. (a.names ≡ map (λ x. x.name) a.nodes.items) × (length a.nodes.items ≤ 1024) × EachIsName a.names };
}

// A node line, its name still in the text.
#[derive(Drop)]
struct NodeLine<'a> {
    name: &'a [u8],
    allowance: Allowance,
    is_member: bool,
}

fn new_name<'a>(names: &Names, fields: &mut Fields<'a>) -> Result<&'a [u8], Refusal>
    ensures { Does (λ k. field_at k (judge_new k names.now)) fields.old (map_ok (λ name. name.now) result) fields.new }
{
    let line = fields.line();
    let Some(name) = fields.next() else {
        return Err(Refusal::BadLine(line));
    };
    if !is_name(name) {
        return Err(Refusal::BadLine(line));
    }
    match names.number_of(name) {
        Some(_) => Err(Refusal::Repeated(line)),
        None => Ok(name),
    }
}

fn most(fields: &mut Fields) -> Result<u32, Refusal>
    ensures { Does (λ k. field_at k (judge_most k)) fields.old result fields.new }
{
    match fields.number(64) {
        Ok(0) => Err(Refusal::BadLine(fields.line())),
        other => other,
    }
}

// A second limit, if the format and the line have one.
#[tactic(auto, unfolding(crate::specs::Reading::second_at))]
fn second(format: u32, fields: &mut Fields) -> Result<Option<u32>, Refusal>
    ensures { Does (second_at format) fields.old result fields.new }
{
    if 2 <= format && fields.begins_number() {
        return match most(fields) {
            Ok(number) => Ok(Some(number)),
            Err(e) => Err(e),
        };
    }
    Ok(None)
}

fn made(first: u32, second: Option<u32>) -> Allowance
    ensures { result ≡ made first second }
{
    match second {
        None => Allowance::Joint(first),
        Some(give) => Allowance::Split { take: first, give },
    }
}

// One limit, or in formats 2 and 3 perhaps two.
#[tactic(auto, unfolding(crate::specs::Reading::allowance_at))]
fn allowance(format: u32, fields: &mut Fields) -> Result<Allowance, Refusal>
    ensures { Does (allowance_at format) fields.old result fields.new }
{
    let first = most(fields);
    let second = second(format, fields);
    match both(first, second) {
        Ok((first, second)) => Ok(made(first, second)),
        Err(e) => Err(e),
    }
}

// `in` or `out`.
fn membership(fields: &mut Fields) -> Result<bool, Refusal>
    ensures { Does (λ k. field_at k (judge_membership k)) fields.old result fields.new }
{
    let line = fields.line();
    let Some(field) = fields.next() else {
        return Err(Refusal::BadLine(line));
    };
    if field == b"in".as_slice() {
        Ok(true)
    } else if field == b"out".as_slice() {
        Ok(false)
    } else {
        Err(Refusal::BadLine(line))
    }
}

impl Declared {
    ghost use Rattle.ring_table.specs.Kept.{node_of};
    ghost use Rattle.ring_table.specs.Valid.{IsNew};

    pub fn new(alloc: Global) -> Declared
        ensures { result ≡ [] }
    {
        Declared {
            names: Names::new(alloc),
            nodes: Vec::new(alloc),
        }
    }

    fn is_empty(&self) -> bool
        ensures { result ≡ not (nat_lt 0 (length self.now)) }
    {
        self.nodes.is_empty()
    }

    // Reads a node line.
    #[tactic(auto, unfolding(crate::specs::Reading::node_at))]
    fn judge<'a>(&self, format: u32, mut fields: Fields<'a>) -> Result<NodeLine<'a>, Refusal>
        ensures value { map_ok node_of result ≡ node_at format self.now fields.entry.number fields.entry.fields }
        ensures new { IfOk result (λ said. IsNew format self.now (node_of said)) }
        ensures at { IfErr result (λ e. IsAt fields.entry.number e) }
    {
        let room = need(self.nodes.len() < 1024, &fields);
        let word = fields.word(b"node");
        let name = new_name(&self.names, &mut fields);
        let allowance = allowance(format, &mut fields);
        let is_member = membership(&mut fields);
        let item = both(both(both(both(room, word), name), allowance), is_member);
        match finish(item, fields) {
            Ok((((_, name), allowance), is_member)) => Ok(NodeLine {
                name,
                allowance,
                is_member,
            }),
            Err(e) => Err(e),
        }
    }

    fn push(&mut self, alloc: Global, said: NodeLine) -> Result<(), Refusal>
        requires room { length self.old < 1024 }
        requires new { place (map (λ x. x.name) self.old) said.name.now ≡ None }
        requires name { is_spelled_name said.name.now ≡ true }
        ensures ok { OnOk result (self.new ≡ self.old ++ node_of said.entry ∷ []) }
        ensures memory { IfErr result (λ e. e ≡ OutOfMemory) }
        ensures grows { length self.old ≤ length self.new }
        ensures few { length self.new ≤ 1024 }
    {
        let name = Listed::from_vec(Vec::from_slice(alloc, said.name)?);
        self.nodes.reserve(1)?;
        self.names.add(said.name)?;
        self.nodes.push(Node {
            name,
            allowance: said.allowance,
            is_member: said.is_member,
        })?;
        Ok(())
    }
}

fn read_into(
    alloc: Global,
    format: u32,
    declared: &mut Declared,
    lines: &mut Lines,
) -> Result<(), Refusal>
    requires few { length declared.old ≤ 1024 }
    ensures read { Reads (map_ok (λ _. declared.new) result) lines.new
        (many_from (is_word (codes "node")) (node_at format) declared.old lines.old.line lines.old.lines) }
    ensures late { Late 1 result lines.old lines.new
        (many_from (is_word (codes "node")) (node_at format) declared.old lines.old.line lines.old.lines) }
{
    'nodes: while lines.begins(b"node") {
        let fields = lines.next()?;
        let said = declared.judge(format, fields)?;
        declared.push(alloc, said)?;
    }
    Ok(())
}

/// Reads node lines, at least one.
#[tactic(auto, unfolding(crate::specs::Reading::nodes_at))]
pub fn read_nodes(alloc: Global, format: u32, lines: &mut Lines) -> Result<Declared, Refusal>
    ensures read { Reads result lines.new (nodes_at format lines.old) }
    ensures late { Late 1 result lines.old lines.new (nodes_at format lines.old) }
{
    let mut declared = Declared::new(alloc);
    read_into(alloc, format, &mut declared, lines)?;
    if declared.is_empty() {
        return Err(Refusal::BadLine(lines.line()));
    }
    Ok(declared)
}
