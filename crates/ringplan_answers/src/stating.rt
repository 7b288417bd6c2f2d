//! Answers in JSON.

ghost use Rattle.std.specs.Prelude.{◌≡◌, ◌++◌, ◌∷◌, [], false, IfOk, OnOk, codes, map};
ghost use Rattle.serde_json.specs.Data.{member, no_members, object, string, put as with_member};
ghost use Rattle.serde_json.specs.View.{members_view, view};
ghost use Rattle.serde_json.specs.Written.{compact_text, has_float};
ghost use Rattle.ring_names.specs.Refusals.{values_of};
ghost use Rattle.ringplan_answers.specs.Answers.{status_of, texts_of};
ghost use Rattle.ringplan_answers.specs.Stated.{answer_value, json_of, name_of, no_object, number_data, refusal_members};

use crate::answer::{Answer, status_of};
use ring_names::Refusal;
use serde_json::{Map, Value, put};
use std::alloc::{AllocError, Global};

fn name_of(refusal: &Refusal) -> &'static str
    ensures { result.now ≡ name_of refusal.now }
{
    match refusal {
        Refusal::BadLine(_) => "BadLine",
        Refusal::TooLarge(_) => "TooLarge",
        Refusal::UnknownNode(_) => "UnknownNode",
        Refusal::Repeated(_) => "Repeated",
        Refusal::QuorumTooSmall(_) => "QuorumTooSmall",
        Refusal::SharedNode(_) => "SharedNode",
        Refusal::NotMember(_) => "NotMember",
        Refusal::LaterDependency(_) => "LaterDependency",
        Refusal::WrongStage(_) => "WrongStage",
        Refusal::UnorderedSlot(_) => "UnorderedSlot",
        Refusal::BadSource(_) => "BadSource",
        Refusal::MovingSource(_) => "MovingSource",
        Refusal::SharedInPlan(_) => "SharedInPlan",
        Refusal::NotJoined(_) => "NotJoined",
        Refusal::RetiredInUse(_) => "RetiredInUse",
        Refusal::NoPlan => "NoPlan",
        Refusal::BadPath(_) => "BadPath",
        Refusal::CoverMissing(_, _) => "CoverMissing",
        Refusal::ChainBroken(_) => "ChainBroken",
        Refusal::TooManyChains(_) => "TooManyChains",
        Refusal::NotReady => "NotReady",
        Refusal::AlreadyDone => "AlreadyDone",
        Refusal::NodeDown(_) => "NodeDown",
        Refusal::KeeperTaken => "KeeperTaken",
        Refusal::KeeperInPartition => "KeeperInPartition",
        Refusal::StaleTickets(_) => "StaleTickets",
        Refusal::TooFewSlots(_) => "TooFewSlots",
        Refusal::UnknownNumber => "UnknownNumber",
        Refusal::HintsLeft => "HintsLeft",
        Refusal::NotOpen => "NotOpen",
        Refusal::ChunksLeft(_) => "ChunksLeft",
        Refusal::HistoryFull => "HistoryFull",
        Refusal::LossesSpent => "LossesSpent",
        Refusal::OutOfMemory => "OutOfMemory",
        Refusal::ReadFailed => "ReadFailed",
        Refusal::WriteFailed => "WriteFailed",
        Refusal::Mismatch(_, _) => "Mismatch",
        Refusal::Disagree => "Disagree",
        Refusal::TurnsSpent => "TurnsSpent",
    }
}

fn values_of(alloc: Global, refusal: &Refusal) -> Result<Vec<Value>, AllocError>
    ensures { IfOk result (λ v. map view v.items ≡ map number_data (values_of refusal.now)) }
{
    let (first, second) = refusal.values();
    let mut out = Vec::new(alloc);
    if let Some(value) = first {
        out.push(Value::from(value))?;
    }
    if let Some(value) = second {
        out.push(Value::from(value))?;
    }
    Ok(out)
}

fn put_text(
    members: &mut Map<String, Value>,
    alloc: Global,
    name: &str,
    text: &str,
) -> Result<(), AllocError>
    ensures { OnOk result (members_view members.new.entries ≡ with_member name.now (string text.now) (members_view members.old.entries)) }
{
    let text = String::from_str(alloc, text)?;
    put(members, alloc, name, Value::String(text))
}

fn yes_object(alloc: Global) -> Result<Value, AllocError>
    ensures { IfOk result (λ v. view v ≡ object (member (codes "answer") (string (codes "yes")) no_members)) }
{
    let mut map = Map::new(alloc);
    put_text(&mut map, alloc, "answer", "yes")?;
    Ok(Value::Object(map))
}

/// Returns the members of a refusal's object: `answer`, then the refusal's name, number and values.
pub fn refusal_members(alloc: Global, refusal: &Refusal) -> Result<Map<String, Value>, AllocError>
    ensures { IfOk result (λ map. members_view map.entries ≡ refusal_members refusal.now) }
{
    let values = values_of(alloc, refusal)?;
    let mut map = Map::new(alloc);
    put_text(&mut map, alloc, "answer", "no")?;
    put_text(&mut map, alloc, "name", name_of(refusal))?;
    put(&mut map, alloc, "number", Value::from(refusal.number()))?;
    put(&mut map, alloc, "values", Value::Array(values))?;
    Ok(map)
}

fn no_object(alloc: Global, refusal: &Refusal) -> Result<Value, AllocError>
    ensures { IfOk result (λ v. view v ≡ no_object refusal.now) }
{
    Ok(Value::Object(refusal_members(alloc, refusal)?))
}

fn answer_value(alloc: Global, found: &Result<Vec<u8>, Refusal>) -> Result<Value, AllocError>
    ensures { IfOk result (λ v. view v ≡ answer_value (texts_of found.now)) }
{
    match found {
        Ok(_) => yes_object(alloc),
        Err(refusal) => no_object(alloc, refusal),
    }
}

fn found_status(found: &Result<Vec<u8>, Refusal>) -> u8
    ensures { result ≡ status_of (texts_of found.now) }
{
    match found {
        Ok(_) => 0,
        Err(refusal) => status_of(refusal),
    }
}

fn line_of(alloc: Global, value: &Value) -> Result<Vec<u8>, AllocError>
    requires { has_float (view value.now) ≡ false }
    ensures { IfOk result (λ v. v.items ≡ compact_text (view value.now) ++ 10 ∷ []) }
{
    let mut line = value.to_vec(alloc)?;
    line.push(b'\n')?;
    Ok(line)
}

/// States a job's result as a line of JSON, with its text's exit status.
pub fn stated_of(alloc: Global, found: &Result<Vec<u8>, Refusal>) -> Result<Answer, AllocError>
    ensures output { IfOk result (λ answer. answer.output.items ≡ json_of (texts_of found.now)) }
    ensures status { IfOk result (λ answer. answer.status ≡ status_of (texts_of found.now)) }
{
    let value = answer_value(alloc, found)?;
    let output = line_of(alloc, &value)?;
    Ok(Answer {
        output,
        status: found_status(found),
    })
}
