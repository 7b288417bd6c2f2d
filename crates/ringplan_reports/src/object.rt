//! JSON objects.

ghost use Rattle.std.specs.Prelude.{◌≡◌, IfOk};

use ring_names::Refusal;
use ringplan_answers::Answer;
use serde_json::{Map, Value, put};
use std::alloc::Global;

#[derive(Drop)]
pub(crate) struct Object {
    alloc: Global,
    members: Map<String, Value>,
}

/// Drops bytes that are not UTF-8.
pub(crate) fn text_value(alloc: Global, text: &[u8]) -> Result<Value, Refusal> {
    let mut string = String::new(alloc);
    for chunk in text.utf8_chunks() {
        string.push_str(chunk.valid())?;
    }
    Ok(Value::String(string))
}

impl Object {
    /// An empty object.
    pub fn new(alloc: Global) -> Object {
        Object {
            alloc,
            members: Map::new(alloc),
        }
    }

    /// An object with these members.
    pub fn with(alloc: Global, members: Map<String, Value>) -> Object {
        Object { alloc, members }
    }

    /// Adds a member.
    pub fn put(&mut self, name: &str, value: Value) -> Result<(), Refusal> {
        Ok(put(&mut self.members, self.alloc, name, value)?)
    }

    /// Adds a number.
    pub fn number(&mut self, name: &str, number: u32) -> Result<(), Refusal> {
        self.put(name, Value::from(number))
    }

    /// Adds a number of 64 bits.
    pub fn long(&mut self, name: &str, number: u64) -> Result<(), Refusal> {
        self.put(name, Value::from(number))
    }

    /// Adds a text, without bytes that are not UTF-8.
    pub fn text(&mut self, name: &str, text: &[u8]) -> Result<(), Refusal> {
        let value = text_value(self.alloc, text)?;
        self.put(name, value)
    }

    /// The object as a value.
    pub fn value(self) -> Value {
        let Object { members, .. } = self;
        Value::Object(members)
    }

    /// The object as a line.
    pub fn answer(self, status: u8) -> Result<Answer, Refusal>
        ensures { IfOk result (λ answer. answer.status ≡ status) }
    {
        let alloc = self.alloc;
        let value = self.value();
        let mut output = value.to_vec(alloc)?;
        output.push(b'\n')?;
        Ok(Answer { output, status })
    }
}
