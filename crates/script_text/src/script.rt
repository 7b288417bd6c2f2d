//! Scripts as values.

ghost use Rattle.std.specs.Prelude.{◌≡◌, ◌<◌, ◌≤◌, ◌++◌, ◌∷◌, [], length, OnOk, OnErr, IfErr};
ghost use Rattle.std.specs.List.{list_all};
ghost use Rattle.ring_names.specs.declared.refusal.Refusal.TheVariants.{OutOfMemory};
ghost use Rattle.script_text.specs.Client.{is_client_event};

use crate::client::is_client_event;
use plan_runs::Event;
use ring_names::Refusal;
use std::alloc::Global;
use std::marker::Model;

/// Events in order, at most 1,000,000.
#[derive(Debug, Drop)]
pub struct Script {
    events: Vec<Event>,
}

impl Model for Script {
    ghost use Rattle.std.specs.Prelude.{List, length, ◌≤◌};
    ghost use Rattle.plan_runs.specs.declared.event.Event.{Event};

    ghost Value = { List Event };

    ghost view = { λ a. a.events.items };

    ghost invariant = { λ a. length a.events.items ≤ 1000000 };
}

impl Script {
    /// Starts empty.
    pub fn new(alloc: Global) -> Script
        ensures { result ≡ [] }
    {
        Script {
            events: Vec::new(alloc),
        }
    }

    /// Counts the events.
    pub fn len(&self) -> usize
        ensures { result ≡ length self.now }
    {
        self.events.len()
    }

    /// Returns the events in order.
    pub fn events(&self) -> &[Event]
        ensures value { result.now ≡ self.now }
        ensures few { length self.now ≤ 1000000 }
    {
        self.events.as_slice()
    }

    /// Returns the events as a vector.
    pub fn into_vec(self) -> Vec<Event>
        ensures value { result.items ≡ self }
        ensures few { length self ≤ 1000000 }
    {
        let Script { events } = self;
        events
    }

    /// Adds an event.
    pub fn push(&mut self, event: Event) -> Result<(), Refusal>
        requires { length self.old < 1000000 }
        ensures ok { OnOk result (self.new ≡ self.old ++ event ∷ []) }
        ensures err { OnErr result (self.new ≡ self.old) }
        ensures memory { IfErr result (λ e. e ≡ OutOfMemory) }
    {
        self.events.reserve(1)?;
        self.events.push_reserved(event);
        Ok(())
    }

    /// Whether a client can cause each event.
    pub fn is_client(&self) -> bool
        ensures { result ≡ list_all is_client_event self.now }
    {
        self.events
            .as_slice()
            .iter()
            .all(|event| is_client_event(event))
    }
}
