//! A running store.

ghost use Rattle.std.specs.Prelude.{◌≤◌, length};
ghost use Rattle.store_parts.specs.Parts.{IsSound};

use crate::events::{happen, happen_with_copy, refusal};
use crate::resting::Rest;
use plan_check::Approved;
use plan_runs::{Event, Reply};
use ring_names::Refusal;
use std::alloc::Global;
use store_parts::Parts;

/// A store of all nodes of a ring, in one process, which follows an approved plan.
pub struct World<'a> {
    pub(crate) parts: Parts<'a>,
    ghost sound: { IsSound parts },
    ghost puts: { length parts.puts ≤ 4294967295 },
    ghost gets: { length parts.gets ≤ 4294967295 },
}

// Explicit, so that crates above need not check the parts.
impl Drop for World<'_> {
    fn drop(self) {
        let World { parts } = self;
        drop(parts);
    }
}

impl<'a> World<'a> {
    ghost use Rattle.std.specs.Prelude.{◌≡◌, ◌≢◌, ◌⊎◌, ℕ, ◌<◌, true, false, length, None, IfOk, IfErr, OnOk, OnErr};
    ghost use Rattle.ring_names.specs.declared.refusal.Refusal.TheVariants.{OutOfMemory};
    ghost use Rattle.plan_runs.specs.World.{World as TheWorld, opening_world};
    ghost use Rattle.ring_core.specs.declared.world.World.{World as TheStore};
    ghost use Rattle.ring_core.specs.Resting.{rest_of, IsReady, IsSame};
    ghost use Rattle.ring_core.specs.World.{ring_of, plan_of, Meets, Passes, Answers, Refuses, Stays, HasNumber};
    ghost use Rattle.ring_core.specs.World.{IsOneMore, put_count, get_count};
    ghost use Rattle.ring_core.specs.Numbers.{may_need_memory};
    ghost use Rattle.ring_core.specs.Promises.{IsFresh};

    /// Returns the store before the first event: members are up, nothing is stored, and no step is done.
    pub fn start(alloc: Global, approved: &'a Approved) -> Result<World<'a>, Refusal>
        ensures ring { IfOk result (λ a. ring_of a ≡ approved.now.ring) }
        ensures plan { IfOk result (λ a. plan_of a ≡ approved.now.plan) }
        ensures opening { IfOk result (λ a. Meets a (opening_world approved.now.ring)) }
        ensures counts { IfOk result (λ a. (put_count a ≡ 0) × (get_count a ≡ 0)) }
        ensures memory { IfErr result (λ e. e ≡ OutOfMemory) }
    {
        let parts = Parts::start(alloc, approved)?;
        Ok(World { parts })
    }

    /// Fails with the event's refusal now, if any, except out of memory.
    #[inline(always)]
    pub fn allows(&self, event: &Event) -> Result<(), Refusal>
        ensures ok { OnOk result (Passes self.now event.now) }
        ensures err { IfErr result (λ e. (e ≢ OutOfMemory) × Refuses self.now event.now e) }
    {
        match refusal(&self.parts, event) {
            Some(refusal) => Err(refusal),
            None => Ok(()),
        }
    }

    /// Applies the event and returns its reply.
    ///
    /// An ended get's reply has each put of its key acknowledged before the get started, or a successor.
    ///
    /// Out of memory comes last, and only for a chunk, put, write, hint, get, read, end of a get or handoff.
    pub fn apply(&mut self, event: &Event) -> Result<Reply, Refusal>
        requires { HasNumber self.old event.now }
        ensures ok { IfOk result (λ r. Answers self.old event.now r self.new) }
        ensures fresh { IfOk result (λ r. IsFresh self.old event.now r) }
        ensures err { IfErr result (λ e. (e ≡ OutOfMemory) ⊎ Refuses self.old event.now e) }
        ensures same { OnErr result (Stays self.old self.new) }
        ensures unchanged { IfErr result (λ e. e ≢ OutOfMemory → self.new ≡ self.old) }
        ensures late { IfErr result (λ e. e ≡ OutOfMemory → Passes self.old event.now) }
        ensures never { may_need_memory event.now ≡ false → IfErr result (λ e. e ≢ OutOfMemory) }
        ensures counts { IsOneMore self.old self.new }
        ensures ring { ring_of self.new ≡ ring_of self.old }
        ensures plan { plan_of self.new ≡ plan_of self.old }
    {
        self.allows(event)?;
        happen(&mut self.parts, event)
    }

    /// Applies an allowed event, and returns the reply twice: one to note, one to give.
    pub fn apply_with_copy(&mut self, event: &Event) -> Result<(Reply, Reply), Refusal>
        requires number { HasNumber self.old event.now }
        requires passes { Passes self.old event.now }
        ensures ok { IfOk result (λ r. Answers self.old event.now r.0 self.new) }
        ensures copy { IfOk result (λ r. r.1 ≡ r.0) }
        ensures fresh { IfOk result (λ r. IsFresh self.old event.now r.0) }
        ensures memory { IfErr result (λ e. e ≡ OutOfMemory) }
        ensures same { OnErr result (Stays self.old self.new) }
        ensures counts { IsOneMore self.old self.new }
        ensures ring { ring_of self.new ≡ ring_of self.old }
        ensures plan { plan_of self.new ≡ plan_of self.old }
    {
        happen_with_copy(&mut self.parts, event)
    }

    /// Returns the store without its plan.
    pub fn rest(self) -> Rest
        ensures rest { result ≡ rest_of self.entry }
        ensures ready { IsReady (ring_of self.entry) (plan_of self.entry) result }
    {
        let World { parts } = self;
        Rest::of(parts)
    }

    /// Makes a running store of one at rest. With the same ring and plan, it continues in the earlier store's world.
    pub fn resume(approved: &'a Approved, rest: Rest) -> World<'a>
        requires { IsReady approved.now.ring approved.now.plan rest }
        ensures ring { ring_of result ≡ approved.now.ring }
        ensures plan { plan_of result ≡ approved.now.plan }
        ensures rest { rest_of result ≡ rest }
        ensures same { (a : TheStore) → ring_of a ≡ approved.now.ring → plan_of a ≡ approved.now.plan → rest_of a ≡ rest → IsSame a result }
    {
        World {
            parts: rest.parts(approved),
        }
    }
}
