//! Questions to a running store.

use crate::world::World;
use ring_clock::Clock;
use ring_hints::KeptFor;
use ring_names::{Listed, NodeId, Refusal, Slot};
use ring_store::SlotKey;
use store_events::is_ready;

impl<'a> World<'a> {
    ghost use Rattle.std.specs.Prelude.{◌≡◌, ℕ, ◌<◌, ◌≤◌, ◌&&◌, ◌==◌, true, false, List, length, slice_get, option_map};
    ghost use Rattle.std.specs.Prelude.{nat_lt, IsTrue, ◌↔◌, Some, IfOk, IfErr, IfSome, IfNone};
    ghost use Rattle.std.specs.Int.{bit_at};
    ghost use Rattle.ring_names.specs.declared.refusal.Refusal.TheVariants.{OutOfMemory};
    ghost use Rattle.plan_text.specs.Valid.{is_ring_slot};
    ghost use Rattle.plan_runs.specs.Versions.{put_slot, is_held};
    ghost use Rattle.plan_runs.specs.World.{World as TheWorld, is_acked, is_member_now, key_of_put, stage_now, keeps, slot_at};
    ghost use Rattle.ring_hints.specs.Hints.{hinted_at, kept_count, kept_pairs};
    ghost use Rattle.store_parts.specs.Parts.{kept_of};
    ghost use Rattle.ring_versions.specs.Versions.{Covers};
    ghost use Rattle.ring_store.specs.Stores.{held_at};
    ghost use Rattle.ring_core.specs.Tables.{values_below, owner_kept, owners_now, owners_last, AllDone, left_of};
    ghost use Rattle.ring_core.specs.Tables.{can_begin_kept, IsNextStep, NoNextStep};
    ghost use Rattle.ring_core.specs.World.{ring_of, plan_of, Meets, put_count, get_count, clock_of};
    ghost use Rattle.ring_clock.specs.Clock.{IsAtMost};
    ghost use Rattle.plan_runs.specs.Succession.{Succeeds};
    ghost use Rattle.plan_check.specs.Safe.{GroupsAreApart};
    ghost use Rattle.ring_core.specs.Promises.{MeetsEveryRead};

    /// Counts the puts.
    pub fn puts(&self) -> u32
        ensures count { result ≡ put_count self.now }
        ensures world { (w : TheWorld) → Meets self.now w → result ≡ length w.puts }
    {
        self.parts.puts.len() as u32
    }

    /// A law: a put's clock is at most another's of its key exactly if the other succeeds it (DeCandia et al. 2007,
    /// section 4.4).
    pub fn clocks_tell_succession(&self)
        ensures { (w : TheWorld) → Meets self.now w → (u v : ℕ) → u < length w.puts → v < length w.puts
            → key_of_put w u ≡ key_of_put w v
            → IsAtMost (clock_of self.now v) (clock_of self.now u) ↔ Succeeds w u v }
    {
        let _ = self.parts.losses;
    }

    /// A law: two slots of a partition share no node, keepers of hints included.
    pub fn groups_stay_apart(&self)
        ensures { (w : TheWorld) → Meets self.now w → GroupsAreApart (ring_of self.now) (plan_of self.now) w }
    {
        let _ = self.parts.losses;
    }

    /// Counts the gets.
    pub fn gets(&self) -> u32
        ensures count { result ≡ get_count self.now }
        ensures world { (w : TheWorld) → Meets self.now w → result ≡ length w.gets }
    {
        self.parts.gets.len() as u32
    }

    /// Counts the steps not done, without a look-up.
    pub fn left(&self) -> u32
        ensures { (w : TheWorld) → Meets self.now w → result ≡ left_of (plan_of self.now) w }
    {
        self.parts.steps.left()
    }

    /// Returns the n-th pair of a node and a slot whose hints it keeps. The order stays until hints change.
    pub fn hint_at(&self, n: u32) -> Option<(NodeId, Slot)>
        ensures some { IfSome result (λ pair. (w : TheWorld) → Meets self.now w → keeps w pair.0.0 pair.1 ≡ true) }
        ensures value { result
            ≡ option_map (λ pair. (pair.keeper, pair.slot)) (slice_get (kept_pairs self.now.parts.hints) n) }
        ensures none { IfNone result (kept_count self.now.parts.hints ≤ n) }
    {
        self.parts.hints.nth(n)
    }

    /// Returns the slot's owner now.
    pub fn owner(&self, slot: Slot) -> NodeId
        requires { is_ring_slot (ring_of self.now) slot ≡ true }
        ensures now { (w : TheWorld) → Meets self.now w
            → result ≡ (stage_now (ring_of self.now) (plan_of self.now) w slot).owner }
        ensures kept { result ≡ owner_kept (kept_of self.now.parts) slot }
    {
        let Some(owner) = self.parts.slots.owner(slot) else {
            unreachable!()
        };
        owner
    }

    /// Whether the node is a member now.
    pub fn is_member(&self, node: NodeId) -> bool
        ensures { (w : TheWorld) → Meets self.now w → result ≡ is_member_now (ring_of self.now) (plan_of self.now) w node.0 }
    {
        self.parts.nodes.is_member(node)
    }

    fn row(&self, partition: u32) -> Result<Listed<NodeId>, Refusal>
        requires { partition < (ring_of self.now).q }
        ensures ok { IfOk result (λ row. row
            ≡ values_below (ring_of self.now).n (λ i. owner_kept (kept_of self.now.parts) (slot_at partition i))) }
        ensures memory { IfErr result (λ e. e ≡ OutOfMemory) }
    {
        let n = self.parts.approved.ring().n();
        let mut owners = Vec::new(self.parts.alloc);
        for index in 0..n {
            let owner = self.owner(Slot { partition, index });
            owners.push(owner)?;
        }
        Ok(Listed::from_vec(owners))
    }

    /// Returns all owners now, by partition and index. If every step is done, these are the last owners, in whatever
    /// order steps were done.
    pub fn table(&self) -> Result<Vec<Listed<NodeId>>, Refusal>
        ensures now { IfOk result (λ rows. (w : TheWorld) → Meets self.now w
            → rows.items ≡ owners_now (ring_of self.now) (plan_of self.now) w) }
        ensures last { IfOk result (λ rows. (w : TheWorld) → Meets self.now w → AllDone (plan_of self.now) w
            → rows.items ≡ owners_last (ring_of self.now) (plan_of self.now)) }
        ensures size { IfOk result (λ rows. length rows.items ≡ (ring_of self.now).q) }
        ensures memory { IfErr result (λ e. e ≡ OutOfMemory) }
    {
        let q = self.parts.approved.ring().q();
        let mut rows = Vec::new(self.parts.alloc);
        for partition in 0..q {
            rows.push(self.row(partition)?)?;
        }
        Ok(rows)
    }

    fn hints_cover(&self, at: &SlotKey, clock: &Clock) -> bool
        ensures { IsTrue result
            ↔ ((x : ℕ) × Covers (hinted_at self.now.parts.hints x at.now.slot at.now.key) clock.now) }
    {
        let Some(keepers) = self.parts.hints.key_keepers(at.slot, at.key) else {
            return false;
        };
        'keepers: for keeper in keepers {
            let pair = KeptFor {
                keeper: *keeper,
                slot: at.slot,
            };
            if let Some(versions) = self.parts.hints.key_versions_in(pair, at.key) {
                if versions.covers(clock) {
                    return true;
                }
            }
        }
        false
    }

    fn owner_covers(&self, at: &SlotKey, clock: &Clock) -> bool
        requires { is_ring_slot (ring_of self.now) at.now.slot ≡ true }
        ensures { IsTrue result ↔ Covers (held_at self.now.parts.stores
            (owner_kept (kept_of self.now.parts) at.now.slot).0 at.now.slot at.now.key) clock.now }
    {
        match self.parts.stores.key_versions_in(self.owner(at.slot), at) {
            Some(versions) => versions.covers(clock),
            None => false,
        }
    }

    fn holds(&self, put: u32, index: u32) -> bool
        requires put { put < length self.now.parts.puts }
        requires index { index < (ring_of self.now).n }
        ensures { (w : TheWorld) → Meets self.now w
            → result ≡ is_held (ring_of self.now) (plan_of self.now) w put (put_slot (ring_of self.now) w put index) }
    {
        let Some(now) = self.parts.puts.get(put) else {
            unreachable!()
        };
        let Some(version) = now.version.first() else {
            unreachable!()
        };
        let place = self.parts.keys.place(now.key);
        let slot = Slot {
            partition: place.partition,
            index,
        };
        let key = self.parts.keys.id(now.key);
        let at = SlotKey { slot, key };
        let by_owner = self.owner_covers(&at, &version.clock);
        let by_hints = self.hints_cover(&at, &version.clock);
        by_owner | by_hints
    }

    /// Returns the slots of the put's partition that hold the put or a successor: bit i for index i.
    ///
    /// Any R slots include one whose bit is set, if the put is acknowledged. Looks at each slot's owner and keepers of
    /// hints.
    pub fn held_slots(&self, put: u32) -> u32
        requires { put < length self.now.parts.puts }
        ensures acknowledged { (w : TheWorld) → Meets self.now w → is_acked w put ≡ true
            → MeetsEveryRead (ring_of self.now) result }
        ensures now { (w : TheWorld) → Meets self.now w → (i : ℕ) → i < 32
            → (bit_at result i == 1) ≡ (nat_lt i (ring_of self.now).n
            && is_held (ring_of self.now) (plan_of self.now) w put (put_slot (ring_of self.now) w put i)) }
    {
        let n = self.parts.approved.ring().n();
        let mut mask = 0u32;
        for index in 0..n {
            if self.holds(put, index) {
                mask |= 1 << index;
            }
        }
        mask
    }

    fn can_begin(&self, step: u32) -> bool
        requires { step < length (plan_of self.now) }
        ensures { result ≡ can_begin_kept (plan_of self.now) self.now.parts.steps step }
    {
        let steps = &self.parts.steps;
        !(steps.is_done(step) || steps.is_open(step)) && is_ready(&self.parts, step)
    }

    /// Returns the least step from `from` on that can begin: neither done nor open, with its dependencies done.
    /// Looks at each step up to it.
    pub fn ready(&self, from: u32) -> Option<u32>
        ensures some { IfSome result (λ n. (w : TheWorld) → Meets self.now w → IsNextStep (plan_of self.now) w from n) }
        ensures none { IfNone result ((w : TheWorld) → Meets self.now w → NoNextStep (plan_of self.now) w from) }
    {
        let count = self.parts.approved.plan().len();
        for step in from..count {
            if self.can_begin(step) {
                return Some(step);
            }
        }
        None
    }
}
