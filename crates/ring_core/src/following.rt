//! One entry of a history.

ghost use Rattle.std.specs.Prelude.{◌≡◌, ◌≢◌, IfOk, IfErr};
ghost use Rattle.ring_names.specs.declared.refusal.Refusal.TheVariants.{OutOfMemory};
ghost use Rattle.plan_runs.specs.World.{World as TheWorld};
ghost use Rattle.ring_core.specs.World.{ring_of, plan_of, Meets, Passes, Answers, IsOneMore, HasNumber};
ghost use Rattle.ring_core.specs.Faults.{FailsAt};

use crate::world::World;
use plan_runs::{Entry, Reply, is_same_reply};
use ring_names::Refusal;

/// Applies the entry's event. Returns the reply if the entry has the same.
///
/// Otherwise fails with `Mismatch`: the place, and the refusal's number, or 0 if the replies differ. Only with 0
/// has the store changed.
///
/// Out of memory comes last. Costs a `World::apply`.
pub fn follow(world: &mut World, place: u32, entry: &Entry) -> Result<Reply, Refusal>
    requires { HasNumber world.old entry.now.event }
    ensures ok { IfOk result (λ r. (r ≡ entry.now.reply) × Answers world.old entry.now.event r world.new) }
    ensures err { IfErr result (λ e. e ≢ OutOfMemory → (w : TheWorld) → Meets world.old w
        → FailsAt (ring_of world.old) (plan_of world.old) w place entry.now e) }
    ensures late { IfErr result (λ e. e ≡ OutOfMemory → Passes world.old entry.now.event) }
    ensures counts { IsOneMore world.old world.new }
    ensures ring { ring_of world.new ≡ ring_of world.old }
    ensures plan { plan_of world.new ≡ plan_of world.old }
{
    match world.apply(&entry.event) {
        Ok(reply) => {
            if is_same_reply(&reply, &entry.reply) {
                Ok(reply)
            } else {
                Err(Refusal::Mismatch(place, 0))
            }
        }
        Err(Refusal::OutOfMemory) => Err(Refusal::OutOfMemory),
        Err(refusal) => Err(Refusal::Mismatch(place, refusal.number() as u32)),
    }
}
