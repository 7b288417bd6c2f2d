//! Acknowledgements of puts.

ghost use Rattle.std.specs.Prelude.{◌≡◌, ◌∷◌, [], not, nat_le, length};
ghost use Rattle.ring_names.specs.declared.refusal.Refusal.TheVariants.{AlreadyDone, StaleTickets};
ghost use Rattle.plan_stage.specs.Clauses.{first_failing};
ghost use Rattle.plan_runs.specs.declared.event.Event.TheVariants.{Ack};
ghost use Rattle.plan_runs.specs.World.{passing_below};
ghost use Rattle.store_parts.specs.Puts.{ticket_at};
ghost use Rattle.store_parts.specs.Parts.{IsSound, Follows, Tests, Passes, Answers};
ghost use Rattle.store_clients.specs.Acks.{generation_in, is_current_in};

use plan_runs::Reply;
use ring_names::{Refusal, Slot};
use store_parts::{Parts, PutNow, Slots};

fn ticket(put: &PutNow, index: u32) -> Option<u32>
    ensures { result ≡ ticket_at put.now index }
{
    match put.tickets.get(index as usize) {
        Some(ticket) => *ticket,
        None => None,
    }
}

fn generation(slots: &Slots, slot: Slot) -> u32
    ensures { result ≡ generation_in slots.now slot }
{
    match slots.at(slot) {
        Some(now) => now.generation,
        None => 0,
    }
}

fn is_current(slots: &Slots, put: &PutNow, partition: u32, index: u32) -> bool
    ensures { result ≡ is_current_in slots.now put.now partition index }
{
    match ticket(put, index) {
        Some(given) => given == generation(slots, Slot { partition, index }),
        None => false,
    }
}

#[tactic(auto, using(store_parts::proofs::Counting::count_next, store_parts::proofs::Counting::count_most))]
fn current_tickets(slots: &Slots, put: &PutNow, partition: u32, n: u32) -> u32
    ensures { result ≡ length (passing_below n (is_current_in slots.now put.now partition)) }
{
    let mut current = 0;
    for index in 0..n {
        if is_current(slots, put, partition, index) {
            current += 1;
        }
    }
    current
}

fn refusal_by(acked: bool, needed: u32, current: u32) -> Option<Refusal>
    ensures { result ≡ first_failing ((not acked, AlreadyDone) ∷ (nat_le needed current, StaleTickets current) ∷ []) }
{
    if acked {
        return Some(Refusal::AlreadyDone);
    }
    if current < needed {
        return Some(Refusal::StaleTickets(current));
    }
    None
}

/// Returns why a put cannot be acknowledged now: unknown, already acknowledged, or fewer than W current tickets.
///
/// Costs a few look-ups for each slot of a partition.
pub fn ack_refusal(parts: &Parts, put: u32) -> Option<Refusal>
    requires { IsSound parts.now }
    ensures { Tests parts.now (Ack put) result }
{
    let Some(now) = parts.puts.get(put) else {
        return Some(Refusal::UnknownNumber);
    };
    let ring = parts.approved.ring();
    let place = parts.keys.place(now.key);
    let current = current_tickets(&parts.slots, now, place.partition, ring.n());
    refusal_by(now.acked, ring.w(), current)
}

/// Acknowledges the put. Costs one look-up.
pub fn ack(parts: &mut Parts, put: u32) -> Reply
    requires sound { IsSound parts.old }
    requires passes { Passes parts.old (Ack put) }
    ensures next { Answers parts.old (Ack put) result parts.new }
    ensures follows { Follows parts.old parts.new }
{
    parts.puts.acknowledge(put);
    Reply::Plain
}
