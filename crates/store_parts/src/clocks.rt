//! Laws of puts' clocks in a world: contracts of empty functions.

ghost use Rattle.std.specs.Prelude.{◌≡◌, ◌↔◌, ℕ, ◌<◌, ◌≤◌, false, List, length, Option, Ok};
ghost use Rattle.ring_names.specs.declared.ids.WriterId.{WriterId as TheWriter};
ghost use Rattle.ring_table.specs.Value.{RingValue};
ghost use Rattle.ring_clock.specs.declared.entry.Entry.{Entry as TheEntry};
ghost use Rattle.ring_clock.specs.Clock.{counter, IsAtMost};
ghost use Rattle.ring_clock.specs.Built.{IsNext, with_clock};
ghost use Rattle.plan_text.specs.declared.step.Planned.{Planned};
ghost use Rattle.plan_runs.specs.declared.event.Event.{Event as TheEvent};
ghost use Rattle.plan_runs.specs.declared.event.Event.TheVariants.{StartPut};
ghost use Rattle.plan_runs.specs.declared.event.Reply.{Reply as TheReply};
ghost use Rattle.plan_runs.specs.World.{World, opening_world, key_of_put, writer_of};
ghost use Rattle.plan_runs.specs.Succession.{Succeeds};
ghost use Rattle.plan_runs.specs.Answers.{answer};
ghost use Rattle.plan_runs.specs.Reached.{Reached};
ghost use Rattle.plan_runs.specs.Leaves.{starts_put};
ghost use Rattle.store_parts.specs.Clocks.{AreClocksOf, IsLastOf, IsInputOf};

/// A put's clock is at most another's of its key exactly if the other succeeds it.
pub fn clocks_tell_succession()
    ensures { (w : World) (clock : ℕ → List TheEntry) → AreClocksOf w clock
        → (u v : ℕ) → u < length w.puts → v < length w.puts → key_of_put w u ≡ key_of_put w v
        → IsAtMost (clock v) (clock u) ↔ Succeeds w u v }
{}

/// For two puts of one key, the first's clock is at most the second's if its writer's counter is.
pub fn own_counters_tell()
    ensures { (w : World) (clock : ℕ → List TheEntry) → AreClocksOf w clock
        → (u v : ℕ) → u < length w.puts → v < length w.puts → key_of_put w u ≡ key_of_put w v
        → counter (clock v) (writer_of w v) ≤ counter (clock u) (writer_of w v) → IsAtMost (clock v) (clock u) }
{}

/// At the start any clocks are right. An event that starts no put keeps them right.
///
/// So does a started put, if its clock is made from its inputs' clocks.
pub fn clocks_are_kept()
    ensures opening { (ring : RingValue) (clock : ℕ → List TheEntry) → AreClocksOf (opening_world ring) clock }
    ensures stay { (ring : RingValue) (plan : List Planned) (w u : World) (e : TheEvent) (r : TheReply)
        (clock : ℕ → List TheEntry)
        → Reached ring plan w → AreClocksOf w clock → answer ring plan w e ≡ Ok (u, r) → starts_put e ≡ false
        → AreClocksOf u clock }
    ensures grow { (ring : RingValue) (plan : List Planned) (w u : World) (writer : TheWriter) (key value seen : List ℕ)
        (r : TheReply)
        (last : Option ℕ) (clock : ℕ → List TheEntry) (c : List TheEntry)
        → Reached ring plan w → AreClocksOf w clock → IsLastOf w writer.0 key last
        → IsNext clock (IsInputOf w seen last) writer.0 c
        → answer ring plan w (StartPut writer key value seen) ≡ Ok (u, r)
        → AreClocksOf u (with_clock clock (length w.puts) c) }
{}
