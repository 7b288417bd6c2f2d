//! Laws of what nodes store, as versions: contracts of empty functions.

ghost use Rattle.std.specs.Prelude.{◌≡◌, ℕ, Bool, ◌||◌, List, length, Option, Ok};
ghost use Rattle.ring_names.specs.declared.ids.NodeId.{NodeId as TheNode};
ghost use Rattle.ring_names.specs.declared.ids.Slot.{Slot as TheSlot};
ghost use Rattle.ring_table.specs.Value.{RingValue};
ghost use Rattle.ring_clock.specs.declared.entry.Entry.{Entry as TheEntry};
ghost use Rattle.ring_clock.specs.Built.{with_clock};
ghost use Rattle.ring_versions.specs.declared.version.Version.{Version as TheVersion};
ghost use Rattle.plan_text.specs.declared.step.Planned.{Planned};
ghost use Rattle.plan_runs.specs.declared.event.Event.{Event as TheEvent};
ghost use Rattle.plan_runs.specs.declared.event.Reply.{Reply as TheReply};
ghost use Rattle.plan_runs.specs.World.{World};
ghost use Rattle.plan_runs.specs.Answers.{answer};
ghost use Rattle.plan_runs.specs.Effects.{with_puts, with_mirror_puts, served_puts, write_effect, hint_effect};
ghost use Rattle.plan_runs.specs.Effects.{handoff_effect, chunk_copy_effect};
ghost use Rattle.store_parts.specs.Shows.{ArePutsOf};
ghost use Rattle.store_parts.specs.Stored.{ShowAll, MergeAll, at_node, at_mirror, at_served, written, handed, copied};
ghost use Rattle.store_parts.specs.Stored.{kept_by};

/// Versions merged by node, slot and key show the puts that either part showed.
pub fn stored_sets_grow()
    ensures { (w : World) (clock : ℕ → List TheEntry) (old more new : ℕ → TheSlot → List ℕ → List TheVersion)
        (test extra : ℕ → TheSlot → ℕ → Bool)
        → ShowAll w clock old test → ShowAll w clock more extra → MergeAll old more new
        → ShowAll w clock new (λ x s v. extra x s v || test x s v) }
{}

/// Versions that show existing puts show them also after an event, or if one more put has a clock.
pub fn stored_sets_last()
    ensures event { (ring : RingValue) (plan : List Planned) (w u : World) (e : TheEvent) (r : TheReply)
        (clock : ℕ → List TheEntry)
        (held : ℕ → TheSlot → List ℕ → List TheVersion) (test : ℕ → TheSlot → ℕ → Bool) → answer ring plan w e ≡ Ok (u, r)
        → ((x : ℕ) (s : TheSlot) → ArePutsOf w (test x s)) → ShowAll w clock held test → ShowAll u clock held test }
    ensures new_clock { (w : World) (clock : ℕ → List TheEntry) (c : List TheEntry)
        (held : ℕ → TheSlot → List ℕ → List TheVersion) (test : ℕ → TheSlot → ℕ → Bool)
        → ((x : ℕ) (s : TheSlot) → ArePutsOf w (test x s)) → ShowAll w clock held test
        → ShowAll w (with_clock clock (length w.puts) c) held test }
{}

/// Puts of a write, handoff, chunk or hint come first: at a node, a mirror, or both.
pub fn puts_come_in_front()
    ensures node { (test : ℕ → TheSlot → ℕ → Bool) (x : TheNode) (s : TheSlot) (more : ℕ → Bool) (y : ℕ) (t : TheSlot)
        (v : ℕ)
        → with_puts test x s more y t v ≡ (at_node x s more y t v || test y t v) }
    ensures mirror { (test : ℕ → TheSlot → ℕ → Bool) (o : Option TheNode) (s : TheSlot) (more : ℕ → Bool) (y : ℕ)
        (t : TheSlot) (v : ℕ)
        → with_mirror_puts test o s more y t v ≡ (at_mirror o s more y t v || test y t v) }
    ensures served { (ring : RingValue) (plan : List Planned) (w : World) (s : TheSlot) (more : ℕ → Bool) (y : ℕ)
        (t : TheSlot) (v : ℕ)
        → served_puts ring plan w s more y t v ≡ (at_served ring plan w s more y t v || w.stored y t v) }
    ensures write { (ring : RingValue) (plan : List Planned) (w : World) (v i : ℕ) (y : ℕ) (t : TheSlot) (u : ℕ)
        → (write_effect ring plan w v i).stored y t u ≡ (written ring plan w v i y t u || w.stored y t u) }
    ensures handoff { (ring : RingValue) (plan : List Planned) (w : World) (x : TheNode) (s : TheSlot) (y : ℕ)
        (t : TheSlot) (u : ℕ)
        → (handoff_effect ring plan w x s).stored y t u ≡ (handed ring plan w x s y t u || w.stored y t u) }
    ensures chunk { (ring : RingValue) (plan : List Planned) (w : World) (n c : ℕ) (y : ℕ) (t : TheSlot) (u : ℕ)
        → (chunk_copy_effect ring plan w n c).stored y t u ≡ (copied ring plan w n c y t u || w.stored y t u) }
    ensures hint { (ring : RingValue) (plan : List Planned) (w : World) (v i : ℕ) (x : TheNode) (y : ℕ) (t : TheSlot)
        (u : ℕ)
        → (hint_effect ring plan w v i x).hinted y t u ≡ (kept_by ring w v i x y t u || w.hinted y t u) }
{}
