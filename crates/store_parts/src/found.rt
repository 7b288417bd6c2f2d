//! Laws of what gets found, as versions: contracts of empty functions.

ghost use Rattle.std.specs.Prelude.{◌≡◌, ℕ, true, false, List, Option, Ok};
ghost use Rattle.ring_names.specs.Lists.{has};
ghost use Rattle.ring_table.specs.Value.{RingValue};
ghost use Rattle.ring_clock.specs.declared.entry.Entry.{Entry as TheEntry};
ghost use Rattle.ring_clock.specs.Built.{IsJoinOf};
ghost use Rattle.ring_versions.specs.declared.version.Version.{Version as TheVersion};
ghost use Rattle.ring_versions.specs.Versions.{IsMerge};
ghost use Rattle.ring_versions.specs.Puts.{ArePuts};
ghost use Rattle.plan_text.specs.declared.step.Planned.{Planned};
ghost use Rattle.plan_runs.specs.declared.event.Event.{Event as TheEvent};
ghost use Rattle.plan_runs.specs.declared.event.Event.TheVariants.{Read, EndGet};
ghost use Rattle.plan_runs.specs.declared.event.Reply.{Reply as TheReply};
ghost use Rattle.plan_runs.specs.declared.event.Reply.TheVariants.{Found, Answer};
ghost use Rattle.plan_runs.specs.World.{World};
ghost use Rattle.plan_runs.specs.Succession.{replied};
ghost use Rattle.plan_runs.specs.Answers.{answer};
ghost use Rattle.plan_runs.specs.Reached.{Reached};
ghost use Rattle.store_parts.specs.Shows.{Shows};
ghost use Rattle.store_parts.specs.Clocks.{AreClocksOf, IsInputOf};
ghost use Rattle.store_parts.specs.GetsFind.{can_find, found_by, is_of_get};
ghost use Rattle.store_parts.specs.Found.{IsJoinOfFound};

/// A read finds the puts of the slot's versions of the key. Merged with the get's versions, these show what the get has
/// found.
pub fn reads_are_merged()
    ensures shows { (ring : RingValue) (plan : List Planned) (w u : World) (clock : ℕ → List TheEntry)
        (value : ℕ → List ℕ) (g : ℕ) (r : TheReply)
        → Reached ring plan w → AreClocksOf w clock → (i : ℕ) (found at_slot new : List TheVersion)
        → answer ring plan w (Read g i) ≡ Ok (u, r) → Shows clock value found (found_by ring w g)
        → Shows clock value at_slot (can_find ring plan w g i)
        → IsMerge found at_slot new → Shows clock value new (found_by ring u g) }
    ensures reply { (ring : RingValue) (plan : List Planned) (w u : World) (clock : ℕ → List TheEntry)
        (value : ℕ → List ℕ) (g : ℕ) (r : TheReply)
        → Reached ring plan w → AreClocksOf w clock → (i : ℕ) (at_slot : List TheVersion) (ns : List ℕ)
        → answer ring plan w (Read g i) ≡ Ok (u, r) → Shows clock value at_slot (can_find ring plan w g i)
        → ArePuts at_slot ns → r ≡ Found ns }
{}

/// A get that ends replies with its versions' puts, which these versions then show.
pub fn ended_gets_show_replies()
    ensures shows { (ring : RingValue) (plan : List Planned) (w u : World) (clock : ℕ → List TheEntry)
        (value : ℕ → List ℕ) (g : ℕ) (r : TheReply) (found : List TheVersion)
        → Reached ring plan w → AreClocksOf w clock → answer ring plan w (EndGet g) ≡ Ok (u, r)
        → Shows clock value found (found_by ring w g)
        → Shows clock value found (replied u.gets g) }
    ensures reply { (ring : RingValue) (plan : List Planned) (w u : World) (clock : ℕ → List TheEntry)
        (value : ℕ → List ℕ) (g : ℕ) (r : TheReply) (found : List TheVersion)
        → Reached ring plan w → AreClocksOf w clock → answer ring plan w (EndGet g) ≡ Ok (u, r)
        → Shows clock value found (found_by ring w g)
        → (ns : List ℕ) → ArePuts found ns → r ≡ Answer ns }
{}

/// Events that are not the get's keep what it found, and its reply.
pub fn gets_are_kept()
    ensures { (ring : RingValue) (plan : List Planned) (w u : World) (e : TheEvent) (r : TheReply) (g : ℕ)
        → answer ring plan w e ≡ Ok (u, r) → is_of_get g e ≡ false
        → (v : ℕ) → (found_by ring u g v ≡ found_by ring w g v) × (replied u.gets g v ≡ replied w.gets g v) }
{}

/// Joining found clocks joins a put's inputs: the gets that it names, and its writer's last put.
///
/// The versions found must show these gets' replies.
pub fn found_clocks_join()
    ensures { (w : World) (clock : ℕ → List TheEntry) (value : ℕ → List ℕ) (found : ℕ → List TheVersion) (seen : List ℕ)
        (last : Option ℕ) (d : List TheEntry)
        → ((g : ℕ) → has g seen ≡ true → Shows clock value (found g) (replied w.gets g))
        → IsJoinOfFound clock found seen last d → IsJoinOf clock (IsInputOf w seen last) d }
{}
