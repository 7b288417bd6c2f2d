//! Laws of what version sets show: contracts of empty functions.

ghost use Rattle.std.specs.Prelude.{◌≡◌, ◌↔◌, ◌⊎◌, ℕ, ◌<◌, Bool, true, false, ◌&&◌, ◌||◌, ◌==◌};
ghost use Rattle.std.specs.Prelude.{List, [], ◌∷◌, length};
ghost use Rattle.ring_names.specs.Lists.{has};
ghost use Rattle.ring_names.specs.declared.ids.Slot.{Slot as TheSlot};
ghost use Rattle.ring_table.specs.Value.{RingValue};
ghost use Rattle.ring_clock.specs.declared.entry.Entry.{Entry as TheEntry};
ghost use Rattle.ring_clock.specs.Built.{with_clock};
ghost use Rattle.ring_versions.specs.declared.version.Version.{Version as TheVersion};
ghost use Rattle.ring_versions.specs.Versions.{Covers, IsApart, IsMerge};
ghost use Rattle.ring_versions.specs.Puts.{ArePuts};
ghost use Rattle.plan_text.specs.declared.step.Planned.{Planned};
ghost use Rattle.plan_runs.specs.World.{World, passing_below, stage_now, key_of_put, is_of_key};
ghost use Rattle.plan_runs.specs.Succession.{latest};
ghost use Rattle.plan_runs.specs.Versions.{is_held};
ghost use Rattle.plan_runs.specs.Reached.{Reached};
ghost use Rattle.store_parts.specs.Shows.{Shows, OfOneKey, ArePutsOf};
ghost use Rattle.store_parts.specs.Clocks.{AreClocksOf};

/// An empty set shows no put, one version its own put, a merge what both sets show. Merging an empty set can change
/// nothing.
///
/// What is shown depends only on which numbers pass the test, and on their clocks and values.
pub fn shown_sets_merge()
    ensures merge { (clock : ℕ → List TheEntry) (value : ℕ → List ℕ) (a b c : List TheVersion) (f g : ℕ → Bool)
        → Shows clock value a f → Shows clock value b g → IsMerge a b c → Shows clock value c (λ v. f v || g v) }
    ensures none { (clock : ℕ → List TheEntry) (value : ℕ → List ℕ) → Shows clock value [] (λ v. false) }
    ensures one { (clock : ℕ → List TheEntry) (value : ℕ → List ℕ) (x : TheVersion) → x.clock ≡ clock x.put
        → x.value ≡ value x.put → Shows clock value (x ∷ []) (λ v. v == x.put) }
    ensures with_none { (held : List TheVersion) → IsApart held → IsMerge held [] held }
    ensures other_test { (clock : ℕ → List TheEntry) (value : ℕ → List ℕ) (held : List TheVersion) (f g : ℕ → Bool)
        → ((v : ℕ) → f v ≡ g v) → Shows clock value held f → Shows clock value held g }
    ensures other_clock { (clock other : ℕ → List TheEntry) (value : ℕ → List ℕ) (held : List TheVersion)
        (test : ℕ → Bool)
        → ((v : ℕ) → test v ≡ true → other v ≡ clock v) → Shows clock value held test → Shows other value held test }
    ensures other_value { (clock : ℕ → List TheEntry) (value other : ℕ → List ℕ) (held : List TheVersion)
        (test : ℕ → Bool)
        → ((v : ℕ) → test v ≡ true → other v ≡ value v) → Shows clock value held test → Shows clock other held test }
    ensures new_clock { (w : World) (clock : ℕ → List TheEntry) (value : ℕ → List ℕ) (c : List TheEntry)
        (held : List TheVersion) (test : ℕ → Bool)
        → ArePutsOf w test → Shows clock value held test → Shows (with_clock clock (length w.puts) c) value held test }
{}

/// Versions that show puts of one key have the latest ones' numbers, ascending, and show these too.
pub fn shown_numbers_are_the_latest()
    ensures numbers { (w : World) (clock : ℕ → List TheEntry) (value : ℕ → List ℕ) (held : List TheVersion)
        (test : ℕ → Bool)
        → AreClocksOf w clock → ArePutsOf w test → OfOneKey w test → Shows clock value held test
        → (ns : List ℕ) → ArePuts held ns → ns ≡ latest w (passing_below (length w.puts) test) }
    ensures shown { (w : World) (clock : ℕ → List TheEntry) (value : ℕ → List ℕ) (held : List TheVersion)
        (test : ℕ → Bool)
        → AreClocksOf w clock → ArePutsOf w test → OfOneKey w test → Shows clock value held test
        → Shows clock value held (λ v. has v (latest w (passing_below (length w.puts) test))) }
{}

/// A slot holds a put exactly if its owner's versions of the key, or a keeper's hints for the slot, cover the put's
/// clock.
pub fn slot_is_held_where_covered()
    ensures { (ring : RingValue) (plan : List Planned) (w : World) (clock : ℕ → List TheEntry) (value : ℕ → List ℕ)
        (v : ℕ) (slot : TheSlot)
        (owner_held : List TheVersion) (hint_held : ℕ → List TheVersion)
        → Reached ring plan w → AreClocksOf w clock → v < length w.puts
        → Shows clock value owner_held
        (λ u. w.stored (stage_now ring plan w slot).owner.0 slot u && is_of_key w (key_of_put w v) u)
        → ((x : ℕ) → x < length ring.nodes
        → Shows clock value (hint_held x) (λ u. w.hinted x slot u && is_of_key w (key_of_put w v) u))
        → (is_held ring plan w v slot ≡ true)
        ↔ (Covers owner_held (clock v) ⊎ ((x : ℕ) × (x < length ring.nodes) × Covers (hint_held x) (clock v))) }
{}
