//! Laws of clocks made one at a time: contracts of empty functions.

ghost use Rattle.std.specs.Prelude.{ℕ, List, [], ◌∷◌, ◌++◌, length, Option};
ghost use Rattle.ring_clock.specs.declared.entry.Entry.{Entry as TheEntry};
ghost use Rattle.ring_clock.specs.declared.causes.Cause.{Cause as TheCause};
ghost use Rattle.ring_clock.specs.Causes.{IsEarlier, IsSuccession};
ghost use Rattle.ring_clock.specs.Built.{IsInput, IsLast, IsNext, AreClocks, with_clock};

/// If clocks are right, they stay right with one more put.
///
/// The put's clock joins those of puts seen and of the writer's last, and counts one more.
pub fn clocks_grow()
    ensures { (causes : List TheCause) (cause : TheCause) (clock : ℕ → List TheEntry) (last : Option ℕ)
        (c : List TheEntry)
        → IsEarlier (causes ++ cause ∷ []) → AreClocks causes clock
        → IsLast causes (length causes) cause.writer.0 last → IsNext clock (IsInput cause last) cause.writer.0 c
        → AreClocks (causes ++ cause ∷ []) (with_clock clock (length causes) c) }
{}

/// A put succeeds another exactly if its clock is at least the other's.
pub fn clocks_are_in_order()
    ensures { (causes : List TheCause) (clock : ℕ → List TheEntry) → AreClocks causes clock
        → IsSuccession causes clock }
{}
