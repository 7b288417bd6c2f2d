//! Changes of one map.

ghost use Rattle.std.specs.Prelude.{◌≡◌, ℕ, IfOk, IfErr};
ghost use Rattle.ring_names.specs.declared.refusal.Refusal.TheVariants.{OutOfMemory};
ghost use Rattle.store_maps.specs.Held.{held};

use crate::seat::Seat;
use crate::stores::Stores;
use ring_names::Refusal;
use ring_versions::{Fresh, Versions};
use store_maps::{FreshKeys, KeyMap};

impl Stores {
    ghost use Rattle.std.specs.Prelude.{◌<◌, List, length, OnOk, OnErr};
    ghost use Rattle.ring_versions.specs.Fresh.{IsFreshFor};
    ghost use Rattle.ring_versions.specs.declared.version.Version.{Version};
    ghost use Rattle.store_maps.specs.Chunks.{held_of};
    ghost use Rattle.store_maps.specs.Merges.{MergesAll, at_number, AreFreshFor};
    ghost use Rattle.ring_store.specs.Stores.{map_on, Changes, IsReadyIn, AreReadyIn, IsPlaceOn};

    fn open(&mut self, row: usize, seat: Seat) -> Result<usize, Refusal>
        requires { row < length self.old.rows.items }
        ensures only { Changes row seat self.old self.new }
        ensures same { (n : ℕ) → held_of (map_on self.new row seat) n ≡ held_of (map_on self.old row seat) n }
        ensures at { IfOk result (IsPlaceOn self.new row seat) }
        ensures memory { IfErr result (λ e. e ≡ OutOfMemory) }
    {
        let alloc = self.alloc;
        let maps = &mut self.rows[row];
        maps.open(alloc, seat)
    }

    pub(crate) fn merge(
        &mut self,
        row: usize,
        seat: Seat,
        number: usize,
        more: &Versions,
    ) -> Result<(), Refusal>
        requires { row < length self.old.rows.items }
        ensures only { Changes row seat self.old self.new }
        ensures ok { OnOk result (MergesAll (held_of (map_on self.old row seat)) (at_number number more.now)
            (held_of (map_on self.new row seat))) }
        ensures err { OnErr result ((n : ℕ)
            → held_of (map_on self.new row seat) n ≡ held_of (map_on self.old row seat) n) }
        ensures memory { IfErr result (λ e. e ≡ OutOfMemory) }
    {
        let place = self.open(row, seat)?;
        let maps = &mut self.rows[row];
        maps.maps[place].1.merge(number, more)
    }

    pub(crate) fn prepare(
        &mut self,
        row: usize,
        seat: Seat,
        number: usize,
        more: &Versions,
    ) -> Result<Fresh, Refusal>
        requires { row < length self.old.rows.items }
        ensures only { Changes row seat self.old self.new }
        ensures same { (n : ℕ) → held_of (map_on self.new row seat) n ≡ held_of (map_on self.old row seat) n }
        ensures ok { IfOk result (λ f. IsFreshFor (held_of (map_on self.old row seat) number) more.now f) }
        ensures ready { IfOk result (IsReadyIn (map_on self.new row seat) number) }
        ensures memory { IfErr result (λ e. e ≡ OutOfMemory) }
    {
        let place = self.open(row, seat)?;
        let maps = &mut self.rows[row];
        maps.maps[place].1.prepare(number, more)
    }

    pub(crate) fn settle(&mut self, row: usize, seat: Seat, number: usize, fresh: Fresh)
        requires row { row < length self.old.rows.items }
        requires ready { IsReadyIn (map_on self.old row seat) number fresh }
        ensures only { Changes row seat self.old self.new }
        ensures merged { (more : List Version) → IsFreshFor (held_of (map_on self.old row seat) number) more fresh
            → MergesAll (held_of (map_on self.old row seat)) (at_number number more)
            (held_of (map_on self.new row seat)) }
    {
        let maps = &mut self.rows[row];
        if let Ok(place) = maps.place(seat) {
            maps.maps[place].1.settle(number, fresh);
        }
    }

    pub(crate) fn take_in(&mut self, row: usize, seat: Seat, other: &KeyMap) -> Result<(), Refusal>
        requires { row < length self.old.rows.items }
        ensures only { Changes row seat self.old self.new }
        ensures ok { OnOk result (MergesAll (held_of (map_on self.old row seat)) (held other.now)
            (held_of (map_on self.new row seat))) }
        ensures err { OnErr result ((n : ℕ)
            → held_of (map_on self.new row seat) n ≡ held_of (map_on self.old row seat) n) }
        ensures memory { IfErr result (λ e. e ≡ OutOfMemory) }
    {
        let place = self.open(row, seat)?;
        let maps = &mut self.rows[row];
        maps.maps[place].1.take_in(other)
    }

    pub(crate) fn prepare_all(
        &mut self,
        row: usize,
        seat: Seat,
        other: &KeyMap,
    ) -> Result<FreshKeys, Refusal>
        requires { row < length self.old.rows.items }
        ensures only { Changes row seat self.old self.new }
        ensures same { (n : ℕ) → held_of (map_on self.new row seat) n ≡ held_of (map_on self.old row seat) n }
        ensures ok { IfOk result (AreFreshFor (held_of (map_on self.old row seat)) (held other.now)) }
        ensures ready { IfOk result (AreReadyIn (map_on self.new row seat)) }
        ensures memory { IfErr result (λ e. e ≡ OutOfMemory) }
    {
        let place = self.open(row, seat)?;
        let maps = &mut self.rows[row];
        maps.maps[place].1.prepare_all(other)
    }

    pub(crate) fn settle_all(&mut self, row: usize, seat: Seat, fresh: FreshKeys)
        requires row { row < length self.old.rows.items }
        requires ready { AreReadyIn (map_on self.old row seat) fresh }
        ensures only { Changes row seat self.old self.new }
        ensures merged { (more : ℕ → List Version) → AreFreshFor (held_of (map_on self.old row seat)) more fresh
            → MergesAll (held_of (map_on self.old row seat)) more (held_of (map_on self.new row seat)) }
    {
        let maps = &mut self.rows[row];
        if let Ok(place) = maps.place(seat) {
            maps.maps[place].1.settle_all(fresh);
        }
    }

    // Copies the seat's map, so that both share its keys. Without a map, makes an empty one.
    pub(crate) fn copy_of(&mut self, row: usize, seat: Seat) -> Result<KeyMap, Refusal>
        requires { row < length self.old.rows.items }
        ensures only { Changes row seat self.old self.new }
        ensures same { (n : ℕ) → held_of (map_on self.new row seat) n ≡ held_of (map_on self.old row seat) n }
        ensures ok { IfOk result (λ m. (n : ℕ) → held m n ≡ held_of (map_on self.old row seat) n) }
        ensures memory { IfErr result (λ e. e ≡ OutOfMemory) }
    {
        let alloc = self.alloc;
        let maps = &mut self.rows[row];
        match maps.place(seat) {
            Ok(place) => shared_copy(&mut maps.maps[place].1),
            Err(_) => Ok(KeyMap::new(alloc)),
        }
    }
}

fn shared_copy(map: &mut KeyMap) -> Result<KeyMap, Refusal>
    ensures same { (n : ℕ) → held map.new n ≡ held map.old n }
    ensures ok { IfOk result (λ m. (n : ℕ) → held m n ≡ held map.old n) }
    ensures memory { IfErr result (λ e. e ≡ OutOfMemory) }
{
    map.share()?;
    map.try_copy()
}
