//! A chunk's maps.

ghost use Rattle.std.specs.Prelude.{◌≡◌, ◌≢◌, ℕ, [], Some, None, IfSome, IfNone, IfOk, IfErr};
ghost use Rattle.ring_names.specs.declared.refusal.Refusal.TheVariants.{OutOfMemory};
ghost use Rattle.store_maps.specs.Chunks.{held_of};
ghost use Rattle.store_maps.specs.Sorted.{IsThere, GoesAt};
ghost use Rattle.ring_store.specs.Seats.{seat_cmp, map_at, AreInOrder, AreInOrder-prop};
ghost use Rattle.ring_store.specs.declared.seat.Seat.{Seat};

use crate::seat::Seat;
use ring_names::{NodeId, Refusal};
use std::alloc::Global;
use store_maps::{KeyMap, lengthen, place_of};

// A chunk's maps, ascending by seat.
#[derive(Drop)]
pub(crate) struct Row {
    pub(crate) maps: Vec<(Seat, KeyMap)>,
    ghost order: { AreInOrder maps.items } by { AreInOrder-prop maps.items },
}

impl Row {
    pub(crate) fn new(alloc: Global) -> Row
        ensures { result.maps.items ≡ [] }
    {
        Row {
            maps: Vec::new(alloc),
        }
    }

    // Returns the place of the seat's map, or as `Err` where to insert it.
    pub(crate) fn place(&self, seat: Seat) -> Result<usize, usize>
        ensures found { IfOk result (IsThere seat_cmp seat self.now.maps.items) }
        ensures missing { IfErr result (GoesAt seat_cmp seat self.now.maps.items) }
    {
        place_of(self.maps.as_slice(), &seat)
    }

    pub(crate) fn map(&self, seat: Seat) -> Option<&KeyMap>
        ensures some { IfSome result (λ m. map_at self.now.maps.items seat ≡ Some m.now) }
        ensures none { IfNone result (map_at self.now.maps.items seat ≡ None) }
    {
        match self.place(seat) {
            Ok(place) => Some(&self.maps[place].1),
            Err(_) => None,
        }
    }

    // Finds or adds the seat's map.
    pub(crate) fn open(&mut self, alloc: Global, seat: Seat) -> Result<usize, Refusal>
        ensures at { IfOk result (IsThere seat_cmp seat self.new.maps.items) }
        ensures same { (n : ℕ)
            → held_of (map_at self.new.maps.items seat) n ≡ held_of (map_at self.old.maps.items seat) n }
        ensures others { (t : Seat) → t ≢ seat → map_at self.new.maps.items t ≡ map_at self.old.maps.items t }
        ensures memory { IfErr result (λ e. e ≡ OutOfMemory) }
    {
        match self.place(seat) {
            Ok(place) => Ok(place),
            Err(place) => {
                lengthen(&mut self.maps)?;
                self.maps.insert(place, (seat, KeyMap::new(alloc)))?;
                Ok(place)
            }
        }
    }

    pub(crate) fn drop_seat(&mut self, seat: Seat)
        ensures gone { map_at self.new.maps.items seat ≡ None }
        ensures others { (t : Seat) → t ≢ seat → map_at self.new.maps.items t ≡ map_at self.old.maps.items t }
    {
        if let Ok(place) = self.place(seat) {
            self.maps.remove(place);
        }
    }

    pub(crate) fn drop_node(&mut self, node: NodeId)
        ensures gone { (t : Seat) → t.node.0 ≡ node.0 → map_at self.new.maps.items t ≡ None }
        ensures others { (t : Seat) → t.node.0 ≢ node.0
            → map_at self.new.maps.items t ≡ map_at self.old.maps.items t }
    {
        self.maps.retain(|entry| entry.0.node != node);
    }
}
