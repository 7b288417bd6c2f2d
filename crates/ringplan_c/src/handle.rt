//! A judge's handle.

ghost use Rattle.std.specs.Prelude.{◌≢◌, ◌↔◌, IsTrue, None};

use crate::cell::Cell;
use crate::loose::Loose;
use history_watch::Judge;
use std::alloc::Global;
use std::mem::replace;

/// Holds a judge or none. In C, all bytes 0 make an empty handle.
#[repr(C)]
#[derive(Drop)]
pub struct Handle {
    cell: Cell,
    is_held: bool,
    ghost tells: { IsTrue is_held ↔ (cell.value ≢ None) },
}

impl Handle {
    ghost use Rattle.std.specs.Prelude.{◌≡◌, Some};
    ghost use Rattle.ringplan_c.specs.Held.{HasWatch, IsEmpty, held};

    #[cfg(test)]
    pub(crate) fn empty() -> Handle
        ensures { IsEmpty result }
    {
        Handle {
            cell: Cell::none(),
            is_held: false,
        }
    }

    pub(crate) fn is_held(&self) -> bool
        ensures { IsTrue result ↔ HasWatch self.now }
    {
        self.is_held
    }

    pub(crate) fn take(&mut self, alloc: Global) -> Box<Judge>
        requires { HasWatch self.old }
        ensures taken { held self.old ≡ Some result.value }
        ensures empty { IsEmpty self.new }
    {
        self.is_held = false;
        replace(&mut self.cell, Cell::none())
            .into_loose(alloc)
            .into_box()
    }

    pub(crate) fn put(&mut self, judge: Box<Judge>)
        requires { IsEmpty self.old }
        ensures { held self.new ≡ Some judge.value }
    {
        self.cell = Cell::of(Loose::of(judge));
        self.is_held = true;
    }
}
