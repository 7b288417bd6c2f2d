//! A judge as C holds it: an opaque pointer.

ghost use Rattle.std.specs.Prelude.{◌≡◌, ◌≢◌, Option, None, Some};
ghost use Rattle.history_watch.specs.declared.judge.Judge.{Judge as TheJudge};
ghost use Rattle.ringplan_c.specs.Owning.{cell_coded, cell_owns};

use crate::loose::Loose;
use history_watch::Judge;
use std::alloc::Global;
use std::marker::Model;
use std::ptr::null_mut;

/// A pointer to a judge, or null. Dropping it frees nothing: `Handle::take` first takes the judge out.
#[repr(C)]
#[derive(Drop)]
pub struct Cell {
    at: *mut u8,
    pub ghost value: { Option TheJudge } by { cell_coded },
}

impl Model for Cell {
    ghost also_owns = { λ c. cell_owns c.at c.value };
}

impl Cell {
    pub(crate) fn none() -> Cell
        ensures { result.value ≡ None }
    {
        Cell { at: null_mut() }
    }

    pub(crate) fn of(loose: Loose<Judge, Global>) -> Cell
        ensures { result.value ≡ Some loose.value }
    {
        let Loose { at, alloc } = loose;
        Cell { at: at as *mut u8 }
    }

    pub(crate) fn into_loose(self, alloc: Global) -> Loose<Judge, Global>
        requires { self.value ≢ None }
        ensures { self.value ≡ Some result.value }
    {
        let Cell { at } = self;
        Loose {
            at: at as *mut Judge,
            alloc,
        }
    }
}
