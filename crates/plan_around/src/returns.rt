//! Which mirrors may be undone.

ghost use Rattle.std.specs.Prelude.{◌≡◌, true, IsTrue, IfOk, OnOk};
ghost use Rattle.plan_around.specs.Alike.{may_return, AreNamed};

use history_laws::SlotSet;
use plan_runs::Back;
use ring_names::{Refusal, Slot};
use std::alloc::Global;

/// Whether mirrors may be undone. Staying slots' mirrors always may.
#[derive(Drop)]
pub(crate) struct Returns<'a> {
    pub(crate) back: Back,
    pub(crate) left: &'a [Slot],
    staying: SlotSet,
    ghost listed: { AreNamed staying left.now },
}

fn add_at(set: &mut SlotSet, left: &[Slot], place: usize) -> Result<(), Refusal>
    requires { AreNamed set.old left.now }
    ensures { OnOk result (AreNamed set.new left.now) }
{
    match left.get(place) {
        Some(slot) => {
            set.add(*slot)?;
            Ok(())
        }
        None => Ok(()),
    }
}

fn set_of(alloc: Global, left: &[Slot]) -> Result<SlotSet, Refusal>
    ensures { IfOk result (λ set. AreNamed set left.now) }
{
    let mut set = SlotSet::new(alloc);
    for place in 0..left.len() {
        add_at(&mut set, left, place)?;
    }
    Ok(set)
}

impl<'a> Returns<'a> {
    pub(crate) fn of(alloc: Global, back: Back, left: &'a [Slot]) -> Result<Returns<'a>, Refusal>
        ensures { IfOk result (λ v. (v.back ≡ back) × (v.left.now ≡ left.now)) }
    {
        let staying = set_of(alloc, left)?;
        Ok(Returns {
            back,
            left,
            staying,
        })
    }

    /// Whether the slot's mirror may be undone.
    pub(crate) fn allow(&self, slot: Slot) -> bool
        ensures { IsTrue result → may_return self.now.back self.now.left.now slot ≡ true }
    {
        match self.back {
            Back::Allowed => true,
            Back::Never => self.staying.has(slot),
        }
    }
}
