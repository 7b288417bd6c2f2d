//! Numbers of keys.

ghost use Rattle.std.specs.Prelude.{◌≡◌, ◌<◌, Some, slice_get, IfOk, IfErr, OnOk, OnErr};
ghost use Rattle.ring_names.specs.Names.{with_name};
ghost use Rattle.ring_names.specs.declared.refusal.Refusal.TheVariants.{OutOfMemory};
ghost use Rattle.ring_space.specs.Place.{place_of};

use ring_names::Refusal;
use store_parts::Keys;

/// Returns the key's number, old or new.
pub fn number_of(keys: &mut Keys, key: &[u8]) -> Result<usize, Refusal>
    ensures number { IfOk result (λ n. slice_get keys.new.keys n ≡ Some key.now) }
    ensures keys { OnOk result (keys.new ≡ record keys.old { keys = with_name keys.old.keys key.now }) }
    ensures lies { OnOk result ((place_of keys.old.q key.now).partition < keys.old.q) }
    ensures err { OnErr result (keys.new ≡ keys.old) }
    ensures memory { IfErr result (λ e. e ≡ OutOfMemory) }
{
    let number = keys.add(key)?;
    // Proves that the key is in the hash space.
    let _place = keys.place(number);
    Ok(number)
}
