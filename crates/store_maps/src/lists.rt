//! Lists that double their room, and lists that ascend by key.

ghost use Rattle.std.specs.Prelude.{◌≡◌, IfOk, IfErr};
ghost use Rattle.ring_names.specs.declared.refusal.Refusal.TheVariants.{OutOfMemory};
ghost use Rattle.store_maps.specs.Sorted.{Ascends, IsThere, GoesAt};

use ring_names::Refusal;

/// Makes room for one more: a list grows to one, two, four and so on.
pub fn lengthen<T>(list: &mut Vec<T>) -> Result<(), Refusal>
    ensures same { list.new.items ≡ list.old.items }
    ensures memory { IfErr result (λ e. e ≡ OutOfMemory) }
{
    if list.len() == list.capacity() {
        list.reserve_exact(list.len().max(1))?;
    }
    Ok(())
}

/// Returns the key's place, or as `Err` where to insert it. Costs a binary search.
pub fn place_of<K: Ord, X>(list: &[(K, X)], key: &K) -> Result<usize, usize>
    requires { Ascends K.cmp list.now }
    ensures found { IfOk result (IsThere K.cmp key.now list.now) }
    ensures missing { IfErr result (GoesAt K.cmp key.now list.now) }
{
    list.binary_search_by(|entry| entry.0.cmp(key))
}
