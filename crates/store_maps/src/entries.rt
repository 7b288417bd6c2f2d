//! Versions by key, in order: few in a vector, many in a tree.

ghost use Rattle.std.specs.Prelude.{◌≡◌, ◌↔◌, ℕ, [], true, is_some, Some, None, length, IsTrue, IfSome, IfNone, IfOk, IfErr, OnOk, OnErr};
ghost use Rattle.std.specs.Ordering.{nat_cmp};
ghost use Rattle.ring_names.specs.declared.refusal.Refusal.TheVariants.{OutOfMemory};
ghost use Rattle.ring_versions.specs.Fresh.{FitsIn};
ghost use Rattle.store_maps.specs.Entries.{entries_of, left_of, IsInOrder};
ghost use Rattle.store_maps.specs.Places.{held_in, value_in};
ghost use Rattle.store_maps.specs.Sorted.{Ascends, PutsAt};
ghost use Rattle.store_maps.specs.Taken.{MergesIn, TakesIn};

use crate::lists::{lengthen, place_of};
use crate::walk::Walk;
use ring_names::Refusal;
use ring_versions::{Fresh, Versions};
use std::alloc::Global;
use std::collections::BTreeMap;

const FEW: usize = 32;

// Versions by key, ascending. A vector holds up to 32, at first with room for one, as most keepers of hints have one
// key of a chunk. A tree's smallest node has room for several.
#[derive(Drop)]
pub(crate) enum Entries {
    Few(Vec<(usize, Versions)>),
    Many(BTreeMap<usize, Versions>),
}

fn put_few(list: &mut Vec<(usize, Versions)>, key: usize, versions: Versions) -> Result<(), Refusal>
    requires { Ascends nat_cmp list.old.items }
    ensures order { Ascends nat_cmp list.new.items }
    ensures ok { OnOk result (PutsAt nat_cmp list.old.items list.new.items key versions) }
    ensures err { OnErr result (list.new.items ≡ list.old.items) }
    ensures memory { IfErr result (λ e. e ≡ OutOfMemory) }
{
    match place_of(list.as_slice(), &key) {
        Ok(place) => list[place].1 = versions,
        Err(place) => {
            lengthen(list)?;
            list.insert(place, (key, versions))?;
        }
    }
    Ok(())
}

fn tree_with(
    alloc: Global,
    list: &[(usize, Versions)],
) -> Result<BTreeMap<usize, Versions>, Refusal>
    requires { Ascends nat_cmp list.now }
    ensures order { IfOk result (λ m. Ascends nat_cmp m.entries) }
    ensures same { IfOk result (λ m. (k : ℕ) → value_in m.entries k ≡ value_in list.now k) }
    ensures memory { IfErr result (λ e. e ≡ OutOfMemory) }
{
    let mut tree = BTreeMap::new(alloc);
    let mut rest = list;
    'entries: while let Some(((key, versions), later)) = rest.split_first() {
        tree.insert(*key, versions.try_copy()?)?;
        rest = later;
    }
    Ok(tree)
}

impl Entries {
    pub(crate) fn new(alloc: Global) -> Entries
        ensures { entries_of result ≡ [] }
    {
        Entries::Few(Vec::new(alloc))
    }

    pub(crate) fn is_empty(&self) -> bool
        ensures { IsTrue result ↔ (length (entries_of self.now) ≡ 0) }
    {
        match self {
            Entries::Few(list) => list.is_empty(),
            Entries::Many(tree) => tree.is_empty(),
        }
    }

    // Counts the entries, for estimates.
    pub(crate) fn len(&self) -> usize {
        match self {
            Entries::Few(list) => list.len(),
            Entries::Many(tree) => tree.len(),
        }
    }

    pub(crate) fn get(&self, key: usize) -> Option<&Versions>
        requires { IsInOrder self.now }
        ensures some { IfSome result (λ v. value_in (entries_of self.now) key ≡ Some v.now) }
        ensures none { IfNone result (value_in (entries_of self.now) key ≡ None) }
    {
        match self {
            Entries::Few(list) => match place_of(list.as_slice(), &key) {
                Ok(place) => Some(&list[place].1),
                Err(_) => None,
            },
            Entries::Many(tree) => tree.get(&key),
        }
    }

    pub(crate) fn walk(&self) -> Walk<'_>
        ensures { left_of result ≡ entries_of self.now }
    {
        match self {
            Entries::Few(list) => Walk::Few(list.as_slice()),
            Entries::Many(tree) => Walk::Many(tree.iter()),
        }
    }

    // Turns a full vector into a tree.
    fn widen(&mut self, alloc: Global) -> Result<(), Refusal>
        requires { IsInOrder self.old }
        ensures order { IsInOrder self.new }
        ensures same { (k : ℕ) → value_in (entries_of self.new) k ≡ value_in (entries_of self.old) k }
        ensures memory { IfErr result (λ e. e ≡ OutOfMemory) }
    {
        let tree = match self {
            Entries::Few(list) if list.len() >= FEW => tree_with(alloc, list.as_slice())?,
            _ => return Ok(()),
        };
        *self = Entries::Many(tree);
        Ok(())
    }

    pub(crate) fn put(
        &mut self,
        alloc: Global,
        key: usize,
        versions: Versions,
    ) -> Result<(), Refusal>
        requires { IsInOrder self.old }
        ensures order { IsInOrder self.new }
        ensures ok { OnOk result (PutsAt nat_cmp (entries_of self.old) (entries_of self.new) key versions) }
        ensures err { OnErr result ((k : ℕ)
            → value_in (entries_of self.new) k ≡ value_in (entries_of self.old) k) }
        ensures memory { IfErr result (λ e. e ≡ OutOfMemory) }
    {
        self.widen(alloc)?;
        match self {
            Entries::Few(list) => put_few(list, key, versions),
            Entries::Many(tree) => {
                tree.insert(key, versions)?;
                Ok(())
            }
        }
    }

    pub(crate) fn merge(&mut self, key: usize, more: &Versions) -> Option<Result<(), Refusal>>
        requires { IsInOrder self.old }
        ensures order { IsInOrder self.new }
        ensures some { IfSome result (λ r. MergesIn r (entries_of self.old) (entries_of self.new) key more.now) }
        ensures none { IfNone result (value_in (entries_of self.old) key ≡ None) }
        ensures same { IfNone result (self.new ≡ self.old) }
        ensures memory { IfSome result (λ r. IfErr r (λ e. e ≡ OutOfMemory)) }
    {
        match self {
            Entries::Few(list) => match place_of(list.as_slice(), &key) {
                Ok(place) => Some(list[place].1.merge(more)),
                Err(_) => None,
            },
            Entries::Many(tree) => Some(tree.get_mut(&key)?.merge(more)),
        }
    }

    pub(crate) fn absorb(&mut self, key: usize, fresh: Fresh)
        requires order { IsInOrder self.old }
        requires there { is_some (value_in (entries_of self.old) key) ≡ true }
        requires fits { FitsIn (held_in (entries_of self.old) key) fresh }
        ensures order { IsInOrder self.new }
        ensures taken { TakesIn (entries_of self.old) (entries_of self.new) key fresh }
    {
        match self {
            Entries::Few(list) => match place_of(list.as_slice(), &key) {
                Ok(place) => list[place].1.absorb(fresh),
                Err(_) => {}
            },
            Entries::Many(tree) => {
                if let Some(versions) = tree.get_mut(&key) {
                    versions.absorb(fresh);
                }
            }
        }
    }
}
