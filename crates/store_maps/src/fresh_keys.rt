//! A prepared merge with a whole map.

ghost use Rattle.std.specs.Prelude.{◌≡◌, OnOk, IfErr};
ghost use Rattle.ring_names.specs.declared.refusal.Refusal.TheVariants.{OutOfMemory};

use ring_names::Refusal;
use ring_versions::Fresh;
use std::collections::BTreeMap;

/// A prepared merge with a map: by key, what is new.
#[derive(Drop)]
pub struct FreshKeys {
    pub(crate) map: BTreeMap<usize, Fresh>,
}

impl FreshKeys {
    ghost use Rattle.std.specs.Ordering.{nat_cmp};
    ghost use Rattle.store_maps.specs.Sorted.{PutsAt};

    pub(crate) fn put(&mut self, key: usize, fresh: Fresh) -> Result<(), Refusal>
        ensures ok { OnOk result (PutsAt nat_cmp self.old.map.entries self.new.map.entries key fresh) }
        ensures memory { IfErr result (λ e. e ≡ OutOfMemory) }
    {
        self.map.insert(key, fresh)?;
        Ok(())
    }
}
