//! Iterates over entries.

ghost use Rattle.std.specs.Iterator.{item_count};
ghost use Rattle.store_maps.specs.Entries.{left_of, TakesNext};

use ring_versions::Versions;
use std::collections::btree_map;

#[derive(Drop)]
pub(crate) enum Walk<'a> {
    Few(&'a [(usize, Versions)]),
    Many(btree_map::Iter<'a, usize, Versions>),
}

impl<'a> Iterator for Walk<'a> {
    type Item = (&'a usize, &'a Versions);

    ghost next_gives = { TakesNext };

    ghost remaining = { item_count left_of };

    fn next(&mut self) -> Option<(&'a usize, &'a Versions)> {
        match self {
            Walk::Few(rest) => {
                let (first, later) = rest.split_first()?;
                *rest = later;
                Some((&first.0, &first.1))
            }
            Walk::Many(rest) => rest.next(),
        }
    }
}
