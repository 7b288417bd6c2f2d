//! How much work is left.

/// The looks left at steps, dependencies and the like.
#[derive(Clone, Copy, Debug)]
pub(crate) struct Looks {
    left: u64,
}

impl Looks {
    pub(crate) fn new() -> Looks {
        Looks { left: 100_000_000 }
    }

    pub(crate) fn spend(&mut self, looks: u64) -> bool {
        if looks > self.left {
            return false;
        }
        self.left -= looks;
        true
    }
}
