//! Assertions as calls: `assert!` and `assert_eq!` are proved again at each place.

use std::fmt::Debug;
use std::process::Abort;

/// Fails with both values and the asked text, if they differ.
pub fn is_wanted<RT: Abort, T: Debug + PartialEq + Drop>(
    rt: &RT,
    asked: &str,
    found: T,
    wanted: T,
) {
    assert_eq!(rt; found, wanted, "{asked}");
}

macro_rules! same {
    ($rt:expr; $found:expr, $wanted:expr) => {
        $crate::same::is_wanted(&$rt, stringify!($found), $found, $wanted)
    };
}

macro_rules! holds {
    ($rt:expr; $fact:expr) => {
        $crate::same::is_wanted(&$rt, stringify!($fact), $fact, true)
    };
}

pub(crate) use holds;
pub(crate) use same;
