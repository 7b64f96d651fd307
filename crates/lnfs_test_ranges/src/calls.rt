//! Calls on a list of ranges, with what each is asked and what is due.
ghost use Rattle.std.specs.Prelude.{◌≤◌};

use lnfs_ranges::{LockRange, RangeList};
use std::alloc::AllocError;
use std::fmt::Debug;
use std::process::Abort;

/// No list of these tests has more ranges.
pub(crate) const MOST_RANGES: usize = 64;

/// A mode that is asked: no lock, a lock for read, and a lock for write.
pub(crate) const UNLOCKED: Option<bool> = None;

pub(crate) const READ: Option<bool> = Some(false);

pub(crate) const WRITE: Option<bool> = Some(true);

/// Fails where they differ, and tells both. A test is a row of calls of it, without a branch at each.
pub(crate) fn same<T: PartialEq + Debug + Copy>(rt: &impl Abort, came: T, due: T) {
    assert_eq!(rt; came, due);
}

/// A range that is locked for read.
pub(crate) fn read(first: u64, last: u64) -> LockRange {
    LockRange {
        first,
        last,
        write: false,
    }
}

/// A range that is locked for write.
pub(crate) fn write(first: u64, last: u64) -> LockRange {
    LockRange {
        first,
        last,
        write: true,
    }
}

/// Sets a mode, and compares the ranges that are left, and what was told beforehand of how many they would be.
pub(crate) fn leaves(
    rt: &impl Abort,
    list: &mut RangeList,
    first: u64,
    last: u64,
    asked: Option<bool>,
    due: &[LockRange],
) -> Result<(), AllocError>
    requires { first ≤ last }
{
    assert!(rt; list.len() <= MOST_RANGES);
    let told = list.len_after(first, last, asked);
    list.set(first, last, asked)?;
    same(rt, list.as_slice(), due);
    same(rt, told, due.len());
    Ok(())
}
