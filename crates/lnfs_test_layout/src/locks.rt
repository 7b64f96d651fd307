//! Each column of a lock is read by itself.
use crate::both_ways::read;
use crate::compare::same;
use crate::items::{SITE, STATE, bytes_of, put};
use lnfs_lock_rows::LockRow;
use lnfs_ranges::LockRange;
use std::alloc::{AllocError, Global};
use std::process::Abort;

/// How many columns a lock of two ranges has, beside its counts.
const COLUMNS: usize = 14;

/// The columns of the state's lock as numbers, in their order. The name of its owner is one byte.
pub(crate) const LOCK: [u64; COLUMNS] = [1, 8, 2, 7, 112, 1, 6, 5, 16, 31, 1, 32, u64::MAX, 0];

/// Another byte for each column: its offset, and the column's number then. It is the column's last byte; a flag is the other one.
const CHANGES: [(usize, u8, u64); COLUMNS] = [
    (571, 17, 17),
    (579, 17, 17),
    (587, 17, 17),
    (595, 17, 17),
    (604, 17, 17),
    (608, 17, 17),
    (616, 17, 17),
    (620, 17, 17),
    (636, 17, 17),
    (644, 17, 17),
    (645, 0, 0),
    (653, 17, 17),
    (661, 17, 18_446_744_073_709_551_377),
    (662, 1, 1),
];

fn numbers(row: &LockRow<'_>, owner: u8, first: &LockRange, second: &LockRange) -> [u64; COLUMNS] {
    [
        u64::from(row.id.level),
        row.id.number,
        row.client,
        row.opening,
        u64::from(owner),
        u64::from(row.node.level),
        row.node.number,
        u64::from(row.sequence),
        first.first,
        first.last,
        u64::from(first.write),
        second.first,
        second.last,
        u64::from(second.write),
    ]
}

fn columns(rt: &impl Abort, row: &LockRow<'_>) -> [u64; COLUMNS] {
    let (Some(owner), Some(first), Some(second)) = (
        row.owner.first(),
        row.ranges.first(),
        row.ranges.get(1),
    ) else {
        panic!(rt; "no owner, or no range");
    };
    numbers(row, *owner, first, second)
}

/// The columns of the first lock.
pub(crate) fn columns_of(rt: &impl Abort, rows: &[LockRow<'_>]) -> [u64; COLUMNS] {
    match rows.first() {
        Some(row) => columns(rt, row),
        None => panic!(rt; "no lock"),
    }
}

/// Compares the lock of the state with another byte with the state's, of which one column has another number.
fn is_changed(
    rt: &impl Abort,
    alloc: Global,
    column: usize,
    change: (usize, u8, u64),
) -> Result<(), AllocError> {
    let (offset, byte, number) = change;
    let mut bytes = bytes_of(rt, alloc, STATE)?;
    put(rt, &mut bytes, offset, byte);
    let laid = read(rt, alloc, &SITE, &bytes);
    let mut due = LOCK;
    if let Some(there) = due.get_mut(column) {
        *there = number;
    }
    same(rt, columns_of(rt, &laid.locks.locks), due);
    Ok(())
}

#[test]
fn each_column(rt: HostRuntime) -> Result<(), AllocError> {
    let alloc = rt.alloc();
    for (column, change) in CHANGES.iter().enumerate() {
        is_changed(&rt, alloc, column, *change)?;
    }
    Ok(())
}

/// Compares the last numbers of locks with those that are due.
fn last_numbers(
    rt: &impl Abort,
    alloc: Global,
    offset: usize,
    due: &[u64; 2],
) -> Result<(), AllocError> {
    let mut bytes = bytes_of(rt, alloc, STATE)?;
    put(rt, &mut bytes, offset, 17);
    let laid = read(rt, alloc, &SITE, &bytes);
    same(rt, laid.locks.lasts.as_slice(), due.as_slice());
    Ok(())
}

#[test]
fn each_last_number(rt: HostRuntime) -> Result<(), AllocError> {
    let alloc = rt.alloc();
    last_numbers(&rt, alloc, 95, &[17, 8])?;
    last_numbers(&rt, alloc, 143, &[0, 17])
}
