//! How many ranges there would be.
use crate::calls::{MOST_RANGES, READ, UNLOCKED, WRITE, same};
use lnfs_ranges::RangeList;
use std::alloc::AllocError;
use std::process::Abort;

/// Locks each second offset, up to 126: 64 ranges.
fn lock_each_second(list: &mut RangeList) -> Result<(), AllocError> {
    for place in 0..64 {
        list.set(place * 2, place * 2, READ)?;
    }
    Ok(())
}

/// A mode that is asked, and how many ranges there would be with it.
#[derive(Drop)]
struct Case {
    first: u64,
    last: u64,
    asked: Option<bool>,
    due: usize,
}

fn asks(first: u64, last: u64, asked: Option<bool>, due: usize) -> Case {
    Case {
        first,
        last,
        asked,
        due,
    }
}

/// Compares how many there would be in each case.
fn count(rt: &impl Abort, list: &RangeList, cases: &[Case]) {
    assert!(rt; list.len() <= MOST_RANGES);
    for case in cases {
        same(
            rt,
            list.len_after(case.first, case.last, case.asked),
            case.due,
        );
    }
}

#[test]
fn how_many_there_would_be(rt: HostRuntime) -> Result<(), AllocError> {
    let mut list = RangeList::new(rt.alloc());
    lock_each_second(&mut list)?;
    let cases = [
        asks(127, 127, READ, 64),
        asks(127, 127, WRITE, 65),
        asks(128, 128, READ, 65),
        asks(1, 1, READ, 63),
        asks(1, 1, WRITE, 65),
        asks(1, 1, UNLOCKED, 64),
        asks(2, 2, UNLOCKED, 63),
        asks(0, 126, READ, 1),
        asks(1, 125, WRITE, 3),
        asks(0, 126, UNLOCKED, 0),
    ];
    count(&rt, &list, &cases);
    Ok(())
}

/// Compares the list that a change would leave with the one that it leaves as it is.
fn compare_with(rt: &impl Abort, list: &RangeList) -> Result<(), AllocError> {
    let other = list.with(2, 126, UNLOCKED)?;
    same(rt, other.len(), 1);
    same(rt, list.len(), 64);
    Ok(())
}

#[test]
fn what_a_change_would_leave(rt: HostRuntime) -> Result<(), AllocError> {
    let mut list = RangeList::new(rt.alloc());
    lock_each_second(&mut list)?;
    compare_with(&rt, &list)
}
