//! Ranges up to the last offset, and what stands in the way at each end.
use crate::calls::{READ, UNLOCKED, WRITE, leaves, read, same, write};
use lnfs_ranges::RangeList;
use std::alloc::AllocError;
use std::process::Abort;

/// The last offset that a range can have.
const END: u64 = 18_446_744_073_709_551_615;

fn lock_to_the_end(rt: &impl Abort, list: &mut RangeList) -> Result<(), AllocError> {
    leaves(rt, list, END, END, READ, &[read(END, END)])?;
    leaves(rt, list, 0, END - 1, READ, &[read(0, END)])?;
    leaves(
        rt,
        list,
        1,
        END - 1,
        UNLOCKED,
        &[read(0, 0), read(END, END)],
    )?;
    leaves(rt, list, 0, END, WRITE, &[write(0, END)])?;
    leaves(rt, list, END, END, UNLOCKED, &[write(0, END - 1)])?;
    leaves(rt, list, 0, END, UNLOCKED, &[])
}

#[test]
fn to_the_last_offset(rt: HostRuntime) -> Result<(), AllocError> {
    let mut list = RangeList::new(rt.alloc());
    lock_to_the_end(&rt, &mut list)
}

fn ask_beside_a_read_lock(rt: &impl Abort, list: &mut RangeList) -> Result<(), AllocError> {
    leaves(rt, list, 4, 9, READ, &[read(4, 9)])?;
    same(rt, list.first_conflict(0, 3, true), None);
    same(rt, list.first_conflict(0, 4, true), Some(read(4, 9)));
    same(rt, list.first_conflict(9, END, true), Some(read(4, 9)));
    same(rt, list.first_conflict(10, END, true), None);
    same(rt, list.first_conflict(0, END, false), None);
    Ok(())
}

#[test]
fn a_read_lock_stands_in_the_way_of_writers(rt: HostRuntime) -> Result<(), AllocError> {
    let mut list = RangeList::new(rt.alloc());
    ask_beside_a_read_lock(&rt, &mut list)
}

fn ask_beside_a_write_lock(rt: &impl Abort, list: &mut RangeList) -> Result<(), AllocError> {
    leaves(rt, list, 4, 5, READ, &[read(4, 5)])?;
    leaves(rt, list, 6, END, WRITE, &[read(4, 5), write(6, END)])?;
    same(rt, list.first_conflict(0, END, false), Some(write(6, END)));
    same(rt, list.first_conflict(0, END, true), Some(read(4, 5)));
    same(
        rt,
        list.first_conflict(END, END, false),
        Some(write(6, END)),
    );
    same(rt, list.first_conflict(0, 5, false), None);
    Ok(())
}

#[test]
fn the_first_range_in_the_way_is_told(rt: HostRuntime) -> Result<(), AllocError> {
    let mut list = RangeList::new(rt.alloc());
    ask_beside_a_write_lock(&rt, &mut list)
}
