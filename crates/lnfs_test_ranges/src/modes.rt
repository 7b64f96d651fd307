//! What is left where a part is locked anew or unlocked, and what joins.
use crate::calls::{READ, UNLOCKED, WRITE, leaves, read, write};
use lnfs_ranges::RangeList;
use std::alloc::AllocError;
use std::process::Abort;

fn unlock_the_middle(rt: &impl Abort, list: &mut RangeList) -> Result<(), AllocError> {
    leaves(rt, list, 0, 9, WRITE, &[write(0, 9)])?;
    leaves(rt, list, 4, 5, UNLOCKED, &[write(0, 3), write(6, 9)])?;
    leaves(rt, list, 4, 5, UNLOCKED, &[write(0, 3), write(6, 9)])
}

#[test]
fn unlocked_in_the_middle(rt: HostRuntime) -> Result<(), AllocError> {
    let mut list = RangeList::new(rt.alloc());
    unlock_the_middle(&rt, &mut list)
}

fn fill_the_middle(rt: &impl Abort, list: &mut RangeList) -> Result<(), AllocError> {
    leaves(rt, list, 0, 3, READ, &[read(0, 3)])?;
    leaves(rt, list, 6, 9, READ, &[read(0, 3), read(6, 9)])?;
    leaves(rt, list, 4, 5, READ, &[read(0, 9)])
}

#[test]
fn neighbours_of_one_kind_join(rt: HostRuntime) -> Result<(), AllocError> {
    let mut list = RangeList::new(rt.alloc());
    fill_the_middle(&rt, &mut list)
}

fn change_the_middle(rt: &impl Abort, list: &mut RangeList) -> Result<(), AllocError> {
    leaves(rt, list, 0, 9, WRITE, &[write(0, 9)])?;
    let three = [write(0, 3), read(4, 5), write(6, 9)];
    leaves(rt, list, 4, 5, READ, &three)?;
    leaves(rt, list, 4, 5, WRITE, &[write(0, 9)])
}

#[test]
fn neighbours_of_two_kinds_stay_apart(rt: HostRuntime) -> Result<(), AllocError> {
    let mut list = RangeList::new(rt.alloc());
    change_the_middle(&rt, &mut list)
}

fn cover_several(rt: &impl Abort, list: &mut RangeList) -> Result<(), AllocError> {
    leaves(rt, list, 2, 3, READ, &[read(2, 3)])?;
    leaves(rt, list, 5, 6, WRITE, &[read(2, 3), write(5, 6)])?;
    leaves(rt, list, 1, 7, WRITE, &[write(1, 7)])?;
    leaves(rt, list, 0, 8, READ, &[read(0, 8)])?;
    leaves(rt, list, 0, 8, UNLOCKED, &[])
}

#[test]
fn what_is_covered_goes(rt: HostRuntime) -> Result<(), AllocError> {
    let mut list = RangeList::new(rt.alloc());
    cover_several(&rt, &mut list)
}

fn cover_halves(rt: &impl Abort, list: &mut RangeList) -> Result<(), AllocError> {
    leaves(rt, list, 0, 4, READ, &[read(0, 4)])?;
    leaves(rt, list, 6, 9, READ, &[read(0, 4), read(6, 9)])?;
    let three = [read(0, 2), write(3, 7), read(8, 9)];
    leaves(rt, list, 3, 7, WRITE, &three)?;
    leaves(rt, list, 2, 8, UNLOCKED, &[read(0, 1), read(9, 9)])
}

#[test]
fn what_is_covered_in_part_is_cut(rt: HostRuntime) -> Result<(), AllocError> {
    let mut list = RangeList::new(rt.alloc());
    cover_halves(&rt, &mut list)
}
