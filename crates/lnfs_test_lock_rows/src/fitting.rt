//! Rows that fit, and rows of which one fact doesn't hold.
use crate::codecs::codecs_of;
use crate::state::{ROOT, first, lists, lock, one_lock, policy, range, rows};
use lnfs_lock_fit::locks_fit;
use lnfs_lock_rows::LockRow;
use lnfs_policy::Policy;
use lnfs_rows::Lists;
use lnfs_site::{Labels, Site};
use lnfs_sound::are_sound;
use std::alloc::{AllocError, Global};
use std::process::Abort;
use std::test::Fail;

/// Compares whether locks fit with what is due.
fn expect(
    rt: &impl Abort,
    alloc: Global,
    site: &Site<'_>,
    lists: &Lists<'_>,
    locks: Vec<LockRow<'_>>,
    due: bool,
) -> Result<(), Fail> {
    let sound = are_sound(alloc, site, lists)?;
    if !sound {
        return Err(Fail::from("not a sound world"));
    }
    let rows = rows(alloc, locks)?;
    let fit = locks_fit(alloc, site, lists, &rows)?;
    assert_eq!(rt; fit, due);
    Ok(())
}

fn one(
    rt: &impl Abort,
    alloc: Global,
    site: &Site<'_>,
    lists: &Lists<'_>,
    lock: LockRow<'_>,
    due: bool,
) -> Result<(), Fail> {
    expect(rt, alloc, site, lists, one_lock(alloc, lock)?, due)
}

/// Two locks, of which each fits alone.
fn two(
    rt: &impl Abort,
    alloc: Global,
    site: &Site<'_>,
    lists: &Lists<'_>,
    before: LockRow<'_>,
    behind: LockRow<'_>,
    due: bool,
) -> Result<(), Fail> {
    let mut locks = one_lock(alloc, before)?;
    locks.push(behind)?;
    expect(rt, alloc, site, lists, locks, due)
}

fn numbers(rt: &impl Abort, alloc: Global, site: &Site<'_>, lists: &Lists<'_>) -> Result<(), Fail> {
    one(rt, alloc, site, lists, first(alloc)?, true)?;
    // Above the last number, and no number.
    one(rt, alloc, site, lists, lock(alloc, 6, 1, b"a")?, false)?;
    one(rt, alloc, site, lists, lock(alloc, 0, 1, b"a")?, false)?;
    // The same of the open.
    one(rt, alloc, site, lists, lock(alloc, 2, 4, b"a")?, false)?;
    one(rt, alloc, site, lists, lock(alloc, 2, 0, b"a")?, false)?;
    let mut none = first(alloc)?;
    none.sequence = 0;
    one(rt, alloc, site, lists, none, false)?;
    let mut above = first(alloc)?;
    above.id.level = 2;
    one(rt, alloc, site, lists, above, false)
}

/// What a lock has to have of its open, as long as that is there.
fn openings(
    rt: &impl Abort,
    alloc: Global,
    site: &Site<'_>,
    lists: &Lists<'_>,
) -> Result<(), Fail> {
    let mut stranger = first(alloc)?;
    stranger.client = 7;
    one(rt, alloc, site, lists, stranger, false)?;
    let mut elsewhere = first(alloc)?;
    elsewhere.node = ROOT;
    one(rt, alloc, site, lists, elsewhere, false)?;
    let mut gone = lock(alloc, 2, 3, b"a")?;
    gone.client = 7;
    gone.node = ROOT;
    one(rt, alloc, site, lists, gone, true)
}

fn pairs(rt: &impl Abort, alloc: Global, site: &Site<'_>, lists: &Lists<'_>) -> Result<(), Fail> {
    let a = first(alloc)?;
    let b = lock(alloc, 3, 1, b"b")?;
    two(rt, alloc, site, lists, a, b, true)?;
    let a = first(alloc)?;
    let b = lock(alloc, 3, 1, b"b")?;
    two(rt, alloc, site, lists, b, a, false)?;
    let a = first(alloc)?;
    let same = lock(alloc, 3, 1, b"a")?;
    two(rt, alloc, site, lists, a, same, false)?;
    let gone = lock(alloc, 2, 2, b"a")?;
    let same = lock(alloc, 3, 2, b"a")?;
    two(rt, alloc, site, lists, gone, same, true)
}

/// A lock of so many ranges of a byte each.
fn many(alloc: Global, count: u64) -> Result<LockRow<'static>, AllocError> {
    let mut lock = first(alloc)?;
    lock.ranges = Vec::new(alloc);
    for place in 0..count {
        lock.ranges.push(range(place, place, place % 2 == 0))?;
    }
    Ok(lock)
}

fn ranges(rt: &impl Abort, alloc: Global, site: &Site<'_>, lists: &Lists<'_>) -> Result<(), Fail> {
    one(rt, alloc, site, lists, many(alloc, 4_096)?, true)?;
    one(rt, alloc, site, lists, many(alloc, 4_097)?, false)?;
    // A part of the run before, a range that isn't behind it, and one without an offset.
    let mut touching = first(alloc)?;
    touching.ranges.push(range(30, 39, false))?;
    one(rt, alloc, site, lists, touching, false)?;
    let mut within = first(alloc)?;
    within.ranges.push(range(29, 39, true))?;
    one(rt, alloc, site, lists, within, false)?;
    let mut empty = first(alloc)?;
    empty.ranges.push(range(41, 40, true))?;
    one(rt, alloc, site, lists, empty, false)
}

fn all(rt: &impl Abort, alloc: Global, policy: &Policy) -> Result<(), Fail> {
    let codecs = codecs_of(alloc)?;
    let labels = Labels::new(alloc, policy, &codecs)?;
    let site = Site::new(policy, &labels);
    let lists = lists(alloc)?;
    numbers(rt, alloc, &site, &lists)?;
    openings(rt, alloc, &site, &lists)?;
    pairs(rt, alloc, &site, &lists)?;
    ranges(rt, alloc, &site, &lists)
}

#[test]
fn what_fits(rt: HostRuntime) -> Result<(), Fail> {
    let policy = policy(rt.alloc())?;
    all(&rt, rt.alloc(), &policy)
}
