//! Locks, made of rows that fit, and told as rows again.
ghost use Rattle.lnfs_rows.specs.World.{world_of};
ghost use Rattle.lnfs_site.specs.Site.{site_of};
ghost use Rattle.lnfs_lock_rows.specs.Told.{locks_told};
ghost use Rattle.lnfs_lock_rows.specs.Bounds.{LocksFit};

use crate::codecs::codecs_of;
use crate::state::{first, lists, lock, one_lock, policy, rows};
use lnfs_lock_fit::locks_fit;
use lnfs_lock_rows::{LockRow, LockRows};
use lnfs_locking::Locks;
use lnfs_policy::Policy;
use lnfs_rows::Lists;
use lnfs_site::{Labels, Site};
use lnfs_sound::are_sound;
use std::alloc::{AllocError, Global};
use std::process::Abort;
use std::test::Fail;

fn made(
    alloc: Global,
    site: &Site<'_>,
    lists: &Lists<'_>,
    rows: &LockRows<'_>,
) -> Result<Locks, AllocError>
    requires { LocksFit (site_of site.now) (world_of lists.now) (locks_told rows.now) }
{
    // A policy has few levels.
    let _levels = site.policy().lattice().len();
    let _lists = lists;
    Locks::from_rows(alloc, rows)
}

fn same_lock(rt: &impl Abort, came: &LockRow<'_>, due: &LockRow<'_>) {
    assert_eq!(rt; came.id, due.id);
    assert_eq!(rt; came.client, due.client);
    assert_eq!(rt; came.opening, due.opening);
    assert_eq!(rt; came.owner, due.owner);
    assert_eq!(rt; came.node, due.node);
    assert_eq!(rt; came.sequence, due.sequence);
    assert_eq!(rt; came.ranges.as_slice(), due.ranges.as_slice());
}

/// Compares what locks tell with the rows that they were made of.
fn same(rt: &impl Abort, locks: &Locks, due: &LockRows<'_>) -> Result<(), Fail> {
    let came = locks.rows()?;
    assert_eq!(rt; came.len(), due.locks.len());
    for (came, due) in came.iter().zip(due.locks.iter()) {
        same_lock(rt, came, due);
    }
    let numbers = locks.last_numbers(2)?;
    assert_eq!(rt; numbers.as_slice(), due.lasts.as_slice());
    Ok(())
}

fn again(
    rt: &impl Abort,
    alloc: Global,
    site: &Site<'_>,
    lists: &Lists<'_>,
    rows: &LockRows<'_>,
) -> Result<(), Fail> {
    let sound = are_sound(alloc, site, lists)?;
    if !sound {
        return Err(Fail::from("not a sound world"));
    }
    let fit = locks_fit(alloc, site, lists, rows)?;
    if !fit {
        return Err(Fail::from("no rows that fit"));
    }
    same(rt, &made(alloc, site, lists, rows)?, rows)
}

fn of_policy(rt: &impl Abort, alloc: Global, policy: &Policy) -> Result<(), Fail> {
    let codecs = codecs_of(alloc)?;
    let labels = Labels::new(alloc, policy, &codecs)?;
    let mut locks = one_lock(alloc, first(alloc)?)?;
    locks.push(lock(alloc, 4, 1, b"b")?)?;
    again(
        rt,
        alloc,
        &Site::new(policy, &labels),
        &lists(alloc)?,
        &rows(alloc, locks)?,
    )
}

#[test]
fn made_and_told(rt: HostRuntime) -> Result<(), Fail> {
    let policy = policy(rt.alloc())?;
    of_policy(&rt, rt.alloc(), &policy)
}
