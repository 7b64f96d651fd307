//! How much of its limits a level would use.
ghost use Rattle.std.specs.Prelude.{◌≡◌, ◌<◌, ◌^◌, length, map, sum_by};
ghost use Rattle.lnfs_locks.specs.Locks.{Lock};
ghost use Rattle.lnfs_locks.specs.Facts.{locks_at, ranges_at};
ghost use Rattle.lnfs_locking.specs.Keys.{id_of};
ghost use Rattle.lnfs_locking.specs.Rows.{entry_of, AreOwn};
ghost use Rattle.lnfs_locking.specs.Usage.{locks_beside, ranges_beside, standing_with};

use crate::keys::{Key, LockRow, level_front};
use crate::locks::Locks;
use crate::tests::LockTest;
use std::collections::BTreeMap;

/// The locks of a level that count, and how many ranges they have.
#[derive(Clone, Copy, Debug, PartialEq, Eq)]
pub struct Usage {
    pub locks: u64,
    pub ranges: u64,
}

/// How much a level uses beside one of its locks. Looks at no lock of another level.
fn usage_beside<T: LockTest>(rows: &BTreeMap<Key, LockRow>, standing: &T, own: Key) -> Usage
    requires own { AreOwn rows.now.entries }
    requires locks { locks_beside (T.passes standing.now) (id_of own) (map entry_of rows.now.entries) < 2 ^ 62 }
    requires ranges { ranges_beside (T.passes standing.now) (id_of own) (map entry_of rows.now.entries) < 2 ^ 62 }
    ensures bounds { result.locks < 2 ^ 62 }
    ensures range_bounds { result.ranges < 2 ^ 62 }
    ensures locks { result.locks
        ≡ locks_beside (T.passes standing.now) (id_of own) (map entry_of rows.now.entries) }
    ensures ranges { result.ranges
        ≡ ranges_beside (T.passes standing.now) (id_of own) (map entry_of rows.now.entries) }
{
    let mut usage = Usage {
        locks: 0,
        ranges: 0,
    };
    for (id, row) in rows.range(level_front(own.level)..) {
        if id.level != own.level {
            return usage;
        }
        if own != *id && standing.passes(*id, row) {
            usage.locks += 1;
            usage.ranges += row.ranges.len() as u64;
        }
    }
    usage
}

impl Locks {
    /// The locks of a level that count, and how many ranges they have, with one of them in a new state: with so many ranges.
    /// Looks at no lock of another level, and takes no memory.
    pub fn usage_with<T: LockTest>(&self, standing: &T, id: Key, ranges: usize) -> Usage
        requires locks { locks_at id.level self.now.locks < 2 ^ 62 }
        requires ranges { ranges_at id.level self.now.locks < 2 ^ 62 }
        requires few { ranges < 2 ^ 62 }
        ensures locks { (l : Lock) → l.id ≡ id_of id →
            result.locks ≡ length (standing_with (T.passes standing.now) l self.now.locks) }
        ensures ranges { (l : Lock) → l.id ≡ id_of id → length l.ranges ≡ ranges →
            result.ranges
            ≡ sum_by (λ x. length x.ranges) (standing_with (T.passes standing.now) l self.now.locks) }
    {
        let beside = usage_beside(&self.rows, standing, id);
        Usage {
            locks: beside.locks + 1,
            ranges: beside.ranges + ranges as u64,
        }
    }
}
