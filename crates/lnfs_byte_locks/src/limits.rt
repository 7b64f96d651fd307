//! What a level may have of locks.
ghost use Rattle.std.specs.Prelude.{◌≡◌, ◌&&◌, length};
ghost use Rattle.lnfs_locks.specs.Locks.{Lock};
ghost use Rattle.lnfs_locks.specs.Effects.{has_lock_left, has_ranges_left};
ghost use Rattle.lnfs_locks.specs.Facts.{LockFacts};
ghost use Rattle.lnfs_locking.specs.Keys.{id_of};

use crate::standing::Live;
use lnfs_engine::Store;
use lnfs_locking::{Key, Locks};
use lnfs_locks::numbers::{LOCKS_OF_A_LEVEL, RANGES_OF_A_LEVEL};

/// Whether the limits of a level allow a lock with so many ranges, in place of the one that it is now. Looks at no lock of another
/// level, and takes no memory.
pub fn has_room(store: &Store, locks: &Locks, id: Key, ranges: usize) -> bool
    requires facts { LockFacts store.now locks.now }
    ensures { (l : Lock) → l.id ≡ id_of id → length l.ranges ≡ ranges →
        result ≡ (has_lock_left store.now l locks.now.locks
        && has_ranges_left store.now l locks.now.locks) }
{
    // No number is above the last.
    let _number = id.number;
    if ranges > RANGES_OF_A_LEVEL as usize {
        return false;
    }
    let live = Live {
        opens: store.opens(),
    };
    let usage = locks.usage_with(&live, id, ranges);
    usage.locks <= u64::from(LOCKS_OF_A_LEVEL) && usage.ranges <= u64::from(RANGES_OF_A_LEVEL)
}
