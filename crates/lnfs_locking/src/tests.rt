//! Tests of locks.
ghost use Rattle.std.specs.Prelude.{◌≡◌, Bool};
ghost use Rattle.lnfs_locks.specs.Locks.{Lock};
ghost use Rattle.lnfs_locking.specs.Keys.{id_of};
ghost use Rattle.lnfs_locking.specs.Rows.{lock_of};

use crate::keys::{Key, LockRow};

/// A test of a lock, as whether its open is still there.
pub trait LockTest {
    ghost passes: { Self → Lock → Bool };

    fn passes(&self, id: Key, row: &LockRow) -> bool
        requires level { row.now.client.level.0 ≡ id.level }
        ensures { result ≡ passes self.now (lock_of (id_of id) row.now) };
}
