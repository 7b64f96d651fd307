//! Who asks for a lock, and which locks of others stand in its way.
ghost use Rattle.std.specs.Prelude.{◌≡◌};
ghost use Rattle.lnfs_calipso.specs.Label.{dom_of};
ghost use Rattle.lnfs_open.specs.Listed.{client_id};
ghost use Rattle.lnfs_locks.specs.Denial.{is_own, is_rival};
ghost use Rattle.lnfs_locking.specs.Keys.{id_of};
ghost use Rattle.lnfs_locking.specs.Rows.{lock_of};

use crate::keys::{Key, LockRow};
use crate::tests::LockTest;
use lnfs_calipso::{Lattice, Level};
use lnfs_monitor::dominates;
use lnfs_open::ClientKey;

/// Who asks for a lock: a subject, and its client and owner, whose own locks don't stand in its way.
#[derive(Clone, Copy)]
pub struct Rival<'a> {
    pub lattice: &'a Lattice,
    pub subject: Level,
    pub client: ClientKey,
    pub owner: &'a [u8],
}

impl<'a> Rival<'a> {
    /// Whether a lock is one of the client and the owner themselves.
    pub fn is_own(&self, id: Key, row: &LockRow) -> bool
        requires { row.now.client.level.0 ≡ id.level }
        ensures { result ≡ is_own (record
            { subject = self.now.subject.0; client = client_id self.now.client; owner = self.now.owner.now })
            (lock_of (id_of id) row.now) }
    {
        row.client == self.client && row.owner.as_slice() == self.owner
    }

    /// Whether a lock is one of a rival, and counts.
    pub(crate) fn is_rival<T: LockTest>(&self, standing: &T, id: Key, row: &LockRow) -> bool
        requires { row.now.client.level.0 ≡ id.level }
        ensures { result ≡ is_rival (dom_of self.now.lattice.now) (T.passes standing.now) (record
            { subject = self.now.subject.0; client = client_id self.now.client; owner = self.now.owner.now })
            (lock_of (id_of id) row.now) }
    {
        dominates(self.lattice, self.subject, row.client.level)
            && !self.is_own(id, row)
            && standing.passes(id, row)
    }
}
