//! The first lock of a node that stands in the way.
ghost use Rattle.std.specs.Prelude.{◌≡◌, map, option_map};
ghost use Rattle.std.specs.Option.{option_and_then};
ghost use Rattle.lnfs_calipso.specs.Label.{dom_of};
ghost use Rattle.lnfs_locks.specs.Denial.{is_rival, denied_by, denial};
ghost use Rattle.lnfs_locking.specs.Keys.{id_of};
ghost use Rattle.lnfs_locking.specs.Rows.{entry_of, lock_at, AreOwn};
ghost use Rattle.lnfs_locking.specs.Asking.{asker_of, denial_of};
ghost use Rattle.lnfs_locking.specs.Indexed.{AreIndexed};

use crate::groups::{Groups, front};
use crate::keys::{Key, LockRow};
use crate::rivals::Rival;
use crate::rows::row_at;
use crate::tests::LockTest;
use lnfs_ranges::LockRange;
use std::collections::BTreeMap;

/// The range that is asked for, and whether for write.
#[derive(Clone, Copy, Debug)]
pub struct Wanted {
    pub first: u64,
    pub last: u64,
    pub write: bool,
}

/// A lock, and the range of it that stands in the way.
#[derive(Clone, Copy)]
pub struct Denied<'a> {
    pub id: Key,
    pub row: &'a LockRow,
    pub range: LockRange,
}

impl Wanted {
    /// What the lock of an identifier denies, if it is there.
    fn denied_at<'a, T: LockTest>(
        &self,
        rival: &Rival<'_>,
        standing: &T,
        rows: &'a BTreeMap<Key, LockRow>,
        id: Key,
    ) -> Option<Denied<'a>>
        requires { AreOwn rows.now.entries }
        ensures { option_map denial_of result ≡ option_and_then
            (denied_by (is_rival (dom_of rival.now.lattice.now) (T.passes standing.now) (asker_of rival.now))
            self.now.first self.now.last self.now.write)
            (lock_at (map entry_of rows.now.entries) (id_of id)) }
    {
        let row = row_at(rows, id)?;
        if !rival.is_rival(standing, id, row) {
            return None;
        }
        let range = row
            .ranges
            .first_conflict(self.first, self.last, self.write)?;
        Some(Denied { id, row, range })
    }

    /// The first of a node's locks that stands in the way. Looks at no lock of another node.
    pub(crate) fn first_denied<'a, T: LockTest>(
        &self,
        rival: &Rival<'_>,
        standing: &T,
        nodes: &Groups,
        rows: &'a BTreeMap<Key, LockRow>,
        node: Key,
    ) -> Option<Denied<'a>>
        requires { AreIndexed rows.now.entries nodes.now }
        ensures { option_map denial_of result
            ≡ denial (is_rival (dom_of rival.now.lattice.now) (T.passes standing.now) (asker_of rival.now))
            (id_of node) self.now.first self.now.last self.now.write (map entry_of rows.now.entries) }
    {
        for (place, _) in nodes.places.range(front(node)..) {
            if place.group != node {
                return None;
            }
            if let Some(denied) = self.denied_at(rival, standing, rows, place.id) {
                return Some(denied);
            }
        }
        None
    }
}
