//! The locks of all levels.
ghost use Rattle.std.specs.Prelude.{◌≡◌, ◌&&◌, ◌==◌, [], find, option_map};
ghost use Rattle.std.specs.Str.{bytes_eq};
ghost use Rattle.lnfs_calipso.specs.Label.{dom_of};
ghost use Rattle.lnfs_world.specs.World.{same_id, last_of};
ghost use Rattle.lnfs_open.specs.Listed.{node_id};
ghost use Rattle.lnfs_locks.specs.Denial.{is_rival, denial};
ghost use Rattle.lnfs_locking.specs.Keys.{id_of};
ghost use Rattle.lnfs_locking.specs.Rows.{found_of};
ghost use Rattle.lnfs_locking.specs.Asking.{asker_of, denial_of};

use crate::groups::Groups;
use crate::keys::{Key, LockRow, node_key};
use crate::rivals::Rival;
use crate::rows::row_at;
use crate::search::{Denied, Wanted};
use crate::tests::LockTest;
use lnfs_counts::{Counter, last_given};
use lnfs_open::NodeKey;
use std::alloc::Global;
use std::collections::BTreeMap;
use std::marker::Model;

/// The locks of all levels, and the last number that each level was given.
#[derive(Drop)]
pub struct Locks {
    pub(crate) alloc: Global,
    pub(crate) rows: BTreeMap<Key, LockRow>,
    pub(crate) counters: BTreeMap<u32, Counter>,
    pub(crate) nodes: Groups,
}

impl Model for Locks {
    ghost use Rattle.std.specs.Prelude.{map};
    ghost use Rattle.lnfs_counts.specs.Counters.{lasts_of};
    ghost use Rattle.lnfs_locks.specs.Locks as kept;
    ghost use Rattle.lnfs_locking.specs.Rows.{entry_of};
    ghost use Rattle.lnfs_locking.specs.Indexed.{IsKept};

    ghost Value = { kept.Locks };

    ghost view = { λ o. record {
      lasts = lasts_of o.counters.entries;
      locks = map entry_of o.rows.entries;
    } };

    ghost invariant = { λ o. IsKept o.rows.entries o.counters o.nodes };
}

impl Locks {
    /// No lock, and no number given yet. Takes no memory.
    pub fn new(alloc: Global) -> Locks
        ensures { result ≡ record { lasts = []; locks = [] } }
    {
        Locks {
            alloc,
            rows: BTreeMap::new(alloc),
            counters: BTreeMap::new(alloc),
            nodes: Groups::new(alloc),
        }
    }

    /// The last number that a level was given: before the first, 0.
    pub fn last(&self, level: u32) -> u32
        ensures { result ≡ last_of level self.now.lasts }
    {
        last_given(&self.counters, level)
    }

    /// The first lock of a node that stands in the way of what is wanted, by level and number, with its first range that does:
    /// one of another client or owner, of a level that the subject dominates, that counts and that overlaps, where one of the
    /// two is for write. Looks at no lock of another node.
    pub fn conflict<T: LockTest>(
        &self,
        rival: &Rival<'_>,
        standing: &T,
        node: NodeKey,
        wanted: &Wanted,
    ) -> Option<Denied<'_>>
        ensures { option_map denial_of result
            ≡ denial (is_rival (dom_of rival.now.lattice.now) (T.passes standing.now) (asker_of rival.now))
            (node_id node) wanted.now.first wanted.now.last wanted.now.write self.now.locks }
    {
        wanted.first_denied(rival, standing, &self.nodes, &self.rows, node_key(node))
    }
}
