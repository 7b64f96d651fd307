//! Locks come, change and go.
ghost use Rattle.std.specs.Prelude.{◌≡◌, ◌&&◌, ◌==◌, None, Some, true, false, not, find, filter, option_map, OnOk, OnErr};
ghost use Rattle.lnfs_world.specs.Rows.{Rising, inserted};
ghost use Rattle.lnfs_world.specs.World.{same_id, level_order, is_given};
ghost use Rattle.lnfs_locks.specs.Locks.{Lock, lock_order};
ghost use Rattle.lnfs_locks.specs.Effects.{kept_with};
ghost use Rattle.lnfs_locking.specs.Keys.{id_of};
ghost use Rattle.lnfs_locking.specs.Rows.{lock_of, lock_id, lock_at, rows_with, with_ranges};
ghost use Rattle.lnfs_locking.specs.Walks.{from_on};

use crate::entering::enter;
use crate::keys::{Key, LockRow, level_front, node_key};
use crate::lasts::give;
use crate::locks::Locks;
use crate::rows::{drop_row, row_at, set_row};
use crate::tests::LockTest;
use crate::walks::first_from;
use lnfs_counts::make_counter;
use lnfs_ranges::RangeList;
use std::alloc::AllocError;

impl Locks {
    /// A lock comes under a number that its level wasn't given yet.
    fn add(&mut self, id: Key, row: LockRow) -> Result<(), AllocError>
        requires level { row.client.level.0 ≡ id.level }
        requires absent { lock_at self.old.locks (id_of id) ≡ None }
        requires fresh { is_given self.old.lasts (id_of id) ≡ false }
        ensures added { OnOk result (self.new ≡ record {
          lasts = inserted level_order (id_of id) self.old.lasts;
          locks = inserted lock_order (lock_of (id_of id) row) self.old.locks;
        }) }
        ensures kept { OnErr result (self.new ≡ self.old) }
        ensures rise { Rising lock_order self.old.locks }
    {
        make_counter(&mut self.counters, id.level)?;
        enter(&mut self.rows, &mut self.nodes, id, row)?;
        give(&mut self.counters, id.level, id.number);
        Ok(())
    }

    /// A lock, if it is there, gets other ranges and another sequence. Takes no memory.
    fn set(&mut self, id: Key, seq: u32, ranges: RangeList)
        ensures set { self.new ≡ record self.old
            { locks = rows_with (with_ranges seq ranges) (lock_at self.old.locks (id_of id)) self.old.locks } }
        ensures rise { Rising lock_order self.old.locks }
    {
        set_row(&mut self.rows, id, seq, ranges);
    }

    /// A lock goes, if it is there. Takes no memory.
    fn take_out(&mut self, id: Key)
        ensures { self.new ≡ record self.old
            { locks = filter (λ l. not (same_id (id_of id) l.id)) self.old.locks } }
    {
        let node = match row_at(&self.rows, id) {
            Some(row) => node_key(row.node),
            None => return,
        };
        self.nodes.leave(node, id);
        drop_row(&mut self.rows, id);
    }

    /// The first lock of a level that goes, from an identifier on.
    fn next_gone<T: LockTest>(&self, from: Key, going: &T) -> Option<Key>
        ensures first { option_map id_of result
            ≡ option_map lock_id (find (from_on (id_of from) (T.passes going.now)) self.now.locks) }
        ensures rise { Rising lock_order self.now.locks }
    {
        let (id, _) = first_from(&self.rows, from, going)?;
        Some(id)
    }

    /// Those of a level that pass a test go, in one walk of the level. Takes no memory.
    fn drop_gone<T: LockTest>(&mut self, level: u32, going: &T)
        ensures { self.new ≡ record self.old
            { locks = filter (λ l. not (l.id.level == level && T.passes going.now l)) self.old.locks } }
    {
        let mut from = level_front(level);
        while let Some(id) = self.next_gone(from, going) {
            self.take_out(id);
            from = id;
        }
    }

    /// A lock comes, under a number that its level wasn't given yet, and those of its level go that pass a test. Looks at no
    /// lock of another level. An `Err` changes nothing.
    pub fn begin<T: LockTest>(&mut self, id: Key, row: LockRow, going: &T) -> Result<(), AllocError>
        requires level { row.client.level.0 ≡ id.level }
        requires absent { lock_at self.old.locks (id_of id) ≡ None }
        requires fresh { is_given self.old.lasts (id_of id) ≡ false }
        requires stays { T.passes going.now (lock_of (id_of id) row) ≡ false }
        ensures begun { OnOk result (self.new ≡ kept_with (lock_of (id_of id) row)
            (filter (λ l. l.id.level == id.level && T.passes going.now l) self.old.locks) self.old) }
        ensures kept { OnErr result (self.new ≡ self.old) }
    {
        self.add(id, row)?;
        self.drop_gone(id.level, going);
        Ok(())
    }

    /// A lock gets other ranges and another sequence, and those of its level go that pass a test. Looks at no lock of another
    /// level, and takes no memory.
    pub fn change<T: LockTest>(&mut self, id: Key, seq: u32, ranges: RangeList, going: &T)
        ensures { (l : Lock) → lock_at self.old.locks (id_of id) ≡ Some l → is_given self.old.lasts l.id ≡ true →
            T.passes going.now (with_ranges seq ranges l) ≡ false →
            self.new ≡ kept_with (with_ranges seq ranges l)
            (filter (λ x. x.id.level == l.id.level && T.passes going.now x) self.old.locks) self.old }
    {
        self.set(id, seq, ranges);
        self.drop_gone(id.level, going);
    }
}
