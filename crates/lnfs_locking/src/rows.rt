//! Looks at the rows of locks, each under its identifier, as a list of locks.
ghost use Rattle.std.specs.Prelude.{◌≡◌, not, filter, IfSome, OnOk, OnErr, map, option_map};
ghost use Rattle.lnfs_world.specs.Rows.{inserted};
ghost use Rattle.lnfs_world.specs.World.{same_id};
ghost use Rattle.lnfs_counts.specs.Counted.{order_by};
ghost use Rattle.lnfs_locking.specs.Keys.{id_of};
ghost use Rattle.lnfs_locks.specs.Locks.{Lock};
ghost use Rattle.lnfs_locking.specs.Rows.{lock_of, lock_id, entry_of, lock_at, rows_with, with_ranges, AreOwn};

use crate::keys::{Key, LockRow};
use lnfs_ranges::RangeList;
use std::alloc::AllocError;
use std::collections::BTreeMap;

/// The lock of an identifier.
pub fn row_at(rows: &BTreeMap<Key, LockRow>, id: Key) -> Option<&LockRow>
    ensures row { option_map (λ x. lock_of (id_of id) x.now) result ≡ lock_at (map entry_of rows.now.entries) (id_of id) }
    ensures own { AreOwn rows.now.entries → IfSome result (λ x. x.now.client.level.0 ≡ id.level) }
{
    rows.get(&id)
}

/// Adds a lock under a new identifier.
pub fn add_row(rows: &mut BTreeMap<Key, LockRow>, id: Key, row: LockRow) -> Result<(), AllocError>
    ensures added { OnOk result (map entry_of rows.new.entries ≡ inserted (order_by lock_id) (lock_of (id_of id) row) (map entry_of rows.old.entries)) }
    ensures own { OnOk result (row.client.level.0 ≡ id.level → AreOwn rows.old.entries → AreOwn rows.new.entries) }
    ensures kept { OnErr result (rows.new.entries ≡ rows.old.entries) }
{
    rows.insert(id, row)?;
    Ok(())
}

/// A lock goes.
pub fn drop_row(rows: &mut BTreeMap<Key, LockRow>, id: Key)
    ensures left { map entry_of rows.new.entries ≡ filter (λ l. not (same_id (id_of id) l.id)) (map entry_of rows.old.entries) }
    ensures own { AreOwn rows.old.entries → AreOwn rows.new.entries }
{
    rows.remove(&id);
}

/// A lock, if it is there, gets other ranges and another sequence.
pub fn set_row(rows: &mut BTreeMap<Key, LockRow>, id: Key, seq: u32, ranges: RangeList)
    ensures set { map entry_of rows.new.entries ≡ rows_with (with_ranges seq ranges) (lock_at (map entry_of rows.old.entries) (id_of id)) (map entry_of rows.old.entries) }
    ensures own { AreOwn rows.old.entries → AreOwn rows.new.entries }
{
    match rows.get_mut(&id) {
        Some(row) => {
            row.seq = seq;
            row.ranges = ranges;
        }
        None => {}
    }
}
