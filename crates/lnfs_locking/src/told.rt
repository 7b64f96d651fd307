//! Locks as rows.
ghost use Rattle.std.specs.Prelude.{◌≡◌, map, IfOk};
ghost use Rattle.lnfs_rows.specs.Lasts.{each_of};
ghost use Rattle.lnfs_lock_rows.specs.Told.{lock_of as lock_told};
ghost use Rattle.lnfs_locking.specs.Keys.{id_of};
ghost use Rattle.lnfs_locking.specs.Rows.{lock_of, entry_of};

use crate::keys::{Key, LockRow};
use crate::locks::Locks;
use lnfs_lock_rows::LockRow as Row;
use lnfs_rows::Id;
use std::alloc::{AllocError, Global};
use std::collections::BTreeMap;

/// A lock as a row, which lends the name of the owner and has a copy of the ranges.
fn row_of(alloc: Global, id: Key, row: &LockRow) -> Result<Row<'_>, AllocError>
    ensures { IfOk result (λ told. lock_told told ≡ lock_of (id_of id) row.now) }
{
    Ok(Row {
        id: Id {
            level: id.level,
            number: u64::from(id.number),
        },
        client: u64::from(row.client.number),
        opening: u64::from(row.opening),
        owner: row.owner.as_slice(),
        node: Id {
            level: row.node.level.0,
            number: u64::from(row.node.number),
        },
        sequence: row.seq,
        ranges: Vec::from_slice(alloc, row.ranges.as_slice())?,
    })
}

/// A row of each lock.
fn rows_of(alloc: Global, locks: &BTreeMap<Key, LockRow>) -> Result<Vec<Row<'_>>, AllocError>
    ensures { IfOk result (λ rows. map lock_told rows.items ≡ map entry_of locks.now.entries) }
{
    let mut rows = Vec::new(alloc);
    for (id, row) in locks {
        rows.push(row_of(alloc, *id, row)?)?;
    }
    Ok(rows)
}

impl Locks {
    /// A row of each lock, in the order of their identifiers.
    ///
    /// # Errors
    ///
    /// `AllocError` where there is no memory.
    pub fn rows(&self) -> Result<Vec<Row<'_>>, AllocError>
        ensures { IfOk result (λ rows. map lock_told rows.items ≡ self.now.locks) }
    {
        rows_of(self.alloc, &self.rows)
    }

    /// The last number of each of so many levels, from level 0 on, 0 where a level gave none.
    ///
    /// # Errors
    ///
    /// `AllocError` where there is no memory.
    pub fn last_numbers(&self, levels: u32) -> Result<Vec<u64>, AllocError>
        ensures { IfOk result (λ ns. ns.items ≡ each_of levels self.now.lasts) }
    {
        lnfs_counts::last_numbers(self.alloc, &self.counters, levels)
    }
}
