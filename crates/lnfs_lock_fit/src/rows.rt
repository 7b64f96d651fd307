//! What rows tell, by their places.
ghost use Rattle.std.specs.Prelude.{◌≡◌, ◌<◌, length, IfOk};
ghost use Rattle.lnfs_locks.specs.Locks.{opening_id};
ghost use Rattle.lnfs_lock_rows.specs.Told.{lock_of};
ghost use Rattle.lnfs_rows.specs.Told.{id_of};
ghost use Rattle.lnfs_fit.specs.RowsOf.{AreIdsOf};
ghost use Rattle.lnfs_lock_fit.specs.RowsOf.{locks_of, nth_lock};

use lnfs_lock_rows::LockRow;
use lnfs_rows::Id;
use std::alloc::{AllocError, Global};

pub(crate) fn row_at<'b, 'a>(rows: &'b [LockRow<'a>], place: usize) -> &'b LockRow<'a>
    requires { place < length rows.now }
    ensures { lock_of result.now ≡ nth_lock (locks_of rows.now) place }
{
    &rows[place]
}

fn id_at(rows: &[LockRow<'_>], place: usize) -> Id
    requires { place < length rows.now }
    ensures { id_of result ≡ (nth_lock (locks_of rows.now) place).id }
{
    row_at(rows, place).id
}

/// The identifiers of locks, in their order.
pub(crate) fn ids_of_locks(alloc: Global, rows: &[LockRow<'_>]) -> Result<Vec<Id>, AllocError>
    ensures { IfOk result (λ ids. AreIdsOf (λ l. l.id) (locks_of rows.now) ids.items) }
{
    let mut ids = Vec::with_capacity(alloc, rows.len())?;
    for place in 0..rows.len() {
        ids.push(id_at(rows, place))?;
    }
    Ok(ids)
}

/// The identifier of a lock's open, which is of the lock's level.
pub(crate) fn opening_id(row: &LockRow<'_>) -> Id
    ensures { id_of result ≡ opening_id (lock_of row.now) }
{
    Id {
        level: row.id.level,
        number: row.opening,
    }
}
