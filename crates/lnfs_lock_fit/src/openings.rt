//! The opens of locks.
ghost use Rattle.std.specs.Prelude.{◌≡◌, ◌<◌, ◌↔◌, true, length, find, IfOk};
ghost use Rattle.std.specs.Option.{option_map};
ghost use Rattle.lnfs_world.specs.Rows.{Rising};
ghost use Rattle.lnfs_world.specs.World.{id_order, same_id};
ghost use Rattle.lnfs_rows.specs.Told.{id_of, open_of};
ghost use Rattle.lnfs_rows.specs.World.{world_of};
ghost use Rattle.lnfs_fit.specs.RowsOf.{ids_of, AreIdsOf};
ghost use Rattle.lnfs_sound.specs.RowsOf.{opens_of, nth_open};
ghost use Rattle.lnfs_locks.specs.Locks.{opening_of, is_live};
ghost use Rattle.lnfs_lock_rows.specs.Told.{lock_of};
ghost use Rattle.lnfs_lock_fit.specs.Parts.{HasOpening};

use crate::given::was_given;
use crate::rows::opening_id;
use lnfs_fit::place_of;
use lnfs_lock_rows::LockRow;
use lnfs_rows::{Id, Lists, OpenRow};
use std::alloc::{AllocError, Global};

fn id_at(rows: &[OpenRow<'_>], place: usize) -> Id
    requires { place < length rows.now }
    ensures { id_of result ≡ (nth_open (opens_of rows.now) place).id }
{
    rows[place].id
}

/// The identifiers of opens, in their order.
pub(crate) fn ids_of_opens(alloc: Global, rows: &[OpenRow<'_>]) -> Result<Vec<Id>, AllocError>
    ensures { IfOk result (λ ids. AreIdsOf (λ o. o.id) (opens_of rows.now) ids.items) }
{
    let mut ids = Vec::with_capacity(alloc, rows.len())?;
    for place in 0..rows.len() {
        ids.push(id_at(rows, place))?;
    }
    Ok(ids)
}

/// The open of an identifier. The identifiers are those of the opens.
fn open_at<'b, 'a>(ids: &[Id], opens: &'b [OpenRow<'a>], id: Id) -> Option<&'b OpenRow<'a>>
    requires ids { AreIdsOf (λ o. o.id) (opens_of opens.now) ids.now }
    requires rise { Rising id_order (ids_of ids.now) }
    ensures { option_map (λ o. open_of o.now) result
        ≡ find (λ o. same_id (id_of id) o.id) (opens_of opens.now) }
{
    match place_of(ids, id) {
        Some(place) => Some(&opens[place]),
        None => None,
    }
}

/// The open of a lock, if it is there. The identifiers are those of the opens.
fn opening_of<'b, 'a>(
    lists: &'b Lists<'a>,
    open_ids: &[Id],
    row: &LockRow<'_>,
) -> Option<&'b OpenRow<'a>>
    requires ids { AreIdsOf (λ o. o.id) (world_of lists.now).opens open_ids.now }
    requires rise { Rising id_order (ids_of open_ids.now) }
    ensures { option_map (λ o. open_of o.now) result ≡ opening_of (world_of lists.now) (lock_of row.now) }
{
    open_at(open_ids, &lists.opens, opening_id(row))
}

/// Whether the open of a lock is there.
pub(crate) fn is_live(lists: &Lists<'_>, open_ids: &[Id], row: &LockRow<'_>) -> bool
    requires ids { AreIdsOf (λ o. o.id) (world_of lists.now).opens open_ids.now }
    requires rise { Rising id_order (ids_of open_ids.now) }
    ensures { result ≡ is_live (world_of lists.now) (lock_of row.now) }
{
    opening_of(lists, open_ids, row).is_some()
}

/// Whether an open is of a lock's client and node.
fn is_of(opening: &OpenRow<'_>, row: &LockRow<'_>) -> bool
    ensures { (result ≡ true) ↔ (((open_of opening.now).client ≡ (lock_of row.now).client)
        × (same_id (lock_of row.now).node (open_of opening.now).node ≡ true)) }
{
    opening.client == row.client && opening.node == row.node
}

/// Whether the number of a lock's open was given, and the open, if it is there, is of the lock's client and node.
pub(crate) fn has_opening(lists: &Lists<'_>, open_ids: &[Id], row: &LockRow<'_>) -> bool
    requires ids { AreIdsOf (λ o. o.id) (world_of lists.now).opens open_ids.now }
    requires rise { Rising id_order (ids_of open_ids.now) }
    ensures { (result ≡ true) ↔ HasOpening (world_of lists.now) (lock_of row.now) }
{
    if !was_given(&lists.lasts.opens, opening_id(row)) {
        return false;
    }
    match opening_of(lists, open_ids, row) {
        Some(opening) => is_of(opening, row),
        None => true,
    }
}
