//! A lock comes among the rows and into the index.
ghost use Rattle.std.specs.Prelude.{◌≡◌, None, map, OnOk, OnErr};
ghost use Rattle.lnfs_world.specs.Rows.{inserted};
ghost use Rattle.lnfs_locks.specs.Locks.{lock_order};
ghost use Rattle.lnfs_locking.specs.Keys.{id_of};
ghost use Rattle.lnfs_locking.specs.Rows.{lock_of, lock_at, entry_of};
ghost use Rattle.lnfs_locking.specs.Indexed.{AreIndexed};

use crate::groups::Groups;
use crate::keys::{Key, LockRow, node_key};
use crate::rows::add_row;
use std::alloc::AllocError;
use std::collections::BTreeMap;

/// Enters a lock under a new identifier. Where memory is wanting, what was begun is taken back.
pub fn enter(
    rows: &mut BTreeMap<Key, LockRow>,
    nodes: &mut Groups,
    id: Key,
    row: LockRow,
) -> Result<(), AllocError>
    requires level { row.client.level.0 ≡ id.level }
    requires absent { lock_at (map entry_of rows.old.entries) (id_of id) ≡ None }
    requires indexed { AreIndexed rows.old.entries nodes.old }
    ensures added { OnOk result (map entry_of rows.new.entries
        ≡ inserted lock_order (lock_of (id_of id) row) (map entry_of rows.old.entries)) }
    ensures kept { OnErr result (rows.new.entries ≡ rows.old.entries) }
    ensures indexed { AreIndexed rows.new.entries nodes.new }
{
    let node = node_key(row.node);
    nodes.enter(node, id)?;
    if let Err(wanting) = add_row(rows, id, row) {
        nodes.leave(node, id);
        return Err(wanting);
    }
    Ok(())
}
