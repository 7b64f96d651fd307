//! Looks at the rows of opens, each under its identifier, and changes of them, as a list of rows.
ghost use Rattle.std.specs.Prelude.{◌≡◌, ◌&&◌, true, not, OnOk, OnErr, Some, IfSome, filter, map, option_map};
ghost use Rattle.lnfs_world.specs.Rows.{inserted};
ghost use Rattle.lnfs_world.specs.World.{open_order, same_id};
ghost use Rattle.lnfs_open.specs.Listed.{id_of, client_id, node_id, row_of, open_of, AreOwn};
ghost use Rattle.lnfs_world.specs.Opens.{joined, sequence_after};
ghost use Rattle.lnfs_open.specs.Opening.{rows_set};
ghost use Rattle.lnfs_open.specs.Indexed.{open_at};

use crate::keys::{ClientKey, Key, NodeKey, OpenRow};
use lnfs_world::numbers::LAST_SEQUENCE;
use std::alloc::AllocError;
use std::collections::BTreeMap;

/// The open of an identifier.
pub fn row_at(rows: &BTreeMap<Key, OpenRow>, id: Key) -> Option<&OpenRow>
    ensures row { option_map (λ x. row_of (id_of id) x.now) result
        ≡ open_at (map open_of rows.now.entries) (id_of id) }
    ensures own { AreOwn rows.now.entries → IfSome result (λ x. x.now.client.level.0 ≡ id.level) }
{
    rows.get(&id)
}

/// Whether an open is of a client and a node.
pub fn is_of(row: &OpenRow, client: ClientKey, node: NodeKey) -> bool
    ensures exact { result ≡ (same_id (client_id client) (client_id row.now.client)
        && same_id (node_id node) (node_id row.now.node)) }
    ensures client { result ≡ true → row.now.client ≡ client }
{
    row.client == client && row.node == node
}

/// Adds an open under a new identifier.
pub fn add_row(rows: &mut BTreeMap<Key, OpenRow>, id: Key, row: OpenRow) -> Result<(), AllocError>
    ensures added { OnOk result (map open_of rows.new.entries
        ≡ inserted open_order (row_of (id_of id) row) (map open_of rows.old.entries)) }
    ensures own { OnOk result (row.client.level.0 ≡ id.level → AreOwn rows.old.entries →
        AreOwn rows.new.entries) }
    ensures kept { OnErr result (rows.new.entries ≡ rows.old.entries) }
{
    rows.insert(id, row)?;
    Ok(())
}

/// An open goes.
pub fn drop_row(rows: &mut BTreeMap<Key, OpenRow>, id: Key)
    ensures left { map open_of rows.new.entries ≡ filter (λ o. not (same_id (id_of id) o.id))
        (map open_of rows.old.entries) }
    ensures own { AreOwn rows.old.entries → AreOwn rows.new.entries }
{
    rows.remove(&id);
}

/// The sequence after one.
pub fn sequence_after(sequence: u32) -> u32
    ensures { result ≡ sequence_after sequence }
{
    if sequence == LAST_SEQUENCE {
        1
    } else {
        sequence + 1
    }
}

/// Joins what is asked to an open, if it is there, and answers its sequence.
pub fn join_row(rows: &mut BTreeMap<Key, OpenRow>, id: Key, access: u32, deny: u32) -> Option<u32>
    ensures sequence { result ≡ option_map (λ o. sequence_after o.sequence)
        (open_at (map open_of rows.old.entries) (id_of id)) }
    ensures joined { map open_of rows.new.entries ≡ rows_set (joined access deny)
        (open_at (map open_of rows.old.entries) (id_of id)) (map open_of rows.old.entries) }
    ensures own { AreOwn rows.old.entries → AreOwn rows.new.entries }
{
    let row = rows.get_mut(&id)?;
    row.access |= access;
    row.deny |= deny;
    row.seq = sequence_after(row.seq);
    Some(row.seq)
}
