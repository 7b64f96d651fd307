//! Locks by what names them: a state id, or an open and a lock owner.
ghost use Rattle.std.specs.Prelude.{◌≡◌, ◌&&◌, ◌==◌, find, map, option_map, cond, Some, None};
ghost use Rattle.std.specs.Option.{option_and_then};
ghost use Rattle.std.specs.Str.{bytes_eq};
ghost use Rattle.lnfs_world.specs.World.{same_id};
ghost use Rattle.lnfs_open.specs.Listed.{node_id};
ghost use Rattle.lnfs_locks.specs.Locks.{Lock, opening_id};
ghost use Rattle.lnfs_locking.specs.Keys.{id_of};
ghost use Rattle.lnfs_locking.specs.Rows.{lock_of, lock_at, entry_of, found_of};

use crate::keys::{Key, LockRow, level_front};
use crate::locks::Locks;
use crate::rows::row_at;
use crate::tests::LockTest;
use crate::walks::first_from;
use lnfs_open::NodeKey;
use std::collections::BTreeMap;

/// Locks of an open and a lock owner, in the level of the open.
#[derive(Clone, Copy)]
pub struct Under<'a> {
    pub opening: u32,
    pub owner: &'a [u8],
}

impl<'a> LockTest for Under<'a> {
    ghost use Rattle.std.specs.Prelude.{◌&&◌, ◌==◌};
    ghost use Rattle.std.specs.Str.{bytes_eq};

    ghost passes = { λ u l. u.opening == l.opening && bytes_eq l.owner u.owner.now };

    fn passes(&self, _id: Key, row: &LockRow) -> bool {
        row.opening == self.opening && row.owner.as_slice() == self.owner
    }
}

/// The lock of an identifier, if it is of a client and of a node.
fn chosen(rows: &BTreeMap<Key, LockRow>, client: u32, node: NodeKey, id: Key) -> Option<&LockRow>
    ensures { option_map (λ row. lock_of (id_of id) row.now) result ≡ option_and_then
        (λ l. cond (l.client == client && same_id (node_id node) l.node) (Some l) None)
        (lock_at (map entry_of rows.now.entries) (id_of id)) }
{
    let row = row_at(rows, id)?;
    if row.client.number != client || row.node != node {
        return None;
    }
    Some(row)
}

impl Locks {
    /// The lock of an identifier, if it is of a client of its level and of a node (RFC 8881 section 8.2.2).
    pub fn named(&self, client: u32, node: NodeKey, id: Key) -> Option<&LockRow>
        ensures { option_map (λ row. lock_of (id_of id) row.now) result ≡ find
            (λ l. same_id (id_of id) l.id && (l.client == client && same_id (node_id node) l.node))
            self.now.locks }
    {
        chosen(&self.rows, client, node, id)
    }

    /// What an owner has locked under an open (RFC 8881 section 18.10.3). Looks at no lock of another level.
    pub fn under(&self, level: u32, opening: u32, owner: &[u8]) -> Option<(Key, &LockRow)>
        ensures { option_map found_of result ≡ find
            (λ l. same_id (record { level = level; number = opening }) (opening_id l)
            && bytes_eq l.owner owner.now) self.now.locks }
    {
        first_from(&self.rows, level_front(level), &Under { opening, owner })
    }
}
