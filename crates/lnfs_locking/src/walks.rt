//! The locks of a level, which lie beside each other.
ghost use Rattle.std.specs.Prelude.{◌≡◌, find, map, option_map};
ghost use Rattle.lnfs_locking.specs.Keys.{id_of};
ghost use Rattle.lnfs_locking.specs.Rows.{entry_of, found_of, AreOwn};
ghost use Rattle.lnfs_locking.specs.Walks.{from_on};

use crate::keys::{Key, LockRow};
use crate::tests::LockTest;
use std::collections::BTreeMap;

/// The first lock of a level that passes a test, from an identifier on. Looks at no lock of another level.
pub fn first_from<'a, T: LockTest>(
    rows: &'a BTreeMap<Key, LockRow>,
    from: Key,
    test: &T,
) -> Option<(Key, &'a LockRow)>
    requires { AreOwn rows.now.entries }
    ensures { option_map found_of result
        ≡ find (from_on (id_of from) (T.passes test.now)) (map entry_of rows.now.entries) }
{
    for (id, row) in rows.range(from..) {
        if id.level != from.level {
            return None;
        }
        if test.passes(*id, row) {
            return Some((*id, row));
        }
    }
    None
}
