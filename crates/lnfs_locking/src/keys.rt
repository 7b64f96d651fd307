//! What names a lock, and what is kept of it.
ghost use Rattle.std.specs.Prelude.{◌≡◌};
ghost use Rattle.lnfs_open.specs.Listed.{node_id};
ghost use Rattle.lnfs_locking.specs.Keys.{id_of};

use lnfs_open::{ClientKey, NodeKey};
use lnfs_ranges::RangeList;
use lnfs_types::Octets;

/// An identifier of any kind: a level, and a number there.
#[derive(Clone, Copy, Debug, PartialEq, Eq, PartialOrd, Ord)]
pub struct Key {
    pub level: u32,
    pub number: u32,
}

/// What a lock owner has locked of a file under an open (RFC 8881 section 9.1).
#[derive(Debug, Drop)]
pub struct LockRow {
    /// The client, which is of the lock's level.
    pub client: ClientKey,
    /// The number of the open in that level.
    pub opening: u32,
    /// The opaque name of the lock owner.
    pub owner: Octets,
    pub node: NodeKey,
    pub seq: u32,
    pub ranges: RangeList,
}

/// A node as a key.
pub fn node_key(node: NodeKey) -> Key
    ensures { id_of result ≡ node_id node }
{
    Key {
        level: node.level.0,
        number: node.number,
    }
}

/// The least key of a level.
pub fn level_front(level: u32) -> Key
    ensures { result ≡ record { level = level; number = 0 } }
{
    Key { level, number: 0 }
}
