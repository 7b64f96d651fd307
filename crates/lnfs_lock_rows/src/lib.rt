//! Byte-range locks as values, which lend what they are long of: what a server keeps of them can be told as rows, and made of
//! them again.
//!
//! As with the rows of a world, a value may stand for a lock that no server keeps: numbers are as wide as they are written,
//! and no fact is asked of them.
#![tactic(auto)]

use lnfs_ranges::LockRange;
use lnfs_rows::Id;

/// What a lock owner has locked of a file under an open (RFC 8881 section 9.1).
#[derive(Debug, Drop)]
pub struct LockRow<'a> {
    pub id: Id,
    /// The number of its client, which is of the same level.
    pub client: u64,
    /// The number of its open in that level.
    pub opening: u64,
    /// The opaque name of the lock owner.
    pub owner: &'a [u8],
    pub node: Id,
    pub sequence: u32,
    pub ranges: Vec<LockRange>,
}

/// All locks, and the last number that was given in each level, from level 0 on: before the first, 0.
#[derive(Debug, Drop)]
pub struct LockRows<'a> {
    pub locks: Vec<LockRow<'a>>,
    pub lasts: Vec<u64>,
}
