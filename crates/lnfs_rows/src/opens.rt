//! Rows of opens.
use crate::numbers::Id;

/// An open of a file (RFC 8881 section 9.1).
#[derive(Clone, Copy, Debug)]
pub struct OpenRow<'a> {
    pub id: Id,
    /// The number of its client, which is of the same level.
    pub client: u64,
    /// The opaque name of the open owner.
    pub owner: &'a [u8],
    pub node: Id,
    pub access: u32,
    pub deny: u32,
    pub sequence: u32,
}
