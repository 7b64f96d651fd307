//! What names a row.

/// An identifier: the level that gave it, and its number there.
#[derive(Clone, Copy, Debug, PartialEq, Eq)]
pub struct Id {
    pub level: u32,
    pub number: u64,
}
