//! The bounds of a line of a script.

/// The highest offset of a read and of a write, in bytes.
pub const MAX_OFFSET: u64 = 16_777_216;

/// The most bytes that a line reads.
pub const MAX_COUNT: u32 = 32_768;

/// The most bytes that a line writes.
pub const MAX_CONTENT: usize = 1_024;
