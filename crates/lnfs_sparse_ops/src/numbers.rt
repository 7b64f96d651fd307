//! Numbers of ALLOCATE, DEALLOCATE, SEEK and CLONE. The statuses that the table of `lnfs_arguments` has stand there.

/// The operations (RFC 7862 section 15).
pub const OP_ALLOCATE: u32 = 59;

pub const OP_DEALLOCATE: u32 = 62;

pub const OP_SEEK: u32 = 69;

pub const OP_CLONE: u32 = 71;

/// `data_content4` (RFC 7862 section 15.11.1): what is looked for.
pub const NFS4_CONTENT_DATA: u32 = 0;

pub const NFS4_CONTENT_HOLE: u32 = 1;

/// The last offset of a file. No region goes past it.
pub const LAST_OFFSET: u64 = 18_446_744_073_709_551_615;

/// There is no byte at the offset from which on something is looked for (RFC 7862 section 15.11.3).
pub const NFS4ERR_NXIO: u32 = 6;

/// What is looked for is of no sort that is served (RFC 7862 section 11.1.1.1).
pub const NFS4ERR_UNION_NOTSUPP: u32 = 10090;

/// The bytes of the result of ALLOCATE, of DEALLOCATE and of CLONE: the number and the status.
pub const PLAIN_BOUND: u32 = 8;

/// The most bytes of the result of SEEK: the number, the status, whether the end is reached, and an offset.
pub const SEEK_BOUND: u32 = 20;
