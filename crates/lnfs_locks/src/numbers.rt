//! Numbers of LOCK, LOCKT and LOCKU, and limits of locks. The statuses and the numbers of operations that the table of
//! `lnfs_arguments` has stand there.

/// The operations (RFC 8881 section 16.2.1).
pub const OP_LOCK: u32 = 12;

pub const OP_LOCKT: u32 = 13;

pub const OP_LOCKU: u32 = 14;

/// `nfs_lock_type4` (RFC 8881 section 18.10.1): locks for read and for write, and those for which a client would wait.
pub const READ_LT: u32 = 1;

pub const WRITE_LT: u32 = 2;

pub const READW_LT: u32 = 3;

pub const WRITEW_LT: u32 = 4;

/// The last offset of a file. As a length it stands for all up to there (RFC 8881 section 18.10.3).
pub const LAST_OFFSET: u64 = 18_446_744_073_709_551_615;

/// Another's lock stands in the way (RFC 8881 section 15.1.8.3).
pub const NFS4ERR_DENIED: u32 = 10010;

/// Nothing can be reclaimed (RFC 8881 section 15.1.9.3).
pub const NFS4ERR_NO_GRACE: u32 = 10033;

/// How many locks a level may have whose opens are still there, and how many ranges these.
pub const LOCKS_OF_A_LEVEL: u32 = 1_024;

pub const RANGES_OF_A_LEVEL: u32 = 4_096;

/// The most bytes of the result of LOCK and of LOCKT: the number, the status, and what a lock that stands in the way has, with
/// an owner of 1,024 bytes.
pub const LOCK_BOUND: u32 = 1_064;

/// The bytes of the result of LOCKU: the number, the status and a state id.
pub const LOCKU_BOUND: u32 = 24;
