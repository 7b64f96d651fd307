//! Numbers of the layout, and of NFS.

/// The first 8 bytes, `LNFSCKP1`, as the number that they spell.
pub const MAGIC: u64 = 0x4C4E_4653_434B_5031;

/// The most events that a state may have taken.
pub const MOST_EVENTS: u64 = 4_611_686_018_427_387_904;

/// The bytes of the digest of a policy: SHA-256.
pub const DIGEST: usize = 32;

/// The bytes of a verifier (`NFS4_VERIFIER_SIZE`, RFC 8881 section 3.1).
pub const VERIFIER: usize = 8;

/// A regular file (`nfs_ftype4`, RFC 8881 section 3.3.13).
pub const NF4REG: u32 = 1;

pub const NF4DIR: u32 = 2;

pub const NF4LNK: u32 = 5;

/// The byte of a flag that is set, and that before a value that is there.
pub const YES: u8 = 1;

pub const NO: u8 = 0;
