//! The numbers of operations (RFC 8881 section 18, RFC 7862 section 15) and of the arms of their
//! unions, and the bounds of fields. They stand here alone, but for flavors, which `lnfs_xdr` has.

use lnfs_types::RECORD_LIMIT;

pub const OP_ACCESS: u32 = 3;

pub const OP_CLOSE: u32 = 4;

pub const OP_COMMIT: u32 = 5;

pub const OP_CREATE: u32 = 6;

pub const OP_GETATTR: u32 = 9;

pub const OP_GETFH: u32 = 10;

pub const OP_LINK: u32 = 11;

pub const OP_LOOKUP: u32 = 15;

pub const OP_LOOKUPP: u32 = 16;

pub const OP_NVERIFY: u32 = 17;

pub const OP_OPEN: u32 = 18;

pub const OP_PUTFH: u32 = 22;

pub const OP_PUTROOTFH: u32 = 24;

pub const OP_READ: u32 = 25;

pub const OP_READDIR: u32 = 26;

pub const OP_READLINK: u32 = 27;

pub const OP_REMOVE: u32 = 28;

pub const OP_RENAME: u32 = 29;

pub const OP_RESTOREFH: u32 = 31;

pub const OP_SAVEFH: u32 = 32;

pub const OP_SETATTR: u32 = 34;

pub const OP_VERIFY: u32 = 37;

pub const OP_WRITE: u32 = 38;

pub const OP_EXCHANGE_ID: u32 = 42;

pub const OP_CREATE_SESSION: u32 = 43;

pub const OP_DESTROY_SESSION: u32 = 44;

pub const OP_SEQUENCE: u32 = 53;

pub const OP_DESTROY_CLIENTID: u32 = 57;

pub const OP_RECLAIM_COMPLETE: u32 = 58;
/// The first and the last number of an operation of minor version 2.
pub const OP_FIRST: u32 = 3;

pub const OP_LAST: u32 = 71;
/// The number in the result of an operation that has none.
pub const OP_ILLEGAL: u32 = 10044;

/// The minor version that is served.
pub const MINOR: u32 = 2;
/// The most operations of a COMPOUND.
pub const OP_LIMIT: u32 = 32;
/// The least bytes of an operation, which are its number.
pub const OP_LEAST: usize = 4;
/// The most bytes of a tag.
pub const TAG_LIMIT: u32 = 1024;
/// The most bytes of a name, and of the values of an `fattr4`.
pub const LONG_LIMIT: u32 = 65536;
/// The most bytes of an owner, and of an implementation's domain and name.
pub const OWNER_LIMIT: u32 = 1024;
/// The most bytes of a file handle.
pub const HANDLE_LIMIT: u32 = 128;
/// The most bytes of a WRITE.
pub const DATA_LIMIT: u32 = RECORD_LIMIT;
/// The most ways to call back.
pub const CALLBACK_LIMIT: u32 = 16;

/// `nfs_ftype4`: a directory, and a symbolic link.
pub const TYPE_DIR: u32 = 2;

pub const TYPE_LINK: u32 = 5;
/// `opentype4`.
pub const OPEN_NOCREATE: u32 = 0;

pub const OPEN_CREATE: u32 = 1;
/// `createmode4`.
pub const UNCHECKED: u32 = 0;

pub const GUARDED: u32 = 1;

pub const EXCLUSIVE: u32 = 2;

pub const EXCLUSIVE4_1: u32 = 3;
/// `open_claim_type4`.
pub const CLAIM_NULL: u32 = 0;

pub const CLAIM_FH: u32 = 4;
/// `state_protect_how4`: none.
pub const SP4_NONE: u32 = 0;
