//! Flags of the protocol (RFC 8881 sections 18.16 and 18.35) and limits of this server. The numbers of
//! operations and their statuses stand in `lnfs_arguments`, and the limits of rows that the crates
//! below share in `lnfs_world`.

/// A flag that asks to update a confirmed record. Not served.
pub const EXCHGID4_FLAG_UPD_CONFIRMED_REC_A: u32 = 0x4000_0000;

/// A flag of replies alone: the record is confirmed.
pub const EXCHGID4_FLAG_CONFIRMED_R: u32 = 0x8000_0000;

/// A flag of replies: the server is not a pNFS server.
pub const EXCHGID4_FLAG_USE_NON_PNFS: u32 = 0x0001_0000;

/// A flag of OPEN's results: locks of byte ranges are cut, joined and changed as POSIX has it.
pub const OPEN4_RESULT_LOCKTYPE_POSIX: u32 = 0x0000_0004;

/// How many client records a level may have.
pub const CLIENTS_OF_A_LEVEL: u32 = 64;

/// How many sessions a level may have.
pub const SESSIONS_OF_A_LEVEL: u32 = 64;

/// The least size of a request and of a response that a session is made for.
pub const LEAST_SIZE: u32 = 2_048;

/// The greatest size of a request and of a response that a session grants.
pub const MOST_SIZE: u32 = 65_536;

/// The most operations of a COMPOUND that a session grants.
pub const MOST_OPERATIONS: u32 = 32;

/// The most requests at a time, and so the most slots, that a session grants.
pub const MOST_REQUESTS: u32 = 16;

/// The largest wrapping of a result in its RPC message, that of a signed reply, without the pad bytes of the result.
pub const LARGEST_WRAPPING: u32 = 100;

/// The room of a response that no result takes: the largest wrapping of a reply in its RPC message, and a
/// refusal.
pub const RESERVED_ROOM: u32 = 128;

/// The most bytes of the result of a COMPOUND that is a CREATE_SESSION alone: 12 of its status, the length
/// of its tag and its count, 1,024 of the tag, and 96 of the operation's result.
pub const MOST_CREATED: u32 = 1_132;

/// The most bytes of a name.
pub const LONGEST_NAME: u32 = 255;

/// The bits of ACCESS that the rule for reading allows: READ, LOOKUP and EXECUTE (RFC 8881 section 18.1).
pub const ACCESS_READING: u32 = 0x23;

/// Those that the rule for writing allows: MODIFY, EXTEND and DELETE.
pub const ACCESS_WRITING: u32 = 0x1c;

/// The bytes of a READDIR result without an entry: the verifier, the end of the list, and eof.
pub const EMPTY_LISTING: u32 = 16;

/// The most bytes of the text of a symbolic link.
pub const MOST_TEXT: u32 = 1_024;

/// The most of a mode: the twelve bits of RFC 8881 section 6.2.4.
pub const MOST_MODE: u32 = 0o7777;

/// The mode of a new directory, and of a new symbolic link, that brings none.
pub const DIRECTORY_MODE: u32 = 0o755;

pub const LINK_MODE: u32 = 0o777;

/// The mode of a new file that brings none.
pub const FILE_MODE: u32 = 0o644;

/// What an open of a file is for, and what it denies to others (RFC 8881 section 18.16.3): reading, writing, and both.
/// The bits of access and of deny are the same.
pub const OPEN4_SHARE_ACCESS_READ: u32 = 1;

pub const OPEN4_SHARE_ACCESS_WRITE: u32 = 2;

pub const OPEN4_SHARE_ACCESS_BOTH: u32 = 3;

/// `FILE_SYNC4`, the last of the ways to write (RFC 8881 section 18.32.1): data and attributes stand when it is answered.
pub const FILE_SYNC4: u32 = 2;
