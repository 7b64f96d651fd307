//! What the first directories have, and limits of nodes, names, files and opens.

/// The mode of a directory of the first world: read and search for all, write for its owner.
pub const FIRST_MODE: u32 = 0o755;

/// The cookie of a directory's first name. 0, 1 and 2 have meanings of their own (RFC 8881 section
/// 18.23.3).
pub const FIRST_COOKIE: u32 = 3;

/// The last number that a level can give of a kind of identifier.
pub const LAST_NUMBER: u32 = 4_294_967_295;

/// The last change number, at which a node stays.
pub const LAST_CHANGE: u64 = 18_446_744_073_709_551_615;

/// The last number of a directory's cookie counter. No name takes it as its cookie.
pub const LAST_COOKIE: u64 = 18_446_744_073_709_551_615;

/// The most names of a file or of a symbolic link.
pub const MOST_NAMES: u32 = 1_024;

/// The most bytes of a file.
pub const MOST_FILE: u64 = 16_777_216;

/// How many opens a level may have.
pub const OPENS_OF_A_LEVEL: u32 = 4_096;

/// The last sequence: of a slot or of a CREATE_SESSION, after which comes 0, and of a state id, after which comes 1
/// (RFC 8881 section 8.2.2).
pub const LAST_SEQUENCE: u32 = 4_294_967_295;
