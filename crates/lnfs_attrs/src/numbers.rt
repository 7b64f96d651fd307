//! The table of attributes (RFC 8881 section 5, RFC 7862 section 12.2.4): their numbers, in order,
//! and which of them are inner. They stand here alone.

pub const SUPPORTED_ATTRS: u32 = 0;

pub const TYPE: u32 = 1;

pub const FH_EXPIRE_TYPE: u32 = 2;

pub const CHANGE: u32 = 3;

pub const SIZE: u32 = 4;

pub const LINK_SUPPORT: u32 = 5;

pub const SYMLINK_SUPPORT: u32 = 6;

pub const NAMED_ATTR: u32 = 7;

pub const FSID: u32 = 8;

pub const UNIQUE_HANDLES: u32 = 9;

pub const LEASE_TIME: u32 = 10;

pub const RDATTR_ERROR: u32 = 11;

pub const FILEHANDLE: u32 = 19;

pub const FILEID: u32 = 20;

pub const MODE: u32 = 33;

pub const NUMLINKS: u32 = 35;

pub const OWNER: u32 = 36;

pub const OWNER_GROUP: u32 = 37;

pub const QUOTA_AVAIL_HARD: u32 = 38;

pub const QUOTA_USED: u32 = 40;

pub const TIME_ACCESS: u32 = 47;

pub const TIME_METADATA: u32 = 52;

pub const TIME_MODIFY: u32 = 53;

pub const MOUNTED_ON_FILEID: u32 = 55;

pub const SUPPATTR_EXCLCREAT: u32 = 75;

pub const SEC_LABEL: u32 = 80;

/// Each attribute that is answered, in order.
pub const LISTED: [u32; 26] = [
    SUPPORTED_ATTRS,
    TYPE,
    FH_EXPIRE_TYPE,
    CHANGE,
    SIZE,
    LINK_SUPPORT,
    SYMLINK_SUPPORT,
    NAMED_ATTR,
    FSID,
    UNIQUE_HANDLES,
    LEASE_TIME,
    RDATTR_ERROR,
    FILEHANDLE,
    FILEID,
    MODE,
    NUMLINKS,
    OWNER,
    OWNER_GROUP,
    QUOTA_AVAIL_HARD,
    QUOTA_USED,
    TIME_ACCESS,
    TIME_METADATA,
    TIME_MODIFY,
    MOUNTED_ON_FILEID,
    SUPPATTR_EXCLCREAT,
    SEC_LABEL,
];
/// Those that tell of the content: who asks for one has to dominate the object's label.
pub const INNER: [u32; 7] = [
    CHANGE,
    SIZE,
    MODE,
    NUMLINKS,
    TIME_ACCESS,
    TIME_METADATA,
    TIME_MODIFY,
];
/// The words of `supported_attrs`: the attributes of the table.
pub const SUPPORTED_WORDS: [u32; 3] = [0x00180fff, 0x00b0817a, 0x00010800];
/// The words of those of the table that are not inner.
pub const OUTER_WORDS: [u32; 3] = [0x00180fe7, 0x00800170, 0x00010800];
/// The words of `suppattr_exclcreat`: the attributes that can be set.
pub const SETTABLE_WORDS: [u32; 3] = [0x00000010, 0x00000002, 0x00010000];
/// Owner and group of every object.
pub const NOBODY: [u8; 6] = *b"nobody";
/// The most bytes of a label in a list that is read.
pub const LIST_LIMIT: u32 = 65536;
