//! The statuses of operations (RFC 8881 section 15, RFC 7862 section 11). Those that operations
//! of this server answer stand here alone.

/// Success.
pub const NFS4_OK: u32 = 0;

/// There is no such name.
pub const NFS4ERR_NOENT: u32 = 2;

/// The rules of labels don't allow it.
pub const NFS4ERR_ACCESS: u32 = 13;

/// The name is there.
pub const NFS4ERR_EXIST: u32 = 17;

/// A directory is needed.
pub const NFS4ERR_NOTDIR: u32 = 20;

/// Something else than a directory is needed.
pub const NFS4ERR_ISDIR: u32 = 21;

/// A value or a combination of arguments that is not allowed.
pub const NFS4ERR_INVAL: u32 = 22;

/// A file would be too large.
pub const NFS4ERR_FBIG: u32 = 27;

/// No room is left.
pub const NFS4ERR_NOSPC: u32 = 28;

/// A file would have too many names.
pub const NFS4ERR_MLINK: u32 = 31;

/// A name or a text that is too long.
pub const NFS4ERR_NAMETOOLONG: u32 = 63;

/// A directory that holds names.
pub const NFS4ERR_NOTEMPTY: u32 = 66;

/// The bytes of a level would pass its quota.
pub const NFS4ERR_DQUOT: u32 = 69;

/// A file handle that names nothing.
pub const NFS4ERR_STALE: u32 = 70;

/// Bytes that are no file handle.
pub const NFS4ERR_BADHANDLE: u32 = 10001;

/// An operation, or a form of one, that isn't served.
pub const NFS4ERR_NOTSUPP: u32 = 10004;

/// A limit that is too small to serve.
pub const NFS4ERR_TOOSMALL: u32 = 10005;

/// A type of file that can't be made.
pub const NFS4ERR_BADTYPE: u32 = 10007;

/// The attributes are the same.
pub const NFS4ERR_SAME: u32 = 10009;

/// An open denies it.
pub const NFS4ERR_LOCKED: u32 = 10012;

/// An open denies the opening.
pub const NFS4ERR_SHARE_DENIED: u32 = 10015;

/// No file handle is set.
pub const NFS4ERR_NOFILEHANDLE: u32 = 10020;

/// A minor version that isn't served.
pub const NFS4ERR_MINOR_VERS_MISMATCH: u32 = 10021;

/// A client id that the server doesn't know.
pub const NFS4ERR_STALE_CLIENTID: u32 = 10022;

/// A state id of before.
pub const NFS4ERR_OLD_STATEID: u32 = 10024;

/// A state id that names nothing.
pub const NFS4ERR_BAD_STATEID: u32 = 10025;

/// The attributes differ.
pub const NFS4ERR_NOT_SAME: u32 = 10027;

/// A symbolic link where none is allowed.
pub const NFS4ERR_SYMLINK: u32 = 10029;

/// An attribute that the server doesn't have.
pub const NFS4ERR_ATTRNOTSUPP: u32 = 10032;

/// Bytes that don't spell what they should.
pub const NFS4ERR_BADXDR: u32 = 10036;

/// The opening isn't for this.
pub const NFS4ERR_OPENMODE: u32 = 10038;

/// A name with a byte that isn't allowed.
pub const NFS4ERR_BADCHAR: u32 = 10040;

/// A name that isn't allowed.
pub const NFS4ERR_BADNAME: u32 = 10041;

/// An operation that the protocol doesn't have.
pub const NFS4ERR_OP_ILLEGAL: u32 = 10044;

/// A session id that the server doesn't know.
pub const NFS4ERR_BADSESSION: u32 = 10052;

/// A slot that the session doesn't have.
pub const NFS4ERR_BADSLOT: u32 = 10053;

/// The client has said before that it reclaims no more.
pub const NFS4ERR_COMPLETE_ALREADY: u32 = 10054;

/// A sequence that is neither the last one nor the next.
pub const NFS4ERR_SEQ_MISORDERED: u32 = 10063;

/// A SEQUENCE that isn't the first operation of its COMPOUND.
pub const NFS4ERR_SEQUENCE_POS: u32 = 10064;

/// A request that is longer than its session grants.
pub const NFS4ERR_REQ_TOO_BIG: u32 = 10065;

/// A reply that would be longer than its session grants.
pub const NFS4ERR_REP_TOO_BIG: u32 = 10066;

/// More operations than the session grants.
pub const NFS4ERR_TOO_MANY_OPS: u32 = 10070;

/// An operation that has to stand behind a SEQUENCE.
pub const NFS4ERR_OP_NOT_IN_SESSION: u32 = 10071;

/// A client that still has state.
pub const NFS4ERR_CLIENTID_BUSY: u32 = 10074;

/// The sequence of the last request, with other arguments.
pub const NFS4ERR_SEQ_FALSE_RETRY: u32 = 10076;

/// An operation that has to be alone in its COMPOUND.
pub const NFS4ERR_NOT_ONLY_OP: u32 = 10081;

/// Another type of object is needed.
pub const NFS4ERR_WRONG_TYPE: u32 = 10083;

/// A format of labels that the server doesn't have.
pub const NFS4ERR_WRONG_LFS: u32 = 10092;

/// Bytes that spell no label of the server.
pub const NFS4ERR_BADLABEL: u32 = 10093;
