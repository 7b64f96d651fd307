use lnfs_types::Octets;

/// A time (`nfstime4`, RFC 8881 section 3.3.1): seconds since 1970 and nanoseconds below a second.
#[derive(Clone, Copy, Debug, PartialEq, Eq)]
pub struct Moment {
    pub secs: u64,
    pub nanos: u32,
}

/// A label with its format (`sec_label4`, RFC 7862 section 12.2.4): the number of the format, its
/// policy identifier, and the label in this format.
#[derive(Debug, Drop)]
pub struct LabelValue {
    pub lfs: u32,
    pub pi: u32,
    pub bytes: Octets,
}

/// What an object shows of itself.
#[derive(Debug, Drop)]
pub struct View {
    /// 1 of a file, 2 of a directory, 5 of a symbolic link (`nfs_ftype4`).
    pub kind: u32,
    pub change: u64,
    /// Bytes of a file, names of a directory, bytes of a link's text.
    pub size: u64,
    pub handle: [u8; 12],
    pub fileid: u64,
    pub mode: u32,
    pub links: u32,
    /// The bytes that the subject's level may still use.
    pub avail: u64,
    /// The bytes that the subject's level uses.
    pub used: u64,
    pub access: Moment,
    pub metadata: Moment,
    pub modify: Moment,
    pub label: LabelValue,
    /// The status of an entry of READDIR whose attributes could not be read, else 0.
    pub error: u32,
}
