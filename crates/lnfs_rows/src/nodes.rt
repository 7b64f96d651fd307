//! Rows of nodes and of their names.
ghost use Rattle.std.specs.Prelude.{◌≡◌, length};
ghost use Rattle.lnfs_rows.specs.Told.{bytes_of};

use crate::numbers::Id;
use lnfs_content::Content;
use lnfs_types::Moment;

#[derive(Clone, Copy, Debug, PartialEq, Eq)]
pub enum Kind {
    File,
    Directory,
    SymbolicLink,
}

/// A label as it was given (`sec_label4`, RFC 7862 section 12.2.4).
#[derive(Clone, Copy, Debug)]
pub struct StoredRow<'a> {
    pub lfs: u32,
    pub pi: u32,
    pub bytes: &'a [u8],
}

/// A file's data, or a symbolic link's text: as it stands somewhere, or as a file keeps it.
#[derive(Clone, Copy)]
pub enum Data<'a> {
    Bytes(&'a [u8]),
    File(&'a Content),
}

impl Data<'_> {
    /// How many bytes there are.
    pub fn len(&self) -> u64
        ensures { result ≡ length (bytes_of self.now) }
    {
        match self {
            Data::Bytes(bytes) => bytes.len() as u64,
            Data::File(content) => content.len(),
        }
    }
}

#[derive(Clone, Copy)]
pub struct NodeRow<'a> {
    pub id: Id,
    pub kind: Kind,
    /// The level of its label.
    pub label: u32,
    /// What an exclusive create brought (RFC 8881 section 18.16.3).
    pub verifier: Option<[u8; 8]>,
    pub stored: Option<StoredRow<'a>>,
    pub mode: u32,
    pub content: Data<'a>,
    pub change: u64,
    pub accessed: Moment,
    pub metadata: Moment,
    pub modified: Moment,
    /// The cookie that a directory's next name takes.
    pub cookies: u64,
}

/// A name in a directory.
#[derive(Clone, Copy, Debug)]
pub struct EntryRow<'a> {
    pub directory: Id,
    pub cookie: u64,
    pub name: &'a [u8],
    pub node: Id,
}
