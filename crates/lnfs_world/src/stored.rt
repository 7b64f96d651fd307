use lnfs_calipso::Level;
use lnfs_types::Octets;

/// A label as it was given (`sec_label4`, RFC 7862 section 12.2.4).
#[derive(Debug, Drop)]
pub struct Stored {
    pub lfs: u32,
    pub pi: u32,
    pub bytes: Octets,
}

/// A directory that is to stand from the beginning.
#[derive(Debug, Drop)]
pub struct DirSpec {
    pub path: Octets,
    pub level: Level,
    pub stored: Option<Stored>,
}
