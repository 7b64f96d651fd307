//! What the lines of a policy give.

use lnfs_calipso::Level;
use lnfs_format::Pair;
use lnfs_types::Octets;

/// How a format spells labels, as a format line names it.
#[derive(Clone, Copy)]
pub enum Spelling {
    Calipso,
    Text,
    Name,
    Long,
}

/// A format line.
#[derive(Clone, Copy)]
pub struct FormatRow {
    pub pair: Pair,
    pub spelling: Spelling,
}

/// A name line: in a format of names, the bytes that spell the label of a level.
#[derive(Drop)]
pub struct LevelName {
    pub pair: Pair,
    pub level: Level,
    pub bytes: Octets,
}

/// A parent line: a program of the site whose calls assert labels up to a clearance, signed with its secret
/// (RFC 7861 section 2).
#[derive(Clone, Copy, Debug)]
pub struct Parent {
    pub number: u32,
    pub secret: [u8; 32],
    pub clearance: Level,
}

/// A guest line: callers of a class, with one uid or with any, have a level.
#[derive(Clone, Copy, Debug, PartialEq, Eq)]
pub struct Guest {
    pub class: u32,
    /// None is for all, also for those who have no uid.
    pub uid: Option<u32>,
    pub level: Level,
}

/// What the nodes and the bytes of a level may come to.
#[derive(Clone, Copy, Debug, PartialEq, Eq)]
pub struct Limit {
    pub nodes: u64,
    pub bytes: u64,
}

/// A quota line.
#[derive(Clone, Copy, Debug, PartialEq, Eq)]
pub struct Quota {
    pub level: Level,
    pub limit: Limit,
}

/// A dir line: a directory that stands from the beginning, with its level.
#[derive(Debug, Drop)]
pub struct DirLine {
    pub path: Octets,
    pub level: Level,
}
