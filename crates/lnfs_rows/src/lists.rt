//! All rows of a world.
use crate::nodes::{EntryRow, NodeRow};
use crate::opens::OpenRow;
use crate::sessions::{ClientRow, ContextRow, SessionRow};

/// Of each kind of identifier the last number that was given in each level, from level 0 on: before the first, 0.
#[derive(Debug, Drop)]
pub struct Lasts {
    pub clients: Vec<u64>,
    pub sessions: Vec<u64>,
    pub contexts: Vec<u64>,
    pub nodes: Vec<u64>,
    pub opens: Vec<u64>,
}

/// The lists of a world.
#[derive(Drop)]
pub struct Lists<'a> {
    pub clients: Vec<ClientRow<'a>>,
    pub sessions: Vec<SessionRow<'a>>,
    pub contexts: Vec<ContextRow>,
    pub nodes: Vec<NodeRow<'a>>,
    pub entries: Vec<EntryRow<'a>>,
    pub opens: Vec<OpenRow<'a>>,
    pub lasts: Lasts,
}
