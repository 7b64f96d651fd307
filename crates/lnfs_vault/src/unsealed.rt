//! What a step says, before its reply is sealed.
ghost use Rattle.std.specs.Prelude.{◌≤◌, ◌<◌, ◌^◌, length};
ghost use Rattle.lnfs_rpc.specs.Numbers.{head_length};

use crate::request::{Cause, Sealing};

/// Results in the buffer that was begun for them.
#[derive(Debug, Drop)]
pub struct Answer<'p> {
    pub xid: u32,
    pub sealing: Sealing<'p>,
    pub built: Vec<u8>,
    // room for a frame's head stands in front, or a sequence number; and what is signed has a length that a word spells
    pub ghost room: { head_length ≤ length built.items },
    pub ghost short: { length built.items < 2 ^ 32 },
}

/// What a step says, before it is sealed. It borrows nothing from the record.
#[derive(Debug, Drop)]
pub enum Unsealed<'p> {
    /// No reply is due.
    Silent,
    /// The call is refused as a whole.
    Refused {
        xid: u32,
        sealing: Sealing<'p>,
        cause: Cause,
    },
    /// It was run, and has no results.
    Bare {
        xid: u32,
        sealing: Sealing<'p>,
    },
    Answered(Answer<'p>),
}
