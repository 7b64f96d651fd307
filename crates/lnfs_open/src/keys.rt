//! What names clients, nodes and opens, and what is told of an open.
ghost use Rattle.std.specs.Prelude.{◌≡◌};
ghost use Rattle.lnfs_open.specs.Listed.{id_of, client_id, node_id, open_id};

use crate::tallies::Uses;
use lnfs_calipso::Level;
use lnfs_types::Octets;
use std::alloc::AllocError;
use thiserror::Error;

/// A client: the level that its record was given in, and its number there.
#[derive(Clone, Copy, Debug, PartialEq, Eq, PartialOrd, Ord)]
pub struct ClientKey {
    pub level: Level,
    pub number: u32,
}

/// A node: the level that it was made in, and its number there.
#[derive(Clone, Copy, Debug, PartialEq, Eq, PartialOrd, Ord)]
pub struct NodeKey {
    pub level: Level,
    pub number: u32,
}

/// What a state id says of an open (RFC 8881 section 8.2): the level that it was given in, its number there, and the
/// sequence.
#[derive(Clone, Copy, Debug, PartialEq, Eq)]
pub struct OpenRef {
    pub level: Level,
    pub number: u32,
    pub seq: u32,
}

/// An open of a file (RFC 8881 section 9.1).
#[derive(Debug, Drop)]
pub struct OpenRow {
    pub client: ClientKey,
    /// The opaque name of the open owner.
    pub owner: Octets,
    pub node: NodeKey,
    /// What it is for: 1 for reading, 2 for writing, or both.
    pub access: u32,
    /// What it denies to others, in the same bits.
    pub deny: u32,
    pub seq: u32,
}

/// Why a call was refused.
#[derive(Clone, Copy, Debug, PartialEq, Eq, Error)]
pub enum OpenError {
    /// The level has as many opens as it may have, or no number is left for one more.
    #[error("the level has as many opens as it may have, or no number is left")]
    Full,
    /// There is no such open.
    #[error("there is no such open")]
    Bad,
    /// The open has a later sequence.
    #[error("the open has a later sequence")]
    Old,
    /// Memory was wanting.
    #[error("out of memory")]
    Memory,
}

impl From<AllocError> for OpenError {
    ghost use Rattle.std.specs.Prelude.{◌≡◌};
    ghost use Rattle.lnfs_open.specs.declared.keys.OpenError.TheVariants.{Memory};

    ghost from_gives = { λ _ e. e ≡ Memory };

    fn from(_error: AllocError) -> OpenError {
        OpenError::Memory
    }
}

/// An identifier of any kind: a level, and a number there.
#[derive(Clone, Copy, Debug, PartialEq, Eq, PartialOrd, Ord)]
pub struct Key {
    pub level: u32,
    pub number: u32,
}

impl ClientKey {
    /// The client as a key.
    pub(crate) fn key(self) -> Key
        ensures { id_of result ≡ client_id self }
    {
        Key {
            level: self.level.0,
            number: self.number,
        }
    }
}

impl NodeKey {
    /// The node as a key.
    pub(crate) fn key(self) -> Key
        ensures { id_of result ≡ node_id self }
    {
        Key {
            level: self.level.0,
            number: self.number,
        }
    }
}

impl OpenRow {
    /// What it is for, and what it denies.
    pub(crate) fn uses(&self) -> Uses
        ensures { result ≡ record { access = self.now.access; deny = self.now.deny } }
    {
        Uses {
            access: self.access,
            deny: self.deny,
        }
    }
}

impl OpenRef {
    /// The open as a key.
    pub(crate) fn key(self) -> Key
        ensures { id_of result ≡ open_id self }
    {
        Key {
            level: self.level.0,
            number: self.number,
        }
    }
}

impl Key {
    /// The reference of an open in a state.
    pub(crate) fn at(self, seq: u32) -> OpenRef
        ensures id { open_id result ≡ id_of self }
        ensures seq { result.seq ≡ seq }
    {
        OpenRef {
            level: Level(self.level),
            number: self.number,
            seq,
        }
    }
}
