ghost use Rattle.std.specs.Prelude.{◌≡◌};

use lnfs_calipso::Level;
use lnfs_types::{Items, Octets};
use std::alloc::AllocError;
use thiserror::Error;

/// An entry of a directory, as it is shown.
#[derive(Debug, Drop)]
pub struct Shown {
    pub name: Octets,
    /// The level of the label that stands beside the name, or None where no format of the policy reads a level in it.
    pub level: Option<Level>,
}

/// What an action is answered at its end.
#[derive(Debug, Drop)]
pub enum Answer {
    Mounted,
    Entries(Items<Shown>),
    Data(Octets),
    /// How many bytes were written, as the server told.
    Wrote(u32),
    Made,
    Removed,
    Raised,
    Left,
}

/// What a reply leads to.
#[derive(Debug, Drop)]
pub enum Progress {
    /// The action goes on, or the reply is none to the request that is unanswered.
    More,
    Done(Answer),
}

/// Why an action has ended without its answer.
#[derive(Clone, Copy, Debug, PartialEq, Eq, Error)]
pub enum Refusal {
    /// The client's level does not dominate that of the object.
    #[error("the level does not dominate that of the object")]
    NotDominated,
    /// No format of the policy reads a level in the object's label.
    #[error("the label of the object is that of no level")]
    UnknownLabel,
    /// The client's level is not that of the object.
    #[error("the level is not that of the object")]
    NotEqual,
    /// The status of a COMPOUND that did not succeed (RFC 8881 section 15.1).
    #[error("the server answered with status {status}")]
    ServerSaid { status: u32 },
    /// The server denied the call for who asks: the `auth_stat` (RFC 5531 section 9).
    #[error("the server denied the call with auth_stat {auth}")]
    Denied { auth: u32 },
    /// The record is no reply to the request: the offset of the first item that none has, or of a signature that isn't good.
    #[error("the reply is wrong at {at}")]
    BadReply { at: u64 },
    /// There is no memory.
    #[error("out of memory")]
    Memory,
}

impl From<AllocError> for Refusal {
    ghost use Rattle.lnfs_client.specs.declared.answer.Refusal.TheVariants.{Memory};

    ghost from_gives = { λ _ e. e ≡ Memory };

    fn from(_error: AllocError) -> Refusal {
        Refusal::Memory
    }
}
