ghost use Rattle.std.specs.Prelude.{◌≡◌};
ghost use Rattle.lnfs_arguments.specs.declared.halt.Halt.TheVariants.{Memory, Fault};

use lnfs_xdr::XdrError;
use std::alloc::{AllocError, AllocFailed};
use thiserror::Error;

/// Why reading ends before its value is there.
#[derive(Debug, Drop, Error)]
pub enum Halt {
    #[error("out of memory")]
    Memory,
    /// No item stands where the reader does.
    #[error("{0}")]
    Fault(XdrError),
    /// The operation is outside of what is served, and what follows is unread.
    #[error("operation {number} is outside of what is served (status {status})")]
    Outside { number: u32, status: u32 },
}

impl From<XdrError> for Halt {
    ghost from_gives = { λ c e. e ≡ Fault c };

    fn from(cause: XdrError) -> Halt {
        Halt::Fault(cause)
    }
}

impl From<AllocError> for Halt {
    ghost from_gives = { λ _ e. e ≡ Memory };

    fn from(_e: AllocError) -> Halt {
        Halt::Memory
    }
}

impl<T: Drop> From<AllocFailed<T>> for Halt {
    ghost from_gives = { λ _ e. e ≡ Memory };

    fn from(_e: AllocFailed<T>) -> Halt {
        Halt::Memory
    }
}

/// Why bytes were not read as a COMPOUND, or as its results.
#[derive(Debug, Drop, Error)]
pub enum CompoundError {
    #[error("out of memory")]
    Memory,
    /// The item at this offset is not in the grammar, however it goes on.
    #[error("the item at byte {at} is not in the grammar")]
    Garbage { at: usize },
}
