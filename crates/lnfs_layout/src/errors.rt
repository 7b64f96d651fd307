ghost use Rattle.std.specs.Prelude.{◌≡◌};
ghost use Rattle.lnfs_layout.specs.declared.errors.Halt.TheVariants.{Memory, Fault};

use lnfs_xdr::XdrError;
use std::alloc::{AllocError, AllocFailed};
use thiserror::Error;

/// Why reading ends before its value is there.
#[derive(Debug, Drop, Error)]
pub(crate) enum Halt {
    #[error("out of memory")]
    Memory,
    /// No item stands where the reader does.
    #[error("{0}")]
    Fault(XdrError),
}

impl From<XdrError> for Halt {
    ghost from_gives = { λ c e. e ≡ Fault c };

    fn from(cause: XdrError) -> Halt {
        Halt::Fault(cause)
    }
}

impl From<AllocError> for Halt {
    ghost from_gives = { λ _ e. e ≡ Memory };

    fn from(_e: AllocError) -> Halt {
        Halt::Memory
    }
}

impl<T: Drop> From<AllocFailed<T>> for Halt {
    ghost from_gives = { λ _ e. e ≡ Memory };

    fn from(_e: AllocFailed<T>) -> Halt {
        Halt::Memory
    }
}

/// Why bytes were not read as a state.
#[derive(Debug, Drop, PartialEq, Eq, Error)]
pub enum LayoutError {
    #[error("out of memory")]
    Memory,
    /// The first 40 bytes are in the layout, and the digest is that of another policy.
    #[error("the state is one under another policy")]
    Policy,
    /// The item at this offset is not in the layout, however it goes on, or bytes stand behind the last item.
    #[error("the item at byte {at} is not in the layout")]
    Damaged { at: usize },
}
