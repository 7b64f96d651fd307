//! How a call stops before its end.
ghost use Rattle.std.specs.Prelude.{◌≡◌};
ghost use Rattle.lnfs_stage.specs.declared.stop.Stop.TheVariants.{Memory};

use crate::ending::Ending;
use std::alloc::AllocError;
use thiserror::Error;

/// Why a call stopped. Where the outside failed or there was no memory, what the streams took until then
/// is a front of what was due.
#[derive(Debug, Drop, Error)]
pub enum Stop {
    /// The run has this ending, and all that is due before it was done.
    #[error("the run has ended")]
    Ends(Ending),
    /// A call of the files failed.
    #[error("a call of the files failed")]
    ReadFault,
    /// A write failed, or what was written couldn't be handed on.
    #[error("a write failed")]
    WriteFault,
    /// There was no memory.
    #[error("out of memory")]
    Memory,
    /// A call of the net failed: before all links were accepted, or where a client talks over its link.
    #[error("a call of the net failed")]
    NetFault,
}

impl From<AllocError> for Stop {
    ghost from_gives = { λ _ e. e ≡ Memory };

    fn from(_error: AllocError) -> Stop {
        Stop::Memory
    }
}
