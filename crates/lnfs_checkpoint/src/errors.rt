//! Why a checkpoint isn't taken.
ghost use Rattle.std.specs.Prelude.{◌≡◌};

use std::alloc::AllocError;
use thiserror::Error;

#[derive(Clone, Copy, Debug, PartialEq, Eq, Error)]
pub enum CheckpointError {
    /// The bytes are no checkpoint: the offset of the first item that isn't there.
    #[error("damaged at {at}")]
    Damaged { at: u64 },
    /// It is of another policy.
    #[error("of another policy")]
    Policy,
    /// No server of the policy has such a state.
    #[error("unfit")]
    Unfit,
    /// There is no memory.
    #[error("out of memory")]
    Memory,
}

impl From<AllocError> for CheckpointError {
    ghost use Rattle.lnfs_checkpoint.specs.declared.errors.CheckpointError.TheVariants.{Memory};

    ghost from_gives = { λ _ e. e ≡ Memory };

    fn from(_error: AllocError) -> CheckpointError {
        CheckpointError::Memory
    }
}
