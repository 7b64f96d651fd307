//! Why there is no script.

ghost use Rattle.std.specs.Prelude.{◌≡◌};
ghost use Rattle.lnfs_script.specs.Script.{error_at};
ghost use Rattle.lnfs_script.specs.declared.error.ScriptError.TheVariants.{Memory as OutOfMemory};
ghost use Rattle.lnfs_script.specs.declared.error.Stop.TheVariants.{Memory as ShortOfMemory};

use std::alloc::{AllocError, AllocFailed};
use thiserror::Error;

/// Why there is no script.
#[derive(Clone, Copy, Debug, PartialEq, Eq, Error)]
pub enum ScriptError {
    /// The first line that is of no listed form, counted from 1.
    #[error("script line {line}")]
    Refused { line: u64 },
    /// There was no memory for the actions.
    #[error("out of memory")]
    Memory,
}

impl From<AllocError> for ScriptError {
    ghost from_gives = { λ _ error. error ≡ OutOfMemory };

    fn from(_error: AllocError) -> ScriptError {
        ScriptError::Memory
    }
}

impl<T: Drop> From<AllocFailed<T>> for ScriptError {
    ghost from_gives = { λ _ error. error ≡ OutOfMemory };

    fn from(_failed: AllocFailed<T>) -> ScriptError {
        ScriptError::Memory
    }
}

/// Why reading stops at a line.
#[derive(Drop)]
pub(crate) enum Stop {
    /// The line is of no listed form.
    Unlisted,
    Memory,
}

impl Stop {
    /// The error where reading stops at a line.
    pub(crate) fn at(self, line: u64) -> ScriptError
        ensures { result ≡ error_at line self }
    {
        match self {
            Stop::Unlisted => ScriptError::Refused { line },
            Stop::Memory => ScriptError::Memory,
        }
    }
}

impl From<AllocError> for Stop {
    ghost from_gives = { λ _ stop. stop ≡ ShortOfMemory };

    fn from(_error: AllocError) -> Stop {
        Stop::Memory
    }
}
