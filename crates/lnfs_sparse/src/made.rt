//! What a call that sets data answers where all tests have passed before.
ghost use Rattle.std.specs.Prelude.{◌≡◌, Ok, OnOk};
ghost use Rattle.lnfs_sparse.specs.Made.{IsMade};

use lnfs_tree::TreeError;
use std::alloc::AllocError;

/// Whether the data has been set.
///
/// # Errors
///
/// `AllocError` where there is no memory.
pub fn made(told: Result<(), TreeError>) -> Result<(), AllocError>
    requires { IsMade told }
    ensures { OnOk result (told ≡ Ok tt) }
{
    match told {
        Ok(()) => Ok(()),
        Err(TreeError::Memory) => Err(AllocError),
        Err(_) => unreachable!(),
    }
}
