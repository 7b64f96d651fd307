//! The further operations of each vault that an audit makes.
use lnfs_audit::Fresh;
use lnfs_further::{Further, new_further};
use std::alloc::{AllocError, Global};

/// Makes the further operations of the program's servers, with no rows.
#[derive(Drop)]
pub struct Anew;

impl Fresh<Further> for Anew {
    fn fresh(&self, alloc: Global) -> Result<Further, AllocError> {
        Ok(new_further(alloc))
    }
}
