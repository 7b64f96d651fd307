//! New further operations for each vault.
ghost use Rattle.std.specs.Prelude.{◌≡◌, [], IfOk};

use lnfs_engine::{NoExtra, ReadExtra};
use std::alloc::{AllocError, Global};

/// Makes what serves operations beside those of the table, as it is before all events.
pub trait Fresh<X: ReadExtra> {
    /// Something with no rows.
    fn fresh(&self, alloc: Global) -> Result<X, AllocError>
        ensures { IfOk result (λ extra. X.rows extra ≡ []) };
}

impl Fresh<NoExtra> for NoExtra {
    fn fresh(&self, _alloc: Global) -> Result<NoExtra, AllocError> {
        Ok(NoExtra)
    }
}
