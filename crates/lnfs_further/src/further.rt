//! The further operations of the program's servers.
ghost use Rattle.std.specs.Prelude.{◌≡◌, []};
ghost use Rattle.lnfs_further.specs.Further.{further_rows};

use lnfs_byte_locks::Ranges;
use lnfs_locking::Locks;
use lnfs_sides::Beside;
use lnfs_sparse::Sparse;
use std::alloc::Global;

/// What serves the further operations: LOCK, LOCKT and LOCKU, and beside them ALLOCATE, DEALLOCATE, SEEK and CLONE.
pub type Further = Beside<Ranges, Sparse>;

/// What serves them, with no rows. Takes no memory.
pub fn new_further(alloc: Global) -> Further
    ensures value { result.first ≡ record { lasts = []; locks = [] } }
    ensures rows { further_rows result.first ≡ [] }
{
    Beside::new(Ranges::new(alloc), Sparse)
}

/// What serves them, with locks that are kept already. Takes no memory.
pub fn with_locks(locks: Locks) -> Further
    ensures { result.first ≡ locks }
{
    Beside::new(Ranges::from_locks(locks), Sparse)
}
