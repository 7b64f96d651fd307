//! What is tested of a range and of the current file, whichever operation on locks asks.
ghost use Rattle.lnfs_operations.specs.Extra.{place_at};
ghost use Rattle.lnfs_engine.specs.Further.{spot_of};
ghost use Rattle.lnfs_lock_args.specs.Values.{asked_of};
ghost use Rattle.lnfs_byte_locks.specs.Files.{LeadsToFile};

use lnfs_engine::{Spot, Store};
use lnfs_files::check_file;
use lnfs_lock_args::{Asked, check_range};
use lnfs_nodes::{Held, node_held};
use lnfs_operations::Refusal;

/// The current file, where the range that is asked for is one (RFC 8881 section 18.10.3).
///
/// # Errors
///
/// In this order: NFS4ERR_INVAL of the type and of the range, NFS4ERR_NOFILEHANDLE and NFS4ERR_STALE of the current file handle,
/// and NFS4ERR_ISDIR and NFS4ERR_SYMLINK where it is no file.
pub fn asked_file(store: &Store, at: &Spot<'_>, asked: &Asked) -> Result<Held, Refusal>
    ensures { LeadsToFile (place_at (spot_of at.now)) store.now (asked_of asked.now) result }
{
    check_range(asked)?;
    let held = node_held(store.tree(), at.current)?;
    check_file(&held)?;
    Ok(held)
}
