//! DEALLOCATE (RFC 7862 section 15.4).
ghost use Rattle.std.specs.Prelude.{IfOk};
ghost use Rattle.lnfs_site.specs.Site.{site_of};
ghost use Rattle.lnfs_operations.specs.Extra.{place_at};
ghost use Rattle.lnfs_engine.specs.Further.{spot_of};
ghost use Rattle.lnfs_sparse_ops.specs.Deallocate as operation;
ghost use Rattle.lnfs_sparse_ops.specs.Outcome.{plain};
ghost use Rattle.lnfs_sparse_args.specs.Values.{region_args_of};
ghost use Rattle.lnfs_sparse.specs.Answers.{Ends};
ghost use Rattle.lnfs_sparse.specs.Deciding.{Decides};

use crate::answers::{done, refused};
use crate::files::ready_file;
use crate::made::made;
use lnfs_engine::{ExtraRan, Spot, Store};
use lnfs_files::Way;
use lnfs_nodes::Held;
use lnfs_operations::Refusal;
use lnfs_sparse_args::{RegionArgs, check_region};
use std::alloc::{AllocError, Global};

/// The file of which a region may be cleared.
///
/// # Errors
///
/// In this order: NFS4ERR_INVAL of the region, and the errors of `ready_file`.
fn find_file(store: &Store, at: &Spot<'_>, args: &RegionArgs) -> Result<Held, Refusal>
    ensures { Decides (operation.deallocate (site_of at.now.site.now) (region_args_of args.now)
        (place_at (spot_of at.now)) store.now) (place_at (spot_of at.now)) store.now
        (λ n. operation.deallocated (place_at (spot_of at.now)) n (region_args_of args.now)) result }
{
    check_region(args)?;
    ready_file(store, at, &args.id, Way::Writing)
}

/// Clears the bytes of a region of a file. Its size stays.
///
/// # Errors
///
/// `AllocError` where there is no memory.
pub fn deallocate(
    alloc: Global,
    store: &mut Store,
    at: &Spot<'_>,
    args: &RegionArgs,
) -> Result<ExtraRan, AllocError>
    ensures { IfOk result (λ ran. Ends (plain (operation.deallocate (site_of at.now.site.now)
        (region_args_of args.now) (place_at (spot_of at.now)) store.old)) ran store.old store.new) }
{
    let held = match find_file(store, at, args) {
        Ok(held) => held,
        Err(why) => return Ok(refused(alloc, why)),
    };
    made(store.zero(alloc, held.id, args.offset, args.end(), at.moment))?;
    Ok(done(alloc))
}
