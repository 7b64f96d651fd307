//! ALLOCATE (RFC 7862 section 15.1).
ghost use Rattle.std.specs.Prelude.{◌≤◌, IfOk, OnOk};
ghost use Rattle.lnfs_world.specs.declared.numbers.TheConstants.{MOST_FILE};
ghost use Rattle.lnfs_site.specs.Site.{site_of};
ghost use Rattle.lnfs_operations.specs.Extra.{place_at};
ghost use Rattle.lnfs_engine.specs.Further.{spot_of};
ghost use Rattle.lnfs_sparse_ops.specs.Allocate as operation;
ghost use Rattle.lnfs_sparse_ops.specs.Regions.{end_of};
ghost use Rattle.lnfs_sparse_ops.specs.Outcome.{plain};
ghost use Rattle.lnfs_sparse_args.specs.Values.{region_args_of};
ghost use Rattle.lnfs_sparse.specs.Answers.{Ends};
ghost use Rattle.lnfs_sparse.specs.Deciding.{Decides};

use crate::answers::{done, refused};
use crate::files::{check_size, ready_file};
use crate::made::made;
use lnfs_engine::{ExtraRan, Spot, Store};
use lnfs_files::Way;
use lnfs_nodes::Held;
use lnfs_operations::Refusal;
use lnfs_sparse_args::{RegionArgs, check_region};
use std::alloc::{AllocError, Global};

/// The file that may have the region.
///
/// # Errors
///
/// In this order: NFS4ERR_INVAL of the region, the errors of `ready_file`, and those of `check_size`.
fn find_file(store: &Store, at: &Spot<'_>, args: &RegionArgs) -> Result<Held, Refusal>
    ensures decides { Decides (operation.allocate (site_of at.now.site.now) (region_args_of args.now)
        (place_at (spot_of at.now)) store.now) (place_at (spot_of at.now)) store.now
        (λ n. operation.allocated (place_at (spot_of at.now)) n (region_args_of args.now)) result }
    ensures fits { OnOk result (end_of (region_args_of args.now) ≤ MOST_FILE) }
{
    check_region(args)?;
    let held = ready_file(store, at, &args.id, Way::Writing)?;
    check_size(store, at, &held, held.facts.size.max(args.end()))?;
    Ok(held)
}

/// Lets a file have so many bytes as a region asks for: it grows by zeros up to the end of the region, if it ends before.
///
/// # Errors
///
/// `AllocError` where there is no memory.
pub fn allocate(
    alloc: Global,
    store: &mut Store,
    at: &Spot<'_>,
    args: &RegionArgs,
) -> Result<ExtraRan, AllocError>
    ensures { IfOk result (λ ran. Ends (plain (operation.allocate (site_of at.now.site.now)
        (region_args_of args.now) (place_at (spot_of at.now)) store.old)) ran store.old store.new) }
{
    let held = match find_file(store, at, args) {
        Ok(held) => held,
        Err(why) => return Ok(refused(alloc, why)),
    };
    if held.facts.size < args.end() {
        made(store.set_size(held.id, args.end(), at.moment))?;
    }
    Ok(done(alloc))
}
