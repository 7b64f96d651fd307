//! The bytes that a CLONE copies.
ghost use Rattle.std.specs.Prelude.{◌≡◌, OnOk};
ghost use Rattle.lnfs_world.specs.World.{Node};
ghost use Rattle.lnfs_world.specs.Change.{apply_all};
ghost use Rattle.lnfs_operations.specs.Extra.{place_at};
ghost use Rattle.lnfs_engine.specs.Further.{spot_of};
ghost use Rattle.lnfs_sparse_args.specs.Values.{clone_args_of};
ghost use Rattle.lnfs_sparse.specs.Cloning.{AreHeld, MayBeCopied, copied};

use crate::clone::Files;
use crate::made::made;
use crate::ranges::count_of;
use lnfs_engine::{Spot, Store};
use lnfs_sparse_args::CloneArgs;
use std::alloc::{AllocError, Global};

/// Writes the range of the source to the target, which may be the same file.
///
/// # Errors
///
/// `AllocError` where there is no memory.
pub fn copy_range(
    alloc: Global,
    store: &mut Store,
    at: &Spot<'_>,
    files: &Files,
    args: &CloneArgs,
) -> Result<(), AllocError>
    requires { MayBeCopied (clone_args_of args.now) store.old files.now }
    ensures { OnOk result ((s t : Node) → AreHeld store.old s t files.now →
        store.new ≡ apply_all (copied (place_at (spot_of at.now)) (clone_args_of args.now) s t) store.old) }
{
    let Files { source, target } = *files;
    let count = count_of(args, source.facts.size);
    let told = if source.id == target.id {
        store.copy_within(alloc, target.id, args.from, args.to, count, at.moment)
    } else {
        store.copy(
            alloc, source.id, target.id, args.from, args.to, count, at.moment,
        )
    };
    made(told)
}
