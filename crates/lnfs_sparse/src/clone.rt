//! CLONE (RFC 7862 section 15.13): what is tested of it, and what it does.
ghost use Rattle.std.specs.Prelude.{◌≡◌, IfOk, OnOk};
ghost use Rattle.lnfs_world.specs.World.{Node};
ghost use Rattle.lnfs_site.specs.Site.{site_of};
ghost use Rattle.lnfs_operations.specs.Extra.{place_at};
ghost use Rattle.lnfs_nodes.specs.Acts.{failed};
ghost use Rattle.lnfs_files.specs.Tests.{passed, refusal_in};
ghost use Rattle.lnfs_engine.specs.Further.{spot_of};
ghost use Rattle.lnfs_sparse_ops.specs.Clone as operation;
ghost use Rattle.lnfs_sparse_ops.specs.Outcome.{plain};
ghost use Rattle.lnfs_sparse_args.specs.Values.{clone_args_of};
ghost use Rattle.lnfs_sparse.specs.Answers.{Ends};
ghost use Rattle.lnfs_sparse.specs.Deciding.{IsFileHeld};
ghost use Rattle.lnfs_sparse.specs.Cloning.{where_files, where_open_files, where_copied, AreHeld, LeadsTo, MayCopy, Clones};

use crate::access::set_read;
use crate::answers::{done, refused};
use crate::copying::copy_range;
use crate::files::{check_ordinary, check_rules, check_size, check_state};
use crate::ranges::{count_of, is_within, lie_apart, size_after};
use lnfs_arguments::statuses::{NFS4ERR_FBIG, NFS4ERR_INVAL};
use lnfs_engine::{ExtraRan, Spot, Store};
use lnfs_files::Way;
use lnfs_nodes::{Held, namespace, node_held};
use lnfs_operations::Refusal;
use lnfs_sparse_args::{CloneArgs, check_ranges};
use std::alloc::{AllocError, Global};

/// The file that is read, and the one that is written, which may be the same.
#[derive(Clone, Copy)]
pub struct Files {
    pub source: Held,
    pub target: Held,
}

/// The files of the saved and of the current file handle.
///
/// # Errors
///
/// In this order: NFS4ERR_NOFILEHANDLE and NFS4ERR_STALE of the saved and of the current file handle, and NFS4ERR_WRONG_TYPE where
/// the one or the other is no ordinary file.
fn held_files(store: &Store, at: &Spot<'_>) -> Result<Files, Refusal>
    ensures { LeadsTo (where_files (place_at (spot_of at.now)) store.now)
        (place_at (spot_of at.now)) store.now result }
{
    let source = node_held(store.tree(), at.saved)?;
    let target = node_held(store.tree(), at.current)?;
    check_ordinary(&source)?;
    check_ordinary(&target)?;
    Ok(Files { source, target })
}

/// The files, where the one may be read and the other be written.
///
/// # Errors
///
/// Those of `held_files`, then NFS4ERR_ACCESS by the rules of labels of the source and of the target, and then those of their
/// state ids.
fn open_files(store: &Store, at: &Spot<'_>, args: &CloneArgs) -> Result<Files, Refusal>
    ensures { LeadsTo (where_open_files (site_of at.now.site.now) (clone_args_of args.now)
        (place_at (spot_of at.now)) store.now) (place_at (spot_of at.now)) store.now result }
{
    let files = held_files(store, at)?;
    check_rules(at, &files.source, Way::Reading)?;
    check_rules(at, &files.target, Way::Writing)?;
    check_state(store, at, &files.source, &args.source, Way::Reading)?;
    check_state(store, at, &files.target, &args.target, Way::Writing)?;
    Ok(files)
}

/// What refuses the ranges.
///
/// # Errors
///
/// In this order: NFS4ERR_INVAL where the source ends before its range, and where both are ranges of one file that have a byte
/// in common; NFS4ERR_FBIG and NFS4ERR_DQUOT of the target's size.
fn check_copied(
    store: &Store,
    at: &Spot<'_>,
    files: &Files,
    args: &CloneArgs,
) -> Result<(), Refusal>
    requires source { IsFileHeld store.now files.now.source }
    requires target { IsFileHeld store.now files.now.target }
    ensures refused { (s t : Node) → AreHeld store.now s t files.now → failed result ≡ refusal_in
        (where_copied (site_of at.now.site.now) (clone_args_of args.now)
        (place_at (spot_of at.now)) store.now s t (passed (place_at (spot_of at.now)))) }
    ensures may { OnOk result ((s t : Node) → AreHeld store.now s t files.now →
        MayCopy (clone_args_of args.now) s t) }
{
    let size = files.source.facts.size;
    if !is_within(args, size) {
        return Err(namespace(NFS4ERR_INVAL));
    }
    let count = count_of(args, size);
    if files.source.id == files.target.id && !lie_apart(args.from, args.to, count) {
        return Err(namespace(NFS4ERR_INVAL));
    }
    match size_after(files.target.facts.size, args.to, count) {
        Some(size) => check_size(store, at, &files.target, size),
        None => Err(namespace(NFS4ERR_FBIG)),
    }
}

/// The files of which a range may be copied from the one to the other.
///
/// # Errors
///
/// In this order: NFS4ERR_INVAL of ranges that go past the last offset, the errors of `open_files`, and those of `check_copied`.
fn find_files(store: &Store, at: &Spot<'_>, args: &CloneArgs) -> Result<Files, Refusal>
    ensures { Clones (site_of at.now.site.now) (clone_args_of args.now)
        (place_at (spot_of at.now)) store.now result }
{
    check_ranges(args)?;
    let files = open_files(store, at, args)?;
    check_copied(store, at, &files, args)?;
    Ok(files)
}

/// Writes bytes of the saved file to the current one.
///
/// # Errors
///
/// `AllocError` where there is no memory.
pub fn clone(
    alloc: Global,
    store: &mut Store,
    at: &Spot<'_>,
    args: &CloneArgs,
) -> Result<ExtraRan, AllocError>
    ensures { IfOk result (λ ran. Ends (plain (operation.clone (site_of at.now.site.now)
        (clone_args_of args.now) (place_at (spot_of at.now)) store.old)) ran store.old store.new) }
{
    let files = match find_files(store, at, args) {
        Ok(files) => files,
        Err(why) => return Ok(refused(alloc, why)),
    };
    copy_range(alloc, store, at, &files, args)?;
    set_read(store, at, files.source.id, files.source.facts.label);
    Ok(done(alloc))
}
