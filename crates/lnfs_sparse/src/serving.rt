//! ALLOCATE, DEALLOCATE, SEEK and CLONE by their numbers and the bytes of their arguments.
ghost use Rattle.std.specs.Prelude.{◌≡◌, IfOk};
ghost use Rattle.lnfs_xdr.specs.Reading.{read};
ghost use Rattle.lnfs_site.specs.Site.{site_of};
ghost use Rattle.lnfs_operations.specs.Extra.{place_at};
ghost use Rattle.lnfs_operations.specs.declared.Gate.TheVariants.{Argument};
ghost use Rattle.lnfs_engine.specs.Further.{spot_of};
ghost use Rattle.lnfs_sparse_ops.specs.Arguments.{region_args, seek_args, clone_args};
ghost use Rattle.lnfs_sparse_ops.specs.Allocate as allocating;
ghost use Rattle.lnfs_sparse_ops.specs.Deallocate as clearing;
ghost use Rattle.lnfs_sparse_ops.specs.Seek as seeking;
ghost use Rattle.lnfs_sparse_ops.specs.Clone as cloning;
ghost use Rattle.lnfs_sparse_ops.specs.Outcome.{with_arguments, plain, told, answered};
ghost use Rattle.lnfs_sparse.specs.Answers.{Ends};

use crate::allocate::allocate;
use crate::answers::refused;
use crate::clone::clone;
use crate::deallocate::deallocate;
use crate::seek::seek;
use lnfs_arguments::statuses::{NFS4ERR_BADXDR, NFS4ERR_NOTSUPP};
use lnfs_engine::{ExtraRan, Spot, Store};
use lnfs_operations::{Gate, Refusal};
use lnfs_sparse_args::{read_clone, read_region, read_seek};
use lnfs_sparse_ops::numbers::{OP_ALLOCATE, OP_CLONE, OP_DEALLOCATE, OP_SEEK};
use std::alloc::{AllocError, Global};

/// What refuses arguments that aren't spelled as they should be. They have been measured before, so that it doesn't come up.
fn unreadable() -> Refusal
    ensures { result ≡ record { gate = Argument; status = NFS4ERR_BADXDR } }
{
    Refusal {
        gate: Gate::Argument,
        status: NFS4ERR_BADXDR,
    }
}

/// ALLOCATE by the bytes of its arguments.
fn serve_allocate(
    alloc: Global,
    store: &mut Store,
    at: &Spot<'_>,
    args: &[u8],
) -> Result<ExtraRan, AllocError>
    ensures { IfOk result (λ ran. Ends (with_arguments (place_at (spot_of at.now)) (read region_args args.now) (λ args.
        plain (allocating.allocate (site_of at.now.site.now) args (place_at (spot_of at.now)) store.old))) ran store.old
        store.new) }
{
    match read_region(args) {
        Ok(args) => allocate(alloc, store, at, &args),
        Err(_) => Ok(refused(alloc, unreadable())),
    }
}

/// DEALLOCATE by the bytes of its arguments.
fn serve_deallocate(
    alloc: Global,
    store: &mut Store,
    at: &Spot<'_>,
    args: &[u8],
) -> Result<ExtraRan, AllocError>
    ensures { IfOk result (λ ran. Ends (with_arguments (place_at (spot_of at.now)) (read region_args args.now) (λ args.
        plain (clearing.deallocate (site_of at.now.site.now) args (place_at (spot_of at.now)) store.old))) ran store.old
        store.new) }
{
    match read_region(args) {
        Ok(args) => deallocate(alloc, store, at, &args),
        Err(_) => Ok(refused(alloc, unreadable())),
    }
}

/// SEEK by the bytes of its arguments.
fn serve_seek(
    alloc: Global,
    store: &mut Store,
    at: &Spot<'_>,
    args: &[u8],
) -> Result<ExtraRan, AllocError>
    ensures { IfOk result (λ ran. Ends (with_arguments (place_at (spot_of at.now)) (read seek_args args.now) (λ args.
        told seeking.seek_text (seeking.seek (site_of at.now.site.now) args (place_at (spot_of at.now)) store.old))) ran
        store.old store.new) }
{
    match read_seek(args) {
        Ok(args) => seek(alloc, store, at, &args),
        Err(_) => Ok(refused(alloc, unreadable())),
    }
}

/// CLONE by the bytes of its arguments.
fn serve_clone(
    alloc: Global,
    store: &mut Store,
    at: &Spot<'_>,
    args: &[u8],
) -> Result<ExtraRan, AllocError>
    ensures { IfOk result (λ ran. Ends (with_arguments (place_at (spot_of at.now)) (read clone_args args.now) (λ args.
        plain (cloning.clone (site_of at.now.site.now) args (place_at (spot_of at.now)) store.old))) ran store.old
        store.new) }
{
    match read_clone(args) {
        Ok(args) => clone(alloc, store, at, &args),
        Err(_) => Ok(refused(alloc, unreadable())),
    }
}

/// One of them by its number.
///
/// # Errors
///
/// `AllocError` where there is no memory.
pub fn serve(
    alloc: Global,
    store: &mut Store,
    at: &Spot<'_>,
    number: u32,
    args: &[u8],
) -> Result<ExtraRan, AllocError>
    ensures { IfOk result (λ ran. Ends (answered (site_of at.now.site.now) number args.now
        (place_at (spot_of at.now)) store.old) ran store.old store.new) }
{
    if number == OP_ALLOCATE {
        return serve_allocate(alloc, store, at, args);
    }
    if number == OP_DEALLOCATE {
        return serve_deallocate(alloc, store, at, args);
    }
    if number == OP_SEEK {
        return serve_seek(alloc, store, at, args);
    }
    if number == OP_CLONE {
        return serve_clone(alloc, store, at, args);
    }
    let why = Refusal {
        gate: Gate::Outside,
        status: NFS4ERR_NOTSUPP,
    };
    Ok(refused(alloc, why))
}
