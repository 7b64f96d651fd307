//! LOCK, LOCKT and LOCKU by their numbers and the bytes of their arguments.
ghost use Rattle.std.specs.Prelude.{◌≡◌, IfOk};
ghost use Rattle.lnfs_xdr.specs.Reading.{read};
ghost use Rattle.lnfs_site.specs.Site.{site_of};
ghost use Rattle.lnfs_operations.specs.declared.Gate.TheVariants.{Argument};
ghost use Rattle.lnfs_operations.specs.Extra.{place_at};
ghost use Rattle.lnfs_engine.specs.Further.{spot_of};
ghost use Rattle.lnfs_locks.specs.Arguments.{lock_args, lockt_args, locku_args};
ghost use Rattle.lnfs_locks.specs.Facts.{LockFacts};
ghost use Rattle.lnfs_locks.specs.Lock as locking;
ghost use Rattle.lnfs_locks.specs.LockT as test;
ghost use Rattle.lnfs_locks.specs.LockU as unlocking;
ghost use Rattle.lnfs_locks.specs.Outcome.{with_arguments, answered};
ghost use Rattle.lnfs_byte_locks.specs.Answers.{Ends};

use crate::answers::refused;
use crate::lock::lock;
use crate::lockt::lockt;
use crate::locku::locku;
use lnfs_arguments::statuses::{NFS4ERR_BADXDR, NFS4ERR_NOTSUPP};
use lnfs_engine::{ExtraRan, Spot, Store};
use lnfs_lock_args::{read_lock, read_lockt, read_locku};
use lnfs_locking::Locks;
use lnfs_locks::numbers::{OP_LOCK, OP_LOCKT, OP_LOCKU};
use lnfs_operations::{Gate, Refusal};
use std::alloc::{AllocError, Global};

/// What refuses arguments that aren't spelled as they should be. They have been measured before, so that it doesn't come up.
fn unreadable() -> Refusal
    ensures { result ≡ record { gate = Argument; status = NFS4ERR_BADXDR } }
{
    Refusal {
        gate: Gate::Argument,
        status: NFS4ERR_BADXDR,
    }
}

/// LOCK by the bytes of its arguments.
fn serve_lock(
    alloc: Global,
    store: &Store,
    locks: &mut Locks,
    at: &Spot<'_>,
    args: &[u8],
) -> Result<ExtraRan, AllocError>
    requires facts { LockFacts store.now locks.old }
    ensures { IfOk result (λ ran. Ends (with_arguments (read lock_args args.now) (λ args.
        (locking.lock (site_of at.now.site.now) args locks.old (place_at (spot_of at.now)) store.now).answer))
        ran locks.old locks.new) }
{
    match read_lock(args) {
        Ok(args) => lock(alloc, store, locks, at, &args),
        Err(_) => Ok(refused(alloc, unreadable())),
    }
}

/// LOCKT by the bytes of its arguments.
fn serve_lockt(
    alloc: Global,
    store: &Store,
    locks: &Locks,
    at: &Spot<'_>,
    args: &[u8],
) -> Result<ExtraRan, AllocError>
    requires facts { LockFacts store.now locks.now }
    ensures { IfOk result (λ ran. Ends (with_arguments (read lockt_args args.now) (λ args.
        (test.lockt (site_of at.now.site.now) args locks.now (place_at (spot_of at.now)) store.now).answer))
        ran locks.now locks.now) }
{
    match read_lockt(args) {
        Ok(args) => lockt(alloc, store, locks, at, &args),
        Err(_) => Ok(refused(alloc, unreadable())),
    }
}

/// LOCKU by the bytes of its arguments.
fn serve_locku(
    alloc: Global,
    store: &Store,
    locks: &mut Locks,
    at: &Spot<'_>,
    args: &[u8],
) -> Result<ExtraRan, AllocError>
    requires facts { LockFacts store.now locks.old }
    ensures { IfOk result (λ ran. Ends (with_arguments (read locku_args args.now) (λ args.
        (unlocking.locku args locks.old (place_at (spot_of at.now)) store.now).answer))
        ran locks.old locks.new) }
{
    match read_locku(args) {
        Ok(args) => locku(alloc, store, locks, at, &args),
        Err(_) => Ok(refused(alloc, unreadable())),
    }
}

/// One of them by its number.
///
/// # Errors
///
/// `AllocError` where there is no memory.
pub fn serve(
    alloc: Global,
    store: &Store,
    locks: &mut Locks,
    at: &Spot<'_>,
    number: u32,
    args: &[u8],
) -> Result<ExtraRan, AllocError>
    requires facts { LockFacts store.now locks.old }
    ensures { IfOk result (λ ran. Ends (answered (site_of at.now.site.now) number args.now locks.old
        (place_at (spot_of at.now)) store.now) ran locks.old locks.new) }
{
    if number == OP_LOCK {
        return serve_lock(alloc, store, locks, at, args);
    }
    if number == OP_LOCKT {
        return serve_lockt(alloc, store, locks, at, args);
    }
    if number == OP_LOCKU {
        return serve_locku(alloc, store, locks, at, args);
    }
    let why = Refusal {
        gate: Gate::Outside,
        status: NFS4ERR_NOTSUPP,
    };
    Ok(refused(alloc, why))
}
