//! LOCKU (RFC 8881 section 18.12): no lock is left in a range.
ghost use Rattle.std.specs.Prelude.{IfOk};
ghost use Rattle.lnfs_operations.specs.Extra.{place_at};
ghost use Rattle.lnfs_engine.specs.Further.{spot_of};
ghost use Rattle.lnfs_locks.specs.Facts.{LockFacts};
ghost use Rattle.lnfs_locks.specs.LockU as operation;
ghost use Rattle.lnfs_lock_args.specs.Values.{locku_args_of};
ghost use Rattle.lnfs_byte_locks.specs.Answers.{Ends};
ghost use Rattle.lnfs_byte_locks.specs.Unlocking.{FindsAsked, Unlocks};

use crate::answers::refused;
use crate::asking::asked_file;
use crate::limits::has_room;
use crate::naming::{Named, lock_named};
use crate::standing::Dead;
use crate::states::{sequence_after, state_text};
use lnfs_arguments::statuses::NFS4ERR_NOSPC;
use lnfs_engine::{ExtraRan, Spot, Store};
use lnfs_lock_args::LockUArgs;
use lnfs_locking::{Key, Locks};
use lnfs_operations::{Gate, Refusal};
use lnfs_ranges::RangeList;
use std::alloc::{AllocError, Global};

/// A lock in its new state.
#[derive(Drop)]
pub struct Unlocked {
    pub id: Key,
    pub seq: u32,
    pub ranges: RangeList,
}

/// The lock of the current file that is to be changed.
///
/// # Errors
///
/// In this order: NFS4ERR_INVAL of the type and of the range; NFS4ERR_NOFILEHANDLE, NFS4ERR_STALE, NFS4ERR_ISDIR and
/// NFS4ERR_SYMLINK of the current file handle; NFS4ERR_BAD_STATEID and NFS4ERR_OLD_STATEID of the state id.
fn lock_asked<'a>(
    store: &'a Store,
    locks: &'a Locks,
    at: &Spot<'_>,
    args: &LockUArgs,
) -> Result<Named<'a>, Refusal>
    requires facts { LockFacts store.now locks.now }
    ensures { FindsAsked (locku_args_of args.now) locks.now (place_at (spot_of at.now)) store.now result }
{
    let held = asked_file(store, at, &args.asked)?;
    lock_named(store, locks, at, held.id, &args.lock)
}

/// The lock without what is asked for. A range in the middle makes two of one, for which there may be no room.
///
/// # Errors
///
/// Those of the lock, and then NFS4ERR_NOSPC where the level would have too many ranges. `AllocError` where there is no memory.
fn lock_after(
    store: &Store,
    locks: &Locks,
    at: &Spot<'_>,
    args: &LockUArgs,
) -> Result<Result<Unlocked, Refusal>, AllocError>
    requires facts { LockFacts store.now locks.now }
    ensures { IfOk result (λ r. Unlocks (locku_args_of args.now) locks.now (place_at (spot_of at.now)) store.now r) }
{
    let named = match lock_asked(store, locks, at, args) {
        Ok(named) => named,
        Err(why) => return Ok(Err(why)),
    };
    let ranges = named
        .row
        .ranges
        .with(args.asked.offset, args.asked.last(), None)?;
    if !has_room(store, locks, named.id, ranges.len()) {
        return Ok(Err(Refusal {
            gate: Gate::Quota,
            status: NFS4ERR_NOSPC,
        }));
    }
    Ok(Ok(Unlocked {
        id: named.id,
        seq: sequence_after(named.row.seq),
        ranges,
    }))
}

/// Unlocks a range of a lock, and drops the locks of the subject's level whose opens have ended.
///
/// # Errors
///
/// `AllocError` where there is no memory.
pub fn locku(
    alloc: Global,
    store: &Store,
    locks: &mut Locks,
    at: &Spot<'_>,
    args: &LockUArgs,
) -> Result<ExtraRan, AllocError>
    requires facts { LockFacts store.now locks.old }
    ensures { IfOk result (λ ran. Ends (operation.locku (locku_args_of args.now) locks.old
        (place_at (spot_of at.now)) store.now).answer ran locks.old locks.new) }
{
    let unlocked = match lock_after(store, locks, at, args)? {
        Ok(unlocked) => unlocked,
        Err(why) => return Ok(refused(alloc, why)),
    };
    let bytes = state_text(alloc, unlocked.id, unlocked.seq)?;
    let dead = Dead {
        opens: store.opens(),
    };
    locks.change(unlocked.id, unlocked.seq, unlocked.ranges, &dead);
    Ok(ExtraRan {
        refusal: None,
        bytes,
    })
}
