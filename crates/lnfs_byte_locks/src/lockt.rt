//! LOCKT (RFC 8881 section 18.11): it tests for a lock, and needs no open.
ghost use Rattle.std.specs.Prelude.{◌≡◌, IfOk};
ghost use Rattle.lnfs_site.specs.Site.{site_of};
ghost use Rattle.lnfs_operations.specs.Extra.{place_at};
ghost use Rattle.lnfs_engine.specs.Further.{spot_of};
ghost use Rattle.lnfs_locks.specs.Facts.{LockFacts};
ghost use Rattle.lnfs_locks.specs.LockT as operation;
ghost use Rattle.lnfs_lock_args.specs.Values.{lockt_args_of};
ghost use Rattle.lnfs_byte_locks.specs.Answers.{tested_by, CanBeTold, Ends};

use crate::answers::{refused, tested};
use crate::asking::asked_file;
use crate::denials::first_in_way;
use lnfs_arguments::statuses::NFS4ERR_OP_NOT_IN_SESSION;
use lnfs_engine::{ExtraRan, Spot, Store};
use lnfs_lock_args::LockTArgs;
use lnfs_locking::{Denied, Locks};
use lnfs_monitor::Question;
use lnfs_nodes::check_allowed;
use lnfs_operations::{Gate, Refusal};
use std::alloc::{AllocError, Global};

/// The first lock that stands in the way of what is asked for.
///
/// # Errors
///
/// In this order: NFS4ERR_OP_NOT_IN_SESSION without a session; NFS4ERR_INVAL of the type and of the range; NFS4ERR_NOFILEHANDLE,
/// NFS4ERR_STALE, NFS4ERR_ISDIR and NFS4ERR_SYMLINK of the current file handle; NFS4ERR_ACCESS by the rules of labels.
fn in_way<'a>(
    store: &Store,
    locks: &'a Locks,
    at: &Spot<'_>,
    args: &LockTArgs<'_>,
) -> Result<Option<Denied<'a>>, Refusal>
    requires facts { LockFacts store.now locks.now }
    ensures told { IfOk result CanBeTold }
    ensures tested { tested_by result ≡ (operation.lockt (site_of at.now.site.now) (lockt_args_of args.now)
        locks.now (place_at (spot_of at.now)) store.now).answer }
{
    let Some(client) = at.client else {
        return Err(Refusal {
            gate: Gate::Session,
            status: NFS4ERR_OP_NOT_IN_SESSION,
        });
    };
    let held = asked_file(store, at, &args.asked)?;
    let question = Question::Read {
        label: held.facts.label,
    };
    check_allowed(at.site, at.subject, &question)?;
    Ok(first_in_way(store, locks, at, client, args.owner, held.id, &args.asked))
}

/// Tells whether a lock could be taken, and if not, of the first that stands in the way.
///
/// # Errors
///
/// `AllocError` where there is no memory.
pub fn lockt(
    alloc: Global,
    store: &Store,
    locks: &Locks,
    at: &Spot<'_>,
    args: &LockTArgs<'_>,
) -> Result<ExtraRan, AllocError>
    requires facts { LockFacts store.now locks.now }
    ensures { IfOk result (λ ran. Ends (operation.lockt (site_of at.now.site.now) (lockt_args_of args.now)
        locks.now (place_at (spot_of at.now)) store.now).answer ran locks.now locks.now) }
{
    match in_way(store, locks, at, args) {
        Ok(in_way) => tested(alloc, in_way),
        Err(why) => Ok(refused(alloc, why)),
    }
}
