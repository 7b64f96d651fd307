//! What LOCK asks for, behind the tests before that for locks of others.
ghost use Rattle.lnfs_site.specs.Site.{site_of};
ghost use Rattle.lnfs_operations.specs.Extra.{place_at};
ghost use Rattle.lnfs_engine.specs.Further.{spot_of};
ghost use Rattle.lnfs_locks.specs.Facts.{LockFacts};
ghost use Rattle.lnfs_lock_args.specs.Values.{lock_args_of};
ghost use Rattle.lnfs_byte_locks.specs.Asks.{FindsTarget, FindsAsks};

use crate::asking::asked_file;
use crate::holders::{Holder, holder_of};
use lnfs_arguments::statuses::{NFS4ERR_OP_NOT_IN_SESSION, NFS4ERR_OPENMODE};
use lnfs_engine::{Spot, Store};
use lnfs_lock_args::LockArgs;
use lnfs_locking::Locks;
use lnfs_locks::numbers::NFS4ERR_NO_GRACE;
use lnfs_monitor::Question;
use lnfs_nodes::check_allowed;
use lnfs_operations::{Gate, Refusal};
use lnfs_tree::NodeId;

/// A client, a number of the subject's level, and the file of which it asks to lock a range.
#[derive(Clone, Copy)]
pub struct Target {
    pub client: u32,
    pub node: NodeId,
}

/// Who asks to lock a range of which file.
#[derive(Clone, Copy)]
pub struct Asks<'a> {
    pub client: u32,
    pub node: NodeId,
    pub holder: Holder<'a>,
}

/// The client and the file that it may lock.
///
/// # Errors
///
/// In this order: NFS4ERR_OP_NOT_IN_SESSION without a session; NFS4ERR_INVAL of the type and of the range; NFS4ERR_NOFILEHANDLE,
/// NFS4ERR_STALE, NFS4ERR_ISDIR and NFS4ERR_SYMLINK of the current file handle; NFS4ERR_NO_GRACE where a lock is to be
/// reclaimed; NFS4ERR_ACCESS by the rules of labels.
fn find_target(store: &Store, at: &Spot<'_>, args: &LockArgs<'_>) -> Result<Target, Refusal>
    ensures { FindsTarget (site_of at.now.site.now) (lock_args_of args.now)
        (place_at (spot_of at.now)) store.now result }
{
    let Some(client) = at.client else {
        return Err(Refusal {
            gate: Gate::Session,
            status: NFS4ERR_OP_NOT_IN_SESSION,
        });
    };
    let held = asked_file(store, at, &args.asked)?;
    if args.reclaim {
        return Err(Refusal {
            gate: Gate::Open,
            status: NFS4ERR_NO_GRACE,
        });
    }
    let question = Question::Deny {
        label: held.facts.label,
    };
    check_allowed(at.site, at.subject, &question)?;
    Ok(Target {
        client,
        node: held.id,
    })
}

/// Who asks to lock a range of which file, and what they have locked of it.
///
/// # Errors
///
/// Those of the file, then those of the open or of the lock, and then NFS4ERR_OPENMODE where the open isn't for such a lock.
pub fn find_asks<'a>(
    store: &'a Store,
    locks: &'a Locks,
    at: &Spot<'_>,
    args: &LockArgs<'a>,
) -> Result<Asks<'a>, Refusal>
    requires facts { LockFacts store.now locks.now }
    ensures { FindsAsks (site_of at.now.site.now) (lock_args_of args.now) locks.now
        (place_at (spot_of at.now)) store.now result }
{
    let target = find_target(store, at, args)?;
    let holder = holder_of(store, locks, at, target.node, &args.locker)?;
    if holder.access & args.asked.access() == 0 {
        return Err(Refusal {
            gate: Gate::Open,
            status: NFS4ERR_OPENMODE,
        });
    }
    Ok(Asks {
        client: target.client,
        node: target.node,
        holder,
    })
}
