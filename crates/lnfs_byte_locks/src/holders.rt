//! Whose lock is asked for by LOCK: a lock owner under an open, or a lock that is there (RFC 8881 section 18.10.3).
ghost use Rattle.std.specs.Prelude.{◌≡◌, ◌&&◌, ℕ, Some, find, option_map};
ghost use Rattle.std.specs.Str.{bytes_eq};
ghost use Rattle.lnfs_world.specs.World.{Node, same_id};
ghost use Rattle.lnfs_operations.specs.Extra.{place_at};
ghost use Rattle.lnfs_tree.specs.Rows.{id_of};
ghost use Rattle.lnfs_engine.specs.Further.{spot_of};
ghost use Rattle.lnfs_locks.specs.Arguments.{New, Known};
ghost use Rattle.lnfs_locks.specs.Facts.{LockFacts};
ghost use Rattle.lnfs_locks.specs.Locks.{opening_id};
ghost use Rattle.lnfs_lock_args.specs.Values.{locker_of};
ghost use Rattle.lnfs_byte_locks.specs.Naming.{lock_told};
ghost use Rattle.lnfs_byte_locks.specs.Holders.{FindsHolder};

use crate::naming::{Told, lock_named};
use crate::openings::opening_named;
use lnfs_arguments::StateId;
use lnfs_engine::{Spot, Store};
use lnfs_lock_args::Locker;
use lnfs_locking::Locks;
use lnfs_operations::Refusal;
use lnfs_tree::NodeId;

/// A client and a lock owner under an open.
#[derive(Clone, Copy)]
pub struct Holder<'a> {
    /// The number of the open in the subject's level.
    pub opening: u32,
    /// What the open is for.
    pub access: u32,
    /// The opaque name of the lock owner.
    pub owner: &'a [u8],
    /// The lock that they have already.
    pub lock: Option<Told<'a>>,
}

/// What an owner has locked under an open of a level.
fn told_under<'a>(locks: &'a Locks, level: u32, opening: u32, owner: &[u8]) -> Option<Told<'a>>
    ensures { option_map lock_told result ≡ find
        (λ l. same_id (record { level = level; number = opening }) (opening_id l)
        && bytes_eq l.owner owner.now) locks.now.locks }
{
    let (id, row) = locks.under(level, opening, owner)?;
    Some(Told { id, row })
}

/// A lock owner under the open that a state id names, with the lock that they have there.
///
/// # Errors
///
/// Those of `opening_named`.
fn new_holder<'a>(
    store: &'a Store,
    locks: &'a Locks,
    at: &Spot<'_>,
    node: NodeId,
    opening: &StateId,
    owner: &'a [u8],
) -> Result<Holder<'a>, Refusal>
    requires facts { LockFacts store.now locks.now }
    ensures { (client : ℕ) (n : Node) → at.now.client ≡ Some client → id_of node ≡ n.id →
        FindsHolder locks.now (place_at (spot_of at.now)) store.now client n
        (New opening.now owner.now) result }
{
    let opened = opening_named(store, at, node, opening)?;
    let lock = told_under(locks, at.subject.0, opened.number, owner);
    Ok(Holder {
        opening: opened.number,
        access: opened.row.access,
        owner,
        lock,
    })
}

/// The owner of the lock that a state id names.
///
/// # Errors
///
/// Those of `lock_named`.
fn known_holder<'a>(
    store: &'a Store,
    locks: &'a Locks,
    at: &Spot<'_>,
    node: NodeId,
    lock: &StateId,
) -> Result<Holder<'a>, Refusal>
    requires facts { LockFacts store.now locks.now }
    ensures { (client : ℕ) (n : Node) → at.now.client ≡ Some client → id_of node ≡ n.id →
        FindsHolder locks.now (place_at (spot_of at.now)) store.now client n
        (Known lock.now) result }
{
    let named = lock_named(store, locks, at, node, lock)?;
    Ok(Holder {
        opening: named.row.opening,
        access: named.opening.access,
        owner: named.row.owner.as_slice(),
        lock: Some(Told {
            id: named.id,
            row: named.row,
        }),
    })
}

/// Whose lock is asked for, under which open, and what they have locked there of a node.
///
/// # Errors
///
/// Of a new lock owner, NFS4ERR_BAD_STATEID and NFS4ERR_OLD_STATEID of the open's state id; else of the lock's.
pub fn holder_of<'a>(
    store: &'a Store,
    locks: &'a Locks,
    at: &Spot<'_>,
    node: NodeId,
    locker: &Locker<'a>,
) -> Result<Holder<'a>, Refusal>
    requires facts { LockFacts store.now locks.now }
    ensures { (client : ℕ) (n : Node) → at.now.client ≡ Some client → id_of node ≡ n.id →
        FindsHolder locks.now (place_at (spot_of at.now)) store.now client n
        (locker_of locker.now) result }
{
    match locker {
        Locker::New { opening, owner } => new_holder(store, locks, at, node, opening, *owner),
        Locker::Known { lock } => known_holder(store, locks, at, node, lock),
    }
}
