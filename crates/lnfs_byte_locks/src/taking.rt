//! The lock that LOCK takes, in its new state.
ghost use Rattle.std.specs.Prelude.{◌≡◌, true, false, Some, nat_le, IfSome, IfNone, IfOk};
ghost use Rattle.lnfs_world.specs.Opens.{sequence_after};
ghost use Rattle.lnfs_world.specs.World.{Node};
ghost use Rattle.lnfs_operations.specs.Extra.{place_at};
ghost use Rattle.lnfs_tree.specs.Rows.{id_of as node_of};
ghost use Rattle.lnfs_engine.specs.Further.{spot_of};
ghost use Rattle.lnfs_ranges.specs.Modes.{set};
ghost use Rattle.lnfs_locks.specs.Ranges.{is_range, for_write, last_asked};
ghost use Rattle.lnfs_locks.specs.Facts.{LockFacts};
ghost use Rattle.lnfs_locking.specs.Keys.{id_of};
ghost use Rattle.lnfs_lock_args.specs.Values.{asked_of};
ghost use Rattle.lnfs_byte_locks.specs.Holders.{lock_held, id_by, sequence_by, ranges_by, opening_by, IsLockOf};
ghost use Rattle.lnfs_byte_locks.specs.Taking.{MayTake};

use crate::asks::Asks;
use crate::denials::wanted_by;
use crate::holders::Holder;
use crate::limits::has_room;
use crate::naming::Told;
use crate::states::sequence_after;
use lnfs_engine::{Spot, Store};
use lnfs_files::node_key;
use lnfs_lock_args::Asked;
use lnfs_locking::{Key, Locks, Wanted};
use lnfs_open::{ClientKey, NodeKey};
use lnfs_ranges::RangeList;
use lnfs_types::Octets;
use lnfs_world::numbers::LAST_NUMBER;
use std::alloc::{AllocError, Global};

/// Whose lock is taken, of which file, and in which state.
#[derive(Debug, Drop)]
pub struct Taken {
    pub client: ClientKey,
    pub node: NodeKey,
    /// The opaque name of the lock owner.
    pub owner: Octets,
    /// The number of the open in the client's level, of a lock that comes.
    pub opening: Option<u32>,
    pub id: Key,
    pub seq: u32,
    /// What is asked for.
    pub wanted: Wanted,
}

/// A lock that is taken, and the ranges that it gets.
#[derive(Debug, Drop)]
pub struct Taking {
    pub taken: Taken,
    pub ranges: RangeList,
}

/// The identifier of a lock, or that which a new one of a level gets, where there is a number left for it.
fn key_of(lock: &Option<Told<'_>>, locks: &Locks, level: u32) -> Option<Key>
    ensures some { IfSome result (λ id. id_of id ≡ id_by locks.now level lock.now) }
    ensures none { IfNone result (nat_le (id_by locks.now level lock.now).number LAST_NUMBER ≡ false) }
{
    if let Some(told) = lock {
        return Some(told.id);
    }
    let last = locks.last(level);
    if last == LAST_NUMBER {
        return None;
    }
    Some(Key {
        level,
        number: last + 1,
    })
}

/// The sequence of a lock. One that comes has none yet.
fn sequence_of(lock: &Option<Told<'_>>) -> u32
    ensures { result ≡ sequence_by lock.now }
{
    match lock {
        Some(told) => told.row.seq,
        None => 0,
    }
}

/// The number of the open of a lock that comes.
fn opening_of(holder: &Holder<'_>) -> Option<u32>
    ensures { result ≡ opening_by holder.now holder.now.lock }
{
    match holder.lock {
        Some(_) => None,
        None => Some(holder.opening),
    }
}

/// The ranges of a lock with what is asked for.
fn ranges_with(
    alloc: Global,
    lock: &Option<Told<'_>>,
    asked: &Asked,
) -> Result<RangeList, AllocError>
    requires range { is_range (asked_of asked.now) ≡ true }
    ensures { IfOk result (λ ranges. ranges ≡ set (ranges_by lock.now) asked.now.offset
        (last_asked (asked_of asked.now)) (Some (for_write (asked_of asked.now)))) }
{
    let (first, last) = (asked.offset, asked.last());
    let mode = Some(asked.for_write());
    match lock {
        Some(told) => told.row.ranges.with(first, last, mode),
        None => RangeList::new(alloc).with(first, last, mode),
    }
}

/// The lock with what is asked for, one sequence later (RFC 8881 section 9.2), if the limits of the level allow it.
///
/// # Errors
///
/// `AllocError` where there is no memory.
pub fn taking_of(
    alloc: Global,
    store: &Store,
    locks: &Locks,
    at: &Spot<'_>,
    asks: &Asks<'_>,
    asked: &Asked,
) -> Result<Option<Taking>, AllocError>
    requires facts { LockFacts store.now locks.now }
    requires range { is_range (asked_of asked.now) ≡ true }
    ensures { IfOk result (λ taking. (n : Node) → node_of asks.now.node ≡ n.id →
        let p = place_at (spot_of at.now) in
        IsLockOf locks.now p store.now asks.now.client n asks.now.holder →
        MayTake (asked_of asked.now) locks.now p store.now asks.now.client n
        (lock_held locks.now p asks.now.client n asks.now.holder) taking) }
{
    let lock = &asks.holder.lock;
    let Some(id) = key_of(lock, locks, at.subject.0) else {
        return Ok(None);
    };
    let ranges = ranges_with(alloc, lock, asked)?;
    if !has_room(store, locks, id, ranges.len()) {
        return Ok(None);
    }
    let taken = Taken {
        client: ClientKey {
            level: at.subject,
            number: asks.client,
        },
        node: node_key(asks.node),
        owner: Octets::from_slice(alloc, asks.holder.owner)?,
        opening: opening_of(&asks.holder),
        id,
        seq: sequence_after(sequence_of(lock)),
        wanted: wanted_by(asked),
    };
    Ok(Some(Taking { taken, ranges }))
}
