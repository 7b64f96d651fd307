//! The lock that a state id names (RFC 8881 section 8.2).
//!
//! Its level is told as that of an open, and its number above those of all opens, so that no state id is of an open and of a
//! lock.
ghost use Rattle.std.specs.Prelude.{◌≡◌, ◌≤◌, IfSome, IfNone, true, false, option_map};
ghost use Rattle.std.specs.List.{AllByRecursion};
ghost use Rattle.lnfs_world.specs.declared.numbers.TheConstants.{LAST_NUMBER};
ghost use Rattle.lnfs_world.specs.World.{Node, World, same_id, is_given};
ghost use Rattle.lnfs_world.specs.Outcome.{Place, Outcome};
ghost use Rattle.lnfs_operations.specs.declared.Gate.TheVariants.{Open};
ghost use Rattle.lnfs_operations.specs.Chain.{Answer};
ghost use Rattle.lnfs_operations.specs.Handles.{handle_named};
ghost use Rattle.lnfs_operations.specs.Extra.{place_at};
ghost use Rattle.lnfs_tree.specs.Rows.{id_of};
ghost use Rattle.lnfs_open.specs.Opening.{open_named};
ghost use Rattle.lnfs_open.specs.Listed.{client_id, node_id, row_of};
ghost use Rattle.lnfs_nodes.specs.Acts.{checked};
ghost use Rattle.lnfs_engine.specs.Further.{spot_of};
ghost use Rattle.lnfs_locks.specs.StateIds.{told_id};
ghost use Rattle.lnfs_locks.specs.Effects.{Came};
ghost use Rattle.lnfs_locks.specs.Facts.{LockFacts};
ghost use Rattle.lnfs_locking.specs.Keys as keys;
ghost use Rattle.lnfs_byte_locks.specs.Naming.{where_state, Tells, Names};

use lnfs_arguments::StateId;
use lnfs_arguments::statuses::{NFS4ERR_BAD_STATEID, NFS4ERR_OLD_STATEID};
use lnfs_calipso::Level;
use lnfs_engine::{Spot, Store};
use lnfs_files::node_key;
use lnfs_locking::{Key, LockRow, Locks};
use lnfs_monitor::Rule;
use lnfs_open::{ClientKey, NodeKey, OpenRef, OpenRow, Opens};
use lnfs_operations::{Gate, Refusal};
use lnfs_tree::NodeId;

/// What is added to the number of a lock in its state id: the numbers of opens are below.
pub const NUMBERS_OF_OPENS: u64 = 4_294_967_296;

/// A lock that is there.
#[derive(Clone, Copy)]
pub struct Told<'a> {
    pub id: Key,
    pub row: &'a LockRow,
}

/// A lock that is there, and its open.
#[derive(Clone, Copy)]
pub struct Named<'a> {
    pub id: Key,
    pub row: &'a LockRow,
    pub opening: &'a OpenRow,
}

/// A state id that names no lock in its present state, with a status that says why.
fn refused(status: u32) -> Refusal
    ensures { result ≡ record { gate = Open; status = status } }
{
    Refusal {
        gate: Gate::Open,
        status,
    }
}

/// The level in which a state id was given, and the number that it tells.
fn parts_of(id: &StateId) -> (Level, u64)
    ensures level { result.0.0 ≡ (handle_named id.now.other).level }
    ensures number { result.1 ≡ (handle_named id.now.other).number }
{
    let bytes = &id.other;
    let level = u32::from_be_bytes([bytes[0], bytes[1], bytes[2], bytes[3]]);
    let number = u64::from_be_bytes([
        bytes[4], bytes[5], bytes[6], bytes[7], bytes[8], bytes[9], bytes[10], bytes[11],
    ]);
    (Level(level), number)
}

/// The identifier of the lock of a level that tells a number: None where the level has given none such.
fn key_of(locks: &Locks, level: Level, told: u64) -> Option<Key>
    ensures some { IfSome result (λ key. told_id (keys.id_of key) ≡ record { level = level.0; number = told }) }
    ensures number { IfSome result (λ key. key.number ≤ LAST_NUMBER) }
    ensures none { IfNone result (
        AllByRecursion (λ l. is_given locks.now.lasts l.id ≡ true) locks.now.locks →
        AllByRecursion (λ l. same_id (record { level = level.0; number = told }) (told_id l.id) ≡ false) locks.now.locks) }
{
    if told < NUMBERS_OF_OPENS {
        return None;
    }
    let number = told - NUMBERS_OF_OPENS;
    if number > u64::from(locks.last(level.0)) {
        return None;
    }
    Some(Key {
        level: level.0,
        number: number as u32,
    })
}

/// The lock of the subject's level that a state id names, in whatever state.
///
/// # Errors
///
/// NFS4ERR_BAD_STATEID where it was given in another level, and where there is no lock of its number, the client and the node.
fn lock_told<'a>(
    locks: &'a Locks,
    at: &Spot<'_>,
    node: NodeId,
    id: &StateId,
) -> Result<Told<'a>, Refusal>
    ensures { (w : World) (n : Node) → LockFacts w locks.now → id_of node ≡ n.id →
        Tells locks.now (place_at (spot_of at.now)) n id.now result }
{
    let (level, number) = parts_of(id);
    if level != at.subject {
        return Err(Refusal {
            gate: Gate::Monitor(Rule::M9),
            status: NFS4ERR_BAD_STATEID,
        });
    }
    let Some(client) = at.client else {
        return Err(refused(NFS4ERR_BAD_STATEID));
    };
    let Some(id) = key_of(locks, level, number) else {
        return Err(refused(NFS4ERR_BAD_STATEID));
    };
    match locks.named(client, node_key(node), id) {
        Some(row) => Ok(Told { id, row }),
        None => Err(refused(NFS4ERR_BAD_STATEID)),
    }
}

/// The open of a number that is of a client and a node, in whatever state.
fn open_of(opens: &Opens, client: ClientKey, node: NodeKey, number: u32) -> Option<&OpenRow>
    ensures { option_map (λ row. row_of (record { level = client.level.0; number = number }) row.now) result
        ≡ open_named opens.now.opens (client_id client) (node_id node)
        (record { level = client.level.0; number = number }) }
{
    let any_state = OpenRef {
        level: client.level,
        number,
        seq: 0,
    };
    opens.find(client, node, any_state).ok()
}

/// What refuses a lock of a sequence by a state id of another one (RFC 8881 section 8.2.2). The sequence 0 stands for any.
///
/// # Errors
///
/// NFS4ERR_BAD_STATEID of a sequence that wasn't given yet, NFS4ERR_OLD_STATEID of one of an earlier state.
fn check_state(id: &StateId, seq: u32) -> Result<(), Refusal>
    ensures { (p : Place) (next : Outcome (Answer Came)) →
        where_state p id.now seq next ≡ checked p result (λ it. next) }
{
    if seq < id.seqid {
        return Err(refused(NFS4ERR_BAD_STATEID));
    }
    if id.seqid != 0 && id.seqid != seq {
        return Err(refused(NFS4ERR_OLD_STATEID));
    }
    Ok(())
}

/// The lock that a state id names, of the client under which the operation came and of a node, and its open.
///
/// # Errors
///
/// In this order: NFS4ERR_BAD_STATEID where it was given in another level than the subject's, where there is no lock of its
/// number, the client and the node whose open is there, and of a sequence that wasn't given yet; NFS4ERR_OLD_STATEID of one of an
/// earlier state.
pub fn lock_named<'a>(
    store: &'a Store,
    locks: &'a Locks,
    at: &Spot<'_>,
    node: NodeId,
    id: &StateId,
) -> Result<Named<'a>, Refusal>
    requires facts { LockFacts store.now locks.now }
    ensures { (n : Node) → id_of node ≡ n.id →
        Names locks.now (place_at (spot_of at.now)) store.now n id.now result }
{
    let told = lock_told(locks, at, node, id)?;
    let client = ClientKey {
        level: Level(told.id.level),
        number: told.row.client.number,
    };
    let Some(opening) = open_of(store.opens(), client, told.row.node, told.row.opening) else {
        return Err(refused(NFS4ERR_BAD_STATEID));
    };
    check_state(id, told.row.seq)?;
    Ok(Named {
        id: told.id,
        row: told.row,
        opening,
    })
}
