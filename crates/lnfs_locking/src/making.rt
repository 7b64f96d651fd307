//! Locks are made of rows.
ghost use Rattle.std.specs.Prelude.{◌≡◌, map, IfOk};
ghost use Rattle.lnfs_lock_rows.specs.Told.{lock_of as lock_told, locks_told};
ghost use Rattle.lnfs_locking.specs.Keys.{id_of};
ghost use Rattle.lnfs_locking.specs.Rows.{lock_of, entry_of};
ghost use Rattle.lnfs_locking.specs.Indexed.{AreIndexed};
ghost use Rattle.lnfs_locking.specs.Makes.{IsStorable, MakesRows, MakesLocks};

use crate::entering::enter;
use crate::groups::Groups;
use crate::keys::{Key, LockRow};
use crate::locks::Locks;
use lnfs_calipso::Level;
use lnfs_counts::counters_of;
use lnfs_lock_rows::{LockRow as Row, LockRows};
use lnfs_open::{ClientKey, NodeKey};
use lnfs_ranges::RangeList;
use lnfs_types::Octets;
use std::alloc::{AllocError, Global};
use std::collections::BTreeMap;

/// What locks are kept in, while they are made.
#[derive(Drop)]
struct Parts {
    rows: BTreeMap<Key, LockRow>,
    nodes: Groups,
}

/// The key of a row's lock.
fn key_of(row: &Row<'_>) -> Key
    requires { IsStorable (lock_told row.now) }
    ensures { id_of result ≡ (lock_told row.now).id }
{
    Key {
        level: row.id.level,
        number: row.id.number as u32,
    }
}

/// The lock of a row. Its client is of its own level.
fn lock_of_row(alloc: Global, row: &Row<'_>) -> Result<LockRow, AllocError>
    requires { IsStorable (lock_told row.now) }
    ensures row { IfOk result (λ made. lock_of (lock_told row.now).id made ≡ lock_told row.now) }
    ensures level { IfOk result (λ made. made.client.level.0 ≡ row.now.id.level) }
{
    Ok(LockRow {
        client: ClientKey {
            level: Level(row.id.level),
            number: row.client as u32,
        },
        opening: row.opening as u32,
        owner: Octets::from_slice(alloc, row.owner)?,
        node: NodeKey {
            level: Level(row.node.level),
            number: row.node.number as u32,
        },
        seq: row.sequence,
        ranges: RangeList::from_runs(alloc, &row.ranges)?,
    })
}

/// The parts of just these rows.
fn parts_of(alloc: Global, rows: &[Row<'_>]) -> Result<Parts, AllocError>
    requires makes { MakesRows (map lock_told rows.now) }
    ensures rows { IfOk result (λ parts. map entry_of parts.rows.entries ≡ map lock_told rows.now) }
    ensures indexed { IfOk result (λ parts. AreIndexed parts.rows.entries parts.nodes) }
{
    let mut parts = Parts {
        rows: BTreeMap::new(alloc),
        nodes: Groups::new(alloc),
    };
    for row in rows {
        let lock = lock_of_row(alloc, row)?;
        enter(&mut parts.rows, &mut parts.nodes, key_of(row), lock)?;
    }
    Ok(parts)
}

impl Locks {
    /// The locks of just these rows, and the last number of each level.
    ///
    /// # Errors
    ///
    /// `AllocError` where there is no memory.
    pub fn from_rows(alloc: Global, rows: &LockRows<'_>) -> Result<Locks, AllocError>
        requires makes { MakesLocks (locks_told rows.now) }
        ensures { IfOk result (λ locks. locks ≡ locks_told rows.now) }
    {
        let counters = counters_of(alloc, &rows.lasts)?;
        let Parts { rows, nodes } = parts_of(alloc, &rows.locks)?;
        Ok(Locks {
            alloc,
            rows,
            counters,
            nodes,
        })
    }
}
