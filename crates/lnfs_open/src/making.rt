//! Opens are made of rows.
ghost use Rattle.std.specs.Prelude.{◌≡◌, ◌+◌, ◌≤◌, ◌==◌, ℕ, [], cond, map, IfOk, OnOk};
ghost use Rattle.lnfs_world.specs.Rows.{inserted};
ghost use Rattle.lnfs_world.specs.World.{last_of, open_order};
ghost use Rattle.lnfs_world.specs.declared.numbers.TheConstants.{LAST_NUMBER};
ghost use Rattle.lnfs_rows.specs.Lasts.{given_of};
ghost use Rattle.lnfs_rows.specs.Told.{open_of};
ghost use Rattle.lnfs_counts.specs.Counters.{last_at, count_at, lasts_of};
ghost use Rattle.lnfs_open.specs.Listed.{id_of, row_of, open_of as open_in};
ghost use Rattle.lnfs_open.specs.Kept.{IsKept};
ghost use Rattle.lnfs_open.specs.Makes.{MakesOpens, CanCome};

use crate::changing::place_row;
use crate::finder::{Filing, Finder};
use crate::keys::{ClientKey, Key, NodeKey, OpenRow};
use crate::opens::Opens;
use crate::tallies::{Layer, Tallies};
use lnfs_calipso::Level;
use lnfs_counts::{Counter, count_given, counters_of};
use lnfs_rows::OpenRow as Row;
use lnfs_types::Octets;
use std::alloc::{AllocError, Global};
use std::collections::BTreeMap;

/// What opens are kept in, while they are made.
#[derive(Drop)]
struct Parts {
    rows: BTreeMap<Key, OpenRow>,
    counters: BTreeMap<u32, Counter>,
    finder: Finder,
    tallies: Tallies,
}

/// The key of a row's open.
fn key_of(row: &Row<'_>) -> Key
    requires { row.now.id.number ≤ LAST_NUMBER }
    ensures { id_of result ≡ (open_of row.now).id }
{
    Key {
        level: row.id.level,
        number: row.id.number as u32,
    }
}

/// The open of a row. Its client is of its own level.
fn open_of_row(alloc: Global, row: &Row<'_>) -> Result<OpenRow, AllocError>
    requires client { row.now.client ≤ LAST_NUMBER }
    requires node { row.now.node.number ≤ LAST_NUMBER }
    ensures row { IfOk result (λ made. row_of (open_of row.now).id made ≡ open_of row.now) }
    ensures level { IfOk result (λ made. made.client.level.0 ≡ row.now.id.level) }
{
    Ok(OpenRow {
        client: ClientKey {
            level: Level(row.id.level),
            number: row.client as u32,
        },
        owner: Octets::from_slice(alloc, row.owner)?,
        node: NodeKey {
            level: Level(row.node.level),
            number: row.node.number as u32,
        },
        access: row.access,
        deny: row.deny,
        seq: row.sequence,
    })
}

impl Parts {
    /// No open. The counters tell of the last number of each level, and of no row.
    fn new(alloc: Global, counters: BTreeMap<u32, Counter>) -> Parts
        requires last { (level : ℕ) → last_at counters level
            ≡ last_of level (lasts_of counters.entries) }
        requires none { (level : ℕ) → count_at counters level ≡ 0 }
        ensures kept { IsKept result.rows.entries result.counters result.finder result.tallies }
        ensures none { result.rows.entries ≡ [] }
        ensures counters { result.counters ≡ counters }
    {
        Parts {
            rows: BTreeMap::new(alloc),
            counters,
            finder: Finder::new(alloc),
            tallies: Tallies::new(alloc),
        }
    }

    /// Enters the open of a row. Where memory is wanting, the parts are of no more use.
    fn enter(&mut self, alloc: Global, row: &Row<'_>) -> Result<(), AllocError>
        requires kept { IsKept self.old.rows.entries self.old.counters self.old.finder
            self.old.tallies }
        requires come { CanCome (map open_in self.old.rows.entries) self.old.counters
            (open_of row.now) }
        ensures kept { OnOk result (IsKept self.new.rows.entries self.new.counters self.new.finder
            self.new.tallies) }
        ensures added { OnOk result (map open_in self.new.rows.entries
            ≡ inserted open_order (open_of row.now) (map open_in self.old.rows.entries)) }
        ensures lasts { OnOk result (lasts_of self.new.counters.entries
            ≡ lasts_of self.old.counters.entries) }
        ensures last { OnOk result ((l : ℕ) →
            last_at self.new.counters l ≡ last_at self.old.counters l) }
        ensures count { OnOk result ((l : ℕ) → count_at self.new.counters l
            ≡ cond (row.now.id.level == l) (count_at self.old.counters row.now.id.level + 1)
            (count_at self.old.counters l)) }
    {
        let id = key_of(row);
        let open = open_of_row(alloc, row)?;
        let filing = Filing {
            id,
            client: open.client.key(),
            node: open.node.key(),
            owner: row.owner,
        };
        let layer = Layer {
            node: filing.node,
            level: id.level,
        };
        let uses = open.uses();
        self.finder.enter(alloc, &filing)?;
        place_row(&mut self.rows, &mut self.tallies, layer, id, open)?;
        count_given(&mut self.counters, id.level);
        self.tallies.count(layer, uses);
        Ok(())
    }
}

impl Opens {
    /// The opens of just these rows, and the last number of each level, from level 0 on.
    ///
    /// # Errors
    ///
    /// `AllocError` where there is no memory.
    pub fn from_rows(alloc: Global, rows: &[Row<'_>], lasts: &[u64]) -> Result<Opens, AllocError>
        requires makes { MakesOpens (map open_of rows.now) (given_of lasts.now) }
        ensures { IfOk result (λ opens. opens ≡ record
            { opens = map open_of rows.now; lasts = given_of lasts.now }) }
    {
        let mut parts = Parts::new(alloc, counters_of(alloc, lasts)?);
        for row in rows {
            parts.enter(alloc, row)?;
        }
        let Parts {
            rows,
            counters,
            finder,
            tallies,
        } = parts;
        Ok(Opens {
            alloc,
            rows,
            counters,
            finder,
            tallies,
        })
    }
}
