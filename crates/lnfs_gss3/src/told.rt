//! Contexts as rows, and contexts made of rows.
ghost use Rattle.std.specs.Prelude.{◌≡◌, ◌+◌, ◌<◌, ◌^◌, ◌==◌, ℕ, cond, map, IfOk, OnOk};
ghost use Rattle.lnfs_world.specs.Rows.{inserted};
ghost use Rattle.lnfs_world.specs.World.{context_order};
ghost use Rattle.lnfs_world.specs.declared.numbers.TheConstants.{LAST_NUMBER};
ghost use Rattle.lnfs_rows.specs.Lasts.{given_of, each_of};
ghost use Rattle.lnfs_rows.specs.Told.{context_of};
ghost use Rattle.lnfs_counts.specs.Counters.{last_at, count_at, lasts_of};
ghost use Rattle.lnfs_gss3.specs.Listed.{context_of as context_at};
ghost use Rattle.lnfs_gss3.specs.Makes.{MakesContexts};

use crate::contexts::Contexts;
use crate::rows::{Key, add_row};
use lnfs_counts::{Counter, count_given, counters_of};
use lnfs_rows::{ContextRow, Id};
use std::alloc::{AllocError, Global};
use std::collections::BTreeMap;

/// A row of each context.
fn rows_of(alloc: Global, contexts: &BTreeMap<Key, u32>) -> Result<Vec<ContextRow>, AllocError>
    ensures { IfOk result (λ rows. map context_of rows.items
        ≡ map context_at contexts.now.entries) }
{
    let mut rows = Vec::new(alloc);
    for (id, parent) in contexts {
        rows.push(ContextRow {
            id: Id {
                level: id.level,
                number: id.number,
            },
            parent: u64::from(*parent),
        })?;
    }
    Ok(rows)
}

/// Adds the context of a row, and counts it under its number, which was given before.
fn enter_row(
    contexts: &mut BTreeMap<Key, u32>,
    counters: &mut BTreeMap<u32, Counter>,
    row: ContextRow,
) -> Result<(), AllocError>
    requires parent { row.parent < 2 ^ 32 }
    requires given { 0 < last_at counters.old row.id.level }
    requires few { count_at counters.old row.id.level < LAST_NUMBER }
    ensures added { OnOk result (map context_at contexts.new.entries
        ≡ inserted context_order (context_of row) (map context_at contexts.old.entries)) }
    ensures lasts { OnOk result (lasts_of counters.new.entries ≡ lasts_of counters.old.entries) }
    ensures last { OnOk result ((l : ℕ) → last_at counters.new l ≡ last_at counters.old l) }
    ensures count { OnOk result ((l : ℕ) → count_at counters.new l
        ≡ cond (row.id.level == l) (count_at counters.old row.id.level + 1)
        (count_at counters.old l)) }
{
    let id = Key {
        level: row.id.level,
        number: row.id.number,
    };
    add_row(contexts, id, row.parent as u32)?;
    count_given(counters, id.level);
    Ok(())
}

impl Contexts {
    /// A row of each context, in the order of their identifiers.
    ///
    /// # Errors
    ///
    /// `AllocError` where there is no memory.
    pub fn rows(&self, alloc: Global) -> Result<Vec<ContextRow>, AllocError>
        ensures { IfOk result (λ rows. map context_of rows.items ≡ self.now.contexts) }
    {
        rows_of(alloc, &self.rows)
    }

    /// The last number of each of so many levels, from level 0 on, 0 where a level gave none.
    ///
    /// # Errors
    ///
    /// `AllocError` where there is no memory.
    pub fn last_numbers(&self, alloc: Global, levels: u32) -> Result<Vec<u64>, AllocError>
        ensures { IfOk result (λ ns. ns.items ≡ each_of levels self.now.lasts) }
    {
        lnfs_counts::last_numbers(alloc, &self.counters, levels)
    }

    /// The contexts of just these rows, and the last number of each level, from level 0 on.
    ///
    /// # Errors
    ///
    /// `AllocError` where there is no memory.
    pub fn from_rows(
        alloc: Global,
        rows: &[ContextRow],
        lasts: &[u64],
    ) -> Result<Contexts, AllocError>
        requires makes { MakesContexts (map context_of rows.now) (given_of lasts.now) }
        ensures { IfOk result (λ contexts. contexts ≡ record
            { contexts = map context_of rows.now; lasts = given_of lasts.now }) }
    {
        let mut contexts = BTreeMap::new(alloc);
        let mut counters = counters_of(alloc, lasts)?;
        for row in rows {
            enter_row(&mut contexts, &mut counters, *row)?;
        }
        Ok(Contexts {
            rows: contexts,
            counters,
        })
    }
}
