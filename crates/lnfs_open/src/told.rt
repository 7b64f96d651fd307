//! Opens as rows.
ghost use Rattle.std.specs.Prelude.{◌≡◌, map, IfOk};
ghost use Rattle.lnfs_rows.specs.Lasts.{each_of};
ghost use Rattle.lnfs_rows.specs.Told.{open_of};
ghost use Rattle.lnfs_open.specs.Listed.{id_of, row_of, open_of as open_in};

use crate::keys::{Key, OpenRow};
use crate::opens::Opens;
use lnfs_rows::{Id, OpenRow as Row};
use std::alloc::{AllocError, Global};
use std::collections::BTreeMap;

/// An open as a row, which lends the name of the owner.
fn row_of(id: Key, row: &OpenRow) -> Row<'_>
    ensures { open_of result ≡ row_of (id_of id) row.now }
{
    Row {
        id: Id {
            level: id.level,
            number: u64::from(id.number),
        },
        client: u64::from(row.client.number),
        owner: row.owner.as_slice(),
        node: Id {
            level: row.node.level.0,
            number: u64::from(row.node.number),
        },
        access: row.access,
        deny: row.deny,
        sequence: row.seq,
    }
}

/// A row of each open.
fn rows_of(alloc: Global, opens: &BTreeMap<Key, OpenRow>) -> Result<Vec<Row<'_>>, AllocError>
    ensures { IfOk result (λ rows. map open_of rows.items ≡ map open_in opens.now.entries) }
{
    let mut rows = Vec::new(alloc);
    for (id, row) in opens {
        rows.push(row_of(*id, row))?;
    }
    Ok(rows)
}

impl Opens {
    /// A row of each open, in the order of their identifiers.
    ///
    /// # Errors
    ///
    /// `AllocError` where there is no memory.
    pub fn rows(&self) -> Result<Vec<Row<'_>>, AllocError>
        ensures { IfOk result (λ rows. map open_of rows.items ≡ self.now.opens) }
    {
        rows_of(self.alloc, &self.rows)
    }

    /// The last number of each of so many levels, from level 0 on, 0 where a level gave none.
    ///
    /// # Errors
    ///
    /// `AllocError` where there is no memory.
    pub fn last_numbers(&self, levels: u32) -> Result<Vec<u64>, AllocError>
        ensures { IfOk result (λ ns. ns.items ≡ each_of levels self.now.lasts) }
    {
        lnfs_counts::last_numbers(self.alloc, &self.counters, levels)
    }
}
